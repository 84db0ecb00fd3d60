//! Reads the packages of a record.
ghost use Rattle.std.specs.Prelude.{◌≡◌, IfOk, map};

use filterset_graph::{BuildTarget, BuildTargetId, PackageMetadata};
use filterset_json::{Entry, EntryRefusal, check_keys, optional, required, text_of};
use serde_json::Value;
use std::alloc::{AllocError, Global};

/// What a build target is.
#[derive(Drop)]
struct TargetKind(BuildTargetId);

impl Entry for TargetKind {
    ghost use Rattle.filterset_graph.specs.declared.package.BuildTargetId.{BuildTargetId};
    ghost use Rattle.filterset_record.specs.Record.{IsTargetKind};

    ghost Row = { BuildTargetId };

    ghost row_of = { λ kind. kind.0 };

    ghost stands_for = { IsTargetKind };

    const EXPECTED: &'static str = "`lib`, `bin`, `example`, `test`, `bench` or `build`";

    fn read(alloc: Global, value: &Value) -> Result<TargetKind, EntryRefusal> {
        let id = match text_of(alloc, value)? {
            "lib" => BuildTargetId::Library,
            "bin" => BuildTargetId::Binary,
            "example" => BuildTargetId::Example,
            "test" => BuildTargetId::Test,
            "bench" => BuildTargetId::Benchmark,
            "build" => BuildTargetId::BuildScript,
            _ => return Err(EntryRefusal::wrong(alloc, Self::EXPECTED)),
        };
        Ok(TargetKind(id))
    }
}

/// A build target.
#[derive(Drop)]
struct TargetEntry(BuildTarget);

impl Entry for TargetEntry {
    ghost use Rattle.filterset_graph.specs.declared.package.BuildTarget.{BuildTarget};
    ghost use Rattle.filterset_record.specs.Record.{IsTarget};

    ghost Row = { BuildTarget };

    ghost row_of = { λ target. target.0 };

    ghost stands_for = { IsTarget };

    const EXPECTED: &'static str = "an object";

    fn read(alloc: Global, value: &Value) -> Result<TargetEntry, EntryRefusal> {
        check_keys(alloc, value, &["kind", "name"])?;
        Ok(TargetEntry(BuildTarget {
            id: required::<TargetKind>(alloc, value, "kind")?.0,
            name: required(alloc, value, "name")?,
        }))
    }
}

/// Returns the build targets that were read.
fn targets_of(alloc: Global, entries: Vec<TargetEntry>) -> Result<Vec<BuildTarget>, AllocError>
    ensures { IfOk result (λ targets. targets.items ≡ map (λ entry. entry.0) entries.items) }
{
    entries.into_iter().map(|entry| entry.0).collect(alloc)
}

/// A package.
#[derive(Drop)]
pub struct PackageEntry(PackageMetadata);

impl Entry for PackageEntry {
    ghost use Rattle.filterset_graph.specs.declared.package.PackageMetadata.{PackageMetadata};
    ghost use Rattle.filterset_record.specs.Record.{IsPackage};

    ghost Row = { PackageMetadata };

    ghost row_of = { λ p. p.0 };

    ghost stands_for = { IsPackage };

    const EXPECTED: &'static str = "an object";

    #[tactic(auto, using(filterset_json::proofs::ShapeLemmas::optional_items))]
    fn read(alloc: Global, value: &Value) -> Result<PackageEntry, EntryRefusal> {
        check_keys(
            alloc,
            value,
            &["id", "name", "workspace", "targets", "links"],
        )?;
        let targets = optional(alloc, value, "targets", Vec::new(alloc))?;
        Ok(PackageEntry(PackageMetadata {
            id: required(alloc, value, "id")?,
            name: required(alloc, value, "name")?,
            in_workspace: optional(alloc, value, "workspace", true)?,
            build_targets: targets_of(alloc, targets)?,
            links: optional(alloc, value, "links", Vec::new(alloc))?,
        }))
    }
}

/// Returns the packages that were read.
pub fn packages_of(
    alloc: Global,
    entries: Vec<PackageEntry>,
) -> Result<Vec<PackageMetadata>, AllocError>
    ensures { IfOk result (λ packages. packages.items ≡ map (λ entry. entry.0) entries.items) }
{
    entries.into_iter().map(|entry| entry.0).collect(alloc)
}
