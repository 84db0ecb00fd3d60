//! The parts of what `cargo metadata` writes.
ghost use Rattle.std.specs.Prelude.{◌≡◌, ◌∷◌, [], IfOk, map};
ghost use Rattle.filterset_sources.specs.Metadata.{IsOfKinds};

use filterset_graph::{BuildTarget, BuildTargetId, PackageId, PackageMetadata};
use filterset_json::{Entry, EntryRefusal, required};
use serde_json::Value;
use std::alloc::{AllocError, Global};

/// What a build target is, by its kinds.
#[derive(Drop)]
struct TargetKind(BuildTargetId);

/// Returns what a target of this one kind is. Libraries have many kinds, so each unknown kind is one of theirs.
fn target_of(kind: &str) -> BuildTargetId
    ensures { IsOfKinds (kind.now ∷ []) result }
{
    match kind {
        "custom-build" => BuildTargetId::BuildScript,
        "bin" => BuildTargetId::Binary,
        "example" => BuildTargetId::Example,
        "test" => BuildTargetId::Test,
        "bench" => BuildTargetId::Benchmark,
        _ => BuildTargetId::Library,
    }
}

/// Only libraries have several kinds.
impl Entry for TargetKind {
    ghost use Rattle.filterset_graph.specs.declared.package.BuildTargetId.{BuildTargetId};
    ghost use Rattle.filterset_sources.specs.Metadata.{IsTargetKind, WrongKind};

    ghost Row = { BuildTargetId };

    ghost row_of = { λ kind. kind.0 };

    ghost stands_for = { IsTargetKind };

    ghost is_wrong = { WrongKind };

    const EXPECTED: &'static str = "a list of at least one text";

    fn read(alloc: Global, value: &Value) -> Result<TargetKind, EntryRefusal> {
        let kinds: Vec<String> = Entry::read(alloc, value)?;
        match kinds.as_slice() {
            [] => Err(EntryRefusal::wrong(alloc, Self::EXPECTED)),
            [kind] => Ok(TargetKind(target_of(kind.as_str()))),
            _ => Ok(TargetKind(BuildTargetId::Library)),
        }
    }
}

/// A build target.
#[derive(Drop)]
struct TargetEntry(BuildTarget);

impl Entry for TargetEntry {
    ghost use Rattle.filterset_graph.specs.declared.package.BuildTarget.{BuildTarget};
    ghost use Rattle.filterset_sources.specs.Metadata.{IsTarget, WrongTarget};

    ghost Row = { BuildTarget };

    ghost row_of = { λ target. target.0 };

    ghost stands_for = { IsTarget };

    ghost is_wrong = { WrongTarget };

    const EXPECTED: &'static str = "an object";

    fn read(alloc: Global, value: &Value) -> Result<TargetEntry, EntryRefusal> {
        Ok(TargetEntry(BuildTarget {
            id: required::<TargetKind>(alloc, value, "kind")?.0,
            name: required(alloc, value, "name")?,
        }))
    }
}

/// Returns the build targets that were read.
fn targets_of(alloc: Global, entries: Vec<TargetEntry>) -> Result<Vec<BuildTarget>, AllocError>
    ensures { IfOk result (λ targets. targets.items ≡ map (λ entry. entry.0) entries.items) }
{
    entries.into_iter().map(|entry| entry.0).collect(alloc)
}

/// A package by itself: without links, and outside the workspace.
#[derive(Drop)]
struct PackageEntry(PackageMetadata);

impl Entry for PackageEntry {
    ghost use Rattle.filterset_graph.specs.declared.package.PackageMetadata.{PackageMetadata};
    ghost use Rattle.filterset_sources.specs.Metadata.{IsPackage, WrongPackage};

    ghost Row = { PackageMetadata };

    ghost row_of = { λ p. p.0 };

    ghost stands_for = { IsPackage };

    ghost is_wrong = { WrongPackage };

    const EXPECTED: &'static str = "an object";

    fn read(alloc: Global, value: &Value) -> Result<PackageEntry, EntryRefusal> {
        Ok(PackageEntry(PackageMetadata {
            id: required(alloc, value, "id")?,
            name: required(alloc, value, "name")?,
            in_workspace: false,
            build_targets: targets_of(alloc, required(alloc, value, "targets")?)?,
            links: Vec::new(alloc),
        }))
    }
}

/// Returns the packages that were read.
fn packages_of(
    alloc: Global,
    entries: Vec<PackageEntry>,
) -> Result<Vec<PackageMetadata>, AllocError>
    ensures { IfOk result (λ packages. packages.items ≡ map (λ entry. entry.0) entries.items) }
{
    entries.into_iter().map(|entry| entry.0).collect(alloc)
}

/// A dependency of a node.
#[derive(Drop)]
pub struct Dependency {
    pub package: PackageId,
}

impl Entry for Dependency {
    ghost use Rattle.std.specs.Prelude.{◌∷◌, [], codes};
    ghost use Rattle.filterset_json.specs.Places.{First, keyed_text};
    ghost use Rattle.filterset_sources.specs.Metadata.{IsDependency};
    ghost use Rattle.filterset_sources.specs.declared.metadata.parts.Dependency as dependencies;

    ghost Row = { dependencies.Dependency };

    ghost row_of = { λ dependency. dependency };

    ghost stands_for = { IsDependency };

    ghost is_wrong = { λ d. First (keyed_text (codes "pkg") d ∷ []) };

    const EXPECTED: &'static str = "an object";

    fn read(alloc: Global, value: &Value) -> Result<Dependency, EntryRefusal> {
        Ok(Dependency {
            package: required(alloc, value, "pkg")?,
        })
    }
}

/// A package in the graph of dependencies.
#[derive(Drop)]
pub struct Node {
    pub id: PackageId,
    pub dependencies: Vec<Dependency>,
}

impl Entry for Node {
    ghost use Rattle.filterset_sources.specs.Metadata.{IsNode, WrongNode};
    ghost use Rattle.filterset_sources.specs.declared.metadata.parts.Node as nodes;

    ghost Row = { nodes.Node };

    ghost row_of = { λ node. node };

    ghost stands_for = { IsNode };

    ghost is_wrong = { WrongNode };

    const EXPECTED: &'static str = "an object";

    #[tactic(auto, using(filterset_json::proofs::ShapeLemmas::required_items))]
    fn read(alloc: Global, value: &Value) -> Result<Node, EntryRefusal> {
        Ok(Node {
            id: required(alloc, value, "id")?,
            dependencies: required(alloc, value, "deps")?,
        })
    }
}

/// The graph of dependencies. It is null if cargo was called with `--no-deps`.
#[derive(Drop)]
pub struct Resolve {
    pub nodes: Vec<Node>,
}

impl Entry for Resolve {
    ghost use Rattle.filterset_sources.specs.Metadata.{IsResolve, WrongResolve};
    ghost use Rattle.filterset_sources.specs.declared.metadata.parts.Resolve as resolves;

    ghost Row = { resolves.Resolve };

    ghost row_of = { λ resolve. resolve };

    ghost stands_for = { IsResolve };

    ghost is_wrong = { WrongResolve };

    const EXPECTED: &'static str = "an object: `cargo metadata` writes it without `--no-deps`";

    #[tactic(auto, using(filterset_json::proofs::ShapeLemmas::required_items))]
    fn read(alloc: Global, value: &Value) -> Result<Resolve, EntryRefusal> {
        if value.is_null() {
            return Err(EntryRefusal::wrong(alloc, Self::EXPECTED));
        }
        Ok(Resolve {
            nodes: required(alloc, value, "nodes")?,
        })
    }
}

/// The parts of the file.
#[derive(Drop)]
pub struct Parts {
    pub packages: Vec<PackageMetadata>,
    /// The packages of the workspace.
    pub members: Vec<PackageId>,
    pub resolve: Resolve,
}

impl Entry for Parts {
    ghost use Rattle.filterset_sources.specs.Metadata.{IsParts, WrongParts};
    ghost use Rattle.filterset_sources.specs.declared.metadata.parts.Parts as parts;

    ghost Row = { parts.Parts };

    ghost row_of = { λ parts. parts };

    ghost stands_for = { IsParts };

    ghost is_wrong = { WrongParts };

    const EXPECTED: &'static str = "an object";

    #[tactic(auto, using(filterset_json::proofs::ShapeLemmas::required_items))]
    fn read(alloc: Global, value: &Value) -> Result<Parts, EntryRefusal> {
        Ok(Parts {
            packages: packages_of(alloc, required(alloc, value, "packages")?)?,
            members: required(alloc, value, "workspace_members")?,
            resolve: required(alloc, value, "resolve")?,
        })
    }
}
