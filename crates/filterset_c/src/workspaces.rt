//! Makes workspaces, and changes them.
ghost use Rattle.std.specs.Prelude.{◌≡◌, ◌≢◌, ◌⊎◌, All, Err, None, Some, IfErr, IfNone, IfOk, IfSome, OnOk, map, string_bytes};
ghost use Rattle.std.specs.Str.{IsUtf8};
ghost use Rattle.serde_json.specs.{Read.read, View.view};
ghost use Rattle.filterset_faults.specs.declared.kind.FiltersetKind.TheVariants as kinds;
ghost use Rattle.filterset_record.specs.{Record.IsRecord, Record.RecordRow, Rows.record_row};
ghost use Rattle.filterset_sources.specs.Metadata.{IsMetadata};
ghost use Rattle.nextest_filtering.specs.Groups.{AreGroups, IsKnown};
ghost use Rattle.filterset_c.specs.{Parsing.IsRefused, Queries.IsText, Statuses.IsSourceFailure};
ghost use Rattle.filterset_c.specs.Workspaces.{Changes, HasDepth, HasFilter, HasGroups, HoldsWorkspace, IsFault, IsNoGraph, IsNoGraphOf, IsNoMetadata, IsNoRecord, IsNoWorkspace, IsOfMetadata, IsOfRecord, IsWorkspace};
ghost use Rattle.filterset_c.specs.declared.failure.Failure.TheVariants as failures;

use crate::failure::Failure;
use crate::object::{Object, Refusal, Workspace};
use crate::parsing::parse_within;
use crate::queries::{Text, are_utf8, text_of};
use filterset_json::{Entry, EntryRefusal};
use filterset_record::Record;
use filterset_sources::{SourceRefusal, read_json, read_metadata};
use nextest_filtering::{FiltersetKind, GraphRefusal, KnownGroups, PackageGraph, PackageMetadata};
use serde_json::Value;
use std::alloc::Global;

/// The limit of levels of a workspace that is not told otherwise.
const USUAL_DEPTH: usize = 256;

/// Returns why bytes describe no workspace.
fn failure_of(refusal: &SourceRefusal) -> Failure
    ensures failure { (result ≡ failures.Rejected) ⊎ (result ≡ failures.OutOfMemory) }
    ensures fault { result ≡ failures.Rejected → IsFault refusal.now }
{
    match refusal {
        SourceRefusal::OutOfMemory(_) => Failure::OutOfMemory,
        SourceRefusal::NotJson(_) | SourceRefusal::NotToml { .. } | SourceRefusal::WrongValue(_) =>
            { Failure::Rejected }
    }
}

/// Parses a text as JSON.
fn json_of(alloc: Global, text: &str) -> Result<Value, Failure>
    ensures value { IfOk result (λ value. read text.now ≡ Some (view value)) }
    ensures failed { IfErr result IsSourceFailure }
    ensures rejected { IfErr result (λ failure. failure ≡ failures.Rejected → read text.now ≡ None) }
{
    match read_json(alloc, text) {
        Ok(value) => Ok(value),
        Err(refusal) => Err(failure_of(&refusal)),
    }
}

/// Returns the packages of what `cargo metadata` writes.
fn graph_of(alloc: Global, value: &Value) -> Result<PackageGraph, Failure>
    ensures graph { IfOk result (IsMetadata (view value.now)) }
    ensures failed { IfErr result IsSourceFailure }
    ensures rejected { IfErr result (λ failure. failure ≡ failures.Rejected → IsNoGraph (view value.now)) }
{
    match read_metadata(alloc, value) {
        Ok(graph) => Ok(graph),
        Err(refusal) => Err(failure_of(&refusal)),
    }
}

/// Makes a workspace of what `cargo metadata` writes. It has no custom groups, and the default filter `all()`.
pub fn workspace_of_metadata(alloc: Global, bytes: &[u8]) -> Result<Workspace, Failure>
    ensures made { IfOk result (IsOfMetadata bytes.now) }
    ensures rejected { IfErr result (λ failure. failure ≡ failures.Rejected → IsNoMetadata bytes.now) }
    ensures well { IsUtf8 bytes.now → IfErr result IsSourceFailure }
    ensures not_utf8 { (IsUtf8 bytes.now → ⊥) → result ≡ Err failures.NotUtf8 }
{
    let text = text_of(bytes)?;
    let value = json_of(alloc, text)?;
    let graph = graph_of(alloc, &value)?;
    let known_groups = KnownGroups::global_only(alloc);
    Ok(Workspace {
        graph,
        known_groups,
        default_filter: None,
        depth: USUAL_DEPTH,
    })
}

/// Reads a record.
fn record_of(alloc: Global, value: &Value) -> Result<Record, Failure>
    ensures record { IfOk result (λ made. IsRecord (view value.now) (record_row made)) }
    ensures failed { IfErr result IsSourceFailure }
    ensures rejected { IfErr result (λ failure. failure ≡ failures.Rejected
        → ¬ ((row : RecordRow) × IsRecord (view value.now) row)) }
{
    match Record::read(alloc, value) {
        Ok(record) => Ok(record),
        Err(EntryRefusal::Wrong(_)) => Err(Failure::Rejected),
        Err(EntryRefusal::OutOfMemory(_)) => Err(Failure::OutOfMemory),
    }
}

/// Returns the graph of the packages of a record. Fails if an id is repeated, or a link names no package.
fn graph_with(alloc: Global, packages: Vec<PackageMetadata>) -> Result<PackageGraph, Failure>
    ensures graph { IfOk result (λ graph. graph ≡ packages.items) }
    ensures failed { IfErr result IsSourceFailure }
    ensures rejected { IfErr result (λ failure. failure ≡ failures.Rejected → IsNoGraphOf packages.items) }
{
    match PackageGraph::new(alloc, packages) {
        Ok(graph) => Ok(graph),
        Err(GraphRefusal::OutOfMemory(_)) => Err(Failure::OutOfMemory),
        Err(GraphRefusal::RepeatedId { .. } | GraphRefusal::UnknownLink { .. }) => {
            Err(Failure::Rejected)
        }
    }
}

/// Makes a workspace of the packages and the groups of a record. Its default filter is `all()`.
#[tactic(auto, using(crate::proofs::Records::value_is_no_record, crate::proofs::Records::packages_are_no_graph))]
pub fn workspace_of_record(alloc: Global, bytes: &[u8]) -> Result<Workspace, Failure>
    ensures made { IfOk result (IsOfRecord bytes.now) }
    ensures rejected { IfErr result (λ failure. failure ≡ failures.Rejected → IsNoRecord bytes.now) }
    ensures well { IsUtf8 bytes.now → IfErr result IsSourceFailure }
    ensures not_utf8 { (IsUtf8 bytes.now → ⊥) → result ≡ Err failures.NotUtf8 }
{
    let text = text_of(bytes)?;
    let value = json_of(alloc, text)?;
    let made = record_of(alloc, &value)?;
    let Record {
        filtersets: _filtersets,
        packages,
        groups,
        default_filter: _default_filter,
        binaries: _binaries,
        command: _,
    } = made;
    let graph = graph_with(alloc, packages)?;
    let known_groups = KnownGroups::of(alloc, groups)?;
    Ok(Workspace {
        graph,
        known_groups,
        default_filter: None,
        depth: USUAL_DEPTH,
    })
}

/// Copies texts of C.
fn names_of(alloc: Global, texts: &[Text<'_>]) -> Result<Vec<String>, Failure>
    ensures names { IfOk result (λ names.
        map (λ s. string_bytes s) names.items ≡ map (λ t. t.bytes.now) texts.now) }
    ensures well { All IsText texts.now → IfErr result (λ failure. failure ≡ failures.OutOfMemory) }
{
    let mut names = Vec::with_capacity(alloc, texts.len())?;
    for text in texts {
        names.push(String::from_str(alloc, text_of(text.bytes)?)?)?;
    }
    Ok(names)
}

/// Returns the known groups with these custom groups.
pub fn groups_of(alloc: Global, texts: &[Text<'_>]) -> Result<KnownGroups, Failure>
    ensures groups { IfOk result (AreGroups (map (λ t. t.bytes.now) texts.now)) }
    ensures known { IfOk result IsKnown }
    ensures well { All IsText texts.now → IfErr result (λ failure. failure ≡ failures.OutOfMemory) }
    ensures not_utf8 { (All IsText texts.now → ⊥) → result ≡ Err failures.NotUtf8 }
{
    if !are_utf8(texts) {
        return Err(Failure::NotUtf8);
    }
    let names = names_of(alloc, texts)?;
    let groups = KnownGroups::of(alloc, names)?;
    Ok(groups)
}

/// Sets the custom groups of a workspace. A failure changes nothing.
pub fn set_groups(alloc: Global, object: &mut Object, texts: &[Text<'_>]) -> Result<(), Failure>
    ensures set { OnOk result (Changes (HasGroups (map (λ t. t.bytes.now) texts.now)) (Some object.old) (Some object.new)) }
    ensures failed { IfErr result (λ _. object.new ≡ object.old) }
    ensures well { IsWorkspace (Some object.old) → All IsText texts.now
        → IfErr result (λ failure. failure ≡ failures.OutOfMemory) }
    ensures wrong { IsNoWorkspace (Some object.old) → result ≡ Err failures.WrongHandle }
    ensures not_utf8 { IsWorkspace (Some object.old) → (All IsText texts.now → ⊥) → result ≡ Err failures.NotUtf8 }
{
    match object {
        Object::Workspace(workspace) => {
            workspace.known_groups = groups_of(alloc, texts)?;
            Ok(())
        }
        _ => Err(Failure::WrongHandle),
    }
}

/// Sets the limit of levels of a workspace. A failure changes nothing.
pub fn set_depth(object: &mut Object, levels: usize) -> Result<(), Failure>
    ensures set { OnOk result (Changes (HasDepth levels) (Some object.old) (Some object.new)) }
    ensures well { IsWorkspace (Some object.old) → IfErr result (λ failure. ⊥) }
    ensures failed { IfErr result (λ _. object.new ≡ object.old) }
    ensures wrong { IsNoWorkspace (Some object.old) → result ≡ Err failures.WrongHandle }
{
    match object {
        Object::Workspace(workspace) => {
            workspace.depth = levels;
            Ok(())
        }
        Object::Filterset(_) | Object::Refused(_) => Err(Failure::WrongHandle),
    }
}

/// Sets the default filter of a workspace, or returns why the text is rejected. Only success changes the workspace.
pub fn set_default_filter(
    alloc: Global,
    object: &mut Object,
    bytes: &[u8],
) -> Result<Option<Refusal>, Failure>
    ensures set { IfOk result (λ refused. IfNone refused
        (Changes (HasFilter bytes.now) (Some object.old) (Some object.new))) }
    ensures rejected { IfOk result (λ refused. IfSome refused (λ refusal.
        HoldsWorkspace (λ w. IsRefused w bytes.now kinds.DefaultFilter refusal) (Some object.old) × (object.new ≡ object.old))) }
    ensures failed { IfErr result (λ failure. (failure ≢ failures.Rejected) × (object.new ≡ object.old)) }
    ensures well { IsWorkspace (Some object.old) → IsUtf8 bytes.now
        → IfErr result (λ failure. failure ≡ failures.OutOfMemory) }
    ensures wrong { IsNoWorkspace (Some object.old) → result ≡ Err failures.WrongHandle }
    ensures not_utf8 { IsWorkspace (Some object.old) → (IsUtf8 bytes.now → ⊥) → result ≡ Err failures.NotUtf8 }
{
    match object {
        Object::Workspace(workspace) => {
            match parse_within(alloc, workspace, bytes, FiltersetKind::DefaultFilter)? {
                Ok(filter) => {
                    workspace.default_filter = Some(filter.input);
                    Ok(None)
                }
                Err(refusal) => Ok(Some(refusal)),
            }
        }
        _ => Err(Failure::WrongHandle),
    }
}
