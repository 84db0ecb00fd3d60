//! The workspace that the files of cargo and nextest describe.
ghost use Rattle.std.specs.Prelude.{All, IfErr, IfOk, IsSomeAnd};
ghost use Rattle.serde_json.specs.View.{view};
ghost use Rattle.filterset_graph.specs.Packages.{ids};
ghost use Rattle.filterset_sources.specs.Suites.{IsOfPackage, IsTestList};
ghost use Rattle.filterset_sources.specs.{Metadata.RefusesMetadata, Platforms.ArePlatforms, Refusals.RefusesJson};
ghost use Rattle.filterset_loading.specs.Files.{BySource, IsFileFault, OrMemory};
ghost use Rattle.filterset_loading.specs.Workspaces.{ArePackagesIn, IsJsonOf, IsListIn, IsPlatformsFault, IsWorkspaceFault, IsWorkspaceIn, KnownPackages, RefusesList, RefusesValue};

use crate::fault::{CommandFault, FileRole};
use crate::files::{FileSource, read_text};
use filterset_graph::PackageGraph;
use filterset_sources::{
    BuildPlatforms, RunIgnored, SourceRefusal, TestList, check_packages, read_json, read_metadata,
    read_platforms, read_test_list,
};
use serde_json::Value;
use std::alloc::Global;

/// The paths of the files that describe a workspace, and which of its tests count.
#[derive(Clone, Copy)]
pub struct WorkspacePaths<'w> {
    /// What `cargo metadata` wrote.
    pub metadata: &'w str,
    /// What `cargo nextest list` wrote.
    pub list: &'w str,
    pub run_ignored: RunIgnored,
}

/// A workspace: its packages, and nextest's list of its tests.
#[derive(Drop)]
pub struct Workspace {
    pub graph: PackageGraph,
    pub list: TestList,
    /// The JSON value of the list.
    pub value: Value,
}

/// Reads a file as a JSON value.
fn read_value<F: FileSource>(
    alloc: Global,
    files: &F,
    role: FileRole,
    path: &str,
) -> Result<Value, CommandFault>
    ensures read { IfOk result (λ value. IsJsonOf (F.content files.now path.now) (view value)) }
    ensures refused { IfErr result (OrMemory
        (IsFileFault (F.content files.now) (F.fails files.now) role (BySource RefusesJson) path.now)) }
{
    let text = read_text(alloc, files, role, path)?;
    match read_json(alloc, text.as_str()) {
        Ok(value) => Ok(value),
        Err(refusal) => Err(CommandFault::from_refusal(alloc, role, path, refusal)),
    }
}

/// Reads the packages of a workspace.
pub fn read_graph<F: FileSource>(
    alloc: Global,
    files: &F,
    path: &str,
) -> Result<PackageGraph, CommandFault>
    ensures read { IfOk result (λ graph. ArePackagesIn (F.content files.now path.now) graph) }
    ensures refused { IfErr result (OrMemory (IsFileFault (F.content files.now) (F.fails files.now)
        FileRole.Metadata (RefusesValue RefusesMetadata) path.now)) }
{
    let role = FileRole::Metadata;
    let value = read_value(alloc, files, role, path)?;
    match read_metadata(alloc, &value) {
        Ok(graph) => Ok(graph),
        Err(refusal) => Err(CommandFault::from_refusal(alloc, role, path, refusal)),
    }
}

/// Reads the packages. Without a file there are none.
pub fn known_packages<F: FileSource>(
    alloc: Global,
    files: &F,
    path: Option<&str>,
) -> Result<PackageGraph, CommandFault>
    ensures known { IfOk result (KnownPackages (F.content files.now) path.entry) }
    ensures refused { IfErr result (OrMemory (λ fault. IsSomeAnd path.entry (λ path. IsFileFault
        (F.content files.now) (F.fails files.now) FileRole.Metadata (RefusesValue RefusesMetadata) path.now fault))) }
{
    match path {
        Some(path) => read_graph(alloc, files, path),
        None => Ok(PackageGraph::empty(alloc)),
    }
}

/// Reads nextest's list, whose test binaries have to be built of these packages.
fn list_of(
    alloc: Global,
    value: &Value,
    graph: &PackageGraph,
    run_ignored: RunIgnored,
) -> Result<TestList, SourceRefusal>
    ensures read { IfOk result (λ list. IsTestList run_ignored (view value.now) list.suites.items
        × All (IsOfPackage (ids graph.now)) list.suites.items) }
    ensures refused { IfErr result (RefusesList graph.now (view value.now)) }
{
    let list = read_test_list(alloc, value, run_ignored)?;
    check_packages(alloc, &list, graph)?;
    Ok(list)
}

/// Reads nextest's list of a workspace of these packages, and returns its JSON value too.
pub fn read_list<F: FileSource>(
    alloc: Global,
    files: &F,
    path: &str,
    graph: &PackageGraph,
    run_ignored: RunIgnored,
) -> Result<(TestList, Value), CommandFault>
    ensures read { IfOk result (λ both. IsListIn (F.content files.now path.now) graph.now run_ignored
        (view both.1) both.0.suites.items) }
    ensures refused { IfErr result (OrMemory (IsFileFault (F.content files.now) (F.fails files.now)
        FileRole.List (RefusesValue (RefusesList graph.now)) path.now)) }
{
    let role = FileRole::List;
    let value = read_value(alloc, files, role, path)?;
    match list_of(alloc, &value, graph, run_ignored) {
        Ok(list) => Ok((list, value)),
        Err(refusal) => Err(CommandFault::from_refusal(alloc, role, path, refusal)),
    }
}

/// Reads the workspace that the files at these paths describe.
pub fn read_workspace<F: FileSource>(
    alloc: Global,
    files: &F,
    paths: &WorkspacePaths<'_>,
) -> Result<Workspace, CommandFault>
    ensures read { IfOk result (IsWorkspaceIn (F.content files.now) paths.now) }
    ensures refused { IfErr result (OrMemory (IsWorkspaceFault (F.content files.now) (F.fails files.now) paths.now)) }
{
    let graph = read_graph(alloc, files, paths.metadata)?;
    let (list, value) = read_list(alloc, files, paths.list, &graph, paths.run_ignored)?;
    Ok(Workspace { graph, list, value })
}

/// Reads the platforms of the build in nextest's list, the file at this path with this JSON value.
pub fn platforms_of(alloc: Global, path: &str, list: &Value) -> Result<BuildPlatforms, CommandFault>
    ensures read { IfOk result (ArePlatforms (view list.now)) }
    ensures refused { IfErr result (OrMemory (IsPlatformsFault path.now (view list.now))) }
{
    match read_platforms(alloc, list) {
        Ok(built) => Ok(built),
        Err(refusal) => Err(CommandFault::from_refusal(alloc, FileRole::List, path, refusal)),
    }
}
