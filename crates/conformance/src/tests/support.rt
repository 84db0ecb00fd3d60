//! A workspace, and filtersets that are read against it.
use nextest_filtering::{
    BuildTarget, BuildTargetId, Filterset, FiltersetKind, FiltersetParseErrors, GraphRefusal,
    KnownGroups, PackageGraph, PackageId, PackageMetadata, ParseContext, ParseRefusal,
};
use std::alloc::{AllocError, Global};
use std::process::Abort;

/// A package: its name, whether it is in the workspace, and what it links to.
type Row = (&'static str, bool, &'static str);

/// `a` and `b` depend on each other, and `c` depends on `a` through `x`, which is outside the workspace.
static ROWS: [Row; 4] = [
    ("a", true, "b"),
    ("b", true, "a"),
    ("c", true, "x"),
    ("x", false, "a"),
];

pub fn id(alloc: Global, text: &str) -> Result<PackageId, AllocError> {
    Ok(PackageId::new(String::from_str(alloc, text)?))
}

/// Makes a package that has a library. Its name is its id, and that of the library too.
pub fn package(
    alloc: Global,
    name: &str,
    in_workspace: bool,
    dependencies: &[&str],
) -> Result<PackageMetadata, AllocError> {
    let mut links = Vec::new(alloc);
    for dependency in dependencies {
        links.push(id(alloc, dependency)?)?;
    }
    let mut build_targets = Vec::new(alloc);
    build_targets.push(BuildTarget {
        id: BuildTargetId::Library,
        name: String::from_str(alloc, name)?,
    })?;
    Ok(PackageMetadata {
        id: id(alloc, name)?,
        name: String::from_str(alloc, name)?,
        in_workspace,
        build_targets,
        links,
    })
}

/// Makes the graph of the rows.
pub fn workspace(rt: &(impl AllocGlobal + Abort)) -> Result<PackageGraph, AllocError> {
    let mut packages = Vec::new(rt.alloc());
    for (name, in_workspace, link) in ROWS {
        packages.push(package(rt.alloc(), name, in_workspace, &[link])?)?;
    }
    match PackageGraph::new(rt.alloc(), packages) {
        Ok(graph) => Ok(graph),
        Err(GraphRefusal::OutOfMemory(error)) => Err(error),
        Err(refusal) => panic!(rt; "{refusal:?}"),
    }
}

/// Parses a text against the workspace. The text comes back with a refusal, also if that is out of memory.
pub fn parse(
    rt: &(impl AllocGlobal + Abort),
    text: &str,
) -> Result<Result<Filterset, FiltersetParseErrors>, AllocError> {
    let alloc = rt.alloc();
    let graph = workspace(rt)?;
    let cx = ParseContext::new(alloc, &graph)?;
    let known_groups = KnownGroups::global_only(alloc);
    let input = String::from_str(alloc, text)?;
    let refusal = match Filterset::parse(alloc, input, &cx, FiltersetKind::Test, &known_groups) {
        Ok(filterset) => return Ok(Ok(filterset)),
        Err(refusal) => refusal,
    };
    let input = match &refusal {
        ParseRefusal::Faults(found) => &found.input,
        ParseRefusal::OutOfMemory { input } => input,
    };
    assert!(rt; input.as_str() == text);
    Ok(Err(refusal.into_faults()?))
}
