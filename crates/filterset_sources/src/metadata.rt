//! Reads what `cargo metadata --format-version 1` writes.
ghost use Rattle.std.specs.Prelude.{◌≡◌, ◌++◌, All, IfErr, IfOk, OnOk, codes, is_some, map};
ghost use Rattle.serde_json.specs.View.{view};
ghost use Rattle.filterset_graph.specs.Index.{PositionsAre, index_of};
ghost use Rattle.filterset_graph.specs.Packages.{AllDiffer, LinksKnown, ids};
ghost use Rattle.filterset_sources.specs.Metadata.{AreLinked, HasLinksOf, IsGraphOf, IsKnown, IsMetadata, IsWhole, NamesOnly, RefusesMetadata, Repeats, Unknown, UnknownNode, WrongWhole, link_path, links_of, node_ids};
ghost use Rattle.filterset_sources.specs.{Refusals.Refuses, Shape.item_path};

use crate::refusal::SourceRefusal;
use filterset_graph::{GraphRefusal, PackageGraph, PackageId, PackageMetadata};
use filterset_json::{Entry, WrongValue};
use serde_json::Value;
use std::alloc::{AllocError, Global};
use std::collections::BTreeMap;

mod parts;

use parts::{Dependency, Node, Parts};

/// Refuses an item of a list, or the value under `key` of the item.
fn wrong_item(
    alloc: Global,
    list: &str,
    at: usize,
    key: &str,
    expected: &'static str,
) -> SourceRefusal
    ensures { Refuses (λ place. place ≡ (item_path list.now at ++ key.now, expected.now)) result }
{
    match format!(in alloc; "{list}[{at}]{key}") {
        Ok(path) => SourceRefusal::WrongValue(WrongValue { path, expected }),
        Err(refused) => SourceRefusal::OutOfMemory(refused),
    }
}

/// Refuses the id of an item of a list that an item before it has too.
fn repeated_id(alloc: Global, list: &str, at: usize, key: &str) -> SourceRefusal
    ensures { Refuses (λ place. place ≡ (
      item_path list.now at ++ key.now,
      codes "an id that no package before it has",
    )) result }
{
    wrong_item(alloc, list, at, key, "an id that no package before it has")
}

/// Refuses the id of an item of a list that no package has.
fn unknown_id(alloc: Global, list: &str, at: usize, key: &str) -> SourceRefusal
    ensures { Refuses (λ place. place ≡ (
      item_path list.now at ++ key.now,
      codes "the id of one of the packages",
    )) result }
{
    wrong_item(alloc, list, at, key, "the id of one of the packages")
}

/// Refuses a dependency of a node that is no package.
fn unknown_link(alloc: Global, node: usize, link: usize) -> SourceRefusal
    ensures { Refuses (λ place. place ≡ (link_path node link, codes "the id of one of the packages")) result }
{
    match format!(in alloc; "resolve.nodes[{node}].deps") {
        Ok(list) => unknown_id(alloc, list.as_str(), link, ".pkg"),
        Err(refused) => SourceRefusal::OutOfMemory(refused),
    }
}

/// Returns the position of each id. Refuses an id that is there twice, as the value under `key` of an item of `list`.
fn positions_of(
    alloc: Global,
    ids: &[PackageId],
    list: &str,
    key: &str,
) -> Result<BTreeMap<PackageId, usize>, SourceRefusal>
    ensures ok { IfOk result (λ positions. PositionsAre positions ids.now) }
    ensures refused { IfErr result (Refuses (Repeats (λ at. item_path list.now at ++ key.now) ids.now)) }
{
    let mut positions = BTreeMap::new(alloc);
    for (at, id) in ids.iter().enumerate() {
        let earlier = positions.insert(id.try_clone(alloc)?, at)?;
        if earlier.is_some() {
            return Err(repeated_id(alloc, list, at, key));
        }
    }
    Ok(positions)
}

/// Copies the ids of the packages that a node depends on.
fn node_links(alloc: Global, node: &Node) -> Result<Vec<PackageId>, AllocError>
    ensures { IfOk result (λ links. links.items ≡ links_of node.now) }
{
    let mut links = Vec::with_capacity(alloc, node.dependencies.len())?;
    for dependency in &node.dependencies {
        links.push(dependency.package.try_clone(alloc)?)?;
    }
    Ok(links)
}

/// Copies the ids of packages.
fn package_ids(alloc: Global, packages: &[PackageMetadata]) -> Result<Vec<PackageId>, AllocError>
    ensures { IfOk result (λ all. all.items ≡ ids packages.now) }
{
    let mut all = Vec::with_capacity(alloc, packages.len())?;
    for package in packages {
        all.push(package.id.try_clone(alloc)?)?;
    }
    Ok(all)
}

/// Copies the ids of nodes.
fn node_ids(alloc: Global, nodes: &[Node]) -> Result<Vec<PackageId>, AllocError>
    ensures { IfOk result (λ all. all.items ≡ node_ids nodes.now) }
{
    let mut all = Vec::with_capacity(alloc, nodes.len())?;
    for node in nodes {
        all.push(node.id.try_clone(alloc)?)?;
    }
    Ok(all)
}

/// Returns whether an id has a position.
fn is_known(known: &BTreeMap<PackageId, usize>, id: &PackageId) -> bool
    ensures { result ≡ is_some (index_of known.now id.now) }
{
    known.contains_key(id)
}

/// Refuses a member of the workspace that is not a package.
fn check_members(
    alloc: Global,
    known: &BTreeMap<PackageId, usize>,
    members: &[PackageId],
) -> Result<(), SourceRefusal>
    ensures ok { OnOk result (All (IsKnown known.now) members.now) }
    ensures refused { IfErr result
        (Refuses (Unknown (IsKnown known.now) (item_path (codes "workspace_members")) members.now)) }
{
    for (at, member) in members.iter().enumerate() {
        if !is_known(known, member) {
            return Err(unknown_id(alloc, "workspace_members", at, ""));
        }
    }
    Ok(())
}

/// Refuses a dependency of the node at `at` that is not a package.
fn check_dependencies(
    alloc: Global,
    known: &BTreeMap<PackageId, usize>,
    at: usize,
    dependencies: &[Dependency],
) -> Result<(), SourceRefusal>
    ensures ok { OnOk result (All (IsKnown known.now) (map (λ d. d.package) dependencies.now)) }
    ensures refused { IfErr result
        (Refuses (Unknown (IsKnown known.now) (link_path at) (map (λ d. d.package) dependencies.now))) }
{
    for (link, dependency) in dependencies.iter().enumerate() {
        if !is_known(known, &dependency.package) {
            return Err(unknown_link(alloc, at, link));
        }
    }
    Ok(())
}

/// Refuses the first node that is not a package, or depends on one that is not there.
fn check_nodes(
    alloc: Global,
    known: &BTreeMap<PackageId, usize>,
    nodes: &[Node],
) -> Result<(), SourceRefusal>
    ensures ok { OnOk result (All (NamesOnly (IsKnown known.now)) nodes.now) }
    ensures refused { IfErr result (Refuses (UnknownNode (IsKnown known.now) nodes.now)) }
{
    for (at, node) in nodes.iter().enumerate() {
        if !is_known(known, &node.id) {
            return Err(unknown_id(alloc, "resolve.nodes", at, ".id"));
        }
        check_dependencies(alloc, known, at, node.dependencies.as_slice())?;
    }
    Ok(())
}

/// Gives each package the links of its node, if it has one, and says whether it is in the workspace.
fn link(
    alloc: Global,
    packages: Vec<PackageMetadata>,
    members: &BTreeMap<PackageId, usize>,
    positions: &BTreeMap<PackageId, usize>,
    nodes: &[Node],
) -> Result<Vec<PackageMetadata>, AllocError>
    requires { PositionsAre positions.now (node_ids nodes.now) }
    ensures { IfOk result (λ all. AreLinked members.now nodes.now packages.items all.items) }
{
    let mut all = Vec::with_capacity(alloc, packages.len())?;
    for package in packages {
        let links = match positions.get(&package.id) {
            Some(at) => node_links(alloc, &nodes[*at])?,
            None => Vec::new(alloc),
        };
        all.push(PackageMetadata {
            in_workspace: is_known(members, &package.id),
            links,
            ..package
        })?;
    }
    Ok(all)
}

/// Makes the graph of packages.
fn graph_of(alloc: Global, packages: Vec<PackageMetadata>) -> Result<PackageGraph, SourceRefusal>
    ensures ok { IfOk result (λ graph. graph ≡ packages.items) }
    ensures refused { AllDiffer (ids packages.items) → LinksKnown packages.items
        → IfErr result (Refuses (λ place. ⊥)) }
{
    match PackageGraph::new(alloc, packages) {
        Ok(graph) => Ok(graph),
        Err(GraphRefusal::OutOfMemory(refused)) => Err(SourceRefusal::OutOfMemory(refused)),
        Err(GraphRefusal::RepeatedId { at }) => { Err(repeated_id(alloc, "packages", at, ".id")) }
        Err(GraphRefusal::UnknownLink { package, link }) => {
            Err(unknown_link(alloc, package, link))
        }
    }
}

/// Makes the graph of the packages of a file.
fn join(alloc: Global, parts: Parts) -> Result<PackageGraph, SourceRefusal>
    ensures ok { IfOk result (λ graph. IsWhole parts × IsGraphOf parts graph) }
    ensures refused { IfErr result (Refuses (WrongWhole (ids parts.packages.items) parts.members.items parts.resolve.nodes.items)) }
{
    let Parts {
        packages,
        members,
        resolve,
    } = parts;
    let nodes = resolve.nodes.as_slice();
    let ids = package_ids(alloc, packages.as_slice())?;
    let known = positions_of(alloc, ids.as_slice(), "packages", ".id")?;
    check_members(alloc, &known, members.as_slice())?;
    check_nodes(alloc, &known, nodes)?;
    let members = positions_of(alloc, members.as_slice(), "workspace_members", "")?;
    let ids = node_ids(alloc, nodes)?;
    let positions = positions_of(alloc, ids.as_slice(), "resolve.nodes", ".id")?;
    let packages = link(alloc, packages, &members, &positions, nodes)?;
    graph_of(alloc, packages)
}

/// Reads the packages of what `cargo metadata --format-version 1` writes, in its order, with dependencies of all kinds.
/// Ignores all other keys.
///
/// Refuses what cargo writes with `--no-deps`: without the dependencies, `deps` and `rdeps` would give wrong answers.
pub fn read_metadata(alloc: Global, value: &Value) -> Result<PackageGraph, SourceRefusal>
    ensures read { IfOk result (IsMetadata (view value.now)) }
    ensures refused { IfErr result (RefusesMetadata (view value.now)) }
{
    let parts = Parts::read(alloc, value)?;
    join(alloc, parts)
}
