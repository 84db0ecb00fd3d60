//! The index of a graph: the position of each id, and the links as positions, in both directions.
ghost use Rattle.std.specs.Prelude.{◌≡◌, ◌<◌, ◌+◌, ℕ, All, IfOk, IfErr, OnOk, length, vec_len};
ghost use Rattle.filterset_graph.specs.Index.{AddsEdges, AreRows, IsReversed, IsRowOf, PositionsAre};
ghost use Rattle.filterset_graph.specs.Packages.{ids};
ghost use Rattle.filterset_graph.specs.PartRefusals.{IsRefusalOfIds, IsRefusalOfLinks, IsRefusalOfRow};
ghost use Rattle.filterset_graph.specs.Edges.{EdgesStayBelow, HasEdge};

use crate::package::{PackageId, PackageMetadata};
use crate::refusal::GraphRefusal;
use std::alloc::{AllocError, Global};
use std::collections::BTreeMap;

/// Returns the position of each id. The first id that is repeated is an error.
pub fn positions_of(
    alloc: Global,
    packages: &[PackageMetadata],
) -> Result<BTreeMap<PackageId, usize>, GraphRefusal>
    ensures ok { IfOk result (λ positions. PositionsAre positions (ids packages.now)) }
    ensures refused { IfErr result (IsRefusalOfIds (ids packages.now)) }
{
    let mut positions = BTreeMap::new(alloc);
    for (at, package) in packages.iter().enumerate() {
        let earlier = positions.insert(package.id.try_clone(alloc)?, at)?;
        if earlier.is_some() {
            return Err(GraphRefusal::RepeatedId { at });
        }
    }
    Ok(positions)
}

/// Returns the positions of the packages that these links name; they are the links of the package at position
/// `package`. The first link that names no package is an error.
fn resolve_row(
    alloc: Global,
    positions: &BTreeMap<PackageId, usize>,
    links: &[PackageId],
    package: usize,
) -> Result<Vec<usize>, GraphRefusal>
    ensures ok { IfOk result (λ row. IsRowOf positions.now links.now row.items) }
    ensures refused { IfErr result (IsRefusalOfRow positions.now links.now «package») }
{
    let mut row = Vec::new(alloc);
    for (link, id) in links.iter().enumerate() {
        let Some(position) = positions.get(id) else {
            return Err(GraphRefusal::UnknownLink { package, link });
        };
        row.push(*position)?;
    }
    Ok(row)
}

/// Returns, for each package, the positions that its links name. The first link that names no package is an error.
pub fn resolve_links(
    alloc: Global,
    positions: &BTreeMap<PackageId, usize>,
    packages: &[PackageMetadata],
) -> Result<Vec<Vec<usize>>, GraphRefusal>
    requires { PositionsAre positions.now (ids packages.now) }
    ensures len { IfOk result (λ links. vec_len links ≡ length packages.now) }
    ensures ok { IfOk result (λ links. AreRows positions.now packages.now links.items) }
    ensures refused { IfErr result (IsRefusalOfLinks packages.now) }
{
    let mut links = Vec::new(alloc);
    for (at, package) in packages.iter().enumerate() {
        links.push(resolve_row(alloc, positions, package.links.as_slice(), at)?)?;
    }
    Ok(links)
}

/// Returns `len` empty rows.
fn make_rows(alloc: Global, len: usize) -> Result<Vec<Vec<usize>>, AllocError>
    ensures len { IfOk result (λ rows. vec_len rows ≡ len) }
    ensures empty { IfOk result (λ rows. (a b : ℕ) → ¬ HasEdge rows.items a b) }
{
    let mut rows = Vec::new(alloc);
    for _ in 0..len {
        rows.push(Vec::new(alloc))?;
    }
    Ok(rows)
}

/// Appends `from` to the rows at these positions.
fn add_to_rows(rows: &mut [Vec<usize>], positions: &[usize], from: usize) -> Result<(), AllocError>
    requires { All (λ position. position < length rows.old) positions.now }
    ensures { OnOk result (AddsEdges rows.old positions.now from rows.new) }
{
    for position in positions {
        rows[*position].push(from)?;
    }
    Ok(())
}

/// Reverses the links: returns, for each position, the positions whose rows name it.
pub fn reverse(alloc: Global, links: &[Vec<usize>]) -> Result<Vec<Vec<usize>>, AllocError>
    requires { EdgesStayBelow (length links.now) links.now }
    ensures len { IfOk result (λ back. vec_len back ≡ length links.now) }
    ensures edges { IfOk result (λ back. IsReversed links.now back.items) }
{
    let mut back = make_rows(alloc, links.len())?;
    for (from, row) in links.iter().enumerate() {
        add_to_rows(&mut back, row.as_slice(), from)?;
    }
    Ok(back)
}
