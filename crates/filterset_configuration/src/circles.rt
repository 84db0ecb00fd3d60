//! Finds the profiles that fall back on themselves.
ghost use Rattle.std.specs.Prelude.{◌≡◌, ◌↔◌, ◌<◌, ℕ, IfOk, Option, Some, length, map, option_and_then, option_copied, slice_get};
ghost use Rattle.std.specs.Option.{option_map_or};
ghost use Rattle.toml.specs.View.{table_view, view};
ghost use Rattle.filterset_configuration.specs.Circles.{AreDistinct, IsIndex, MarksCircles, fallback_of, link_row, links_of, position_of};
ghost use Rattle.filterset_configuration.specs.Leads.{AreFar, IsMarked, MarksEnds, lead};
ghost use Rattle.filterset_sources.specs.Configurations.{keys_of};

use filterset_sources::table_under;
use std::alloc::{AllocError, Global};
use std::collections::BTreeMap;
use toml::{Table, Value};

/// The name of a profile, and of the one that it falls back on.
#[derive(Clone, Copy)]
struct Link<'f> {
    name: &'f str,
    fallback: Option<&'f str>,
}

/// Returns the name of the profile that the one of a name falls back on.
fn fallback_of<'f>(name: &str, value: &'f Value) -> Option<&'f str>
    ensures { option_copied result ≡ fallback_of name.now (view value.now) }
{
    match value.get("inherits") {
        Some(found) => found.as_str(),
        None if name == "default" => None,
        None => Some("default"),
    }
}

/// Returns the names of profiles, each with that of the one that it falls back on.
fn links_of<'f>(alloc: Global, profiles: &'f Table) -> Result<Vec<Link<'f>>, AllocError>
    ensures links { IfOk result (λ links. map link_row links.items ≡ links_of (table_view profiles.now)) }
    ensures distinct { IfOk result (λ _. AreDistinct (keys_of (table_view profiles.now))) }
{
    let mut links = Vec::with_capacity(alloc, profiles.len())?;
    for (name, value) in profiles.iter() {
        let name = name.as_str();
        let fallback = fallback_of(name, value);
        links.push(Link { name, fallback })?;
    }
    Ok(links)
}

/// Returns the positions of names.
fn positions_of<'f>(
    alloc: Global,
    links: &[Link<'f>],
) -> Result<BTreeMap<&'f str, usize>, AllocError>
    ensures { IfOk result (IsIndex (map (λ l. l.name.now) links.now)) }
{
    let mut positions = BTreeMap::new(alloc);
    for (at, link) in links.iter().enumerate() {
        positions.insert(link.name, at)?;
    }
    Ok(positions)
}

/// Returns the position of the profile that another falls back on.
fn parent_of(positions: &BTreeMap<&str, usize>, link: &Link<'_>) -> Option<usize>
    ensures { result ≡ option_and_then (position_of positions.now) (option_copied link.now.fallback) }
{
    positions.get(link.fallback?).copied()
}

/// Returns the positions of the profiles that each falls back on.
fn parents_of(
    alloc: Global,
    links: &[Link<'_>],
    positions: &BTreeMap<&str, usize>,
) -> Result<Vec<Option<usize>>, AllocError>
    ensures { IfOk result (λ parents. parents.items
        ≡ map (λ l. option_and_then (position_of positions.now) (option_copied l.fallback)) links.now) }
{
    let mut parents = Vec::with_capacity(alloc, links.len())?;
    for link in links {
        parents.push(parent_of(positions, link))?;
    }
    Ok(parents)
}

/// Returns where a position leads, if anywhere.
fn lead(leads: &[Option<usize>], at: usize) -> Option<usize>
    ensures { result ≡ lead leads.now at }
{
    *leads.get(at)?
}

/// Returns where each position leads in twice as many steps.
fn twice(alloc: Global, leads: &[Option<usize>]) -> Result<Vec<Option<usize>>, AllocError>
    ensures { IfOk result (λ further. further.items ≡ map (λ to. option_and_then (lead leads.now) to) leads.now) }
{
    let mut further = Vec::with_capacity(alloc, leads.len())?;
    for to in leads {
        further.push(to.and_then(|at| lead(leads, at)))?;
    }
    Ok(further)
}

/// Returns where each position leads in more steps than there are positions.
fn far_leads(alloc: Global, parents: &[Option<usize>]) -> Result<Vec<Option<usize>>, AllocError>
    ensures { IfOk result (λ leads. AreFar parents.now leads.items) }
{
    let mut leads = Vec::from_slice(alloc, parents)?;
    let mut steps = 1;
    while steps <= parents.len() {
        leads = twice(alloc, leads.as_slice())?;
        steps *= 2;
    }
    Ok(leads)
}

/// Marks a position, if there is one.
fn mark(marks: &mut [bool], position: Option<usize>)
    ensures { IsMarked marks.old position marks.new }
{
    let Some(at) = position else {
        return;
    };
    if at < marks.len() {
        marks[at] = true;
    }
}

/// Marks the positions that others lead to.
fn mark_ends(alloc: Global, leads: &[Option<usize>]) -> Result<Vec<bool>, AllocError>
    ensures { IfOk result (λ marks. MarksEnds leads.now marks.items) }
{
    let mut marks = vec![in alloc; false; leads.len()]?;
    for to in leads {
        mark(&mut marks, *to);
    }
    Ok(marks)
}

/// Marks those of a file's profiles that fall back on themselves. More steps than there are profiles end in circles, and at
/// each profile of a circle. Takes time in proportion to n log n for n profiles.
pub(crate) fn mark_circles(alloc: Global, file: &Value) -> Result<Vec<bool>, AllocError>
    ensures { IfOk result (λ marks. MarksCircles (view file.now) marks.items) }
{
    let Some(profiles) = table_under(file, "profile") else {
        return Ok(Vec::new(alloc));
    };
    let links = links_of(alloc, profiles)?;
    let positions = positions_of(alloc, links.as_slice())?;
    let parents = parents_of(alloc, links.as_slice(), &positions)?;
    let leads = far_leads(alloc, parents.as_slice())?;
    mark_ends(alloc, leads.as_slice())
}
