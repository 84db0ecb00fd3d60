//! The packages that predicates match.
ghost use Rattle.std.specs.Prelude.{◌≡◌, ◌↔◌, ◌++◌, ◌&&◌, IfOk, OnOk, length, map, vec_len};
ghost use Rattle.filterset_graph.specs.Packages.{AllDiffer, Text, ids};
ghost use Rattle.filterset_matchers.specs.Matchers.{matcher_of};
ghost use Rattle.filterset_offers.specs.Matched.{PicksId, PicksPackage, package_name};
ghost use Rattle.filterset_offers.specs.Sieves.{SelectsAs, taken_if};
ghost use Rattle.nextest_filtering.specs.PackageMarks.{IsMarkedMember, MarksNamed};

use crate::ready::ReadyMatcher;
use filterset_graph::{PackageGraph, PackageMetadata};
use filterset_matchers::NameMatcher;
use std::alloc::{AllocError, Global};

/// Which packages are meant beside those whose names match.
#[derive(Clone, Copy, Debug, PartialEq, Eq)]
pub(crate) enum Reach {
    /// None.
    Alone,
    /// The packages that these depend on.
    Dependencies,
    /// The packages that depend on these.
    Dependents,
}

/// Marks each package of the workspace whose name matches.
fn mark_named(
    alloc: Global,
    packages: &[PackageMetadata],
    matcher: &NameMatcher,
) -> Result<Vec<bool>, AllocError>
    ensures len { IfOk result (λ marks. vec_len marks ≡ length packages.now) }
    ensures marks { IfOk result (λ marks. MarksNamed packages.now (matcher_of matcher.now) marks.items) }
{
    let mut ready = ReadyMatcher::new(alloc, matcher)?;
    let mut marks = Vec::with_capacity(alloc, packages.len())?;
    for package in packages {
        let is_named = package.in_workspace && ready.matches(alloc, package.name())?;
        marks.push(is_named)?;
    }
    Ok(marks)
}

/// Marks the packages that are meant.
fn mark_picked(
    alloc: Global,
    graph: &PackageGraph,
    reach: Reach,
    matcher: &NameMatcher,
) -> Result<Vec<bool>, AllocError>
    ensures len { IfOk result (λ marks. vec_len marks ≡ length graph.now) }
    ensures picked { IfOk result (λ marks. (id : Text) → IsMarkedMember graph.now marks.items id
        ↔ PicksId graph.now reach (matcher_of matcher.now) id) }
{
    let named = mark_named(alloc, graph.packages(), matcher)?;
    match reach {
        Reach::Alone => Ok(named),
        Reach::Dependencies => graph.mark_reached(alloc, named.as_slice()),
        Reach::Dependents => graph.mark_reaching(alloc, named.as_slice()),
    }
}

/// Adds the name of a package, if it is marked and of the workspace.
pub(crate) fn push_member<'w>(
    found: &mut Vec<&'w str>,
    is_marked: bool,
    metadata: &'w PackageMetadata,
) -> Result<(), AllocError>
    ensures { OnOk result (map (λ n. n.now) found.new.items ≡ map (λ n. n.now) found.old.items
        ++ taken_if (is_marked && metadata.entry.now.in_workspace) (package_name metadata.entry.now)) }
{
    if is_marked && metadata.in_workspace {
        found.push(metadata.name())?;
        Ok(())
    } else {
        Ok(())
    }
}

/// Returns the names of the marked packages that are of the workspace.
fn marked_members<'w>(
    alloc: Global,
    packages: &'w [PackageMetadata],
    marks: &[bool],
) -> Result<Vec<&'w str>, AllocError>
    requires marked { length marks.now ≡ length packages.now }
    requires distinct { AllDiffer (ids packages.now) }
    ensures { IfOk result (λ found. SelectsAs (λ p. IsMarkedMember packages.entry.now marks.now p.id) package_name
        packages.entry.now (map (λ n. n.now) found.items)) }
{
    let mut found = Vec::new(alloc);
    for (index, package) in packages.iter().enumerate() {
        push_member(&mut found, marks[index], package)?;
    }
    Ok(found)
}

/// Returns the names of the packages that are meant.
pub(crate) fn picked_packages<'w>(
    alloc: Global,
    graph: &'w PackageGraph,
    reach: Reach,
    matcher: &NameMatcher,
) -> Result<Vec<&'w str>, AllocError>
    ensures { IfOk result (λ found. SelectsAs (PicksPackage graph.entry.now reach (matcher_of matcher.now)) package_name
        graph.entry.now (map (λ n. n.now) found.items)) }
{
    let marks = mark_picked(alloc, graph, reach, matcher)?;
    marked_members(alloc, graph.packages(), marks.as_slice())
}
