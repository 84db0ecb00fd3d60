//! The sets of packages that `package`, `deps` and `rdeps` select.
ghost use Rattle.std.specs.Prelude.{◌≡◌, ◌↔◌, ℕ, Contains, IfOk, List, length, vec_len};
ghost use Rattle.filterset_matchers.specs.Matchers.{matcher_of};
ghost use Rattle.filterset_expression.specs.Meaning.{IsDependency, IsDependent, IsPackage};
ghost use Rattle.nextest_filtering.specs.PackageMarks.{HasNamed, IsMarkedMember, MarksNamed};
ghost use Rattle.nextest_filtering.specs.Compiling.{packages_of};

use crate::compile::candidates::list_candidates;
use crate::compile::context::ParseContext;
use crate::compile::ready::ReadyMatcher;
use filterset_graph::{PackageId, PackageMetadata};
use filterset_matchers::NameMatcher;
use std::alloc::{AllocError, Global};
use std::collections::BTreeSet;

/// Returns the packages of the workspace whose names match.
pub(super) fn select_named(
    alloc: Global,
    cx: &ParseContext<'_>,
    matcher: &NameMatcher,
) -> Result<BTreeSet<PackageId>, AllocError>
    ensures { IfOk result (λ ids. (id : List ℕ) → Contains ids.keys id
        ↔ IsPackage (packages_of cx.now) (matcher_of matcher.now) id) }
{
    let members = cx.members();
    match list_candidates(alloc, members, matcher)? {
        Some(candidates) => select_among(alloc, &candidates, matcher),
        None => select_among(alloc, members.packages(), matcher),
    }
}

/// Returns those of these packages whose names match. There may be many, so it sorts their ids once instead of inserting
/// them one by one.
fn select_among(
    alloc: Global,
    packages: &[&PackageMetadata],
    matcher: &NameMatcher,
) -> Result<BTreeSet<PackageId>, AllocError>
    ensures { IfOk result (λ ids. (id : List ℕ) → Contains ids.keys id
        ↔ HasNamed packages.now (matcher_of matcher.now) id) }
{
    let mut ready = ReadyMatcher::new(alloc, matcher)?;
    let mut ids = Vec::new(alloc);
    for package in packages {
        if ready.matches(alloc, package.name())? {
            ids.push(package.id.try_clone(alloc)?)?;
        }
    }
    Ok(ids.into_iter().collect(alloc)?)
}

/// Returns the packages of the workspace whose names match, and those that they depend on.
pub(super) fn select_dependencies(
    alloc: Global,
    cx: &ParseContext<'_>,
    matcher: &NameMatcher,
) -> Result<BTreeSet<PackageId>, AllocError>
    ensures { IfOk result (λ ids. (id : List ℕ) → Contains ids.keys id
        ↔ IsDependency (packages_of cx.now) (matcher_of matcher.now) id) }
{
    let packages = cx.graph().packages();
    let starts = mark_named(alloc, cx, matcher)?;
    let marks = cx.graph().mark_reached(alloc, &starts)?;
    collect_marked(alloc, packages, &marks)
}

/// Returns the packages of the workspace whose names match, and those that depend on them.
pub(super) fn select_dependents(
    alloc: Global,
    cx: &ParseContext<'_>,
    matcher: &NameMatcher,
) -> Result<BTreeSet<PackageId>, AllocError>
    ensures { IfOk result (λ ids. (id : List ℕ) → Contains ids.keys id
        ↔ IsDependent (packages_of cx.now) (matcher_of matcher.now) id) }
{
    let packages = cx.graph().packages();
    let ends = mark_named(alloc, cx, matcher)?;
    let marks = cx.graph().mark_reaching(alloc, &ends)?;
    collect_marked(alloc, packages, &marks)
}

/// Marks each package of the workspace whose name matches.
fn mark_named(
    alloc: Global,
    cx: &ParseContext<'_>,
    matcher: &NameMatcher,
) -> Result<Vec<bool>, AllocError>
    ensures len { IfOk result (λ marks. vec_len marks ≡ length (packages_of cx.now)) }
    ensures marks { IfOk result (λ marks. MarksNamed (packages_of cx.now) (matcher_of matcher.now) marks.items) }
{
    let named = select_named(alloc, cx, matcher)?;
    let packages = cx.graph().packages();
    let mut marks = Vec::with_capacity(alloc, packages.len())?;
    for package in packages {
        marks.push(named.contains(&package.id))?;
    }
    Ok(marks)
}

/// Returns the ids of the marked packages of the workspace.
fn collect_marked(
    alloc: Global,
    packages: &[PackageMetadata],
    marks: &[bool],
) -> Result<BTreeSet<PackageId>, AllocError>
    requires { length marks.now ≡ length packages.now }
    ensures { IfOk result (λ ids. (id : List ℕ) → Contains ids.keys id ↔ IsMarkedMember packages.now marks.now id) }
{
    let mut ids = Vec::new(alloc);
    for (index, package) in packages.iter().enumerate() {
        if marks[index] && package.in_workspace {
            ids.push(package.id.try_clone(alloc)?)?;
        }
    }
    Ok(ids.into_iter().collect(alloc)?)
}
