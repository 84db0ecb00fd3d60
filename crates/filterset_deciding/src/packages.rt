//! The packages that a test of a branch can be of.
ghost use Rattle.std.specs.Prelude.{◌≡◌, ◌↔◌, ◌≤◌, ◌<◌, Contains, List, ℕ, Some, IfNone, IfOk, IfSome, IsTrue, length, true, false};
ghost use Rattle.std.specs.{Borrow.Bor, List.AllByRecursion};
ghost use Rattle.filterset_deciding.specs.{AnyTest.AnyTest, Aspects.AgreesOn, Aspects.IsKnownOn, Aspects.is_of_package};
ghost use Rattle.filterset_deciding.specs.Known.{Agrees};
ghost use Rattle.filterset_deciding.specs.PackageSets.{IsInNone, IsOfNoPackage, IsWithin};
ghost use Rattle.filterset_expression.specs.{Expression.Packages, FlatSteps.Push, FlatSteps.step_of};

use crate::running::ValuedStep;
use filterset_expression::{FiltersetLeaf, FlatStep};
use filterset_graph::PackageId;
use std::alloc::{AllocError, Global};
use std::collections::BTreeSet;

/// The package of a test.
#[derive(Clone, Copy)]
pub(crate) enum Package<'a> {
    /// It can be this one.
    Is(&'a PackageId),
    /// No set of packages is known to contain it.
    Any,
    /// No package is in all sets that are known to contain it, and in none that are known not to.
    Impossible,
}

/// Returns the packages of the step's leaf, if it has some, and whether the test's package is known to be one of them.
fn known_packages<'a>(placed: ValuedStep<'a>) -> Option<(&'a BTreeSet<PackageId>, bool)>
    ensures step { IfSome result (λ found. step_of placed.entry.step ≡ Push (Packages found.0.now.keys)) }
    ensures value { IfSome result (λ found. placed.entry.value ≡ Some found.1) }
    ensures none { IfNone result (IsOfNoPackage placed.entry) }
{
    match placed.step {
        FlatStep::Leaf(FiltersetLeaf::Packages(ids)) => match placed.value {
            Some(value) => Some((ids, value)),
            None => None,
        },
        _ => None,
    }
}

/// Returns whether this step allows the package.
fn allows(placed: ValuedStep<'_>, id: &PackageId) -> bool
    ensures { (test : AnyTest) → test.query.binary_query.package_id.now ≡ id.now
        → IsTrue result ↔ IsKnownOn (λ leaf. is_of_package leaf ≡ true) test (step_of placed.entry.step) placed.entry.value }
{
    match known_packages(placed) {
        Some((ids, value)) => ids.contains(id) == value,
        None => true,
    }
}

/// Returns whether all steps allow the package.
fn is_allowed(branch: &[ValuedStep<'_>], id: &PackageId) -> bool
    ensures { (test : AnyTest) → test.query.binary_query.package_id.now ≡ id.now
        → IsTrue result ↔ AgreesOn (λ leaf. is_of_package leaf ≡ true) test branch.now }
{
    for placed in branch {
        if !allows(*placed, id) {
            return false;
        }
    }
    true
}

/// Returns the first of these packages that all steps allow.
fn find_allowed<'a>(
    branch: &[ValuedStep<'a>],
    ids: &'a BTreeSet<PackageId>,
) -> Option<&'a PackageId>
    ensures some { IfSome result (λ id. (test : AnyTest) → test.query.binary_query.package_id.now ≡ id.now
        → AgreesOn (λ leaf. is_of_package leaf ≡ true) test branch.now) }
    ensures none { IfNone result ((test : AnyTest)
        → Contains ids.entry.now.keys test.query.binary_query.package_id.now → ¬ Agrees test branch.now) }
{
    for id in ids {
        if is_allowed(branch, id) {
            return Some(id);
        }
    }
    None
}

/// Returns the packages of the step's leaf, if it has some, and the test's package is known to be one of them.
fn containing<'a>(placed: ValuedStep<'a>) -> Option<&'a BTreeSet<PackageId>>
    ensures step { IfSome result (λ ids. step_of placed.entry.step ≡ Push (Packages ids.now.keys)) }
    ensures value { IfSome result (λ ids. placed.entry.value ≡ Some true) }
    ensures none { IfNone result (IsInNone placed.entry) }
{
    match known_packages(placed) {
        Some((ids, value)) => { if value { Some(ids) } else { None } }
        None => None,
    }
}

/// Finds a package for a test of the branch.
fn find_package<'a>(branch: &[ValuedStep<'a>]) -> Package<'a>
    ensures is { (id : Bor (List ℕ)) → result ≡ Package.Is id → (test : AnyTest) → test.query.binary_query.package_id.now ≡ id.now
        → AgreesOn (λ leaf. is_of_package leaf ≡ true) test branch.now }
    ensures any { result ≡ Package.Any → AllByRecursion IsInNone branch.now }
    ensures impossible { result ≡ Package.Impossible → (test : AnyTest) → ¬ Agrees test branch.now }
{
    for placed in branch {
        match containing(*placed) {
            Some(ids) => {
                return match find_allowed(branch, ids) {
                    Some(id) => Package::Is(id),
                    None => Package::Impossible,
                };
            }
            None => {}
        }
    }
    Package::Any
}

/// Returns the length in bytes of the longest of these ids.
fn longest_of(ids: &BTreeSet<PackageId>) -> usize
    ensures { (id : List ℕ) → Contains ids.now.keys id → length id ≤ result }
{
    let mut longest = 0;
    for id in ids {
        longest = longest.max(id.repr().len());
    }
    longest
}

/// Returns the length in bytes of the longest id of the step's leaf, if that has a set of packages.
fn longest_at(placed: ValuedStep<'_>) -> usize
    ensures { IsWithin result placed.entry }
{
    match placed.step {
        FlatStep::Leaf(FiltersetLeaf::Packages(ids)) => longest_of(ids),
        _ => 0,
    }
}

/// Returns the length in bytes of the longest id in a set of packages of the branch.
fn longest_in(branch: &[ValuedStep<'_>]) -> usize
    ensures { AllByRecursion (IsWithin result) branch.now }
{
    let mut longest = 0;
    for placed in branch {
        longest = longest.max(longest_at(*placed));
    }
    longest
}

/// Makes an id that is longer than this.
fn make_longer(alloc: Global, limit: usize) -> Result<PackageId, AllocError>
    ensures { IfOk result (λ id. limit < length id) }
{
    let mut repr = String::new(alloc);
    for at in 0..limit {
        repr.push('x')?;
    }
    repr.push('x')?;
    Ok(PackageId::new(repr))
}

/// Makes the id of a package that is in no set of the branch.
fn make_other(alloc: Global, branch: &[ValuedStep<'_>]) -> Result<PackageId, AllocError>
    requires { AllByRecursion IsInNone branch.now }
    ensures { IfOk result (λ id. (test : AnyTest) → test.query.binary_query.package_id.now ≡ id
        → AgreesOn (λ leaf. is_of_package leaf ≡ true) test branch.now) }
{
    let other = PackageId::new(String::from_str(alloc, "other")?);
    if is_allowed(branch, &other) {
        return Ok(other);
    }
    make_longer(alloc, longest_in(branch))
}

/// Makes the id of a package that a test of the branch can be of. The only error is out of memory.
pub(crate) fn make_package(
    alloc: Global,
    branch: &[ValuedStep<'_>],
) -> Result<Option<PackageId>, AllocError>
    ensures some { IfOk result (λ made. IfSome made (λ id. (test : AnyTest) → test.query.binary_query.package_id.now ≡ id
        → AgreesOn (λ leaf. is_of_package leaf ≡ true) test branch.now)) }
    ensures none { IfOk result (λ made. IfNone made ((test : AnyTest) → ¬ Agrees test branch.now)) }
{
    match find_package(branch) {
        Package::Is(id) => Ok(Some(id.try_clone(alloc)?)),
        Package::Any => Ok(Some(make_other(alloc, branch)?)),
        Package::Impossible => Ok(None),
    }
}
