//! What follows about one leaf from the value of another.
ghost use Rattle.std.specs.Prelude.{◌≡◌, ◌↔◌, ℕ, List, Some, None, Contains, IfOk, IsTrue, if◌then◌else◌};
ghost use Rattle.filterset_expression.specs.Expression.{compiled_leaf};
ghost use Rattle.filterset_matchers.specs.Matchers.{matcher_of};
ghost use Rattle.filterset_deciding.specs.{AnyTest.AnyTest, AnyTest.Says, Known.IsKnown, Known.IsKnownOfText};

use crate::literals::{begin_apart, literal_of};
use filterset_expression::FiltersetLeaf;
use filterset_graph::PackageId;
use filterset_matchers::NameMatcher;
use std::alloc::{AllocError, Global};
use std::collections::BTreeSet;

/// Returns whether each id of the first set is in the second.
fn is_within(ids: &BTreeSet<PackageId>, others: &BTreeSet<PackageId>) -> bool
    ensures { IsTrue result → (id : List ℕ) → Contains ids.now.keys id → Contains others.now.keys id }
{
    for id in ids {
        if !others.contains(id) {
            return false;
        }
    }
    true
}

/// Returns whether no id of the first set is in the second.
fn is_apart(ids: &BTreeSet<PackageId>, others: &BTreeSet<PackageId>) -> bool
    ensures { IsTrue result → (id : List ℕ) → Contains ids.now.keys id → ¬ Contains others.now.keys id }
{
    for id in ids {
        if others.contains(id) {
            return false;
        }
    }
    true
}

/// Infers whether a package is in the second set from whether it is in the first.
fn infer_package(
    ids: &BTreeSet<PackageId>,
    value: bool,
    others: &BTreeSet<PackageId>,
) -> Option<bool>
    ensures { (id : List ℕ) → (IsTrue value ↔ Contains ids.now.keys id)
        → IsKnown result (Contains others.now.keys id) }
{
    if value {
        if is_within(ids, others) {
            return Some(true);
        }
        if is_apart(ids, others) {
            return Some(false);
        }
        return None;
    }
    if is_within(others, ids) {
        return Some(false);
    }
    None
}

/// Infers what the second matcher says of a text from what the first says of it, if both look for a part of the text, or
/// both are globs.
fn infer_part(
    alloc: Global,
    matcher: &NameMatcher,
    value: bool,
    other: &NameMatcher,
) -> Result<Option<bool>, AllocError>
    ensures { IfOk result (IsKnownOfText (matcher_of matcher.now) value (matcher_of other.now)) }
{
    match (matcher, value, other) {
        (NameMatcher::Contains { value: part, .. }, true, NameMatcher::Contains { .. }) => {
            Ok(only_if(other.is_match(alloc, part.as_str())?, true))
        }
        (NameMatcher::Contains { .. }, false, NameMatcher::Contains { value: whole, .. }) => {
            Ok(only_if(matcher.is_match(alloc, whole.as_str())?, false))
        }
        (
            NameMatcher::Glob { glob, .. },
            true,
            NameMatcher::Glob {
                glob: other_glob,
                ..
            },
        ) => { Ok(only_if(begin_apart(glob.tokens(), other_glob.tokens()), false)) }
        _ => Ok(None),
    }
}

/// Returns the value if the condition is true.
fn only_if(is_so: bool, value: bool) -> Option<bool>
    ensures { result ≡ (if is_so then Some value else None) }
{
    if is_so { Some(value) } else { None }
}

/// Infers what the second matcher says of a text from what the first says of it. If one of them matches only one text, it is
/// enough to look at that.
fn infer_matcher(
    alloc: Global,
    matcher: &NameMatcher,
    value: bool,
    other: &NameMatcher,
) -> Result<Option<bool>, AllocError>
    ensures { IfOk result (IsKnownOfText (matcher_of matcher.now) value (matcher_of other.now)) }
{
    if matcher == other {
        return Ok(Some(value));
    }
    if value {
        if let Some(text) = literal_of(alloc, matcher)? {
            return Ok(Some(other.is_match(alloc, text)?));
        }
    }
    if let Some(text) = literal_of(alloc, other)? {
        let hit = matcher.is_match(alloc, text)?;
        return Ok(only_if(hit != value, false));
    }
    infer_part(alloc, matcher, value, other)
}

/// Infers the value of a leaf from the value of another. The only error is out of memory.
pub(crate) fn infer(
    alloc: Global,
    leaf: &FiltersetLeaf,
    value: bool,
    other: &FiltersetLeaf,
) -> Result<Option<bool>, AllocError>
    ensures { IfOk result (λ inferred. (test : AnyTest) → (IsTrue value ↔ Says test (compiled_leaf leaf.now))
        → IsKnown inferred (Says test (compiled_leaf other.now))) }
{
    match (leaf, other) {
        (FiltersetLeaf::Packages(ids), FiltersetLeaf::Packages(others)) => {
            Ok(infer_package(ids, value, others))
        }
        (FiltersetLeaf::Platform(platform, _), FiltersetLeaf::Platform(other, _)) => {
            Ok(Some((platform == other) == value))
        }
        (FiltersetLeaf::Kind(matcher, _), FiltersetLeaf::Kind(other, _)) => {
            infer_matcher(alloc, matcher, value, other)
        }
        (FiltersetLeaf::Binary(matcher, _), FiltersetLeaf::Binary(other, _)) => {
            infer_matcher(alloc, matcher, value, other)
        }
        (FiltersetLeaf::BinaryId(matcher, _), FiltersetLeaf::BinaryId(other, _)) => {
            infer_matcher(alloc, matcher, value, other)
        }
        (FiltersetLeaf::Test(matcher, _), FiltersetLeaf::Test(other, _)) => {
            infer_matcher(alloc, matcher, value, other)
        }
        (FiltersetLeaf::Group(matcher, _), FiltersetLeaf::Group(other, _)) => {
            infer_matcher(alloc, matcher, value, other)
        }
        _ => Ok(None),
    }
}
