//! How a tree shows that a candidate stands where it may.
ghost use Rattle.std.specs.Prelude.{◌≡◌, IfOk};
ghost use Rattle.filterset_language.specs.Views.{leaf_of, tree_of};
ghost use Rattle.filterset_matchers.specs.Matchers.{matcher_of};
ghost use Rattle.filterset_offers.specs.{Candidates.row_of, Marks.has_mark};
ghost use Rattle.filterset_offers.specs.Marks as spec;

use crate::candidates::{Candidate, Mark, Owner};
use crate::named::Named;
use filterset_documents::{is_same, leaf_span};
use filterset_faults::SourceSpan;
use filterset_language::{ParsedExpr, ParsedLeaf};
use filterset_matchers::NameMatcher;
use nextest_filtering::FiltersetKind;
use std::alloc::{AllocError, Global};

/// Returns the name of a predicate.
fn leaf_name(leaf: &ParsedLeaf) -> &'static str
    ensures { result.now ≡ spec.leaf_name (leaf_of leaf.now) }
{
    match leaf {
        ParsedLeaf::Package(..) => "package",
        ParsedLeaf::Deps(..) => "deps",
        ParsedLeaf::Rdeps(..) => "rdeps",
        ParsedLeaf::Kind(..) => "kind",
        ParsedLeaf::Binary(..) => "binary",
        ParsedLeaf::BinaryId(..) => "binary_id",
        ParsedLeaf::Platform(..) => "platform",
        ParsedLeaf::Test(..) => "test",
        ParsedLeaf::Group(..) => "group",
        ParsedLeaf::Default(_) => "default",
        ParsedLeaf::All => "all",
        ParsedLeaf::None => "none",
    }
}

/// Returns whether a predicate has a name.
fn is_named(name: &str, leaf: &ParsedLeaf) -> bool
    ensures { result ≡ spec.is_named name.now (leaf_of leaf.now) }
{
    is_same(leaf_name(leaf), name)
}

/// Returns the name of a predicate of which some values are known.
fn owner_name(owner: Owner) -> &'static str
    ensures { result.now ≡ spec.owner_name owner }
{
    match owner {
        Owner::Kind => "kind",
        Owner::Platform => "platform",
        Owner::Group => "group",
    }
}

/// Returns whether a span begins so many bytes after an offset.
fn is_behind(span: Option<SourceSpan>, at: usize, far: usize) -> bool
    ensures { result ≡ spec.is_behind span at far }
{
    match span {
        Some(span) => at <= span.offset() && span.offset() - at == far,
        None => false,
    }
}

/// Returns whether a span holds so many bytes from an offset on.
fn holds(span: Option<SourceSpan>, at: usize, len: usize) -> bool
    ensures { result ≡ spec.holds span at len }
{
    match span {
        Some(span) => {
            span.offset() <= at
                && at - span.offset() <= span.len()
                && len <= span.len() - (at - span.offset())
        }
        None => false,
    }
}

/// Returns whether filtersets of a kind may not hold a predicate.
fn is_banned(kind: FiltersetKind, leaf: &ParsedLeaf) -> bool
    ensures { result ≡ spec.is_banned kind (leaf_of leaf.now) }
{
    match (kind, leaf) {
        (FiltersetKind::OverrideFilter, ParsedLeaf::Group(..))
        | (FiltersetKind::TestArchive, ParsedLeaf::Test(..))
        | (FiltersetKind::TestArchive, ParsedLeaf::Group(..))
        | (FiltersetKind::DefaultFilter, ParsedLeaf::Default(_))
        | (FiltersetKind::DefaultFilter, ParsedLeaf::Group(..)) => true,
        _ => false,
    }
}

/// Returns whether nextest reads no such operator in its configuration, where the filtersets of all kinds but one are.
fn is_foreign(kind: FiltersetKind, label: &str) -> bool
    ensures { result ≡ spec.is_foreign kind label.now }
{
    match kind {
        FiltersetKind::Test => false,
        _ => is_same(label, "^"),
    }
}

/// Returns whether the text of a matcher is a name, and no regular expression.
fn is_of_name(name: &str, matcher: &NameMatcher) -> bool
    ensures { result ≡ spec.is_of_name name.now (matcher_of matcher.now) }
{
    match matcher {
        NameMatcher::Equal { value, .. } | NameMatcher::Contains { value, .. } => {
            is_same(value.as_str(), name)
        }
        NameMatcher::Glob { glob, .. } => is_same(glob.as_str(), name),
        NameMatcher::Regex(_) => false,
    }
}

/// Returns whether the argument of a predicate is the name of what is named so.
fn takes_name(named: Named, name: &str, leaf: &ParsedLeaf) -> bool
    ensures { result ≡ spec.takes_name named name.now (leaf_of leaf.now) }
{
    match (named, leaf) {
        (Named::Package, ParsedLeaf::Package(matcher, _))
        | (Named::Package, ParsedLeaf::Deps(matcher, _))
        | (Named::Package, ParsedLeaf::Rdeps(matcher, _))
        | (Named::Binary, ParsedLeaf::Binary(matcher, _))
        | (Named::BinaryId, ParsedLeaf::BinaryId(matcher, _))
        | (Named::Test, ParsedLeaf::Test(matcher, _)) => is_of_name(name, matcher),
        _ => false,
    }
}

/// Returns whether a predicate has the mark of a candidate that begins at an offset.
fn has_mark(kind: FiltersetKind, mark: Mark, label: &str, at: usize, leaf: &ParsedLeaf) -> bool
    ensures { result ≡ has_mark kind mark label.now at (leaf_of leaf.now) }
{
    match mark {
        Mark::Begins(far) => {
            is_named(label, leaf) && is_behind(leaf_span(leaf), at, far) && !is_banned(kind, leaf)
        }
        Mark::Precedes(far) => {
            is_named("default", leaf)
                && is_behind(leaf_span(leaf), at, far)
                && !is_foreign(kind, label)
        }
        Mark::Inside(owner) => {
            is_named(owner_name(owner), leaf)
                && holds(leaf_span(leaf), at, label.len())
                && !is_banned(kind, leaf)
        }
        Mark::Names(named) => {
            takes_name(named, label, leaf)
                && holds(leaf_span(leaf), at, label.len())
                && !is_banned(kind, leaf)
        }
    }
}

/// Returns whether a candidate that begins at an offset may be a part of a predicate's argument, and not precede an operand.
fn is_hiding(mark: Mark, at: usize, leaf: &ParsedLeaf) -> bool
    ensures { result ≡ spec.is_hiding mark at (leaf_of leaf.now) }
{
    match (mark, leaf_span(leaf)) {
        (Mark::Precedes(_), Some(span)) => {
            span.offset() <= at && at - span.offset() < span.len()
        }
        _ => false,
    }
}

/// Returns whether a tree shows that a candidate, which begins at an offset, stands where it may.
pub fn shows(
    alloc: Global,
    kind: FiltersetKind,
    candidate: &Candidate<'_>,
    at: usize,
    tree: &ParsedExpr,
) -> Result<bool, AllocError>
    ensures { IfOk result (λ answer. answer ≡ spec.shows kind (row_of candidate.now) at (tree_of tree.now)) }
{
    let marked = tree.leaves_where(alloc, |leaf| {
        has_mark(kind, candidate.mark, candidate.label, at, leaf)
    })?;
    let hiding = tree.leaves_where(alloc, |leaf| is_hiding(candidate.mark, at, leaf))?;
    let is_marked = !marked.is_empty();
    let is_hidden = !hiding.is_empty();
    Ok(is_marked && !is_hidden)
}
