//! Predicates that are banned from filtersets of a kind.
ghost use Rattle.std.specs.{Prelude.◌≡◌, Prelude.map, Prelude.IfOk, List.filter, List.filter_map};
ghost use Rattle.nextest_filtering.specs.Bans.{ban, banned, is_banned};
ghost use Rattle.filterset_grammar.specs.Tree.{tree_leaves};
ghost use Rattle.filterset_language.specs.Views.{leaf_of, tree_of};

use filterset_faults::{BannedPredicateReason, FiltersetKind, ParseSingleError, SourceSpan};
use filterset_language::{ParsedExpr, ParsedLeaf};
use std::alloc::{AllocError, Global};

/// Returns the banned predicates of a tree, from left to right.
pub(super) fn find_banned(
    alloc: Global,
    kind: FiltersetKind,
    expr: &ParsedExpr,
) -> Result<Vec<&ParsedLeaf>, AllocError>
    ensures { IfOk result (λ found.
        map (λ leaf. leaf_of leaf.now) found.items ≡ filter (is_banned kind) (tree_leaves (tree_of expr.now))) }
{
    expr.leaves_where(alloc, |leaf| ban_of(kind, leaf).is_some())
}

/// Returns the faults of banned predicates, in their order.
#[cold]
#[inline(never)]
pub(super) fn list_bans(
    alloc: Global,
    kind: FiltersetKind,
    leaves: &[&ParsedLeaf],
) -> Result<Vec<ParseSingleError>, AllocError>
    ensures { IfOk result (λ faults.
        faults.items ≡ filter_map (ban kind) (map (λ leaf. leaf_of leaf.now) leaves.now)) }
{
    let mut faults = Vec::with_capacity(alloc, leaves.len())?;
    for leaf in leaves {
        if let Some((span, reason)) = ban_of(kind, leaf) {
            faults.push(ParseSingleError::BannedPredicate { span, kind, reason })?;
        }
    }
    Ok(faults)
}

/// Returns the span of a predicate and why it is banned, if it is.
fn ban_of(kind: FiltersetKind, leaf: &ParsedLeaf) -> Option<(SourceSpan, BannedPredicateReason)>
    ensures { result ≡ banned kind (leaf_of leaf.now) }
{
    match (kind, leaf) {
        (FiltersetKind::OverrideFilter, ParsedLeaf::Group(_, span)) => {
            Some((*span, BannedPredicateReason::GroupCircularDependency))
        }
        (FiltersetKind::TestArchive, ParsedLeaf::Test(_, span)) => {
            Some((*span, BannedPredicateReason::TestNotAvailableInArchive))
        }
        (FiltersetKind::TestArchive, ParsedLeaf::Group(_, span)) => {
            Some((*span, BannedPredicateReason::GroupNotAvailableInArchive))
        }
        (FiltersetKind::DefaultFilter, ParsedLeaf::Default(span)) => {
            Some((*span, BannedPredicateReason::DefaultInfiniteRecursion))
        }
        (FiltersetKind::DefaultFilter, ParsedLeaf::Group(_, span)) => {
            Some((
                *span,
                BannedPredicateReason::GroupNotAvailableInDefaultFilter,
            ))
        }
        _ => None,
    }
}
