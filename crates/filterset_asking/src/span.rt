//! Spans of the parts of a filterset.
ghost use Rattle.std.specs.Prelude.{◌≡◌};
ghost use Rattle.filterset_language.specs.Views.{tree_of};
ghost use Rattle.filterset_asking.specs.Spans.{joined, tree_span};

use filterset_entries::leaf_span;
use filterset_faults::SourceSpan;
use filterset_language::ParsedExpr;

/// Returns the span of two operands, the left one first: from the start of one to the end of the other.
fn join(left: Option<SourceSpan>, right: Option<SourceSpan>) -> Option<SourceSpan>
    ensures { result ≡ joined left right }
{
    match (left, right) {
        (Some(first), Some(last)) => {
            let end = last.offset().saturating_add(last.len());
            let len = end.saturating_sub(first.offset());
            Some(SourceSpan::new(first.offset(), len))
        }
        (Some(span), None) | (None, Some(span)) => Some(span),
        (None, None) => None,
    }
}

/// Returns the span from the argument of a tree's first predicate to that of its last. `all()` and `none()` have no span.
pub fn span_of(tree: &ParsedExpr) -> Option<SourceSpan>
    ensures { result ≡ tree_span (tree_of tree.now) }
{
    match tree {
        ParsedExpr::Not(_, operand) => span_of(operand),
        ParsedExpr::Union(_, left, right)
        | ParsedExpr::Intersection(_, left, right)
        | ParsedExpr::Difference(_, left, right)
        | ParsedExpr::SymmetricDifference(_, left, right) => join(span_of(left), span_of(right)),
        ParsedExpr::Parens(inner) => span_of(inner),
        ParsedExpr::Set(leaf) => leaf_span(leaf),
    }
}
