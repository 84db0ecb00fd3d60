//! Implications between trees that can be seen without asking what their predicates match.
ghost use Rattle.std.specs.Prelude.{◌≡◌};
ghost use Rattle.filterset_language.specs.Views.{tree_of};
ghost use Rattle.filterset_deciding.specs.Simplifying.Implying.{says, admits, implies, says_one_of, admits_fact_of};

use crate::simplifying::alike::are_alike;
use filterset_language::ParsedExpr;

/// Returns whether the tree says the other: it is like it, or an operand of an intersection or the left operand of a
/// difference says it.
pub fn says<S>(expr: &ParsedExpr<S>, other: &ParsedExpr<S>) -> bool
    ensures { result ≡ says (tree_of expr.now) (tree_of other.now) }
{
    match expr {
        ParsedExpr::Intersection(_, left, right) => {
            are_alike(expr, other) || says(left, other) || says(right, other)
        }
        ParsedExpr::Difference(_, left, _) => are_alike(expr, other) || says(left, other),
        _ => are_alike(expr, other),
    }
}

/// Returns whether the tree admits the other: the other is like it, or an operand of a union admits it.
pub fn admits<S>(expr: &ParsedExpr<S>, other: &ParsedExpr<S>) -> bool
    ensures { result ≡ admits (tree_of expr.now) (tree_of other.now) }
{
    match expr {
        ParsedExpr::Union(_, left, right) => {
            are_alike(other, expr) || admits(left, other) || admits(right, other)
        }
        _ => are_alike(other, expr),
    }
}

/// Returns whether the tree says the other, or an operand of the other if that is a union.
pub fn implies<S>(expr: &ParsedExpr<S>, other: &ParsedExpr<S>) -> bool
    ensures { result ≡ implies (tree_of expr.now) (tree_of other.now) }
{
    match other {
        ParsedExpr::Union(_, left, right) => {
            says(expr, other) || implies(expr, left) || implies(expr, right)
        }
        _ => says(expr, other),
    }
}

/// Returns whether the tree says a disjunct of the other.
pub fn says_one_of<S>(expr: &ParsedExpr<S>, other: &ParsedExpr<S>) -> bool
    ensures { result ≡ says_one_of (tree_of expr.now) (tree_of other.now) }
{
    match other {
        ParsedExpr::Union(_, left, right) => says_one_of(expr, left) || says_one_of(expr, right),
        _ => says(expr, other),
    }
}

/// Returns whether the tree admits a fact of the other.
pub fn admits_fact_of<S>(expr: &ParsedExpr<S>, other: &ParsedExpr<S>) -> bool
    ensures { result ≡ admits_fact_of (tree_of expr.now) (tree_of other.now) }
{
    match other {
        ParsedExpr::Intersection(_, left, right) => {
            admits_fact_of(expr, left) || admits_fact_of(expr, right)
        }
        ParsedExpr::Difference(_, left, _) => admits(expr, other) || admits_fact_of(expr, left),
        _ => admits(expr, other),
    }
}
