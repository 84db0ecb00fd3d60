//! Trees without the operands that change nothing beside another tree.
ghost use Rattle.std.specs.Prelude.{◌≡◌, IfOk, option_map};
ghost use Rattle.filterset_language.specs.Views.{tree_of};
ghost use Rattle.filterset_deciding.specs.Simplifying.Reducing.{kept_disjuncts, kept_conjuncts};

use crate::simplifying::implying::{admits_fact_of, says_one_of};
use filterset_language::nodes::{join, unite};
use filterset_language::{Joiner, ParsedExpr};
use std::alloc::{AllocError, Global};

/// Returns the tree without the disjuncts that say a disjunct of the other tree, or nothing if all of them do.
pub fn keep_disjuncts<S: Drop>(
    alloc: Global,
    expr: Box<ParsedExpr<S>>,
    beside: &ParsedExpr<S>,
) -> Result<Option<Box<ParsedExpr<S>>>, AllocError>
    ensures { IfOk result (λ kept.
        option_map (λ tree. tree_of tree.value) kept ≡ kept_disjuncts (tree_of beside.now) (tree_of expr.value)) }
{
    match Box::into_inner(expr) {
        ParsedExpr::Union(operator, left, right) => {
            let left = keep_disjuncts(alloc, left, beside)?;
            match (left, keep_disjuncts(alloc, right, beside)?) {
                (Some(left), Some(right)) => Ok(Some(unite(alloc, operator, left, right)?)),
                (Some(kept), None) | (None, Some(kept)) => Ok(Some(kept)),
                (None, None) => Ok(None),
            }
        }
        operand => {
            if says_one_of(&operand, beside) {
                return Ok(None);
            }
            Ok(Some(Box::new(alloc, operand)?))
        }
    }
}

/// Returns the tree without the conjuncts that admit a fact of the other tree, or nothing if all of them do.
pub fn keep_conjuncts<S: Drop>(
    alloc: Global,
    expr: Box<ParsedExpr<S>>,
    beside: &ParsedExpr<S>,
) -> Result<Option<Box<ParsedExpr<S>>>, AllocError>
    ensures { IfOk result (λ kept.
        option_map (λ tree. tree_of tree.value) kept ≡ kept_conjuncts (tree_of beside.now) (tree_of expr.value)) }
{
    match Box::into_inner(expr) {
        ParsedExpr::Intersection(operator, left, right) => {
            let left = keep_conjuncts(alloc, left, beside)?;
            match (left, keep_conjuncts(alloc, right, beside)?) {
                (Some(left), Some(right)) => {
                    Ok(Some(join(alloc, Joiner::Both(operator), left, right)?))
                }
                (Some(kept), None) | (None, Some(kept)) => Ok(Some(kept)),
                (None, None) => Ok(None),
            }
        }
        operand => {
            if admits_fact_of(&operand, beside) {
                return Ok(None);
            }
            Ok(Some(Box::new(alloc, operand)?))
        }
    }
}
