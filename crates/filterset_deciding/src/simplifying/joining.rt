//! What operators make of what is left of their operands.
ghost use Rattle.std.specs.Prelude.{◌≡◌, IfOk};
ghost use Rattle.filterset_language.specs.Views.{tree_of};
ghost use Rattle.filterset_deciding.specs.Simplifying.Reducing.{reduction_of, negated, united, united_trees, intersected, intersected_trees, subtracted, differing};

use crate::simplifying::alike::are_alike;
use crate::simplifying::implying::implies;
use crate::simplifying::keeping::{keep_conjuncts, keep_disjuncts};
use crate::simplifying::reduction::Reduction;
use filterset_language::{
    AndOperator, DifferenceOperator, Joiner, NotOperator, OrOperator, ParsedExpr,
    SymmetricDifferenceOperator, nodes,
};
use std::alloc::{AllocError, Global};

/// Negates what is left of an operand.
pub fn negate<S: Drop>(
    alloc: Global,
    operator: NotOperator,
    operand: Reduction<S>,
) -> Result<Reduction<S>, AllocError>
    ensures { IfOk result (λ made. reduction_of made ≡ negated operator (reduction_of operand)) }
{
    match operand {
        Reduction::Constant(value) => Ok(Reduction::Constant(!value)),
        Reduction::Tree(tree) => match Box::into_inner(tree) {
            ParsedExpr::Not(_, inner) => Ok(Reduction::Tree(inner)),
            operand => {
                let operand = Box::new(alloc, operand)?;
                Ok(Reduction::Tree(nodes::negate(alloc, operator, operand)?))
            }
        },
    }
}

/// Unites two trees, each without the disjuncts that change nothing beside the other.
fn unite_trees<S: Drop>(
    alloc: Global,
    operator: OrOperator,
    left: Box<ParsedExpr<S>>,
    right: Box<ParsedExpr<S>>,
) -> Result<Reduction<S>, AllocError>
    ensures { IfOk result (λ made.
        reduction_of made ≡ united_trees operator (tree_of left.value) (tree_of right.value)) }
{
    match keep_disjuncts(alloc, right, &left)? {
        None => Ok(Reduction::Tree(left)),
        Some(right) => match keep_disjuncts(alloc, left, &right)? {
            None => Ok(Reduction::Tree(right)),
            Some(left) => Ok(Reduction::Tree(nodes::unite(alloc, operator, left, right)?)),
        },
    }
}

/// Unites what is left of two operands.
pub fn unite<S: Drop>(
    alloc: Global,
    operator: OrOperator,
    left: Reduction<S>,
    right: Reduction<S>,
) -> Result<Reduction<S>, AllocError>
    ensures { IfOk result (λ made.
        reduction_of made ≡ united operator (reduction_of left) (reduction_of right)) }
{
    match left {
        Reduction::Constant(true) => Ok(Reduction::Constant(true)),
        Reduction::Constant(false) => Ok(right),
        Reduction::Tree(left) => match right {
            Reduction::Constant(true) => Ok(Reduction::Constant(true)),
            Reduction::Constant(false) => Ok(Reduction::Tree(left)),
            Reduction::Tree(right) => unite_trees(alloc, operator, left, right),
        },
    }
}

/// Intersects two trees, each without the conjuncts that change nothing beside the other.
fn intersect_trees<S: Drop>(
    alloc: Global,
    operator: AndOperator,
    left: Box<ParsedExpr<S>>,
    right: Box<ParsedExpr<S>>,
) -> Result<Reduction<S>, AllocError>
    ensures { IfOk result (λ made.
        reduction_of made ≡ intersected_trees operator (tree_of left.value) (tree_of right.value)) }
{
    match keep_conjuncts(alloc, right, &left)? {
        None => Ok(Reduction::Tree(left)),
        Some(right) => match keep_conjuncts(alloc, left, &right)? {
            None => Ok(Reduction::Tree(right)),
            Some(left) => {
                let tree = nodes::join(alloc, Joiner::Both(operator), left, right)?;
                Ok(Reduction::Tree(tree))
            }
        },
    }
}

/// Intersects what is left of two operands.
pub fn intersect<S: Drop>(
    alloc: Global,
    operator: AndOperator,
    left: Reduction<S>,
    right: Reduction<S>,
) -> Result<Reduction<S>, AllocError>
    ensures { IfOk result (λ made.
        reduction_of made ≡ intersected operator (reduction_of left) (reduction_of right)) }
{
    match left {
        Reduction::Constant(true) => Ok(right),
        Reduction::Constant(false) => Ok(Reduction::Constant(false)),
        Reduction::Tree(left) => match right {
            Reduction::Constant(true) => Ok(Reduction::Tree(left)),
            Reduction::Constant(false) => Ok(Reduction::Constant(false)),
            Reduction::Tree(right) => intersect_trees(alloc, operator, left, right),
        },
    }
}

/// Takes what is left of one operand away from what is left of another.
pub fn subtract<S: Drop>(
    alloc: Global,
    operator: DifferenceOperator,
    left: Reduction<S>,
    right: Reduction<S>,
) -> Result<Reduction<S>, AllocError>
    ensures { IfOk result (λ made.
        reduction_of made ≡ subtracted operator (reduction_of left) (reduction_of right)) }
{
    match left {
        Reduction::Constant(true) => negate(alloc, NotOperator::LiteralNot, right),
        Reduction::Constant(false) => Ok(Reduction::Constant(false)),
        Reduction::Tree(left) => match right {
            Reduction::Constant(true) => Ok(Reduction::Constant(false)),
            Reduction::Constant(false) => Ok(Reduction::Tree(left)),
            Reduction::Tree(right) => {
                if implies(&left, &right) {
                    return Ok(Reduction::Constant(false));
                }
                let tree = nodes::join(alloc, Joiner::Without(operator), left, right)?;
                Ok(Reduction::Tree(tree))
            }
        },
    }
}

/// Takes the symmetric difference of what is left of two operands.
pub fn differ<S: Drop>(
    alloc: Global,
    operator: SymmetricDifferenceOperator,
    left: Reduction<S>,
    right: Reduction<S>,
) -> Result<Reduction<S>, AllocError>
    ensures { IfOk result (λ made.
        reduction_of made ≡ differing operator (reduction_of left) (reduction_of right)) }
{
    match left {
        Reduction::Constant(true) => negate(alloc, NotOperator::LiteralNot, right),
        Reduction::Constant(false) => Ok(right),
        Reduction::Tree(left) => match right {
            Reduction::Constant(true) => {
                negate(alloc, NotOperator::LiteralNot, Reduction::Tree(left))
            }
            Reduction::Constant(false) => Ok(Reduction::Tree(left)),
            Reduction::Tree(right) => {
                if are_alike(&left, &right) {
                    return Ok(Reduction::Constant(false));
                }
                let tree = nodes::join(alloc, Joiner::ExactlyOne(operator), left, right)?;
                Ok(Reduction::Tree(tree))
            }
        },
    }
}
