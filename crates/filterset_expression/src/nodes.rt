//! Constructors of compiled expressions.
//!
//! Their callers are recursive, so they return boxes and are not inlined: an expression by value would take more stack
//! at each level. Their only error is out of memory.
ghost use Rattle.std.specs.Prelude.{◌≡◌, IfOk};
ghost use Rattle.filterset_expression.specs.Expression.{compiled_leaf, formula};
ghost use Rattle.filterset_expression.specs.Formula.{Leaf, Negation, Compound};

use crate::{CompiledExpr, Connective, FiltersetLeaf};
use std::alloc::{AllocError, Global};

/// Copies an expression.
pub(crate) fn copy_expr(alloc: Global, expr: &CompiledExpr) -> Result<Box<CompiledExpr>, AllocError>
    ensures { IfOk result (λ copy. formula copy.value ≡ formula expr.now) }
{
    match expr {
        CompiledExpr::Not(operand) => negate(alloc, copy_expr(alloc, operand)?),
        CompiledExpr::Union(left, right) => {
            let left = copy_expr(alloc, left)?;
            combine(
                alloc,
                Connective::Disjunction,
                left,
                copy_expr(alloc, right)?,
            )
        }
        CompiledExpr::Intersection(left, right) => {
            let left = copy_expr(alloc, left)?;
            combine(
                alloc,
                Connective::Conjunction,
                left,
                copy_expr(alloc, right)?,
            )
        }
        CompiledExpr::SymmetricDifference(left, right) => {
            let left = copy_expr(alloc, left)?;
            combine(
                alloc,
                Connective::ExclusiveDisjunction,
                left,
                copy_expr(alloc, right)?,
            )
        }
        CompiledExpr::Set(leaf) => copy_leaf(alloc, leaf),
    }
}

/// Copies a leaf as an expression.
#[inline(never)]
fn copy_leaf(alloc: Global, leaf: &FiltersetLeaf) -> Result<Box<CompiledExpr>, AllocError>
    ensures { IfOk result (λ copy. formula copy.value ≡ Leaf (compiled_leaf leaf.now)) }
{
    let copy = leaf.try_clone(alloc)?;
    Ok(Box::new(alloc, CompiledExpr::Set(copy))?)
}

/// Returns the tests that are not in the set.
#[inline(never)]
pub fn negate(alloc: Global, operand: Box<CompiledExpr>) -> Result<Box<CompiledExpr>, AllocError>
    ensures { IfOk result (λ made. formula made.value ≡ Negation (formula operand.value)) }
{
    Ok(Box::new(alloc, CompiledExpr::Not(operand))?)
}

/// Applies the connective to two sets of tests.
#[inline(never)]
pub fn combine(
    alloc: Global,
    connective: Connective,
    left: Box<CompiledExpr>,
    right: Box<CompiledExpr>,
) -> Result<Box<CompiledExpr>, AllocError>
    ensures { IfOk result (λ made.
        formula made.value ≡ Compound connective (formula left.value) (formula right.value)) }
{
    Ok(match connective {
        Connective::Conjunction => Box::new(alloc, CompiledExpr::Intersection(left, right))?,
        Connective::Disjunction => Box::new(alloc, CompiledExpr::Union(left, right))?,
        Connective::ExclusiveDisjunction => {
            Box::new(alloc, CompiledExpr::SymmetricDifference(left, right))?
        }
    })
}
