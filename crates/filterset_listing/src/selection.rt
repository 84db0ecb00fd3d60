//! The tests that a runner runs, given filtersets and the default filter.
ghost use Rattle.std.specs.Prelude.{◌≡◌, IfOk, MatchOption};
ghost use Rattle.filterset_expression.specs.{declared.logic.Connective.TheVariants.Disjunction, Expression.formula};
ghost use Rattle.filterset_expression.specs.Formula.{Compound};
ghost use Rattle.filterset_listing.specs.{Union.union_formula, Selection.IsSelection, Selection.MeansSelection};

use filterset_expression::nodes::combine;
use filterset_expression::{CompiledExpr, Connective, FiltersetLeaf};
use std::alloc::{AllocError, Global};

/// Returns the union of the sets before a set, if there are any, and the set.
fn union_with(
    alloc: Global,
    before: Option<Box<CompiledExpr>>,
    expr: CompiledExpr,
) -> Result<Box<CompiledExpr>, AllocError>
    ensures { IfOk result (λ union. MatchOption before (formula union.value ≡ formula expr)
        (λ b. formula union.value ≡ Compound Disjunction (formula b.value) (formula expr))) }
{
    let expr = Box::new(alloc, expr)?;
    match before {
        Some(before) => combine(alloc, Connective::Disjunction, before, expr),
        None => Ok(expr),
    }
}

/// Returns the union of the sets, or the set of all tests if there are none.
fn union_of(alloc: Global, exprs: Vec<CompiledExpr>) -> Result<Box<CompiledExpr>, AllocError>
    ensures { IfOk result (λ union. formula union.value ≡ union_formula exprs.items) }
{
    let mut union = None;
    for expr in exprs {
        union = Some(union_with(alloc, union, expr)?);
    }
    match union {
        Some(union) => Ok(union),
        None => Ok(Box::new(alloc, CompiledExpr::ALL)?),
    }
}

/// Returns the set of the tests that a runner runs: those that at least one of the filtersets picks, or all tests if
/// there is no filterset, and of these only those that the default filter picks, unless `ignores_default`.
pub fn selection_of(
    alloc: Global,
    exprs: Vec<CompiledExpr>,
    ignores_default: bool,
) -> Result<CompiledExpr, AllocError>
    ensures picks { IfOk result (IsSelection ignores_default exprs.items) }
    ensures meaning { IfOk result (MeansSelection ignores_default exprs.items) }
{
    let union = union_of(alloc, exprs)?;
    if ignores_default {
        return Ok(Box::into_inner(union));
    }
    let default = Box::new(alloc, CompiledExpr::Set(FiltersetLeaf::Default))?;
    let within = combine(alloc, Connective::Conjunction, default, union)?;
    Ok(Box::into_inner(within))
}
