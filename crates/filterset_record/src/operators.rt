//! The operators above the first leaf of an expression.
ghost use Rattle.std.specs.Prelude.{◌≡◌, IfOk};
ghost use Rattle.filterset_expression.specs.{Expression.compiled_leaf, Expression.formula, Formula.Leaf};
ghost use Rattle.filterset_record.specs.Operators.{applied};

use filterset_expression::{CompiledExpr, Connective, FiltersetLeaf};
use std::alloc::AllocError;

/// An operator without its first operand.
#[derive(Clone, Copy, Drop)]
pub(crate) enum Operator<'a> {
    Negation,
    /// The connective with its right operand.
    Binary(Connective, &'a CompiledExpr),
}

/// Appends the operators above the first leaf of an expression, the outermost first, and returns the leaf. The only error
/// is out of memory.
#[tactic(auto, using(crate::proofs::OperatorLemmas::applied_last))]
pub(crate) fn list_operators<'a>(
    expr: &'a CompiledExpr,
    operators: &mut Vec<Operator<'a>>,
) -> Result<&'a FiltersetLeaf, AllocError>
    ensures { IfOk result (λ leaf. applied operators.new.items (Leaf (compiled_leaf leaf.now))
        ≡ applied operators.old.items (formula expr.now)) }
{
    let mut node = expr;
    loop {
        match node {
            CompiledExpr::Not(operand) => {
                operators.push(Operator::Negation)?;
                node = operand;
            }
            CompiledExpr::Union(left, right) => {
                operators.push(Operator::Binary(Connective::Disjunction, right))?;
                node = left;
            }
            CompiledExpr::Intersection(left, right) => {
                operators.push(Operator::Binary(Connective::Conjunction, right))?;
                node = left;
            }
            CompiledExpr::SymmetricDifference(left, right) => {
                operators.push(Operator::Binary(Connective::ExclusiveDisjunction, right))?;
                node = left;
            }
            CompiledExpr::Set(leaf) => return Ok(leaf),
        }
    }
}
