//! The operands of compiled expressions.
ghost use Rattle.std.specs.Prelude.{◌≡◌};
ghost use Rattle.filterset_expression.specs.Expression.{formula};
ghost use Rattle.filterset_listing.specs.Operands.{left_of, negated_by, right_of};

use filterset_expression::CompiledExpr;

/// Returns the operand of a negation, and any other expression itself.
pub fn negated_by(expr: &CompiledExpr) -> &CompiledExpr
    ensures { formula result.now ≡ negated_by (formula expr.now) }
{
    match expr {
        CompiledExpr::Not(operand) => operand,
        _ => expr,
    }
}

/// Returns the operands of an operator that has two, and any other expression itself twice.
pub fn operands_of(expr: &CompiledExpr) -> (&CompiledExpr, &CompiledExpr)
    ensures left { formula result.0.now ≡ left_of (formula expr.now) }
    ensures right { formula result.1.now ≡ right_of (formula expr.now) }
{
    match expr {
        CompiledExpr::Union(left, right)
        | CompiledExpr::Intersection(left, right)
        | CompiledExpr::SymmetricDifference(left, right) => (left, right),
        _ => (expr, expr),
    }
}
