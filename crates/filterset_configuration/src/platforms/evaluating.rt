//! Evaluates expressions as far as the facts decide them.
ghost use Rattle.std.specs.Prelude.{◌≡◌};
ghost use Rattle.filterset_configuration.specs.PlatformTrees.{expr_of, exprs_of, facts_of};
ghost use Rattle.filterset_configuration.specs.PlatformValues.{all_value, any_value, both, either, value};

use crate::platforms::expressions::CfgExpr;
use crate::platforms::facts::PlatformFacts;

/// Returns whether both are true, as far as that is known.
pub(crate) fn both(left: Option<bool>, right: Option<bool>) -> Option<bool>
    ensures { result ≡ both left right }
{
    match (left, right) {
        (Some(false), _) | (_, Some(false)) => Some(false),
        (Some(true), _) => right,
        (None, _) => None,
    }
}

/// Returns whether one of the two is true, as far as that is known.
fn either(left: Option<bool>, right: Option<bool>) -> Option<bool>
    ensures { result ≡ either left right }
{
    match (left, right) {
        (Some(true), _) | (_, Some(true)) => Some(true),
        (Some(false), _) => right,
        (None, _) => None,
    }
}

/// Returns whether an expression is true.
#[cycle(values)]
pub(crate) fn value_of(expression: &CfgExpr, facts: &PlatformFacts) -> Option<bool>
    ensures { result ≡ value (facts_of facts.now).settings (expr_of expression.now) }
{
    match expression {
        CfgExpr::Value(setting) => facts.is_set(setting),
        CfgExpr::Literal(value) => Some(*value),
        CfgExpr::Not(operand) => value_of(operand, facts).map(|value| !value),
        CfgExpr::All(expressions) => all_value(expressions, facts),
        CfgExpr::Any(expressions) => any_value(expressions, facts),
    }
}

/// Returns whether all of the expressions are true.
#[cycle(values)]
fn all_value(expressions: &[CfgExpr], facts: &PlatformFacts) -> Option<bool>
    ensures { result ≡ all_value (facts_of facts.now).settings (exprs_of expressions.now) }
{
    let mut value = Some(true);
    for expression in expressions {
        value = both(value, value_of(expression, facts));
    }
    value
}

/// Returns whether one of the expressions is true.
#[cycle(values)]
fn any_value(expressions: &[CfgExpr], facts: &PlatformFacts) -> Option<bool>
    ensures { result ≡ any_value (facts_of facts.now).settings (exprs_of expressions.now) }
{
    let mut value = Some(false);
    for expression in expressions {
        value = either(value, value_of(expression, facts));
    }
    value
}
