//! The context of an evaluation.
ghost use Rattle.std.specs.Prelude.{◌≡◌, false};
ghost use Rattle.filterset_expression.specs.Expression.{has_leaf, is_default, is_group};

use crate::CompiledExpr;

/// The default filter, which replaces each `default` leaf. It has no `default` and no `group` leaf itself, so evaluation
/// ends.
#[derive(Clone, Copy, Debug)]
pub struct EvalContext<'a> {
    default_filter: &'a CompiledExpr,
    ghost no_default: { has_leaf is_default default_filter.now ≡ false },
    ghost no_group: { has_leaf is_group default_filter.now ≡ false },
}

impl<'a> EvalContext<'a> {
    ghost use Rattle.filterset_expression.specs.Contexts.{default_of};

    /// Returns the context with this default filter.
    ///
    /// [`CompiledExpr::has_default_leaf`] and [`CompiledExpr::has_group_matchers`] test the two conditions. The compiled
    /// expression of a filterset of kind `DefaultFilter` meets both.
    pub fn new(default_filter: &'a CompiledExpr) -> EvalContext<'a>
        requires no_default { has_leaf is_default default_filter.now ≡ false }
        requires no_group { has_leaf is_group default_filter.now ≡ false }
        ensures { default_of result ≡ default_filter.now }
    {
        EvalContext { default_filter }
    }

    /// Returns the default filter.
    pub fn default_filter(&self) -> &'a CompiledExpr
        ensures same { result.now ≡ default_of self.now }
        ensures no_default { has_leaf is_default result.now ≡ false }
        ensures no_group { has_leaf is_group result.now ≡ false }
    {
        self.default_filter
    }
}
