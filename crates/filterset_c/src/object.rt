//! What a handle holds.
ghost use Rattle.std.specs.Prelude.{◌≡◌, false};
ghost use Rattle.filterset_expression.specs.Expression.{has_leaf, is_default, is_group};
ghost use Rattle.nextest_filtering.specs.Groups.{IsKnown};
ghost use Rattle.filterset_c.specs.Facts.{is_known_prop};

use crate::faults::Span;
use nextest_filtering::{
    CompiledExpr, EvalContext, Filterset, FiltersetParseErrors, KnownGroups, PackageGraph,
};

/// What filtersets are parsed against.
#[derive(Debug, Drop)]
pub struct Workspace {
    pub graph: PackageGraph,
    pub known_groups: KnownGroups,
    /// The text of the default filter; `None` if that is `all()`.
    pub default_filter: Option<String>,
    /// How many levels of parentheses and negations a text may have; 0 if there is no limit.
    pub depth: usize,
    ghost known: { IsKnown known_groups } by { is_known_prop known_groups },
}

/// A filterset, with the default filter that replaces each `default()`.
#[derive(Debug, Drop)]
pub struct BoundFilterset {
    pub filterset: Filterset,
    pub default_filter: CompiledExpr,
    ghost no_default: { has_leaf is_default default_filter ≡ false },
    ghost no_group: { has_leaf is_group default_filter ≡ false },
}

impl BoundFilterset {
    ghost use Rattle.filterset_expression.specs.Contexts.{default_of};

    /// Returns the context in which the filterset is evaluated.
    pub fn eval_context(&self) -> EvalContext<'_>
        ensures { default_of result ≡ self.now.default_filter }
    {
        EvalContext::new(&self.default_filter)
    }
}

/// Why a text was rejected.
#[derive(Debug, Drop)]
pub enum Refusal {
    /// Its faults.
    Faults(FiltersetParseErrors),
    /// Where it passes the workspace's limit of levels.
    TooDeep(Span),
}

/// What a handle holds.
#[derive(Debug, Drop)]
pub enum Object {
    Workspace(Workspace),
    Filterset(BoundFilterset),
    Refused(Refusal),
}
