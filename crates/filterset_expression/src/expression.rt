//! Compiled expressions and their evaluation.
ghost use Rattle.std.specs.Prelude.{◌≡◌, ◌↔◌, Bool, false, Some, None, IfOk, IsTrue};
ghost use Rattle.filterset_expression.specs.Expression.{formula, has_leaf, is_default, is_group, no_groups, Holds, IsDefinite, IsUndecided};

use crate::nodes::copy_expr;
use crate::{BinaryQuery, EvalContext, FiltersetLeaf, FlatExpr, GroupLookup, TestQuery};
use std::alloc::{AllocError, Global};

/// A compiled expression: sets of tests and operators on them.
#[derive(Debug, Drop)]
pub enum CompiledExpr {
    /// The tests that are not in the set.
    Not(Box<CompiledExpr>),
    /// The tests that are in at least one of the two sets.
    Union(Box<CompiledExpr>, Box<CompiledExpr>),
    /// The tests that are in both sets.
    Intersection(Box<CompiledExpr>, Box<CompiledExpr>),
    /// The tests that are in exactly one of the two sets.
    SymmetricDifference(Box<CompiledExpr>, Box<CompiledExpr>),
    /// The tests of a leaf.
    Set(FiltersetLeaf),
}

impl CompiledExpr {
    ghost use Rattle.filterset_expression.specs.Contexts.{default_of};

    /// The set of all tests.
    pub const ALL: CompiledExpr = CompiledExpr::Set(FiltersetLeaf::All);

    /// Returns whether the expression has a `default` leaf.
    pub fn has_default_leaf(&self) -> bool
        ensures { result ≡ has_leaf is_default self.now }
    {
        match self {
            CompiledExpr::Not(operand) => operand.has_default_leaf(),
            CompiledExpr::Union(left, right)
            | CompiledExpr::Intersection(left, right)
            | CompiledExpr::SymmetricDifference(left, right) => {
                left.has_default_leaf() || right.has_default_leaf()
            }
            CompiledExpr::Set(leaf) => matches!(leaf, FiltersetLeaf::Default),
        }
    }

    /// Returns whether the expression has a `group` leaf.
    pub fn has_group_matchers(&self) -> bool
        ensures { result ≡ has_leaf is_group self.now }
    {
        match self {
            CompiledExpr::Not(operand) => operand.has_group_matchers(),
            CompiledExpr::Union(left, right)
            | CompiledExpr::Intersection(left, right)
            | CompiledExpr::SymmetricDifference(left, right) => {
                left.has_group_matchers() || right.has_group_matchers()
            }
            CompiledExpr::Set(leaf) => matches!(leaf, FiltersetLeaf::Group(..)),
        }
    }

    /// Evaluates the expression for a binary: `Some(true)` if it matches every test of the binary, `Some(false)` if it
    /// matches none, whatever `test` and `group` leaves answer, and `None` if that depends on their answers.
    ///
    /// Each `test` and `group` leaf may answer differently, even if two are equal: `test(a) or not test(a)` is `None`. The
    /// context's default filter replaces each `default` leaf, each time with leaves of its own. The only error is out of
    /// memory.
    pub fn matches_binary(
        &self,
        alloc: Global,
        query: &BinaryQuery<'_>,
        cx: &EvalContext<'_>,
    ) -> Result<Option<bool>, AllocError>
        ensures definite { IfOk result (λ answer. (b : Bool)
            → (answer ≡ Some b) ↔ IsDefinite self.now query.now (default_of cx.now) b) }
        ensures undecided { IfOk result (λ answer.
            (answer ≡ None) ↔ IsUndecided self.now query.now (default_of cx.now)) }
    {
        FlatExpr::new(alloc, self, cx)?.matches_binary(alloc, query)
    }

    /// Returns whether the expression matches the test. The context's default filter replaces each `default` leaf.
    ///
    /// The expression must have no `group` leaf, which [`CompiledExpr::has_group_matchers`] tests. The only error is out
    /// of memory.
    pub fn matches_test(
        &self,
        alloc: Global,
        query: &TestQuery<'_>,
        cx: &EvalContext<'_>,
    ) -> Result<bool, AllocError>
        requires { has_leaf is_group self.now ≡ false }
        ensures holds { IfOk result (λ answer.
            IsTrue answer ↔ Holds self.now query.now (default_of cx.now) no_groups) }

        // If the test's binary decides the expression, that is the answer.
        ensures settled { IfOk result (λ answer. (b : Bool)
            → IsDefinite self.now query.now.binary_query (default_of cx.now) b → answer ≡ b) }
    {
        FlatExpr::new(alloc, self, cx)?.matches_test(alloc, query)
    }

    /// Returns whether the expression matches the test; the lookup answers `group` leaves. The context's default filter
    /// replaces each `default` leaf. The only error is out of memory, here or in the lookup.
    pub fn matches_test_with_groups(
        &self,
        alloc: Global,
        query: &TestQuery<'_>,
        cx: &EvalContext<'_>,
        groups: &dyn GroupLookup,
    ) -> Result<bool, AllocError>
        ensures holds { IfOk result (λ answer.
            IsTrue answer ↔ Holds self.now query.now (default_of cx.now) (matches_group groups.now)) }

        // If the test's binary decides the expression, that is the answer. Without a `group` leaf every lookup gives the
        // same answer.
        ensures settled { IfOk result (λ answer. (b : Bool)
            → IsDefinite self.now query.now.binary_query (default_of cx.now) b → answer ≡ b) }
        ensures ungrouped { has_leaf is_group self.now ≡ false → IfOk result (λ answer.
            IsTrue answer ↔ Holds self.now query.now (default_of cx.now) no_groups) }
    {
        FlatExpr::new(alloc, self, cx)?.matches_test_with_groups(alloc, query, groups)
    }

    /// Copies the expression. The only error is out of memory.
    pub fn try_clone(&self, alloc: Global) -> Result<CompiledExpr, AllocError>
        ensures { IfOk result (λ copy. formula copy ≡ formula self.now) }
    {
        Ok(Box::into_inner(copy_expr(alloc, self)?))
    }
}
