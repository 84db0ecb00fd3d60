//! Expressions that are evaluated for all tests of a binary at once.
ghost use Rattle.std.specs.Prelude.{◌≡◌, ◌<◌, ◌↔◌, Bool, false, IfOk, IsTrue, List, length, ℕ};
ghost use Rattle.filterset_faults.specs.declared.span.SourceSpan.{SourceSpan};
ghost use Rattle.filterset_graph.specs.declared.package.PackageMetadata.{PackageMetadata};
ghost use Rattle.filterset_grammar.specs.Tree.{Tree};
ghost use Rattle.filterset_expression.specs.Contexts.{default_of};
ghost use Rattle.filterset_expression.specs.Expression.{has_leaf, is_default, is_group, no_groups, Holds, IsDefinite};
ghost use Rattle.filterset_expression.specs.Meaning.{IsCompiled, Meaning};

use crate::column::Column;
use crate::evaluating::{AskedTests, evaluate, evaluate_itself};
use crate::groups::PlacedLookup;
use crate::names::Names;
use crate::search::Searchers;
use filterset_expression::{BinaryQuery, CompiledExpr, EvalContext};
use std::alloc::{AllocError, Global};

/// An expression to evaluate for all tests of a binary at once. It keeps what it prepares for names from one binary to the
/// next.
#[derive(Drop)]
pub struct ColumnExpr<'a> {
    expr: &'a CompiledExpr,
    context: EvalContext<'a>,
    has_default: bool,
    searchers: Searchers<'a>,
    default_searchers: Searchers<'a>,
    ghost defaults_known: { has_default ≡ has_leaf is_default expr.now },
}

impl<'a> ColumnExpr<'a> {
    ghost use Rattle.filterset_record.specs.Columns.{answer_of, default_filter_of, expr_of, names_of, test_of, Answered};

    /// Prepares the expression; the context's default filter replaces each `default` leaf.
    pub fn new(alloc: Global, expr: &'a CompiledExpr, context: EvalContext<'a>) -> ColumnExpr<'a>
        ensures expr { expr_of result ≡ expr.entry.now }
        ensures default { default_filter_of result ≡ default_of context.entry }
    {
        ColumnExpr {
            expr,
            context,
            has_default: expr.has_default_leaf(),
            searchers: Searchers::new(alloc),
            default_searchers: Searchers::new(alloc),
        }
    }

    /// Evaluates the expression for each test. The only error is out of memory, here or in the lookup.
    fn evaluate(
        &mut self,
        alloc: Global,
        query: &BinaryQuery<'_>,
        names: &Names<'_>,
        groups: &dyn PlacedLookup,
    ) -> Result<Column, AllocError>
        ensures holds { IfOk result (λ column. Answered column (names_of names.now) (λ name.
            Holds (expr_of self.old) (test_of query.now name) (default_filter_of self.old) (matches_group groups.now))) }
        ensures same { (expr_of self.new ≡ expr_of self.old) × (default_filter_of self.new ≡ default_filter_of self.old) }
    {
        if !self.has_default {
            return evaluate_itself(alloc, self.expr, query, names, groups, &mut self.searchers);
        }
        let filter = self.context.default_filter();
        let searchers = &mut self.default_searchers;
        let tests = AskedTests {
            query,
            names,
            filter,
            defaults: evaluate_itself(alloc, filter, query, names, groups, searchers)?,
        };
        evaluate(alloc, self.expr, &tests, groups, &mut self.searchers)
    }

    /// Returns whether the expression matches each test of a binary; the lookup answers `group` leaves. The only error is
    /// out of memory, here or in the lookup.
    ///
    /// Each answer is that of [`CompiledExpr::matches_test_with_groups`] for the test.
    pub fn matches_tests(
        &mut self,
        alloc: Global,
        query: &BinaryQuery<'_>,
        names: &Names<'_>,
        groups: &dyn PlacedLookup,
    ) -> Result<Column, AllocError>
        ensures holds { IfOk result (λ column. Answered column (names_of names.now) (λ name.
            Holds (expr_of self.old) (test_of query.now name) (default_filter_of self.old) (matches_group groups.now))) }

        // If the binary decides the expression, that is the answer for each test. Without a `group` leaf every lookup gives
        // the same answers.
        ensures settled { IfOk result (λ column. (b : Bool)
            → IsDefinite (expr_of self.old) query.now (default_filter_of self.old) b
            → (i : ℕ) → i < length (names_of names.now) → answer_of column i ≡ b) }
        ensures ungrouped { has_leaf is_group (expr_of self.old) ≡ false → IfOk result (λ column.
            Answered column (names_of names.now) (λ name.
            Holds (expr_of self.old) (test_of query.now name) (default_filter_of self.old) no_groups)) }

        // If the expression is a compiled tree, each answer is the tree's meaning.
        ensures meaning { IfOk result (λ column. (packages : List PackageMetadata) (e : Tree SourceSpan)
            → IsCompiled packages e (expr_of self.old) → Answered column (names_of names.now) (λ name.
            Meaning e packages (test_of query.now name) (default_filter_of self.old) (matches_group groups.now))) }

        // The next call is about the same expression.
        ensures same { (expr_of self.new ≡ expr_of self.old) × (default_filter_of self.new ≡ default_filter_of self.old) }
    {
        self.evaluate(alloc, query, names, groups)
    }
}
