//! Evaluates expressions for all tests of a binary at once.
ghost use Rattle.std.specs.Prelude.{◌≡◌, ◌<◌, ◌↔◌, true, false, IfOk, IsTrue, length, ℕ};
ghost use Rattle.filterset_expression.specs.Connectives.{Decides};
ghost use Rattle.filterset_expression.specs.Expression.{compiled_leaf, formula, leaf_with_default, with_default, HoldsOfBinary, HoldsOfTest};
ghost use Rattle.filterset_expression.specs.Formula.{TrueWhere};
ghost use Rattle.filterset_record.specs.Columns.{answer_of, names_of, test_of, Answered, AnsweredWhere};

use crate::column::Column;
use crate::groups::PlacedLookup;
use crate::names::Names;
use crate::operators::{Operator, list_operators};
use crate::search::{Searchers, search_groups, search_names};
use filterset_expression::{BinaryQuery, CompiledExpr, Connective, FiltersetLeaf};
use filterset_matchers::NameMatcher;
use std::alloc::{AllocError, Global};

/// The tests of a binary, and the answers of a default filter for them.
#[derive(Drop)]
pub(crate) struct AskedTests<'a> {
    pub(crate) query: &'a BinaryQuery<'a>,
    pub(crate) names: &'a Names<'a>,
    pub(crate) filter: &'a CompiledExpr,
    pub(crate) defaults: Column,
}

/// Returns whether the leaf matches the binary. A leaf that is about the test or the default filter matches none.
fn matches_binary(
    alloc: Global,
    leaf: &FiltersetLeaf,
    query: &BinaryQuery<'_>,
) -> Result<bool, AllocError>
    ensures { IfOk result (λ answer. IsTrue answer ↔ HoldsOfBinary query.now (compiled_leaf leaf.now)) }
{
    match leaf {
        FiltersetLeaf::Packages(ids) => Ok(ids.contains(query.package_id)),
        FiltersetLeaf::Kind(matcher, _) => matcher.is_match(alloc, query.kind.as_str()),
        FiltersetLeaf::Platform(platform, _) => Ok(query.platform == *platform),
        FiltersetLeaf::Binary(matcher, _) => matcher.is_match(alloc, query.binary_name),
        FiltersetLeaf::BinaryId(matcher, _) => matcher.is_match(alloc, query.binary_id.as_str()),
        FiltersetLeaf::All => Ok(true),
        FiltersetLeaf::Test(..)
        | FiltersetLeaf::Group(..)
        | FiltersetLeaf::Default
        | FiltersetLeaf::None => Ok(false),
    }
}

/// Returns whether the expression searches a name for a glob or a pattern, or looks up a group, so that it pays to ask it
/// about few tests.
fn searches(expr: &CompiledExpr) -> bool {
    match expr {
        CompiledExpr::Not(operand) => searches(operand),
        CompiledExpr::Union(left, right)
        | CompiledExpr::Intersection(left, right)
        | CompiledExpr::SymmetricDifference(left, right) => searches(left) || searches(right),
        CompiledExpr::Set(FiltersetLeaf::Test(matcher, _)) => {
            matches!(matcher, NameMatcher::Glob { .. } | NameMatcher::Regex(_))
        }
        CompiledExpr::Set(leaf) => matches!(leaf, FiltersetLeaf::Group(..)),
    }
}

/// Returns whether each answer of the left operand decides the connective, and no word holds them.
fn is_decided(connective: Connective, left: &Column) -> bool
    ensures { IsTrue result → (i : ℕ) → Decides true false connective (answer_of left.now i) }
{
    match connective {
        Connective::Conjunction => left.is_same(false),
        Connective::Disjunction => left.is_same(true),
        Connective::ExclusiveDisjunction => false,
    }
}

/// Returns the tests for which the right operand is wanted: at least those for which the left one does not decide the
/// connective, and none if it decides all. The only error is out of memory.
fn narrow(
    connective: Connective,
    right: &CompiledExpr,
    wanted: &Column,
    left: &Column,
) -> Result<Column, AllocError>
    requires { wanted.now.len ≡ left.now.len }
    ensures len { IfOk result (λ narrowed. narrowed.len ≡ wanted.now.len) }
    ensures least { IfOk result (λ narrowed. (i : ℕ) → i < wanted.now.len → IsTrue (answer_of wanted.now i)
        → (¬ Decides true false connective (answer_of left.now i)) → IsTrue (answer_of narrowed i)) }
{
    if is_decided(connective, left) {
        return Ok(Column::same(wanted.len(), false));
    }
    match connective {
        Connective::Conjunction if searches(right) => wanted.both(left),
        Connective::Disjunction if searches(right) => wanted.without(left),
        _ => wanted.try_clone(),
    }
}

/// Evaluates a leaf for the wanted tests. The only error is out of memory, here or in the lookup.
fn evaluate_leaf<'a>(
    alloc: Global,
    leaf: &'a FiltersetLeaf,
    tests: &AskedTests<'_>,
    groups: &dyn PlacedLookup,
    wanted: &Column,
    searchers: &mut Searchers<'a>,
) -> Result<Column, AllocError>
    requires default { Answered tests.now.defaults (names_of tests.now.names.now) (λ name.
        TrueWhere (HoldsOfTest (test_of tests.now.query.now name) (matches_group groups.now)) (formula tests.now.filter.now)) }
    requires wanted { wanted.now.len ≡ length (names_of tests.now.names.now) }
    ensures { IfOk result (λ column. AnsweredWhere wanted.now column (names_of tests.now.names.now) (λ name.
        TrueWhere (HoldsOfTest (test_of tests.now.query.now name) (matches_group groups.now))
        (leaf_with_default tests.now.filter.now (compiled_leaf leaf.now)))) }
{
    match leaf {
        FiltersetLeaf::Test(matcher, _) => {
            search_names(alloc, matcher, tests.names, wanted, searchers)
        }
        FiltersetLeaf::Group(matcher, _) => {
            search_groups(alloc, matcher, tests.query, tests.names, groups, wanted)
        }
        FiltersetLeaf::Default => tests.defaults.try_clone(),
        _ => {
            let answer = matches_binary(alloc, leaf, tests.query)?;
            Ok(Column::same(tests.names.len(), answer))
        }
    }
}

/// Evaluates an expression for the wanted tests, where the answers of the default filter replace each `default` leaf. A
/// right operand is evaluated only for tests for which the left one does not decide the connective, if that pays. The
/// only error is out of memory, here or in the lookup.
///
/// It calls itself only for right operands, so a long chain of operators takes no stack.
fn evaluate_where<'a>(
    alloc: Global,
    expr: &'a CompiledExpr,
    tests: &AskedTests<'_>,
    groups: &dyn PlacedLookup,
    wanted: &Column,
    searchers: &mut Searchers<'a>,
) -> Result<Column, AllocError>
    requires default { Answered tests.now.defaults (names_of tests.now.names.now) (λ name.
        TrueWhere (HoldsOfTest (test_of tests.now.query.now name) (matches_group groups.now)) (formula tests.now.filter.now)) }
    requires wanted { wanted.now.len ≡ length (names_of tests.now.names.now) }
    ensures { IfOk result (λ column. AnsweredWhere wanted.now column (names_of tests.now.names.now) (λ name.
        TrueWhere (HoldsOfTest (test_of tests.now.query.now name) (matches_group groups.now))
        (with_default tests.now.filter.now expr.now))) }
{
    if wanted.is_same(false) {
        searchers.pass(expr);
        return Ok(Column::same(tests.names.len(), false));
    }
    let mut operators = searchers.take_operators(alloc);
    let leaf = list_operators(expr, &mut operators)?;
    let mut column = evaluate_leaf(alloc, leaf, tests, groups, wanted, searchers)?;
    while let Some(operator) = operators.pop() {
        column = match operator {
            Operator::Negation => column.negated(),
            Operator::Binary(connective, right) => {
                let narrowed = narrow(connective, right, wanted, &column)?;
                let other = evaluate_where(alloc, right, tests, groups, &narrowed, searchers)?;
                column.combined(connective, other)
            }
        };
    }
    searchers.keep_operators(operators)?;
    Ok(column)
}

/// Evaluates an expression, where the answers of the default filter replace each `default` leaf. The only error is out of
/// memory, here or in the lookup.
pub(crate) fn evaluate<'a>(
    alloc: Global,
    expr: &'a CompiledExpr,
    tests: &AskedTests<'_>,
    groups: &dyn PlacedLookup,
    searchers: &mut Searchers<'a>,
) -> Result<Column, AllocError>
    requires { Answered tests.now.defaults (names_of tests.now.names.now) (λ name.
        TrueWhere (HoldsOfTest (test_of tests.now.query.now name) (matches_group groups.now)) (formula tests.now.filter.now)) }
    ensures { IfOk result (λ column. Answered column (names_of tests.now.names.now) (λ name.
        TrueWhere (HoldsOfTest (test_of tests.now.query.now name) (matches_group groups.now))
        (with_default tests.now.filter.now expr.now))) }
{
    let wanted = Column::same(tests.names.len(), true);
    searchers.rewind();
    evaluate_where(alloc, expr, tests, groups, &wanted, searchers)
}

/// Evaluates an expression in which a `default` leaf matches nothing. The only error is out of memory, here or in the
/// lookup.
pub(crate) fn evaluate_itself<'a>(
    alloc: Global,
    expr: &'a CompiledExpr,
    query: &BinaryQuery<'_>,
    names: &Names<'_>,
    groups: &dyn PlacedLookup,
    searchers: &mut Searchers<'a>,
) -> Result<Column, AllocError>
    ensures { IfOk result (λ column. Answered column (names_of names.now) (λ name.
        TrueWhere (HoldsOfTest (test_of query.now name) (matches_group groups.now)) (formula expr.now))) }
{
    let own = CompiledExpr::Set(FiltersetLeaf::Default);
    let tests = AskedTests {
        query,
        names,
        filter: &own,
        defaults: Column::same(names.len(), false),
    };
    evaluate(alloc, expr, &tests, groups, searchers)
}
