//! The compiler: trees of filtersets to compiled expressions.
ghost use Rattle.std.specs.Prelude.{◌≡◌, ◌∷◌, [], IfOk, OnOk, IfErr};
ghost use Rattle.nextest_filtering.specs.{Bans.IsAllowed, Checks.AddsUnmatched, Checks.AllChecked};
ghost use Rattle.nextest_filtering.specs.Compiling.{packages_of, IsRejectionOf};
ghost use Rattle.filterset_expression.specs.{Expression.formula, Meaning.IsCompiled, Meaning.joined};
ghost use Rattle.filterset_grammar.specs.Tree.{tree_leaves, Set};
ghost use Rattle.filterset_language.specs.Views.{leaf_of, tree_of};

use filterset_expression::nodes::{combine, negate};
use filterset_expression::{CompiledExpr, Connective};
use filterset_faults::{FiltersetKind, ParseSingleError};
use filterset_language::{Joiner, ParseStop, ParsedExpr, ParsedLeaf, ParsedNode};
use std::alloc::{AllocError, Global};

mod bans;
mod candidates;
mod checks;
mod context;
mod leaves;
mod literal;
mod members;
mod packages;
mod ready;

use bans::{find_banned, list_bans};
pub use context::{KnownGroups, ParseContext};
use leaves::compile_leaf;

/// Compiles a tree.
///
/// If predicates are banned from filtersets of this kind, it reports a fault for each of these only; otherwise one for
/// each predicate that has to match something and does not. Faults are in the order of the predicates.
pub(crate) fn compile(
    alloc: Global,
    cx: &ParseContext<'_>,
    kind: FiltersetKind,
    known_groups: &KnownGroups,
    expr: &ParsedExpr,
) -> Result<CompiledExpr, ParseStop>
    ensures allowed { OnOk result (IsAllowed kind (tree_of expr.now)) }
    ensures checked { OnOk result (AllChecked (packages_of cx.now) known_groups.now (tree_of expr.now)) }
    ensures compiled { IfOk result (IsCompiled (packages_of cx.now) (tree_of expr.now)) }
    ensures refused { IfErr result (IsRejectionOf kind (packages_of cx.now) known_groups.now (tree_of expr.now)) }
{
    let banned = find_banned(alloc, kind, expr)?;
    if !banned.is_empty() {
        return Err(ParseStop::Faults(list_bans(alloc, kind, &banned)?));
    }
    let mut faults = Vec::new(alloc);
    let compiled = compile_expr(alloc, cx, known_groups, expr, &mut faults)?;
    if !faults.is_empty() {
        return Err(ParseStop::Faults(faults));
    }
    Ok(Box::into_inner(compiled))
}

/// Compiles a tree: `a - b` becomes `a` and not `b`, and parentheses disappear. Appends a fault for each unmatched
/// predicate, from left to right.
///
/// It is recursive, so it returns a box: an expression by value would take more stack at each level.
fn compile_expr(
    alloc: Global,
    cx: &ParseContext<'_>,
    known_groups: &KnownGroups,
    expr: &ParsedExpr,
    faults: &mut Vec<ParseSingleError>,
) -> Result<Box<CompiledExpr>, AllocError>
    ensures compiled { IfOk result (λ made. IsCompiled (packages_of cx.now) (tree_of expr.now) made.value) }
    ensures unmatched { OnOk result (AddsUnmatched (packages_of cx.now) known_groups.now
        (tree_leaves (tree_of expr.now)) faults.old.items faults.new.items) }
{
    match expr.node() {
        ParsedNode::Not(_, operand) => {
            let operand = compile_expr(alloc, cx, known_groups, operand, faults)?;
            negate(alloc, operand)
        }
        ParsedNode::Union(_, left, right) => {
            let left = compile_expr(alloc, cx, known_groups, left, faults)?;
            let right = compile_expr(alloc, cx, known_groups, right, faults)?;
            combine(alloc, Connective::Disjunction, left, right)
        }
        ParsedNode::Join(joiner, left, right) => {
            let left = compile_expr(alloc, cx, known_groups, left, faults)?;
            let right = compile_expr(alloc, cx, known_groups, right, faults)?;
            join(alloc, joiner, left, right)
        }
        ParsedNode::Parens(inner) => compile_expr(alloc, cx, known_groups, inner, faults),
        ParsedNode::Set(leaf) => compile_set(alloc, cx, known_groups, leaf, faults),
    }
}

/// Compiles a predicate. Appends its fault if it is unmatched.
#[inline(never)]
fn compile_set(
    alloc: Global,
    cx: &ParseContext<'_>,
    known_groups: &KnownGroups,
    leaf: &ParsedLeaf,
    faults: &mut Vec<ParseSingleError>,
) -> Result<Box<CompiledExpr>, AllocError>
    ensures compiled { IfOk result (λ made. IsCompiled (packages_of cx.now) (Set (leaf_of leaf.now)) made.value) }
    ensures unmatched { OnOk result (AddsUnmatched (packages_of cx.now) known_groups.now
        (leaf_of leaf.now ∷ []) faults.old.items faults.new.items) }
{
    let set = compile_leaf(alloc, cx, known_groups, leaf, faults)?;
    Ok(Box::new(alloc, CompiledExpr::Set(set))?)
}

/// Joins two expressions by an operator of the level of `and`.
fn join(
    alloc: Global,
    joiner: Joiner,
    left: Box<CompiledExpr>,
    right: Box<CompiledExpr>,
) -> Result<Box<CompiledExpr>, AllocError>
    ensures { IfOk result (λ made. formula made.value ≡ joined joiner (formula left.value) (formula right.value)) }
{
    match joiner {
        Joiner::Both(_) => combine(alloc, Connective::Conjunction, left, right),
        Joiner::Without(_) => combine(alloc, Connective::Conjunction, left, negate(alloc, right)?),
        Joiner::ExactlyOne(_) => combine(alloc, Connective::ExclusiveDisjunction, left, right),
    }
}
