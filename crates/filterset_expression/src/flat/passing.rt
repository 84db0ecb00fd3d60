//! Right operands that are skipped because the left operand decides: `package(p) and test(/x/)` need not search for the
//! pattern if the package is another one.
ghost use Rattle.std.specs.Prelude.{◌≡◌, ◌≤◌, ◌++◌, ◌+◌, IfOk, IfSome, IsTrue, List, OnOk, length, reverse};
ghost use Rattle.filterset_expression.specs.Connectives.{Decides};
ghost use Rattle.filterset_expression.specs.Expression.{CompiledLeaf, compiled_leaf, formula, leaf_with_default, with_default};
ghost use Rattle.filterset_expression.specs.FlatSteps.{Step, postfix};
ghost use Rattle.filterset_expression.specs.Passing.{ArePassedOver, IsPassedOver};
ghost use Rattle.filterset_expression.specs.declared.expression.CompiledExpr.{CompiledExpr};

use super::FlatStep;
use super::stack::TwoBits;
use crate::{CompiledExpr, Connective, FiltersetLeaf};
use filterset_matchers::NameMatcher;
use std::alloc::{AllocError, Global};

/// The steps after a left operand that are skipped if its value decides the connective.
#[derive(Clone, Copy)]
pub(super) struct RightOperand {
    pub(super) connective: Connective,
    /// The number of steps: those of the right operand and the connective's.
    pub(super) steps: usize,
}

/// The cost of evaluating an expression.
#[derive(Clone, Copy, Default)]
pub(super) struct Cost {
    /// Whether it searches a name for a pattern or a glob, or looks up a group.
    searches: bool,
    /// Whether it looks up a group.
    looks_up: bool,
}

impl Cost {
    /// Returns the cost of evaluating both.
    fn and(self, other: Cost) -> Cost {
        Cost {
            searches: self.searches || other.searches,
            looks_up: self.looks_up || other.looks_up,
        }
    }

    /// Returns the cost of evaluating the leaf.
    fn of_leaf(leaf: &FiltersetLeaf) -> Cost {
        let looks_up = matches!(leaf, FiltersetLeaf::Group(..));
        let searches = match leaf.matcher() {
            Some(NameMatcher::Regex(_) | NameMatcher::Glob { .. }) => true,
            _ => looks_up,
        };
        Cost { searches, looks_up }
    }

    /// Returns the right operand of the connective if its cost makes it worth testing whether the left operand decides: in
    /// a conjunction if it searches, in a union only if it looks up a group, since few tests are in either operand.
    fn right_operand(self, connective: Connective, steps: usize) -> Option<RightOperand>
        ensures { IfSome result (λ operand. (operand.connective ≡ connective) × (operand.steps ≡ steps)) }
    {
        let pays = match connective {
            Connective::Conjunction => self.searches,
            Connective::Disjunction => self.looks_up,
            Connective::ExclusiveDisjunction => false,
        };
        pays.then_some(RightOperand { connective, steps })
    }
}

/// The right operands that may be skipped in the default filter, from its last step to its first, and its cost.
#[derive(Clone, Copy)]
pub(super) struct DefaultOperands<'s> {
    pub(super) operands: &'s [Option<RightOperand>],
    pub(super) cost: Cost,
}

/// Returns whether the value of a left operand decides the connective.
pub(super) fn decides<L: TwoBits>(connective: Connective, left: L) -> bool
    ensures { IsTrue result → Decides L.top_value L.bottom_value connective left }
{
    match connective {
        Connective::Conjunction => left.bits() == L::bottom().bits(),
        Connective::Disjunction => left.bits() == L::top().bits(),
        Connective::ExclusiveDisjunction => false,
    }
}

/// Appends the right operand that may be skipped after each step of an expression, from the last step to the first, and
/// returns the expression's cost. Those of the default filter replace each `default` leaf; `last` is for the last step.
/// The only error is out of memory.
pub(super) fn push_operands(
    operands: &mut Vec<Option<RightOperand>>,
    expr: &CompiledExpr,
    default: DefaultOperands<'_>,
    last: Option<RightOperand>,
) -> Result<Cost, AllocError>
    ensures grows { OnOk result (length operands.old.items ≤ length operands.new.items) }
    ensures length { OnOk result ((default_filter : CompiledExpr)
        → (length (postfix (formula default_filter)) ≡ length default.entry.operands.now)
        → length operands.new.items
        ≡ length operands.old.items + length (postfix (with_default default_filter expr.now))) }
    ensures passed { OnOk result ((default_filter : CompiledExpr) (rest : List (Step CompiledLeaf))
        → (length (postfix (formula default_filter)) ≡ length default.entry.operands.now)
        → ArePassedOver (postfix (formula default_filter)) (reverse default.entry.operands.now)
        → ArePassedOver rest (reverse operands.old.items) → IsPassedOver last rest
        → ArePassedOver (postfix (with_default default_filter expr.now) ++ rest) (reverse operands.new.items)) }
{
    match expr {
        CompiledExpr::Not(operand) => {
            operands.push(last)?;
            push_operands(operands, operand, default, None)
        }
        CompiledExpr::Union(left, right) => {
            let begin = operands.len();
            operands.push(last)?;
            let cost = push_operands(operands, right, default, None)?;
            let passed = cost.right_operand(Connective::Disjunction, operands.len() - begin);
            Ok(push_operands(operands, left, default, passed)?.and(cost))
        }
        CompiledExpr::Intersection(left, right) => {
            let begin = operands.len();
            operands.push(last)?;
            let cost = push_operands(operands, right, default, None)?;
            let passed = cost.right_operand(Connective::Conjunction, operands.len() - begin);
            Ok(push_operands(operands, left, default, passed)?.and(cost))
        }
        CompiledExpr::SymmetricDifference(left, right) => {
            operands.push(last)?;
            let cost = push_operands(operands, right, default, None)?;
            Ok(push_operands(operands, left, default, None)?.and(cost))
        }
        CompiledExpr::Set(leaf) => push_leaf(operands, leaf, default, last),
    }
}

/// Does the same for a leaf.
fn push_leaf(
    operands: &mut Vec<Option<RightOperand>>,
    leaf: &FiltersetLeaf,
    default: DefaultOperands<'_>,
    last: Option<RightOperand>,
) -> Result<Cost, AllocError>
    ensures grows { OnOk result (length operands.old.items ≤ length operands.new.items) }
    ensures length { OnOk result ((default_filter : CompiledExpr)
        → (length (postfix (formula default_filter)) ≡ length default.entry.operands.now)
        → length operands.new.items
        ≡ length operands.old.items + length (postfix (leaf_with_default default_filter (compiled_leaf leaf.now)))) }
    ensures passed { OnOk result ((default_filter : CompiledExpr) (rest : List (Step CompiledLeaf))
        → (length (postfix (formula default_filter)) ≡ length default.entry.operands.now)
        → ArePassedOver (postfix (formula default_filter)) (reverse default.entry.operands.now)
        → ArePassedOver rest (reverse operands.old.items) → IsPassedOver last rest
        → ArePassedOver (postfix (leaf_with_default default_filter (compiled_leaf leaf.now)) ++ rest)
        (reverse operands.new.items)) }
{
    match leaf {
        FiltersetLeaf::Default => {
            if let Some((_, others)) = default.operands.split_first() {
                operands.push(last)?;
                operands.extend_from_slice(others)?;
            }
            Ok(default.cost)
        }
        _ => {
            operands.push(last)?;
            Ok(Cost::of_leaf(leaf))
        }
    }
}

/// Returns whether the step is a leaf that searches.
fn searches(step: &FlatStep<'_>) -> bool {
    match step {
        FlatStep::Leaf(leaf) => Cost::of_leaf(leaf).searches,
        _ => false,
    }
}

/// Returns the right operand that may be skipped after each step of the expression; empty if none is worth it. The only
/// error is out of memory.
pub(super) fn find_right_operands(
    alloc: Global,
    steps: &[FlatStep<'_>],
    expr: &CompiledExpr,
    default: &CompiledExpr,
) -> Result<Vec<Option<RightOperand>>, AllocError>
    ensures { IfOk result (λ operands. ArePassedOver (postfix (with_default default.now expr.now)) operands.items) }
{
    if steps.iter().any(searches) {
        let operands = list_right_operands(alloc, expr, default)?;
        if operands.iter().any(Option::is_some) {
            return Ok(operands);
        }
    }
    Ok(Vec::new(alloc))
}

/// Returns the right operand that may be skipped after each step. The only error is out of memory.
fn list_right_operands(
    alloc: Global,
    expr: &CompiledExpr,
    default: &CompiledExpr,
) -> Result<Vec<Option<RightOperand>>, AllocError>
    ensures { IfOk result (λ operands. ArePassedOver (postfix (with_default default.now expr.now)) operands.items) }
{
    let mut of_default = Vec::new(alloc);
    let none = DefaultOperands {
        operands: &[None],
        cost: Cost::default(),
    };
    let cost = push_operands(&mut of_default, default, none, None)?;
    let default = DefaultOperands {
        operands: &of_default,
        cost,
    };
    let mut operands = Vec::new(alloc);
    push_operands(&mut operands, expr, default, None)?;
    operands.reverse();
    Ok(operands)
}
