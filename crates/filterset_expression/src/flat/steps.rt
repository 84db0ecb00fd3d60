//! The steps of flat expressions.
ghost use Rattle.std.specs.Prelude.{◌≡◌, ◌++◌, true, OnOk};
ghost use Rattle.filterset_expression.specs.Expression.{formula};
ghost use Rattle.filterset_expression.specs.FlatSteps.{step_of, steps_by, steps_of};
ghost use Rattle.filterset_expression.specs.Running.{leaf_or, leaves_one, greatest_height, step_of_action};

use crate::{CompiledExpr, Connective, FiltersetLeaf};
use std::alloc::AllocError;

/// A step of a flat expression.
#[derive(Clone, Copy, Debug)]
pub enum FlatStep<'a> {
    /// Pushes the leaf's value.
    Leaf(&'a FiltersetLeaf),
    /// Negates the top value.
    Not,
    /// Replaces the top two values by their conjunction.
    And,
    /// Replaces the top two values by their disjunction.
    Or,
    /// Replaces the top two values by their exclusive disjunction.
    Xor,
}

/// What a step does to the stack.
#[derive(Clone, Copy)]
pub(super) enum Action<'a> {
    /// Pushes the leaf's value.
    Push(&'a FiltersetLeaf),
    /// Negates the top value.
    Negate,
    /// Applies the connective to the top two values.
    Combine(Connective),
}

impl<'a> FlatStep<'a> {
    /// Returns what the step does.
    pub(super) fn action(self) -> Action<'a>
        ensures { step_of_action result ≡ step_of self.entry }
    {
        match self {
            FlatStep::Leaf(leaf) => Action::Push(leaf),
            FlatStep::Not => Action::Negate,
            FlatStep::And => Action::Combine(Connective::Conjunction),
            FlatStep::Or => Action::Combine(Connective::Disjunction),
            FlatStep::Xor => Action::Combine(Connective::ExclusiveDisjunction),
        }
    }
}

/// Appends the steps of an expression; `default_steps` replace each `default` leaf.
pub(super) fn push_steps<'a>(
    steps: &mut Vec<FlatStep<'a>>,
    expr: &'a CompiledExpr,
    default_steps: &[FlatStep<'a>],
) -> Result<(), AllocError>
    ensures { OnOk result (steps_of steps.new.items ≡
        steps_of steps.old.items ++ steps_by (leaf_or (steps_of default_steps.now)) (formula expr.now)) }
{
    match expr {
        CompiledExpr::Not(operand) => {
            push_steps(steps, operand, default_steps)?;
            steps.push(FlatStep::Not)?;
        }
        CompiledExpr::Union(left, right) => {
            push_steps(steps, left, default_steps)?;
            push_steps(steps, right, default_steps)?;
            steps.push(FlatStep::Or)?;
        }
        CompiledExpr::Intersection(left, right) => {
            push_steps(steps, left, default_steps)?;
            push_steps(steps, right, default_steps)?;
            steps.push(FlatStep::And)?;
        }
        CompiledExpr::SymmetricDifference(left, right) => {
            push_steps(steps, left, default_steps)?;
            push_steps(steps, right, default_steps)?;
            steps.push(FlatStep::Xor)?;
        }
        CompiledExpr::Set(FiltersetLeaf::Default) => steps.extend_from_slice(default_steps)?,
        CompiledExpr::Set(leaf) => steps.push(FlatStep::Leaf(leaf))?,
    }
    Ok(())
}

/// Returns the greatest height of the stack while the steps run.
pub(super) fn height_of(steps: &[FlatStep<'_>]) -> usize
    requires { leaves_one (steps_of steps.now) 0 ≡ true }
    ensures { result ≡ greatest_height (steps_of steps.now) 0 }
{
    let mut height = 0usize;
    let mut greatest = 0usize;
    for step in steps {
        match step.action() {
            Action::Push(_) => height += 1,
            Action::Negate => {}
            Action::Combine(_) => height -= 1,
        }
        greatest = greatest.max(height);
    }
    greatest
}
