//! Runs of steps on a stack, where the values of some leaves are known.
ghost use Rattle.std.specs.Prelude.{◌≡◌, ◌<◌, [], List, Some, None, IfOk, IfSome, MatchOption, get_or, length, true, if◌then◌else◌};
ghost use Rattle.std.specs.List.{AllByRecursion};
ghost use Rattle.filterset_expression.specs.Connectives.{kleene};
ghost use Rattle.filterset_expression.specs.FlatSteps.{step_of, Negate, Combine};
ghost use Rattle.filterset_deciding.specs.Running.{kleene_step, kleene_run, tops};
ghost use Rattle.filterset_deciding.specs.{Waiting.WaitsIn, declared.running.ValuedStep.ValuedStep};

use filterset_expression::{Connective, FlatStep, Logic};
use std::alloc::{AllocError, Global};

/// A step, and the value of its leaf, if it is a leaf with a known value.
#[derive(Clone, Copy)]
pub(crate) struct ValuedStep<'a> {
    pub step: FlatStep<'a>,
    pub value: Option<bool>,
}

/// A value on the stack, if it is known, and otherwise the position of a leaf that it depends on.
#[derive(Clone, Copy)]
pub(crate) struct StackValue {
    pub value: Option<bool>,
    pub waits_for: usize,
}

/// Applies the connective to two values of three.
fn connected(connective: Connective, left: Option<bool>, right: Option<bool>) -> Option<bool>
    ensures { result ≡ kleene connective left right }
{
    match connective {
        Connective::Conjunction => left.logic_and(right),
        Connective::Disjunction => left.logic_or(right),
        Connective::ExclusiveDisjunction => left.logic_xor(right),
    }
}

/// Applies the connective to two values.
fn connect_values(connective: Connective, left: StackValue, right: StackValue) -> StackValue
    ensures value { result.value ≡ kleene connective left.value right.value }
    ensures waits { (branch : List ValuedStep) → WaitsIn branch left → WaitsIn branch right → WaitsIn branch result }
{
    let value = connected(connective, left.value, right.value);
    match left.value {
        None => StackValue {
            value,
            waits_for: left.waits_for,
        },
        Some(_) => StackValue {
            value,
            waits_for: right.waits_for,
        },
    }
}

/// Replaces the top two values by what the connective makes of them. Returns false if there are not two.
fn combine(stack: &mut Vec<StackValue>, connective: Connective) -> Result<bool, AllocError>
    ensures waits { IfOk result (λ ran. ran ≡ true → (branch : List ValuedStep)
        → AllByRecursion (WaitsIn branch) stack.old.items → AllByRecursion (WaitsIn branch) stack.new.items) }
    ensures ran { IfOk result (λ ran. kleene_step (Combine connective) None (tops stack.old.items)
        ≡ (if ran then Some (tops stack.new.items) else None)) }
{
    let Some(right) = stack.pop() else {
        return Ok(false);
    };
    let Some(left) = stack.pop() else {
        return Ok(false);
    };
    stack.push(connect_values(connective, left, right))?;
    Ok(true)
}

/// Replaces the top value by its negation. Returns false if there is none.
fn negate(stack: &mut Vec<StackValue>) -> Result<bool, AllocError>
    ensures waits { IfOk result (λ ran. ran ≡ true → (branch : List ValuedStep)
        → AllByRecursion (WaitsIn branch) stack.old.items → AllByRecursion (WaitsIn branch) stack.new.items) }
    ensures ran { IfOk result (λ ran. kleene_step Negate None (tops stack.old.items)
        ≡ (if ran then Some (tops stack.new.items) else None)) }
{
    let Some(operand) = stack.pop() else {
        return Ok(false);
    };
    stack.push(StackValue {
        value: operand.value.logic_not(),
        waits_for: operand.waits_for,
    })?;
    Ok(true)
}

/// Runs the step at this position. Returns false if it does not find its operands.
fn run_step(
    stack: &mut Vec<StackValue>,
    placed: ValuedStep<'_>,
    at: usize,
) -> Result<bool, AllocError>
    ensures waits { IfOk result (λ ran. ran ≡ true → (branch : List ValuedStep)
        → at < length branch → get_or branch at placed.entry ≡ placed.entry
        → AllByRecursion (WaitsIn branch) stack.old.items → AllByRecursion (WaitsIn branch) stack.new.items) }
    ensures ran { IfOk result (λ ran. kleene_step (step_of placed.entry.step) placed.entry.value (tops stack.old.items)
        ≡ (if ran then Some (tops stack.new.items) else None)) }
{
    match placed.step {
        FlatStep::Leaf(_leaf) => {
            stack.push(StackValue {
                value: placed.value,
                waits_for: at,
            })?;
            Ok(true)
        }
        FlatStep::Not => negate(stack),
        FlatStep::And => combine(stack, Connective::Conjunction),
        FlatStep::Or => combine(stack, Connective::Disjunction),
        FlatStep::Xor => combine(stack, Connective::ExclusiveDisjunction),
    }
}

/// Runs the steps, and returns the values that they leave, the lowest first, or `None` if a step does not find its operands.
/// The only error is out of memory.
pub(crate) fn run(
    alloc: Global,
    branch: &[ValuedStep<'_>],
) -> Result<Option<Vec<StackValue>>, AllocError>
    ensures waits { IfOk result (λ left. IfSome left (λ stack. AllByRecursion (WaitsIn branch.now) stack.items)) }
    ensures ran { IfOk result (λ left. MatchOption left (kleene_run branch.now [] ≡ None)
        (λ stack. kleene_run branch.now [] ≡ Some (tops stack.items))) }
{
    let mut stack = Vec::new(alloc);
    for (at, placed) in branch.iter().enumerate() {
        if !run_step(&mut stack, *placed, at)? {
            return Ok(None);
        }
    }
    Ok(Some(stack))
}
