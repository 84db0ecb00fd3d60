//! Branches of the search: the steps of the filtersets, with the values of the leaves that are known.
ghost use Rattle.std.specs.Prelude.{◌≡◌, ◌↔◌, ◌≤◌, ◌<◌, IfOk, IsTrue, get_or};
ghost use Rattle.filterset_expression.specs.Expression.{compiled_leaf};
ghost use Rattle.filterset_expression.specs.FlatSteps.{Push, step_of, steps_of};
ghost use Rattle.filterset_deciding.specs.AnyTest.{AnyTest, Says};
ghost use Rattle.filterset_deciding.specs.Known.{Agrees, IsKnownStep, steps_in};
ghost use Rattle.filterset_deciding.specs.Waiting.{IsOpenAt, open_of, opens};
ghost use Rattle.filterset_deciding.specs.declared.running.ValuedStep.{ValuedStep};

use crate::inferring::infer;
use crate::running::ValuedStep;
use filterset_expression::{FiltersetLeaf, FlatStep};
use std::alloc::{AllocError, Global};

/// Returns the step with the value of its leaf, if that is the same for every test.
fn place_step<'a>(step: FlatStep<'a>) -> ValuedStep<'a>
    ensures step { step_of result.step ≡ step_of step.entry }
    ensures known { (test : AnyTest) → IsKnownStep test (step_of result.step) result.value }
{
    let value = match step {
        FlatStep::Leaf(FiltersetLeaf::All) => Some(true),
        FlatStep::Leaf(FiltersetLeaf::None) => Some(false),
        FlatStep::Leaf(FiltersetLeaf::Default) => Some(false),
        _ => None,
    };
    ValuedStep { step, value }
}

/// Makes the branch that the search starts with. The only error is out of memory.
pub(crate) fn start_branch<'a>(
    alloc: Global,
    steps: &[FlatStep<'a>],
) -> Result<Vec<ValuedStep<'a>>, AllocError>
    ensures steps { IfOk result (λ made. steps_in made.items ≡ steps_of steps.now) }
    ensures known { IfOk result (λ made. (test : AnyTest) → Agrees test made.items) }
{
    let mut made = Vec::new(alloc);
    for step in steps {
        made.push(place_step(*step))?;
    }
    Ok(made)
}

/// Returns a step of a branch with what follows about its leaf if another leaf has this value, or with the value if the leaf
/// is this one.
fn settle_step<'a>(
    alloc: Global,
    placed: ValuedStep<'a>,
    leaf: &FiltersetLeaf,
    value: bool,
    is_here: bool,
) -> Result<ValuedStep<'a>, AllocError>
    ensures step { IfOk result (λ made. step_of made.step ≡ step_of placed.entry.step) }
    ensures known { IfOk result (λ made. (test : AnyTest) → (IsTrue value ↔ Says test (compiled_leaf leaf.now))
        → (IsTrue is_here → step_of placed.entry.step ≡ Push (compiled_leaf leaf.now))
        → IsKnownStep test (step_of placed.entry.step) placed.entry.value
        → IsKnownStep test (step_of made.step) made.value) }
    ensures fewer { IfOk result (λ made. open_of (step_of made.step) made.value
        ≤ open_of (step_of placed.entry.step) placed.entry.value) }
    ensures here { IfOk result (λ made. IsTrue is_here → open_of (step_of made.step) made.value ≡ 0) }
{
    if is_here {
        return Ok(ValuedStep {
            step: placed.step,
            value: Some(value),
        });
    }
    match (placed.step, placed.value) {
        (FlatStep::Leaf(other), None) => {
            let inferred = infer(alloc, leaf, value, other)?;
            Ok(ValuedStep {
                step: placed.step,
                value: inferred,
            })
        }
        _ => Ok(placed),
    }
}

/// Copies a branch, gives the leaf at this position this value, and adds what follows about its leaves. The only error is out
/// of memory.
pub(crate) fn narrow<'a>(
    alloc: Global,
    branch: &[ValuedStep<'a>],
    at: usize,
    leaf: &FiltersetLeaf,
    value: bool,
) -> Result<Vec<ValuedStep<'a>>, AllocError>
    requires { (placed : ValuedStep) → get_or branch.now at placed ≡ placed → step_of placed.step ≡ Push (compiled_leaf leaf.now) }
    ensures steps { IfOk result (λ made. steps_in made.items ≡ steps_in branch.now) }
    ensures known { IfOk result (λ made. (test : AnyTest) → (IsTrue value ↔ Says test (compiled_leaf leaf.now))
        → Agrees test branch.now → Agrees test made.items) }
    ensures fewer { IfOk result (λ made. IsOpenAt branch.now at → opens made.items < opens branch.now) }
{
    let mut made = Vec::with_capacity(alloc, branch.len())?;
    for (i, placed) in branch.iter().enumerate() {
        made.push(settle_step(alloc, *placed, leaf, value, i == at)?)?;
    }
    Ok(made)
}
