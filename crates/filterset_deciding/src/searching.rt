//! The search for a test for which the answer to a question is no.
ghost use Rattle.std.specs.Prelude.{◌≡◌, ◌⊎◌, ◌<◌, ◌≤◌, ◌+◌, ◌^◌, ℕ, List, IfNone, IfOk, IfSome, OnOk, get_or, length};
ghost use Rattle.filterset_expression.specs.{Contexts.default_of, Expression.CompiledLeaf, Expression.compiled_leaf};
ghost use Rattle.filterset_expression.specs.FlatSteps.{Push, Step, step_of, steps_of};
ghost use Rattle.filterset_deciding.specs.{AnyTest.AnyTest, Candidates.HasOpen, Candidates.IsLeftDoubt};
ghost use Rattle.filterset_deciding.specs.{Deciding.IsUnmetAt, Deciding.formulas_asked, Known.steps_in};
ghost use Rattle.filterset_deciding.specs.Searching.{AgreesWith, HaveSteps, IsMissed, NoneAgrees, Refuses, Rejects, all_steps, pushed};
ghost use Rattle.filterset_deciding.specs.Waiting.{IsOpenAt, all_nodes, nodes, opens};
ghost use Rattle.filterset_deciding.specs.declared.{demand.Doubt.Doubt, running.ValuedStep.ValuedStep};

use crate::branch::{narrow, start_branch};
use crate::candidate::{NoCandidate, make_candidate};
use crate::demand::Doubt;
use crate::judging::{Judgement, judge};
use crate::question::Question;
use crate::running::{ValuedStep, run};
use crate::seeking::Effort;
use crate::witness::{Witness, ask_all};
use filterset_expression::{CompiledExpr, EvalContext, FiltersetLeaf, FlatStep};
use std::alloc::{AllocError, Global};

/// A question and its filtersets.
#[derive(Clone, Copy)]
pub(crate) struct Asked<'e, 'x> {
    /// The filterset that picks the tests that the question is about.
    pub given: &'x CompiledExpr,
    pub exprs: &'e [&'x CompiledExpr],
    pub cx: EvalContext<'x>,
    pub question: Question,
}

/// What was found in a branch.
#[derive(Drop)]
pub(crate) enum Explored<'x> {
    /// It has no such test, but for those of the branches that were added.
    Closed,
    /// It may have such a test. What that depends on.
    Left(Doubt<'x>),
    /// The search for a text was stopped.
    Stopped,
    Found(Witness),
}

/// What the search found.
#[derive(Drop)]
pub(crate) enum Searched<'x> {
    /// There is no such test.
    Nothing,
    /// Some branch may have such a test. What that depends on.
    Unknown(Doubt<'x>),
    /// The search was stopped before its end.
    Stopped,
    Found(Witness),
}

/// Judges the question by the values of a branch.
fn judge_branch(
    alloc: Global,
    question: Question,
    branch: &[ValuedStep<'_>],
) -> Result<Judgement, AllocError>
    ensures met { IfOk result (λ judged. judged ≡ Judgement.Met → Rejects question branch.now) }
    ensures unmet { IfOk result (λ judged. judged ≡ Judgement.Unmet → Refuses question branch.now) }
    ensures opened { IfOk result (λ judged. (at : ℕ) → judged ≡ Judgement.Open at → IsOpenAt branch.now at) }
{
    match run(alloc, branch)? {
        Some(values) => Ok(judge(question, &values)),
        None => Ok(Judgement::Unmet),
    }
}

/// Makes a test of a branch in which the answer is no, if there is one.
fn try_branch<'a>(
    alloc: Global,
    asked: &Asked<'_, '_>,
    branch: &[ValuedStep<'a>],
    effort: &mut Effort,
) -> Result<Explored<'a>, AllocError>
    requires { Refuses asked.now.question branch.now }
    ensures closed { IfOk result (λ explored. explored ≡ Explored.Closed → Rejects asked.now.question branch.now) }
    ensures found { IfOk result (λ explored. (witness : Witness) → explored ≡ Explored.Found witness
        → steps_in branch.now ≡ all_steps (formulas_asked asked.now.given.now (default_of asked.now.cx) asked.now.exprs.now)
        → IsUnmetAt asked.now.question asked.now.given.now (default_of asked.now.cx) asked.now.exprs.now
        witness.test witness.picks.items) }
    ensures left { IfOk result (λ explored. (doubt : Doubt) → explored ≡ Explored.Left doubt
        → IsLeftDoubt (steps_in branch.now) doubt) }
    ensures stopped { IfOk result (λ explored. explored ≡ Explored.Stopped → HasOpen (steps_in branch.now)) }
{
    match make_candidate(alloc, branch, effort) {
        Ok(test) => Ok(Explored::Found(ask_all(alloc, asked.exprs, &asked.cx, test)?)),
        Err(NoCandidate::Impossible) => Ok(Explored::Closed),
        Err(NoCandidate::Doubtful(doubt)) => Ok(Explored::Left(doubt)),
        Err(NoCandidate::Stopped) => Ok(Explored::Stopped),
        Err(NoCandidate::OutOfMemory(refused)) => Err(refused),
    }
}

/// Returns the leaf at this position, if there is one.
fn leaf_at<'a>(branch: &[ValuedStep<'a>], at: usize) -> Option<&'a FiltersetLeaf>
    ensures some { IfSome result (λ leaf. (placed : ValuedStep) → get_or branch.now at placed ≡ placed
        → step_of placed.step ≡ Push (compiled_leaf leaf.now)) }
    ensures none { IfNone result (¬ IsOpenAt branch.now at) }
{
    match branch.get(at)?.step {
        FlatStep::Leaf(leaf) => Some(leaf),
        _ => None,
    }
}

/// Adds two branches in place of one: one in which the leaf at this position is false, and one in which it is true.
fn divide<'a>(
    alloc: Global,
    branch: &[ValuedStep<'a>],
    at: usize,
    leaf: &FiltersetLeaf,
    pending: &mut Vec<Vec<ValuedStep<'a>>>,
) -> Result<(), AllocError>
    requires { (placed : ValuedStep) → get_or branch.now at placed ≡ placed
        → step_of placed.step ≡ Push (compiled_leaf leaf.now) }
    ensures steps { OnOk result (HaveSteps (steps_in branch.now) pending.old.items
        → HaveSteps (steps_in branch.now) pending.new.items) }
    ensures divided { OnOk result ((test : AnyTest) → (steps : List (Step CompiledLeaf))
        → NoneAgrees test steps pending.new.items
        → NoneAgrees test steps pending.old.items × ¬ AgreesWith test steps branch.now) }
    ensures fewer { OnOk result (IsOpenAt branch.now at
        → all_nodes pending.new.items + 1 ≤ all_nodes pending.old.items + nodes (opens branch.now)) }
{
    let without = narrow(alloc, branch, at, leaf, false)?;
    pending.push(without)?;
    let within = narrow(alloc, branch, at, leaf, true)?;
    pending.push(within)?;
    Ok(())
}

/// Explores one branch, and may add branches.
fn explore<'a>(
    alloc: Global,
    asked: &Asked<'_, '_>,
    branch: &[ValuedStep<'a>],
    pending: &mut Vec<Vec<ValuedStep<'a>>>,
    effort: &mut Effort,
) -> Result<Explored<'a>, AllocError>
    ensures steps { OnOk result (HaveSteps (steps_in branch.now) pending.old.items
        → HaveSteps (steps_in branch.now) pending.new.items) }
    ensures fewer { OnOk result (all_nodes pending.new.items + 1 ≤ all_nodes pending.old.items + nodes (opens branch.now)) }
    ensures closed { IfOk result (λ explored. explored ≡ Explored.Closed
        → (test : AnyTest) (steps : List (Step CompiledLeaf)) → IsMissed asked.now.question steps test
        → NoneAgrees test steps pending.new.items
        → NoneAgrees test steps pending.old.items × ¬ AgreesWith test steps branch.now) }
    ensures found { IfOk result (λ explored. (witness : Witness) → explored ≡ Explored.Found witness
        → steps_in branch.now ≡ all_steps (formulas_asked asked.now.given.now (default_of asked.now.cx) asked.now.exprs.now)
        → IsUnmetAt asked.now.question asked.now.given.now (default_of asked.now.cx) asked.now.exprs.now
        witness.test witness.picks.items) }
    ensures left { IfOk result (λ explored. (doubt : Doubt) → explored ≡ Explored.Left doubt
        → IsLeftDoubt (steps_in branch.now) doubt) }
    ensures stopped { IfOk result (λ explored. explored ≡ Explored.Stopped → HasOpen (steps_in branch.now)) }
{
    match judge_branch(alloc, asked.question, branch)? {
        Judgement::Met => Ok(Explored::Closed),
        Judgement::Unmet => try_branch(alloc, asked, branch, effort),
        Judgement::Open(at) => match leaf_at(branch, at) {
            Some(leaf) => {
                divide(alloc, branch, at, leaf, pending)?;
                Ok(Explored::Closed)
            }
            None => Ok(Explored::Closed),
        },
    }
}

/// Searches at most this many branches, and texts with at most this effort. The only error is out of memory.
pub(crate) fn search<'a>(
    alloc: Global,
    asked: &Asked<'_, '_>,
    steps: &[FlatStep<'a>],
    branches: u64,
    mut effort: Effort,
) -> Result<Searched<'a>, AllocError>
    ensures nothing { IfOk result (λ searched. searched ≡ Searched.Nothing
        → (test : AnyTest) → ¬ IsMissed asked.now.question (steps_of steps.now) test) }
    ensures found { IfOk result (λ searched. (witness : Witness) → searched ≡ Searched.Found witness
        → steps_of steps.now ≡ all_steps (formulas_asked asked.now.given.now (default_of asked.now.cx) asked.now.exprs.now)
        → IsUnmetAt asked.now.question asked.now.given.now (default_of asked.now.cx) asked.now.exprs.now
        witness.test witness.picks.items) }
    ensures unknown { IfOk result (λ searched. (doubt : Doubt) → searched ≡ Searched.Unknown doubt
        → IsLeftDoubt (steps_of steps.now) doubt) }
    ensures stopped { IfOk result (λ searched. searched ≡ Searched.Stopped
        → (branches < 2 ^ (length (pushed (steps_of steps.now)) + 1)) ⊎ HasOpen (steps_of steps.now)) }
{
    let mut pending = Vec::new(alloc);
    pending.push(start_branch(alloc, steps)?)?;
    let mut left = None;
    'branches: for searched in 0..branches {
        let branch = match pending.pop() {
            Some(branch) => branch,
            None => {
                return match left {
                    Some(doubt) => Ok(Searched::Unknown(doubt)),
                    None => Ok(Searched::Nothing),
                };
            }
        };
        match explore(alloc, asked, &branch, &mut pending, &mut effort)? {
            Explored::Closed => {}
            Explored::Left(doubt) => left = Some(doubt),
            Explored::Stopped => return Ok(Searched::Stopped),
            Explored::Found(witness) => return Ok(Searched::Found(witness)),
        }
    }
    Ok(Searched::Stopped)
}
