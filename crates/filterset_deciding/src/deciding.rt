//! Decides questions about filtersets.
ghost use Rattle.std.specs.Prelude.{◌≡◌, ◌⊎◌, ◌<◌, ◌+◌, ◌*◌, ◌^◌, ◌++◌, IfOk, OnOk, length};
ghost use Rattle.filterset_expression.specs.{Contexts.default_of, Expression.with_default};
ghost use Rattle.filterset_expression.specs.FlatSteps.{steps_of, postfix};
ghost use Rattle.filterset_deciding.specs.Deciding.{IsAlwaysMet, IsUnmetAt, leaves_asked, steps_asked};
ghost use Rattle.filterset_deciding.specs.Demands.{HasUncompared, IsDoubtAbout};
ghost use Rattle.filterset_deciding.specs.{Texts.AreComparisons, Texts.HasUnsearched, declared.demand.Doubt.Doubt};

use crate::demand::Doubt;
use crate::question::Question;
use crate::searching::{Asked, Searched, search};
use crate::seeking::Effort;
use crate::witness::Witness;
use filterset_expression::{CompiledExpr, EvalContext, FlatExpr, FlatStep};
use std::alloc::{AllocError, Global};

/// The answer to a question for every possible test.
#[derive(Debug, Drop)]
pub enum Verdict<'x> {
    /// The answer is yes for every test.
    Always,
    /// The answer is no for this test.
    Fails(Witness),
    /// The search found no such test, but could not exclude that there is one. What it depends on, in one place at least.
    Unknown(Doubt<'x>),
    /// The search came to the end of its budget.
    Stopped,
}

/// Appends the steps of a filterset.
fn push_steps<'a>(
    alloc: Global,
    steps: &mut Vec<FlatStep<'a>>,
    expr: &'a CompiledExpr,
    cx: &EvalContext<'a>,
) -> Result<(), AllocError>
    ensures { OnOk result (steps_of steps.new.items
        ≡ steps_of steps.old.items ++ postfix (with_default (default_of cx.now) expr.now)) }
{
    let flat = FlatExpr::new(alloc, expr, cx)?;
    steps.extend_from_slice(flat.steps())?;
    Ok(())
}

/// Decides whether the answer to the question is yes for every test that the given filterset picks, whatever the test's
/// name, binary and group are.
///
/// The search tries the values of leaves, in branches that each have all steps of the filtersets. Where texts are matched by
/// globs, it searches for one a character at a time. `budget` limits how many steps either looks at, and so its time; its
/// memory is at most proportional to that. The only error is out of memory.
pub fn decide<'x>(
    alloc: Global,
    given: &'x CompiledExpr,
    exprs: &[&'x CompiledExpr],
    cx: &EvalContext<'x>,
    question: Question,
    budget: u64,
) -> Result<Verdict<'x>, AllocError>
    ensures always { IfOk result (λ verdict. verdict ≡ Verdict.Always
        → IsAlwaysMet question given.now (default_of cx.now) exprs.now) }
    ensures fails { IfOk result (λ verdict. (witness : Witness) → verdict ≡ Verdict.Fails witness
        → IsUnmetAt question given.now (default_of cx.now) exprs.now witness.test witness.picks.items) }
    ensures unknown { IfOk result (λ verdict. (doubt : Doubt) → verdict ≡ Verdict.Unknown doubt
        → IsDoubtAbout (leaves_asked given.now (default_of cx.now) exprs.now) doubt) }
    ensures decided { IfOk result (λ verdict. (doubt : Doubt) → verdict ≡ Verdict.Unknown doubt
        → (¬ AreComparisons doubt.demands.items) × HasUnsearched doubt.demands.items) }
    ensures stopped { IfOk result (λ verdict. verdict ≡ Verdict.Stopped
        → (budget < 2 ^ (length (leaves_asked given.now (default_of cx.now) exprs.now) + 1)
        * length (steps_asked given.now (default_of cx.now) exprs.now))
        ⊎ HasUncompared (leaves_asked given.now (default_of cx.now) exprs.now)) }
{
    let mut steps = Vec::new(alloc);
    push_steps(alloc, &mut steps, given, cx)?;
    for expr in exprs {
        push_steps(alloc, &mut steps, expr, cx)?;
    }
    let asked = Asked {
        given,
        exprs,
        cx: *cx,
        question,
    };
    let branches = budget / steps.len() as u64;
    match search(alloc, &asked, &steps, branches, Effort { left: budget })? {
        Searched::Nothing => Ok(Verdict::Always),
        Searched::Unknown(doubt) => Ok(Verdict::Unknown(doubt.without_repeats(alloc)?)),
        Searched::Stopped => Ok(Verdict::Stopped),
        Searched::Found(witness) => Ok(Verdict::Fails(witness)),
    }
}
