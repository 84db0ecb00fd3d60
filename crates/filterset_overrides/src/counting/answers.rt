//! Answers about tests, a list a question.
ghost use Rattle.std.specs.Prelude.{◌≡◌, false, IfOk, map};
ghost use Rattle.std.specs.{List.count_by, List.zip, Option.is_none, Option.unwrap_or};
ghost use Rattle.filterset_expression.specs.Connectives.{kleene, kleene_not};
ghost use Rattle.filterset_expression.specs.declared.logic.Connective.TheVariants.{Conjunction, Disjunction};
ghost use Rattle.filterset_overrides.specs.Applying.{verdict};

use crate::applying::Application;
use crate::counting::TestCount;
use filterset_expression::Logic;
use std::alloc::{AllocError, Global};

/// Counts the answers that are yes, and those that are unknown.
pub fn count_answers(answers: &[Option<bool>]) -> TestCount
    ensures sure { result.sure ≡ count_by (λ a. unwrap_or a false) answers.now }
    ensures unknown { result.unknown ≡ count_by is_none answers.now }
{
    TestCount {
        sure: answers
            .iter()
            .filter(|answer| answer.unwrap_or(false))
            .count(),
        unknown: answers.iter().filter(|answer| answer.is_none()).count(),
    }
}

/// Returns of each test whether an override applies to it.
pub fn verdicts_of(
    alloc: Global,
    applications: &[Application],
) -> Result<Vec<Option<bool>>, AllocError>
    ensures { IfOk result (λ answers. answers.items ≡ map verdict applications.now) }
{
    applications
        .iter()
        .map(|application| application.verdict())
        .collect(alloc)
}

/// Returns of each test whether an override gives it a setting, by whether it applies and whether one before it takes the
/// setting.
pub fn given_of(
    alloc: Global,
    applies: &[Option<bool>],
    taken: &[Option<bool>],
) -> Result<Vec<Option<bool>>, AllocError>
    ensures { IfOk result (λ given. given.items
        ≡ map (λ p. kleene Conjunction p.0 (kleene_not p.1)) (zip applies.now taken.now)) }
{
    applies
        .iter()
        .zip(taken)
        .map(|(applies, taken)| applies.logic_and(taken.logic_not()))
        .collect(alloc)
}

/// Returns of each test whether one of two takes its setting.
pub fn either_of(
    alloc: Global,
    taken: &[Option<bool>],
    applies: &[Option<bool>],
) -> Result<Vec<Option<bool>>, AllocError>
    ensures { IfOk result (λ either. either.items ≡ map (λ p. kleene Disjunction p.0 p.1) (zip taken.now applies.now)) }
{
    taken
        .iter()
        .zip(applies)
        .map(|(taken, applies)| taken.logic_or(*applies))
        .collect(alloc)
}
