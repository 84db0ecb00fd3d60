//! What the values of filtersets say about a question.
ghost use Rattle.std.specs.Prelude.{◌≡◌, ℕ, Bool, List, true, false, map, length};
ghost use Rattle.std.specs.List.{AllByRecursion, count_by};
ghost use Rattle.filterset_deciding.specs.Judging.{is_yes, is_maybe, Fits, IsUnmetFor, met};
ghost use Rattle.filterset_deciding.specs.{Question.is_met, Waiting.IsSettled, Waiting.WaitsAt};

use crate::question::Question;
use crate::running::StackValue;

/// What the values of a branch say about the question.
#[derive(Clone, Copy)]
pub(crate) enum Judgement {
    /// The answer is yes, or the first filterset does not pick the test.
    Met,
    /// The answer is no.
    Unmet,
    /// The answer depends on the leaf at this position.
    Open(usize),
}

/// Counts the filtersets that are true.
fn count_yes(values: &[StackValue]) -> usize
    ensures { result ≡ count_by (λ s. is_yes s.value) values.now }
{
    values
        .iter()
        .filter(|s| matches!(s.value, Some(true)))
        .count()
}

/// Counts the filtersets that are not known to be false.
fn count_maybe(values: &[StackValue]) -> usize
    ensures { result ≡ count_by (λ s. is_maybe s.value) values.now }
{
    values
        .iter()
        .filter(|s| !matches!(s.value, Some(false)))
        .count()
}

/// Returns the position of the leaf that the first unknown value depends on.
fn find_open(values: &[StackValue]) -> usize
    requires { ¬ AllByRecursion IsSettled values.now }
    ensures { WaitsAt result values.now }
{
    for one in values {
        match one.value {
            None => return one.waits_for,
            Some(_) => {}
        }
    }
    0
}

/// Judges the question by the values of its filtersets.
fn judge_given(question: Question, values: &[StackValue]) -> Judgement
    ensures met { result ≡ Judgement.Met → (answers : List Bool) → Fits answers (map (λ s. s.value) values.now)
        → is_met question (count_by (λ x. x) answers) (length answers) ≡ true }
    ensures unmet { result ≡ Judgement.Unmet → (answers : List Bool) → Fits answers (map (λ s. s.value) values.now)
        → is_met question (count_by (λ x. x) answers) (length answers) ≡ false }
    ensures opened { (at : ℕ) → result ≡ Judgement.Open at → WaitsAt at values.now }
{
    let low = count_yes(values);
    let high = count_maybe(values);
    match question.settle(low, high, values.len()) {
        Some(true) => Judgement::Met,
        Some(false) => Judgement::Unmet,
        None => Judgement::Open(find_open(values)),
    }
}

/// Judges the question by these values: first that of the filterset that a test has to be in, then those of the question's
/// filtersets.
pub(crate) fn judge(question: Question, values: &[StackValue]) -> Judgement
    ensures met { result ≡ Judgement.Met → (answers : List Bool) → Fits answers (map (λ s. s.value) values.now)
        → met question answers ≡ true }
    ensures unmet { result ≡ Judgement.Unmet → IsUnmetFor question (map (λ s. s.value) values.now) }
    ensures opened { (at : ℕ) → result ≡ Judgement.Open at → WaitsAt at values.now }
{
    let [given, others @ ..] = values else {
        return Judgement::Met;
    };
    match given.value {
        Some(false) => Judgement::Met,
        Some(true) => judge_given(question, others),
        None => Judgement::Open(given.waits_for),
    }
}
