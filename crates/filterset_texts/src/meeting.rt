//! Whether texts meet conditions, by the marks of the places that they lead to.

ghost use Rattle.std.specs.Prelude.{◌≡◌, ◌+◌, ◌++◌, ◌<◌, ◌≤◌, ◌^◌, ◌↔◌, ℕ, List, Option, length, IsTrue};
ghost use Rattle.filterset_texts.specs.Parts.{FitsSome, Meets, all_place_count, place_count};
ghost use Rattle.filterset_texts.specs.Places.{LeadsTo, places_of, places_of_sequences};

use crate::part::{Condition, Part};

/// Returns whether the texts that lead to the marked places meet all conditions.
pub(crate) fn are_met(conditions: &[Condition], marks: &[bool]) -> bool
    requires { length marks.now ≡ all_place_count conditions.now }
    ensures { (text : List ℕ) → LeadsTo (places_of conditions.now) text marks.now
        → (IsTrue result ↔ Meets text conditions.now) }
{
    let mut first = 0;
    for condition in conditions {
        let fits_one = is_end_marked(&condition.sequences, &marks[first..]);
        if fits_one != condition.is_matched {
            return false;
        }
        first += count_places(&condition.sequences);
    }
    true
}

/// Returns whether the last place of a sequence is marked.
fn is_end_marked(sequences: &[Vec<Part>], marks: &[bool]) -> bool
    requires { place_count sequences.now ≤ length marks.now }
    ensures { (more : List (Option Part)) (text : List ℕ)
        → LeadsTo (places_of_sequences sequences.now ++ more) text marks.now → (IsTrue result ↔ FitsSome sequences.now text) }
{
    let mut first = 0;
    for sequence in sequences {
        let last = first + sequence.len();
        if marks[last] {
            return true;
        }
        first = last + 1;
    }
    false
}

fn count_places(sequences: &[Vec<Part>]) -> usize
    requires { place_count sequences.now < 2 ^ 64 }
    ensures { result ≡ place_count sequences.now }
{
    let mut count = 0;
    for sequence in sequences {
        count += sequence.len() + 1;
    }
    count
}
