//! Marks of the places that a text leads to.

ghost use Rattle.std.specs.Prelude.{◌≡◌, ◌++◌, ◌∷◌, ℕ, List, [], length, IfOk, IsTrue, ◌↔◌};
ghost use Rattle.filterset_texts.specs.Places.{BeginsAnew, IsAdmittedAt, LeadsTo, row_of};

use crate::part::Part;
use crate::places::Place;
use std::alloc::{AllocError, Global};

/// Returns a mark for each place: whether the empty text leads to it.
pub(crate) fn mark_start(alloc: Global, places: &[Place<'_>]) -> Result<Vec<bool>, AllocError>
    ensures { IfOk result (λ marks. LeadsTo (row_of places.now) [] marks.items) }
{
    let mut marks = Vec::new(alloc);
    let mut reached = true;
    for place in places {
        reached = match place {
            None => true,
            Some(Part::One { .. }) => false,
            Some(Part::Any) => reached,
        };
        marks.push(reached)?;
    }
    Ok(marks)
}

/// Returns a mark for each place: whether a text leads to it that is one character longer than a text with the given marks.
pub(crate) fn mark_next(
    alloc: Global,
    places: &[Place<'_>],
    marks: &[bool],
    admitted: &[bool],
) -> Result<Vec<bool>, AllocError>
    requires begins { BeginsAnew (row_of places.now) }
    requires marked { length marks.now ≡ length places.now }
    requires admits { length admitted.now ≡ length places.now }
    ensures { IfOk result (λ next. (text : List ℕ) (c : ℕ) → LeadsTo (row_of places.now) text marks.now
        → IsAdmittedAt (row_of places.now) c admitted.now → LeadsTo (row_of places.now) (text ++ c ∷ []) next.items) }
{
    let mut next = Vec::new(alloc);
    let mut was_reached = false;
    let mut reached = false;
    for (index, place) in places.iter().enumerate() {
        reached = match place {
            None => false,
            Some(Part::One { .. }) => was_reached && admitted[index],
            Some(Part::Any) => reached || marks[index],
        };
        was_reached = marks[index];
        next.push(reached)?;
    }
    Ok(next)
}

/// Returns whether the marks are the same.
pub(crate) fn are_same(marks: &[bool], others: &[bool]) -> bool
    ensures { IsTrue result ↔ (marks.now ≡ others.now) }
{
    marks == others
}
