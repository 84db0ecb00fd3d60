//! The states of a search: sets of places, each with a text that leads to them.

ghost use Rattle.std.specs.Prelude.{◌≡◌, ◌+◌, ◌++◌, ◌<◌, ◌∷◌, List, [], IfNone, IfOk, IfSome, OnOk, length, slice_index_or, string_bytes};
ghost use Rattle.std.specs.{List.All, Str.chars};
ghost use Rattle.filterset_texts.specs.Places.{BeginsAnew, IsAdmittedAt, row_of};
ghost use Rattle.filterset_texts.specs.Searching.{AreSeen, AreStates, HasNext, LeadsOn};

use crate::letters::Letter;
use crate::marks::{mark_next, mark_start};
use crate::places::Place;
use std::alloc::{AllocError, Global};
use std::collections::HashSet;

/// A text, and the places that it leads to.
#[derive(Drop)]
pub(crate) struct State {
    pub(crate) text: String,
    /// A mark for each place: whether the text leads to it.
    pub(crate) marks: Vec<bool>,
}

/// The states that were found, in order.
#[derive(Drop)]
pub(crate) struct States {
    pub(crate) list: Vec<State>,
    /// The marks of the states.
    pub(crate) seen: HashSet<Vec<bool>>,
}

/// Lists the state of the empty text.
pub(crate) fn list_start(alloc: Global, places: &[Place<'_>]) -> Result<States, AllocError>
    ensures states { IfOk result (λ states. AreStates (row_of places.now) states.list.items) }
    ensures seen { IfOk result (λ states. AreSeen states.list.items states.seen) }
{
    let marks = mark_start(alloc, places)?;
    let mut states = States {
        list: Vec::new(alloc),
        seen: HashSet::new(alloc),
    };
    let text = String::new(alloc);
    add_state(alloc, &mut states, State { text, marks })?;
    Ok(states)
}

/// Adds a state at the end.
fn add_state(alloc: Global, states: &mut States, state: State) -> Result<(), AllocError>
    requires { AreSeen states.old.list.items states.old.seen }
    ensures list { OnOk result (states.new.list.items ≡ states.old.list.items ++ state ∷ []) }
    ensures seen { OnOk result (AreSeen states.new.list.items states.new.seen) }
{
    states.seen.insert(state.marks.to_vec(alloc)?)?;
    states.list.push(state)?;
    Ok(())
}

/// Adds the states that are not there yet to which letters lead from the one at this index.
pub(crate) fn add_following(
    alloc: Global,
    places: &[Place<'_>],
    letters: &[Letter],
    states: &mut States,
    index: usize,
) -> Result<(), AllocError>
    requires begins { BeginsAnew (row_of places.now) }
    requires letters { All (λ letter. IsAdmittedAt (row_of places.now) letter.character letter.marks.items) letters.now }
    requires states { AreStates (row_of places.now) states.old.list.items }
    requires seen { AreSeen states.old.list.items states.old.seen }
    requires index { index < length states.old.list.items }
    ensures states { OnOk result (AreStates (row_of places.now) states.new.list.items) }
    ensures seen { OnOk result (AreSeen states.new.list.items states.new.seen) }
    ensures kept { OnOk result ((more : List State) × (states.new.list.items ≡ states.old.list.items ++ more)) }
    ensures next { OnOk result ((state : State)
        → All (HasNext (row_of places.now) states.new.list.items (slice_index_or states.old.list.items index state).marks.items)
        letters.now) }
{
    for letter in letters {
        let found = find_next(alloc, places, letter, &states.list, &states.seen, index)?;
        if let Some(next) = found {
            add_state(alloc, states, next)?;
        }
    }
    Ok(())
}

/// Returns the state to which a letter leads from the one at this index, or `None` if its marks were seen.
fn find_next(
    alloc: Global,
    places: &[Place<'_>],
    letter: &Letter,
    states: &[State],
    seen: &HashSet<Vec<bool>>,
    index: usize,
) -> Result<Option<State>, AllocError>
    requires begins { BeginsAnew (row_of places.now) }
    requires letter { IsAdmittedAt (row_of places.now) letter.now.character letter.now.marks.items }
    requires states { AreStates (row_of places.now) states.now }
    requires seen { AreSeen states.now seen.now }
    requires index { index < length states.now }
    ensures states { IfOk result (λ found. IfSome found (λ next. AreStates (row_of places.now) (states.now ++ next ∷ []))) }
    ensures next { IfOk result (λ found. IfSome found (λ next. (state : State)
        → LeadsOn (row_of places.now) letter.now (slice_index_or states.now index state).marks.items next.marks.items)) }
    ensures known { IfOk result (λ found. IfNone found ((state : State)
        → HasNext (row_of places.now) states.now (slice_index_or states.now index state).marks.items letter.now)) }
{
    let state = &states[index];
    let marks = mark_next(alloc, places, &state.marks, &letter.marks)?;
    if seen.contains(&marks) {
        return Ok(None);
    }
    let text = extend(&state.text, letter.character)?;
    Ok(Some(State { text, marks }))
}

/// Returns the text with one more character.
fn extend(text: &String, character: char) -> Result<String, AllocError>
    ensures { IfOk result (λ longer. chars (string_bytes longer) ≡ chars (string_bytes text.now) ++ character ∷ []) }
{
    let mut longer = text.clone()?;
    longer.push(character)?;
    Ok(longer)
}
