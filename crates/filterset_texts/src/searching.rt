//! The search for a text that meets conditions.

ghost use Rattle.std.specs.Prelude.{◌≡◌, ◌≤◌, ◌<◌, ◌^◌, IfOk};
ghost use Rattle.filterset_texts.specs.{Parts.all_place_count, Searching.HasSets, Searching.IsRight};

use crate::letters::list_letters;
use crate::meeting::are_met;
use crate::part::Condition;
use crate::places::list_places;
use crate::states::{add_following, list_start};
use std::alloc::{AllocError, Global};

/// What a search found.
#[derive(Debug, Drop)]
pub enum Found {
    /// A text that meets all conditions.
    Text(String),
    /// No text meets all conditions.
    Nothing,
    /// The search ended at its limit.
    Stopped,
}

/// The end of a search.
#[derive(Debug, Drop)]
pub struct Search {
    pub found: Found,
    /// The number of states that the search looked at.
    pub states: u64,
}

/// Searches for a text that meets all conditions, and looks at `limit` states at most. A state is the set of the places
/// that a text leads to, before, between and after the parts of the sequences. Shorter texts are tried first.
pub fn find_text(alloc: Global, conditions: &[Condition], limit: u64) -> Result<Search, AllocError>
    ensures found { IfOk result (λ search. IsRight conditions.now limit search.found) }
    ensures within_limit { IfOk result (λ search. search.states ≤ limit) }
    ensures all { IfOk result (λ search. search.found ≡ Found.Nothing → HasSets conditions.now search.states) }
    ensures at_limit { IfOk result (λ search. search.found ≡ Found.Stopped → search.states ≡ limit) }
    ensures some { IfOk result (λ search. 0 < limit → 0 < search.states) }
    ensures within_sets { IfOk result (λ search. search.states ≤ 2 ^ all_place_count conditions.now) }
{
    let places = list_places(alloc, conditions)?;
    let letters = list_letters(alloc, &places)?;
    let mut states = list_start(alloc, &places)?;
    for count in 0..limit {
        let index = count as usize;
        if index == states.list.len() {
            return Ok(Search {
                found: Found::Nothing,
                states: count,
            });
        }
        let state = &states.list[index];
        if are_met(conditions, &state.marks) {
            let text = state.text.clone()?;
            return Ok(Search {
                found: Found::Text(text),
                states: count + 1,
            });
        }
        add_following(alloc, &places, &letters, &mut states, index)?;
    }
    let found = if states.list.len() as u64 == limit {
        Found::Nothing
    } else {
        Found::Stopped
    };
    Ok(Search {
        found,
        states: limit,
    })
}
