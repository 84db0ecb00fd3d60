//! Texts that matchers must match, or must not match: whether there is one. Matchers go in; such a text, or that there is
//! none, or that the search took too many steps, comes out. For `filterset_deciding`.
#![tactic(auto)]

mod counting;
mod expanding;
mod joining;
mod letters;
mod marks;
mod meeting;
mod part;
mod places;
mod searching;
mod states;
mod texts;
mod tokens;

pub use expanding::{Expansion, sequences_of};
pub use part::{Condition, Part};
pub use searching::{Found, Search, find_text};
