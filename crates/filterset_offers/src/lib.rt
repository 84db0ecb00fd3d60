//! What a workspace adds to a document with filtersets: the names that may be typed at a position, each valid
//! there; what a predicate means and matches; warnings of predicates that match nothing. Packages, a list of tests and
//! the document's filtersets go in; the values of a language server's answers come out. For the program `filterset`.
#![tactic(auto)]

mod candidates;
mod documents;
mod gaps;
mod hover;
mod index;
mod items;
mod marks;
mod matched;
mod matches;
mod matching;
mod named;
mod names;
mod offering;
mod packages;
mod ready;
mod searching;
mod standing;
mod unmatched;
mod words;
mod workspace;

pub use documents::complete_entries;
pub use hover::hover_entries;
pub use unmatched::warn_entries;
pub use workspace::Workspace;
