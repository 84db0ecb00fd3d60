//! Answers `same`, `cover`, `disjoint` and `partition`: questions about filtersets and every possible test. A request and
//! files go in; a verdict for people or as JSON comes out, with a test, if there is one, and why filtersets pick it.
//! For the program `filterset`.
#![tactic(auto)]

mod answering;
mod deciding;
mod json;
mod listed;
mod naming;
mod reasons;
mod text;

pub use deciding::decide_given;
