//! Looks at filtersets for every possible test: whether they pick the same tests, whether each test is picked by at least
//! one, by at most one, or by exactly one of them, and what is left of one that is simplified. Filtersets go in; yes, or a test
//! that shows why not, or a simpler filterset comes out. For `filterset_verdicts` and `filterset_asking`.
#![tactic(auto)]

mod aspects;
mod branch;
mod candidate;
mod deciding;
mod demand;
mod inferring;
mod judging;
pub mod laws;
mod listed;
mod literals;
mod packages;
mod question;
mod running;
mod sample;
mod searching;
mod seeking;
mod simplifying;
mod texts;
mod witness;

pub use deciding::{Verdict, decide};
pub use demand::{Demand, Doubt, TestField};
pub use listed::{ListedTests, find_listed};
pub use question::Question;
pub use simplifying::simplify;
pub use witness::{PossibleTest, Witness};
