//! Matchers of names: what they match and what they print. A value and a way to match go in, and are refused if they are no
//! glob or pattern; whether a name matches comes out. For the parser, which makes them, and for all that evaluates.
#![tactic(auto)]

mod matcher;
mod printing;

pub use matcher::{GlobMatcher, NameMatcher, PatternMatcher, PatternRefusal, PatternRegex};
