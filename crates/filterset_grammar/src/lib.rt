//! The definition of the language of filtersets: its trees, the texts that spell them, how trees print, when they are equal,
//! and where parentheses are added. It reads nothing: its code is the enums of operators and predicates. For all that
//! parses, compiles or rewrites.
#![tactic(auto)]

mod operators;
mod predicate;

pub use operators::{
    AndOperator, DifferenceOperator, Joiner, NotOperator, OrOperator, SymmetricDifferenceOperator,
};
pub use predicate::{Predicate, TextMatching};
