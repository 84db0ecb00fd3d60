//! The parser of filtersets.

mod escapes;
mod expressions;
mod input;
pub mod lengths;
mod matchers;
mod misplaced;
mod names;
mod operators;
mod parse;
mod platform;
mod predicates;
mod raw_text;

pub use parse::{ParseStop, Parsed};
