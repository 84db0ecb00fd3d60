//! Reads a record of filtersets, packages, binaries and tests from JSON, and asks filtersets about all tests of a binary at
//! once: an expression and the names of the tests go in, and a column, which has an answer for each test, comes out. For
//! `filterset_cli`, and for the library for C.
#![tactic(auto)]

mod bits;
mod column;
mod evaluating;
mod expression;
mod groups;
mod hits;
mod names;
mod operators;
mod record;
mod search;

pub use column::Column;
pub use expression::ColumnExpr;
pub use groups::{GroupedTest, PlacedLookup};
pub use names::Names;
pub use record::{BinaryEntry, Command, FiltersetEntry, Record, TestEntry};
