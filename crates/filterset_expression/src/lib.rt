//! Compiled expressions: their leaves, the queries that they take, and their evaluation. A binary or a test goes in; whether
//! the expression picks it comes out. For `nextest_filtering`, and for all that asks about tests.
#![tactic(auto)]

mod context;
mod equality;
mod expression;
mod flat;
mod groups;
pub mod laws;
mod leaves;
mod logic;
pub mod nodes;
mod query;

pub use context::EvalContext;
pub use expression::CompiledExpr;
pub use flat::{FlatExpr, FlatStep};
pub use groups::GroupLookup;
pub use leaves::FiltersetLeaf;
pub use logic::{Connective, Logic};
pub use query::{BinaryQuery, TestQuery};
