//! The language of filtersets: parsed trees, the parser, the printer, and the laws of both. A text goes in; a tree or its
//! faults come out, and a tree prints as a text. For `nextest_filtering`, and for all that shows or changes texts.
#![tactic(auto)]

pub mod laws;
mod parsing;
mod printing;
mod reference;
mod tree;

pub use filterset_grammar::{
    AndOperator, DifferenceOperator, Joiner, NotOperator, OrOperator, Predicate,
    SymmetricDifferenceOperator, TextMatching,
};
pub use parsing::{ParseStop, Parsed, lengths};
pub use reference::FILTERSET_REFERENCE_MD;
pub use tree::nodes::ParsedNode;
pub use tree::{ParsedExpr, ParsedLeaf, nodes};
