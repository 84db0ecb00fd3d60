//! What is left of a tree: a constant, or a tree without constants and parentheses.
use filterset_language::ParsedExpr;

/// What is left of a tree.
#[derive(Drop)]
pub enum Reduction<S> {
    /// It matches all tests, or none.
    Constant(bool),
    Tree(Box<ParsedExpr<S>>),
}
