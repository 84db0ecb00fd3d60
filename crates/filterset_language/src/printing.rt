//! How trees and predicates print.
ghost use Rattle.std.specs.Prelude.{Some};
ghost use Rattle.filterset_language.specs.Views.{leaf_of, tree_of};
ghost use Rattle.filterset_grammar.specs.Printing.{printed, printed_leaf};

use crate::tree::nodes::ParsedNode;
use crate::tree::{ParsedExpr, ParsedLeaf};
use filterset_grammar::Joiner;
use std::fmt;
use std::fmt::Display;

/// Prints one blank on each side of an operator, one after a negation, and parentheses only where the tree has them.
impl<S> fmt::Display for ParsedExpr<S> {
    ghost output = { λ e. Some (printed (tree_of e)) };

    fn fmt<W: fmt::Write>(&self, f: &mut fmt::Formatter<W>) -> fmt::Result {
        match self.node() {
            ParsedNode::Not(operator, operand) => {
                write!(f, "{operator} ")?;
                operand.fmt(f)
            }
            ParsedNode::Union(operator, left, right) => {
                left.fmt(f)?;
                write!(f, " {operator} ")?;
                right.fmt(f)
            }
            ParsedNode::Join(joiner, left, right) => {
                left.fmt(f)?;
                match joiner {
                    Joiner::Both(operator) => write!(f, " {operator} ")?,
                    Joiner::Without(operator) => write!(f, " {operator} ")?,
                    Joiner::ExactlyOne(operator) => write!(f, " {operator} ")?,
                }
                right.fmt(f)
            }
            ParsedNode::Parens(inner) => {
                f.write_str("(")?;
                inner.fmt(f)?;
                f.write_str(")")
            }
            ParsedNode::Set(leaf) => leaf.fmt(f),
        }
    }
}

/// Prints the name and the argument in parentheses, without blanks round it. A platform prints as `host` or `target`.
impl<S> fmt::Display for ParsedLeaf<S> {
    ghost output = { λ l. Some (printed_leaf (leaf_of l)) };

    fn fmt<W: fmt::Write>(&self, f: &mut fmt::Formatter<W>) -> fmt::Result {
        match self {
            ParsedLeaf::Package(m, _) => write!(f, "package({m})"),
            ParsedLeaf::Deps(m, _) => write!(f, "deps({m})"),
            ParsedLeaf::Rdeps(m, _) => write!(f, "rdeps({m})"),
            ParsedLeaf::Kind(m, _) => write!(f, "kind({m})"),
            ParsedLeaf::Binary(m, _) => write!(f, "binary({m})"),
            ParsedLeaf::BinaryId(m, _) => write!(f, "binary_id({m})"),
            ParsedLeaf::Platform(p, _) => write!(f, "platform({p})"),
            ParsedLeaf::Test(m, _) => write!(f, "test({m})"),
            ParsedLeaf::Group(m, _) => write!(f, "group({m})"),
            ParsedLeaf::Default(_) => f.write_str("default()"),
            ParsedLeaf::All => f.write_str("all()"),
            ParsedLeaf::None => f.write_str("none()"),
        }
    }
}
