//! The operators and how they print.
ghost use Rattle.std.specs.Prelude.{Some};
ghost use Rattle.filterset_grammar.specs.Tree.{Both, Without, ExactlyOne};
ghost use Rattle.filterset_grammar.specs.Grammar.{not_text, or_text, join_text};

use std::fmt;
use std::fmt::Display;

/// A negation: `not` or `!`.
#[derive(Clone, Copy, Debug, PartialEq, Eq)]
pub enum NotOperator {
    LiteralNot,
    Exclamation,
}

/// A union: `or`, `|` or `+`.
#[derive(Clone, Copy, Debug, PartialEq, Eq)]
pub enum OrOperator {
    LiteralOr,
    Pipe,
    Plus,
}

/// An intersection: `and` or `&`.
#[derive(Clone, Copy, Debug, PartialEq, Eq)]
pub enum AndOperator {
    LiteralAnd,
    Ampersand,
}

/// A difference: `-`.
#[derive(Clone, Copy, Debug, PartialEq, Eq)]
pub enum DifferenceOperator {
    Minus,
}

/// A symmetric difference: `^`.
#[derive(Clone, Copy, Debug, PartialEq, Eq)]
pub enum SymmetricDifferenceOperator {
    Caret,
}

/// An operator of the level of `and`: an intersection, a difference or a symmetric difference.
#[derive(Clone, Copy, Debug, PartialEq, Eq)]
pub enum Joiner {
    Both(AndOperator),
    Without(DifferenceOperator),
    ExactlyOne(SymmetricDifferenceOperator),
}

/// Prints `not` or `!`.
impl fmt::Display for NotOperator {
    ghost output = { λ o. Some (not_text o) };

    fn fmt<W: fmt::Write>(&self, f: &mut fmt::Formatter<W>) -> fmt::Result {
        match self {
            NotOperator::LiteralNot => f.write_str("not"),
            NotOperator::Exclamation => f.write_str("!"),
        }
    }
}

/// Prints `or`, `|` or `+`.
impl fmt::Display for OrOperator {
    ghost output = { λ o. Some (or_text o) };

    fn fmt<W: fmt::Write>(&self, f: &mut fmt::Formatter<W>) -> fmt::Result {
        match self {
            OrOperator::LiteralOr => f.write_str("or"),
            OrOperator::Pipe => f.write_str("|"),
            OrOperator::Plus => f.write_str("+"),
        }
    }
}

/// Prints `and` or `&`.
impl fmt::Display for AndOperator {
    ghost output = { λ o. Some (join_text (Both o)) };

    fn fmt<W: fmt::Write>(&self, f: &mut fmt::Formatter<W>) -> fmt::Result {
        match self {
            AndOperator::LiteralAnd => f.write_str("and"),
            AndOperator::Ampersand => f.write_str("&"),
        }
    }
}

/// Prints `-`.
impl fmt::Display for DifferenceOperator {
    ghost output = { λ o. Some (join_text (Without o)) };

    fn fmt<W: fmt::Write>(&self, f: &mut fmt::Formatter<W>) -> fmt::Result {
        match self {
            DifferenceOperator::Minus => f.write_str("-"),
        }
    }
}

/// Prints `^`.
impl fmt::Display for SymmetricDifferenceOperator {
    ghost output = { λ o. Some (join_text (ExactlyOne o)) };

    fn fmt<W: fmt::Write>(&self, f: &mut fmt::Formatter<W>) -> fmt::Result {
        match self {
            SymmetricDifferenceOperator::Caret => f.write_str("^"),
        }
    }
}
