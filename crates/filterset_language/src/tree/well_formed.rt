//! The test of well-formedness: which trees parse back from what they print.
ghost use Rattle.std.specs.Prelude.{◌≡◌, ◌↔◌, IsTrue};
ghost use Rattle.filterset_matchers.specs.Matchers.{matcher_of};
ghost use Rattle.filterset_grammar.specs.Printing.{IsOwn, IsWellFormedMatcher, IsWellFormedLeaf, WellFormed};
ghost use Rattle.filterset_grammar.specs.Text.{ends_in_backslash};
ghost use Rattle.filterset_language.specs.Views.{leaf_of, tree_of};

use crate::tree::nodes::ParsedNode;
use crate::tree::parens::{Level, is_of_level};
use crate::tree::{ParsedExpr, ParsedLeaf};
use filterset_grammar::{Predicate, TextMatching};
use filterset_matchers::NameMatcher;

impl<S> ParsedLeaf<S> {
    /// Returns whether the matcher's text is not empty, a pattern does not end in a backslash, and a matcher without a
    /// sign matches as the predicate does by default.
    pub fn is_well_formed(&self) -> bool
        ensures { IsTrue result ↔ IsWellFormedLeaf (leaf_of self.now) }
    {
        match self {
            ParsedLeaf::Package(matcher, _) => is_well_formed(Predicate::Package, matcher),
            ParsedLeaf::Deps(matcher, _) => is_well_formed(Predicate::Deps, matcher),
            ParsedLeaf::Rdeps(matcher, _) => is_well_formed(Predicate::Rdeps, matcher),
            ParsedLeaf::Kind(matcher, _) => is_well_formed(Predicate::Kind, matcher),
            ParsedLeaf::Binary(matcher, _) => is_well_formed(Predicate::Binary, matcher),
            ParsedLeaf::BinaryId(matcher, _) => is_well_formed(Predicate::BinaryId, matcher),
            ParsedLeaf::Test(matcher, _) => is_well_formed(Predicate::Test, matcher),
            ParsedLeaf::Group(matcher, _) => is_well_formed(Predicate::Group, matcher),
            ParsedLeaf::Platform(_, _)
            | ParsedLeaf::Default(_)
            | ParsedLeaf::All
            | ParsedLeaf::None => true,
        }
    }
}

impl<S> ParsedExpr<S> {
    /// Returns whether the printed tree parses back to the same tree, spans aside: each operand is of the level that
    /// its position needs, and each predicate is well formed.
    pub fn is_well_formed(&self) -> bool
        ensures { IsTrue result ↔ WellFormed (tree_of self.now) }
    {
        match self.node() {
            ParsedNode::Not(_, operand) => {
                is_of_level(operand, Level::Basic) && operand.is_well_formed()
            }
            ParsedNode::Union(_, left, right) => {
                is_of_level(right, Level::And) && left.is_well_formed() && right.is_well_formed()
            }
            ParsedNode::Join(_, left, right) => {
                is_of_level(left, Level::And)
                    && is_of_level(right, Level::Basic)
                    && left.is_well_formed()
                    && right.is_well_formed()
            }
            ParsedNode::Parens(inner) => inner.is_well_formed(),
            ParsedNode::Set(leaf) => leaf.is_well_formed(),
        }
    }
}

/// Returns whether the matcher parses back as a matcher of the predicate.
fn is_well_formed(predicate: Predicate, matcher: &NameMatcher) -> bool
    ensures { let m = matcher_of matcher.now in IsTrue result ↔ (IsOwn predicate m × IsWellFormedMatcher m) }
{
    let own = predicate.own_matching();
    match matcher {
        NameMatcher::Equal { value, implicit } => {
            !value.is_empty() && (!*implicit || own == TextMatching::Equal)
        }
        NameMatcher::Contains { value, implicit } => {
            !value.is_empty() && (!*implicit || own == TextMatching::Contains)
        }
        NameMatcher::Glob { glob, implicit } => {
            !glob.as_str().is_empty() && (!*implicit || own == TextMatching::Glob)
        }
        NameMatcher::Regex(pattern) => !ends_in_backslash(pattern.as_str().as_bytes()),
    }
}

/// Returns whether the last byte of a text is a backslash.
fn ends_in_backslash(text: &[u8]) -> bool
    ensures { result ≡ ends_in_backslash text.now }
{
    match text {
        [.., last] => *last == b'\\',
        [] => false,
    }
}
