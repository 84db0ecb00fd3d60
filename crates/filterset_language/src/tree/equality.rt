//! Equality of predicates and trees.
ghost use Rattle.std.specs.Cmp.{on_equiv, on_per};
ghost use Rattle.filterset_grammar.specs.Equality.{same_leaf, same_tree};
ghost use Rattle.filterset_grammar.specs.EqualityLaws.{same_leaf_equiv, same_leaf_per, same_tree_equiv, same_tree_per};
ghost use Rattle.filterset_language.specs.Views.{leaf_of, tree_of};

use crate::tree::nodes::ParsedNode;
use crate::tree::{ParsedExpr, ParsedLeaf};

/// Compares all fields, spans included. Globs are equal if their tokens are.
impl<S: PartialEq> PartialEq for ParsedLeaf<S> {
    ghost eq = { λ a b. same_leaf S.eq (leaf_of a) (leaf_of b) };

    ghost laws = { on_per leaf_of (same_leaf_per S.laws) };

    fn eq(&self, other: &ParsedLeaf<S>) -> bool {
        match (self, other) {
            (ParsedLeaf::Package(matcher, span), ParsedLeaf::Package(other_matcher, other_span))
            | (ParsedLeaf::Deps(matcher, span), ParsedLeaf::Deps(other_matcher, other_span))
            | (ParsedLeaf::Rdeps(matcher, span), ParsedLeaf::Rdeps(other_matcher, other_span))
            | (ParsedLeaf::Kind(matcher, span), ParsedLeaf::Kind(other_matcher, other_span))
            | (ParsedLeaf::Binary(matcher, span), ParsedLeaf::Binary(other_matcher, other_span))
            | (ParsedLeaf::BinaryId(matcher, span), ParsedLeaf::BinaryId(other_matcher, other_span))
            | (ParsedLeaf::Test(matcher, span), ParsedLeaf::Test(other_matcher, other_span))
            | (ParsedLeaf::Group(matcher, span), ParsedLeaf::Group(other_matcher, other_span)) => {
                matcher == other_matcher && span == other_span
            }
            (
                ParsedLeaf::Platform(platform, span),
                ParsedLeaf::Platform(other_platform, other_span),
            ) => platform == other_platform && span == other_span,
            (ParsedLeaf::Default(span), ParsedLeaf::Default(other_span)) => span == other_span,
            (ParsedLeaf::All, ParsedLeaf::All) | (ParsedLeaf::None, ParsedLeaf::None) => true,
            _ => false,
        }
    }
}

impl<S: Eq> Eq for ParsedLeaf<S> {
    ghost laws = { on_equiv leaf_of (same_leaf_equiv S.Eq.laws) };
}

/// Compares the shape, the operators and the predicates, spans included.
impl<S: PartialEq> PartialEq for ParsedExpr<S> {
    ghost eq = { λ a b. same_tree S.eq (tree_of a) (tree_of b) };

    ghost laws = { on_per tree_of (same_tree_per S.laws) };

    fn eq(&self, other: &ParsedExpr<S>) -> bool {
        match (self.node(), other.node()) {
            (ParsedNode::Not(operator, operand), ParsedNode::Not(other_operator, other_operand)) =>
                { operator == other_operator && operand == other_operand }
            (
                ParsedNode::Union(operator, left, right),
                ParsedNode::Union(other_operator, other_left, other_right),
            ) => operator == other_operator && left == other_left && right == other_right,
            (
                ParsedNode::Join(joiner, left, right),
                ParsedNode::Join(other_joiner, other_left, other_right),
            ) => joiner == other_joiner && left == other_left && right == other_right,
            (ParsedNode::Parens(inner), ParsedNode::Parens(other_inner)) => inner == other_inner,
            (ParsedNode::Set(leaf), ParsedNode::Set(other_leaf)) => leaf == other_leaf,
            _ => false,
        }
    }
}

impl<S: Eq> Eq for ParsedExpr<S> {
    ghost laws = { on_equiv tree_of (same_tree_equiv S.Eq.laws) };
}
