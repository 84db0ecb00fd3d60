//! Equality of compiled expressions.
ghost use Rattle.std.specs.Cmp.{on_equiv, partial_equiv_from_equiv};
ghost use Rattle.filterset_expression.specs.Equality.{same_compiled_leaf, same_formula};
ghost use Rattle.filterset_expression.specs.EqualityLaws.{same_compiled_leaf_equiv, same_formula_equiv};
ghost use Rattle.filterset_expression.specs.Expression.{compiled_leaf, formula};

use crate::{CompiledExpr, FiltersetLeaf};

/// Compares all fields, spans included; globs are equal if their tokens are.
impl PartialEq for FiltersetLeaf {
    ghost eq = { λ a b. same_compiled_leaf (compiled_leaf a) (compiled_leaf b) };

    ghost laws = { partial_equiv_from_equiv (on_equiv compiled_leaf same_compiled_leaf_equiv) };

    fn eq(&self, other: &FiltersetLeaf) -> bool {
        match (self, other) {
            (FiltersetLeaf::Packages(ids), FiltersetLeaf::Packages(other_ids)) => ids == other_ids,
            (FiltersetLeaf::Kind(matcher, span), FiltersetLeaf::Kind(other_matcher, other_span))
            | (
                FiltersetLeaf::Binary(matcher, span),
                FiltersetLeaf::Binary(other_matcher, other_span),
            )
            | (
                FiltersetLeaf::BinaryId(matcher, span),
                FiltersetLeaf::BinaryId(other_matcher, other_span),
            )
            | (FiltersetLeaf::Test(matcher, span), FiltersetLeaf::Test(other_matcher, other_span))
            | (
                FiltersetLeaf::Group(matcher, span),
                FiltersetLeaf::Group(other_matcher, other_span),
            ) => matcher == other_matcher && span == other_span,
            (
                FiltersetLeaf::Platform(platform, span),
                FiltersetLeaf::Platform(other_platform, other_span),
            ) => platform == other_platform && span == other_span,
            (FiltersetLeaf::Default, FiltersetLeaf::Default)
            | (FiltersetLeaf::All, FiltersetLeaf::All)
            | (FiltersetLeaf::None, FiltersetLeaf::None) => true,
            _ => false,
        }
    }
}

impl Eq for FiltersetLeaf {
    ghost laws = { on_equiv compiled_leaf same_compiled_leaf_equiv };
}

/// Compares the shapes and the leaves.
impl PartialEq for CompiledExpr {
    ghost eq = { λ a b. same_formula same_compiled_leaf (formula a) (formula b) };

    ghost laws = { partial_equiv_from_equiv (on_equiv formula same_formula_equiv) };

    fn eq(&self, other: &CompiledExpr) -> bool {
        match (self, other) {
            (CompiledExpr::Not(operand), CompiledExpr::Not(other_operand)) => {
                operand == other_operand
            }
            (CompiledExpr::Union(left, right), CompiledExpr::Union(other_left, other_right))
            | (
                CompiledExpr::Intersection(left, right),
                CompiledExpr::Intersection(other_left, other_right),
            )
            | (
                CompiledExpr::SymmetricDifference(left, right),
                CompiledExpr::SymmetricDifference(other_left, other_right),
            ) => left == other_left && right == other_right,
            (CompiledExpr::Set(leaf), CompiledExpr::Set(other_leaf)) => leaf == other_leaf,
            _ => false,
        }
    }
}

impl Eq for CompiledExpr {
    ghost laws = { on_equiv formula same_formula_equiv };
}
