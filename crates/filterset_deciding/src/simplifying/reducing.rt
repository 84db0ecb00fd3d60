//! Trees without constants, parentheses and operands that change nothing.
ghost use Rattle.std.specs.Prelude.{◌≡◌, IfOk};
ghost use Rattle.filterset_language.specs.Views.{leaf_of, tree_of};
ghost use Rattle.filterset_deciding.specs.Simplifying.Reducing.{reduction_of, reduced, reduced_leaf};

use crate::simplifying::joining::{differ, intersect, negate, subtract, unite};
use crate::simplifying::reduction::Reduction;
use filterset_language::nodes::copy_set;
use filterset_language::{Joiner, ParsedExpr, ParsedLeaf, ParsedNode};
use std::alloc::{AllocError, Global};

/// Returns what is left of a predicate: a constant, or a copy.
fn reduce_leaf<S: Copy>(alloc: Global, leaf: &ParsedLeaf<S>) -> Result<Reduction<S>, AllocError>
    ensures { IfOk result (λ made. reduction_of made ≡ reduced_leaf (leaf_of leaf.now)) }
{
    match leaf {
        ParsedLeaf::All => Ok(Reduction::Constant(true)),
        ParsedLeaf::None => Ok(Reduction::Constant(false)),
        other => Ok(Reduction::Tree(copy_set(alloc, other)?)),
    }
}

/// Returns what is left of a tree, as copies of its parts.
pub fn reduce<S: Copy>(alloc: Global, expr: &ParsedExpr<S>) -> Result<Reduction<S>, AllocError>
    ensures { IfOk result (λ made. reduction_of made ≡ reduced (tree_of expr.now)) }
{
    match expr.node() {
        ParsedNode::Not(operator, operand) => negate(alloc, operator, reduce(alloc, operand)?),
        ParsedNode::Union(operator, left, right) => {
            let left = reduce(alloc, left)?;
            unite(alloc, operator, left, reduce(alloc, right)?)
        }
        ParsedNode::Join(joiner, left, right) => {
            let left = reduce(alloc, left)?;
            let right = reduce(alloc, right)?;
            match joiner {
                Joiner::Both(operator) => intersect(alloc, operator, left, right),
                Joiner::Without(operator) => subtract(alloc, operator, left, right),
                Joiner::ExactlyOne(operator) => differ(alloc, operator, left, right),
            }
        }
        ParsedNode::Parens(inner) => reduce(alloc, inner),
        ParsedNode::Set(leaf) => reduce_leaf(alloc, leaf),
    }
}
