//! The nodes of trees, built from boxed operands.
//!
//! The parser and the copies of trees call themselves at each level of a tree. A node by value would take up room in
//! each of their frames; built here, it is in a frame that ends before the next level begins.
ghost use Rattle.std.specs.Prelude.{◌≡◌, IfOk};
ghost use Rattle.filterset_grammar.specs.Tree.{Not, Union, Join, Parens, Set};
ghost use Rattle.filterset_language.specs.{Nodes.IsNode, Views.leaf_of, Views.tree_of};

use crate::tree::{ParsedExpr, ParsedLeaf};
use filterset_faults::SourceSpan;
use filterset_grammar::{Joiner, NotOperator, OrOperator};
use std::alloc::{AllocError, Global};

/// A node of a tree, by its shape.
#[derive_where(Clone, Copy)]
pub enum ParsedNode<'e, S = SourceSpan> {
    Not(NotOperator, &'e ParsedExpr<S>),
    /// Two operands and an operator of the level of `or`.
    Union(OrOperator, &'e ParsedExpr<S>, &'e ParsedExpr<S>),
    /// Two operands and an operator of the level of `and`.
    Join(Joiner, &'e ParsedExpr<S>, &'e ParsedExpr<S>),
    Parens(&'e ParsedExpr<S>),
    Set(&'e ParsedLeaf<S>),
}

impl<S> ParsedExpr<S> {
    /// Returns the root of the tree, for walks that treat all operators of a level alike.
    pub fn node(&self) -> ParsedNode<'_, S>
        ensures { IsNode self.now result }
    {
        match self {
            ParsedExpr::Not(operator, operand) => ParsedNode::Not(*operator, operand),
            ParsedExpr::Union(operator, left, right) => ParsedNode::Union(*operator, left, right),
            ParsedExpr::Intersection(operator, left, right) => {
                ParsedNode::Join(Joiner::Both(*operator), left, right)
            }
            ParsedExpr::Difference(operator, left, right) => {
                ParsedNode::Join(Joiner::Without(*operator), left, right)
            }
            ParsedExpr::SymmetricDifference(operator, left, right) => {
                ParsedNode::Join(Joiner::ExactlyOne(*operator), left, right)
            }
            ParsedExpr::Parens(inner) => ParsedNode::Parens(inner),
            ParsedExpr::Set(leaf) => ParsedNode::Set(leaf),
        }
    }
}

/// Negates an operand.
#[inline(never)]
pub fn negate<S: Drop>(
    alloc: Global,
    operator: NotOperator,
    operand: Box<ParsedExpr<S>>,
) -> Result<Box<ParsedExpr<S>>, AllocError>
    ensures { IfOk result (λ made. tree_of made.value ≡ Not operator (tree_of operand.value)) }
{
    Ok(Box::new(alloc, ParsedExpr::Not(operator, operand))?)
}

/// Joins two operands by an operator of the level of `or`.
#[inline(never)]
pub fn unite<S: Drop>(
    alloc: Global,
    operator: OrOperator,
    left: Box<ParsedExpr<S>>,
    right: Box<ParsedExpr<S>>,
) -> Result<Box<ParsedExpr<S>>, AllocError>
    ensures { IfOk result (λ made. tree_of made.value ≡ Union operator (tree_of left.value) (tree_of right.value)) }
{
    Ok(Box::new(alloc, ParsedExpr::Union(operator, left, right))?)
}

/// Joins two operands by an operator of the level of `and`.
#[inline(never)]
pub fn join<S: Drop>(
    alloc: Global,
    joiner: Joiner,
    left: Box<ParsedExpr<S>>,
    right: Box<ParsedExpr<S>>,
) -> Result<Box<ParsedExpr<S>>, AllocError>
    ensures { IfOk result (λ made. tree_of made.value ≡ Join joiner (tree_of left.value) (tree_of right.value)) }
{
    let expr = match joiner {
        Joiner::Both(operator) => ParsedExpr::Intersection(operator, left, right),
        Joiner::Without(operator) => ParsedExpr::Difference(operator, left, right),
        Joiner::ExactlyOne(operator) => ParsedExpr::SymmetricDifference(operator, left, right),
    };
    Ok(Box::new(alloc, expr)?)
}

/// Encloses an expression in parentheses.
#[inline(never)]
pub fn enclose<S: Drop>(
    alloc: Global,
    inner: Box<ParsedExpr<S>>,
) -> Result<Box<ParsedExpr<S>>, AllocError>
    ensures { IfOk result (λ made. tree_of made.value ≡ Parens (tree_of inner.value)) }
{
    Ok(Box::new(alloc, ParsedExpr::Parens(inner))?)
}

/// Makes an expression of a predicate.
#[inline(never)]
pub fn make_set<S: Drop>(
    alloc: Global,
    leaf: ParsedLeaf<S>,
) -> Result<Box<ParsedExpr<S>>, AllocError>
    ensures { IfOk result (λ made. tree_of made.value ≡ Set (leaf_of leaf)) }
{
    Ok(Box::new(alloc, ParsedExpr::Set(leaf))?)
}

/// Makes an expression of a copy of a predicate.
#[inline(never)]
pub fn copy_set<S: Copy>(
    alloc: Global,
    leaf: &ParsedLeaf<S>,
) -> Result<Box<ParsedExpr<S>>, AllocError>
    ensures { IfOk result (λ made. tree_of made.value ≡ Set (leaf_of leaf.now)) }
{
    make_set(alloc, leaf.try_clone(alloc)?)
}
