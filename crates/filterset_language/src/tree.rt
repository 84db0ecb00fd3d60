//! The trees of filtersets.
ghost use Rattle.std.specs.Prelude.{◌≡◌, IfOk};
ghost use Rattle.filterset_grammar.specs.Tree.{is_runtime_only};
ghost use Rattle.filterset_language.specs.Views.{leaf_of, tree_of};

use filterset_faults::SourceSpan;
use filterset_grammar::{
    AndOperator, DifferenceOperator, NotOperator, OrOperator, SymmetricDifferenceOperator,
};
use filterset_graph::BuildPlatform;
use filterset_matchers::NameMatcher;
use std::alloc::{AllocError, Global};

mod equality;
mod leaves;
pub mod nodes;
mod parens;
mod well_formed;

use nodes::{ParsedNode, copy_set, enclose, join, negate, unite};

/// A predicate of a filterset.
///
/// The span is the argument's, without blanks after a pattern; `default()` has the span of the whole predicate, and
/// `all()` and `none()` have none.
///
/// The type implements `Drop`, so no field can be moved out of it.
#[derive(Debug)]
pub enum ParsedLeaf<S = SourceSpan> {
    /// Tests of packages whose name matches.
    Package(NameMatcher, S),
    /// Tests of packages whose name matches, and of their dependencies, direct or not.
    Deps(NameMatcher, S),
    /// Tests of packages whose name matches, and of the packages that depend on them, directly or not.
    Rdeps(NameMatcher, S),
    /// Tests of binaries whose kind matches.
    Kind(NameMatcher, S),
    /// Tests of binaries whose name matches.
    Binary(NameMatcher, S),
    /// Tests of binaries whose id matches.
    BinaryId(NameMatcher, S),
    /// Tests of binaries that are built for this platform.
    Platform(BuildPlatform, S),
    /// Tests whose name matches.
    Test(NameMatcher, S),
    /// Tests whose group matches.
    Group(NameMatcher, S),
    /// Tests that the default filter matches.
    Default(S),
    /// All tests.
    All,
    /// No tests.
    None,
}

// A derived impl would make each proof about a dropped predicate branch for every variant; this one is a single call.
impl<S: Drop> Drop for ParsedLeaf<S> {
    fn drop(self) {
        match self {
            ParsedLeaf::Package(_matcher, _span)
            | ParsedLeaf::Deps(_matcher, _span)
            | ParsedLeaf::Rdeps(_matcher, _span)
            | ParsedLeaf::Kind(_matcher, _span)
            | ParsedLeaf::Binary(_matcher, _span)
            | ParsedLeaf::BinaryId(_matcher, _span)
            | ParsedLeaf::Test(_matcher, _span)
            | ParsedLeaf::Group(_matcher, _span) => {}
            ParsedLeaf::Platform(_, _span) | ParsedLeaf::Default(_span) => {}
            ParsedLeaf::All | ParsedLeaf::None => {}
        }
    }
}

impl<S> ParsedLeaf<S> {
    /// Returns whether the answer depends on the test and not only on its binary: `test`, `group` and `default`.
    pub fn is_runtime_only(&self) -> bool
        ensures { result ≡ is_runtime_only (leaf_of self.now) }
    {
        matches!(
            self,
            ParsedLeaf::Test(_, _) | ParsedLeaf::Group(_, _) | ParsedLeaf::Default(_)
        )
    }
}

impl<S: Copy> ParsedLeaf<S> {
    /// Copies the predicate, spans included. The only error is out of memory.
    pub fn try_clone(&self, alloc: Global) -> Result<ParsedLeaf<S>, AllocError>
        ensures { IfOk result (λ copy. leaf_of copy ≡ leaf_of self.now) }
    {
        Ok(match self {
            ParsedLeaf::Package(matcher, span) => {
                ParsedLeaf::Package(matcher.try_clone(alloc)?, *span)
            }
            ParsedLeaf::Deps(matcher, span) => ParsedLeaf::Deps(matcher.try_clone(alloc)?, *span),
            ParsedLeaf::Rdeps(matcher, span) => ParsedLeaf::Rdeps(matcher.try_clone(alloc)?, *span),
            ParsedLeaf::Kind(matcher, span) => ParsedLeaf::Kind(matcher.try_clone(alloc)?, *span),
            ParsedLeaf::Binary(matcher, span) => {
                ParsedLeaf::Binary(matcher.try_clone(alloc)?, *span)
            }
            ParsedLeaf::BinaryId(matcher, span) => {
                ParsedLeaf::BinaryId(matcher.try_clone(alloc)?, *span)
            }
            ParsedLeaf::Platform(platform, span) => ParsedLeaf::Platform(*platform, *span),
            ParsedLeaf::Test(matcher, span) => ParsedLeaf::Test(matcher.try_clone(alloc)?, *span),
            ParsedLeaf::Group(matcher, span) => ParsedLeaf::Group(matcher.try_clone(alloc)?, *span),
            ParsedLeaf::Default(span) => ParsedLeaf::Default(*span),
            ParsedLeaf::All => ParsedLeaf::All,
            ParsedLeaf::None => ParsedLeaf::None,
        })
    }
}

/// The tree of a filterset. Operators of one level nest to the left.
#[derive(Debug, Drop)]
pub enum ParsedExpr<S = SourceSpan> {
    Not(NotOperator, Box<ParsedExpr<S>>),
    Union(OrOperator, Box<ParsedExpr<S>>, Box<ParsedExpr<S>>),
    Intersection(AndOperator, Box<ParsedExpr<S>>, Box<ParsedExpr<S>>),
    Difference(DifferenceOperator, Box<ParsedExpr<S>>, Box<ParsedExpr<S>>),
    SymmetricDifference(SymmetricDifferenceOperator, Box<ParsedExpr<S>>, Box<ParsedExpr<S>>),
    /// An expression in parentheses.
    Parens(Box<ParsedExpr<S>>),
    /// A predicate.
    Set(ParsedLeaf<S>),
}

impl<S: Copy> ParsedExpr<S> {
    /// Copies the tree, spans included. The only error is out of memory.
    pub fn try_clone(&self, alloc: Global) -> Result<ParsedExpr<S>, AllocError>
        ensures { IfOk result (λ copy. tree_of copy ≡ tree_of self.now) }
    {
        Ok(Box::into_inner(copy_tree(alloc, self)?))
    }
}

/// Copies the tree into a box.
fn copy_tree<S: Copy>(alloc: Global, expr: &ParsedExpr<S>) -> Result<Box<ParsedExpr<S>>, AllocError>
    ensures { IfOk result (λ copy. tree_of copy.value ≡ tree_of expr.now) }
{
    match expr.node() {
        ParsedNode::Not(operator, operand) => negate(alloc, operator, copy_tree(alloc, operand)?),
        ParsedNode::Union(operator, left, right) => {
            let left = copy_tree(alloc, left)?;
            unite(alloc, operator, left, copy_tree(alloc, right)?)
        }
        ParsedNode::Join(joiner, left, right) => {
            let left = copy_tree(alloc, left)?;
            join(alloc, joiner, left, copy_tree(alloc, right)?)
        }
        ParsedNode::Parens(inner) => enclose(alloc, copy_tree(alloc, inner)?),
        ParsedNode::Set(leaf) => copy_set(alloc, leaf),
    }
}
