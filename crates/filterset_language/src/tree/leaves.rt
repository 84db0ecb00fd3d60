//! Lists of a tree's predicates.
ghost use Rattle.std.specs.Prelude.{◌≡◌, ◌++◌, Bool, map, IfOk, OnOk};
ghost use Rattle.std.specs.List.{filter};
ghost use Rattle.filterset_grammar.specs.Tree.{Leaf, tree_leaves, runtime_only};
ghost use Rattle.filterset_language.specs.Views.{leaf_of, tree_of, AnswersAs};

use crate::tree::nodes::ParsedNode;
use crate::tree::{ParsedExpr, ParsedLeaf};
use std::alloc::{AllocError, Global};

impl<S> ParsedExpr<S> {
    /// Returns the predicates for which `keep` returns `true`, from left to right. The only error is out of memory.
    pub fn leaves_where<F: Fn(&ParsedLeaf<S>) -> bool>(
        &self,
        alloc: Global,
        keep: F,
    ) -> Result<Vec<&ParsedLeaf<S>>, AllocError>
        requires { F.IsAlwaysCallable keep }
        ensures { (kept : Leaf S → Bool) → AnswersAs F.Fn keep kept → IfOk result (λ found.
            map (λ leaf. leaf_of leaf.now) found.items ≡ filter kept (tree_leaves (tree_of self.now))) }
    {
        let mut found = Vec::new(alloc);
        add_leaves(self, &keep, &mut found)?;
        Ok(found)
    }

    /// Returns the predicates whose answer depends on the test and not only on its binary, from left to right: `test`,
    /// `group` and `default`. The only error is out of memory.
    pub fn runtime_only_leaves(&self, alloc: Global) -> Result<Vec<&ParsedLeaf<S>>, AllocError>
        ensures { IfOk result (λ found. map (λ leaf. leaf_of leaf.now) found.items ≡ runtime_only (tree_of self.now)) }
    {
        self.leaves_where(alloc, |leaf| leaf.is_runtime_only())
    }
}

/// Adds the predicates of the tree for which `keep` returns `true`, from left to right.
fn add_leaves<'e, S, F: Fn(&ParsedLeaf<S>) -> bool>(
    expr: &'e ParsedExpr<S>,
    keep: &F,
    found: &mut Vec<&'e ParsedLeaf<S>>,
) -> Result<(), AllocError>
    requires { F.IsAlwaysCallable keep.now }
    ensures { (kept : Leaf S → Bool) → AnswersAs F.Fn keep.now kept → OnOk result (
        map (λ leaf. leaf_of leaf.now) found.new.items
        ≡ map (λ leaf. leaf_of leaf.now) found.old.items ++ filter kept (tree_leaves (tree_of expr.now))) }
{
    match expr.node() {
        ParsedNode::Not(_, operand) | ParsedNode::Parens(operand) => {
            add_leaves(operand, keep, found)
        }
        ParsedNode::Union(_, left, right) | ParsedNode::Join(_, left, right) => {
            add_leaves(left, keep, found)?;
            add_leaves(right, keep, found)
        }
        ParsedNode::Set(leaf) => {
            if keep(leaf) {
                found.push(leaf)?;
            }
            Ok(())
        }
    }
}
