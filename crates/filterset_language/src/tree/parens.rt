//! Copies of trees with the parentheses that their operands need.
ghost use Rattle.std.specs.Prelude.{◌≡◌, ◌↔◌, IfOk, IsTrue};
ghost use Rattle.filterset_faults.specs.declared.span.SourceSpan.{SourceSpan};
ghost use Rattle.filterset_grammar.specs.{AddedParens.IsWithParens, AddedParens.HasWellFormedLeaves, Grammar.Spells};
ghost use Rattle.filterset_grammar.specs.{Printing.printed, Printing.WellFormed, Tree.Tree, Tree.SameTree};
ghost use Rattle.filterset_language.specs.{Views.tree_of, Levels.IsOfLevel, Levels.IsOperand};

use crate::laws::held::prove_held;
use crate::tree::ParsedExpr;
use crate::tree::nodes::{ParsedNode, copy_set, enclose, join, negate, unite};
use std::alloc::{AllocError, Global};

/// The level of the grammar that an operand must have, by its position.
#[derive(Clone, Copy)]
pub enum Level {
    /// The operand of a negation, or the right operand at the level of `and`.
    Basic,
    /// The left operand at the level of `and`, or the right operand of a union.
    And,
    /// The left operand of a union, or an expression in parentheses.
    Or,
}

impl<S: Copy> ParsedExpr<S> {
    /// Copies the tree, spans included, and encloses each operand that would not parse back where it is: a union or an
    /// expression of the level of `and` as the operand of a negation or as the right operand at the level of `and`, and
    /// a union as the left operand at that level or as the right operand of a union. The only error is out of memory.
    pub fn with_parens(&self, alloc: Global) -> Result<ParsedExpr<S>, AllocError>
        ensures tree { IfOk result (λ new. IsWithParens (tree_of self.now) (tree_of new)) }
        ensures well_formed { HasWellFormedLeaves (tree_of self.now) → IfOk result (λ new. WellFormed (tree_of new)) }
        ensures unchanged { WellFormed (tree_of self.now) → IfOk result (λ new. tree_of new ≡ tree_of self.now) }
        ensures reads_back { HasWellFormedLeaves (tree_of self.now) → IfOk result (λ new.
            (d : Tree SourceSpan) × Spells (printed (tree_of new)) d × SameTree d (tree_of new)) }
    {
        let new = Box::into_inner(add_parens(alloc, self, Level::Or)?);
        prove_held(&new);
        Ok(new)
    }
}

/// Copies the tree with parentheses added, and encloses the copy if the tree is not of the level.
#[tactic(auto, using(crate::proofs::AddingParens::negated, crate::proofs::AddingParens::united, crate::proofs::AddingParens::joined, crate::proofs::AddingParens::surrounded, crate::proofs::AddingParens::leaf_alone))]
fn add_parens<S: Copy>(
    alloc: Global,
    expr: &ParsedExpr<S>,
    level: Level,
) -> Result<Box<ParsedExpr<S>>, AllocError>
    ensures tree { let e = tree_of expr.now in
        IfOk result (λ new. IsOperand (IsOfLevel level e) e (tree_of new.value)) }
{
    let copy = match expr.node() {
        ParsedNode::Not(operator, operand) => {
            negate(alloc, operator, add_parens(alloc, operand, Level::Basic)?)?
        }
        ParsedNode::Union(operator, left, right) => {
            let left = add_parens(alloc, left, Level::Or)?;
            let right = add_parens(alloc, right, Level::And)?;
            unite(alloc, operator, left, right)?
        }
        ParsedNode::Join(joiner, left, right) => {
            let left = add_parens(alloc, left, Level::And)?;
            let right = add_parens(alloc, right, Level::Basic)?;
            join(alloc, joiner, left, right)?
        }
        ParsedNode::Parens(inner) => enclose(alloc, add_parens(alloc, inner, Level::Or)?)?,
        ParsedNode::Set(leaf) => copy_set(alloc, leaf)?,
    };
    fit_to_level(alloc, expr, level, copy)
}

/// Encloses the copy of a tree if the tree is not of the level.
#[inline(never)]
fn fit_to_level<S: Drop>(
    alloc: Global,
    expr: &ParsedExpr<S>,
    level: Level,
    copy: Box<ParsedExpr<S>>,
) -> Result<Box<ParsedExpr<S>>, AllocError>
    requires tree { IsWithParens (tree_of expr.now) (tree_of copy.value) }
    ensures tree { let e = tree_of expr.now in
        IfOk result (λ new. IsOperand (IsOfLevel level e) e (tree_of new.value)) }
{
    if is_of_level(expr, level) {
        return Ok(copy);
    }
    enclose(alloc, copy)
}

/// Returns whether the operand is of the level as it is.
pub fn is_of_level<S>(operand: &ParsedExpr<S>, level: Level) -> bool
    ensures { IsTrue result ↔ IsOfLevel level (tree_of operand.now) }
{
    match level {
        Level::Basic => matches!(
            operand,
            ParsedExpr::Not(_, _) | ParsedExpr::Parens(_) | ParsedExpr::Set(_)
        ),
        Level::And => !matches!(operand, ParsedExpr::Union(_, _, _)),
        Level::Or => true,
    }
}
