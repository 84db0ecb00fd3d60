//! Trees without `^`, an operator that cargo-nextest does not read.
ghost use Rattle.std.specs.Prelude.{◌≡◌, ◌-◌, ◌^◌, IfOk, min};
ghost use Rattle.filterset_faults.specs.declared.span.SourceSpan.{SourceSpan};
ghost use Rattle.filterset_grammar.specs.{AddedParens.HasWellFormedLeaves, AddedParens.IsWithParens, Grammar.Spells};
ghost use Rattle.filterset_grammar.specs.{Printing.printed, Tree.Join, Tree.Parens, Tree.SameTree, Tree.Tree};
ghost use Rattle.filterset_grammar.specs.declared.operators.DifferenceOperator.TheVariants.{Minus};
ghost use Rattle.filterset_grammar.specs.declared.operators.Joiner.TheVariants.{Without};
ghost use Rattle.filterset_language.specs.Views.{tree_of};
ghost use Rattle.filterset_rewriting.specs.Spelling as spec;
ghost use Rattle.filterset_rewriting.specs.Spelling.{MeanTheSame, spelled_out};

use filterset_language::nodes::{copy_set, enclose, join, negate, unite};
use filterset_language::{DifferenceOperator, Joiner, OrOperator, ParsedExpr, ParsedNode};
use std::alloc::{AllocError, Global};

/// Returns how many operators `^` are in a tree, or `usize::MAX` if they are more.
pub fn caret_count<S>(expr: &ParsedExpr<S>) -> usize
    ensures { result ≡ min (spec.caret_count (tree_of expr.now)) (2 ^ 64 - 1) }
{
    match expr.node() {
        ParsedNode::Not(_, operand) | ParsedNode::Parens(operand) => caret_count(operand),
        ParsedNode::Join(Joiner::ExactlyOne(_), left, right) => caret_count(left)
            .saturating_add(caret_count(right))
            .saturating_add(1),
        ParsedNode::Union(_, left, right) | ParsedNode::Join(_, left, right) => {
            caret_count(left).saturating_add(caret_count(right))
        }
        ParsedNode::Set(_) => 0,
    }
}

/// Makes `(left - right)`.
#[inline(never)]
fn subtract<S: Drop>(
    alloc: Global,
    left: Box<ParsedExpr<S>>,
    right: Box<ParsedExpr<S>>,
) -> Result<Box<ParsedExpr<S>>, AllocError>
    ensures { IfOk result (λ made. tree_of made.value
        ≡ Parens (Join (Without Minus) (tree_of left.value) (tree_of right.value))) }
{
    let minus = Joiner::Without(DifferenceOperator::Minus);
    enclose(alloc, join(alloc, minus, left, right)?)
}

/// Copies a tree, with `(l - r) or (r - l)` in the place of each `l ^ r`, but adds no parentheses that operands need.
fn spell<S: Copy>(alloc: Global, expr: &ParsedExpr<S>) -> Result<Box<ParsedExpr<S>>, AllocError>
    ensures { IfOk result (λ new. tree_of new.value ≡ spelled_out (tree_of expr.now)) }
{
    match expr.node() {
        ParsedNode::Not(operator, operand) => negate(alloc, operator, spell(alloc, operand)?),
        ParsedNode::Union(operator, left, right) => {
            let left = spell(alloc, left)?;
            unite(alloc, operator, left, spell(alloc, right)?)
        }
        ParsedNode::Join(Joiner::ExactlyOne(_), left, right) => {
            let first = spell(alloc, left)?;
            let first = subtract(alloc, first, spell(alloc, right)?)?;
            let second = spell(alloc, right)?;
            let second = subtract(alloc, second, spell(alloc, left)?)?;
            unite(alloc, OrOperator::LiteralOr, first, second)
        }
        ParsedNode::Join(joiner, left, right) => {
            let left = spell(alloc, left)?;
            join(alloc, joiner, left, spell(alloc, right)?)
        }
        ParsedNode::Parens(inner) => enclose(alloc, spell(alloc, inner)?),
        ParsedNode::Set(leaf) => copy_set(alloc, leaf),
    }
}

/// Copies a tree, spans included, with `(l - r) or (r - l)` in the place of each `l ^ r`, and with the parentheses that
/// operands need. The meaning stays the same. The operands of each `^` are copied twice, so the copy may be `2^n` times
/// as large as a tree with `n` of them. The only error is out of memory.
pub fn spell_out<S: Copy>(alloc: Global, expr: &ParsedExpr<S>) -> Result<ParsedExpr<S>, AllocError>
    ensures tree { IfOk result (λ new. IsWithParens (spelled_out (tree_of expr.now)) (tree_of new)) }
    ensures no_caret { IfOk result (λ new. spec.caret_count (tree_of new) ≡ 0) }
    ensures meaning { IfOk result (λ new. MeanTheSame (tree_of new) (tree_of expr.now)) }
    ensures reads_back { HasWellFormedLeaves (tree_of expr.now) → IfOk result (λ new.
        (d : Tree SourceSpan) × Spells (printed (tree_of new)) d × SameTree d (tree_of new)) }
{
    spell(alloc, expr)?.with_parens(alloc)
}
