//! Trees whose parentheses show how they are read.
ghost use Rattle.std.specs.Prelude.{◌≡◌, IfOk};
ghost use Rattle.filterset_expression.specs.Meaning.{tree_formula};
ghost use Rattle.filterset_faults.specs.declared.span.SourceSpan.{SourceSpan};
ghost use Rattle.filterset_grammar.specs.{Grammar.Spells, Printing.WellFormed, Printing.printed};
ghost use Rattle.filterset_grammar.specs.Tree.{SameTree, Tree};
ghost use Rattle.filterset_language.specs.Views.{tree_of};
ghost use Rattle.filterset_rewriting.specs.Showing as spec;
ghost use Rattle.filterset_rewriting.specs.Showing.{enclosed_if, is_joined, is_joined_otherwise, shown, without_parens};

use filterset_language::laws::printed_reads_back;
use filterset_language::nodes::{copy_set, enclose, join, negate, unite};
use filterset_language::{Joiner, ParsedExpr, ParsedNode};
use std::alloc::{AllocError, Global};

/// Returns whether operators are of one sort: both intersections, differences or symmetric differences.
fn are_one_sort(one: Joiner, other: Joiner) -> bool
    ensures { result ≡ spec.are_one_sort one other }
{
    match one {
        Joiner::Both(_) => matches!(other, Joiner::Both(_)),
        Joiner::Without(_) => matches!(other, Joiner::Without(_)),
        Joiner::ExactlyOne(_) => matches!(other, Joiner::ExactlyOne(_)),
    }
}

/// Returns whether an operator of the level of `and` joins a tree.
fn is_joined<S>(expr: &ParsedExpr<S>) -> bool
    ensures { result ≡ is_joined (tree_of expr.now) }
{
    matches!(expr.node(), ParsedNode::Join(_, _, _))
}

/// Returns whether an operator of that level joins a tree, of another sort than this one.
fn is_joined_otherwise<S>(operator: Joiner, expr: &ParsedExpr<S>) -> bool
    ensures { result ≡ is_joined_otherwise operator (tree_of expr.now) }
{
    match expr.node() {
        ParsedNode::Join(inner, _, _) => !are_one_sort(operator, inner),
        _ => false,
    }
}

/// Encloses a tree in parentheses, or leaves it as it is.
fn enclose_if<S: Drop>(
    alloc: Global,
    encloses: bool,
    expr: Box<ParsedExpr<S>>,
) -> Result<Box<ParsedExpr<S>>, AllocError>
    ensures { IfOk result (λ made. tree_of made.value ≡ enclosed_if encloses (tree_of expr.value)) }
{
    if encloses {
        enclose(alloc, expr)
    } else {
        Ok(expr)
    }
}

/// Copies a tree, with parentheses that show how it is read.
fn show<S: Copy>(alloc: Global, expr: &ParsedExpr<S>) -> Result<Box<ParsedExpr<S>>, AllocError>
    ensures { IfOk result (λ new. tree_of new.value ≡ shown (tree_of expr.now)) }
{
    match expr.node() {
        ParsedNode::Not(operator, operand) => negate(alloc, operator, show(alloc, operand)?),
        ParsedNode::Union(operator, left, right) => {
            let first = enclose_if(alloc, is_joined(left), show(alloc, left)?)?;
            let second = enclose_if(alloc, is_joined(right), show(alloc, right)?)?;
            unite(alloc, operator, first, second)
        }
        ParsedNode::Join(operator, left, right) => {
            let encloses = is_joined_otherwise(operator, left);
            let left = enclose_if(alloc, encloses, show(alloc, left)?)?;
            join(alloc, operator, left, show(alloc, right)?)
        }
        ParsedNode::Parens(inner) => enclose(alloc, show(alloc, inner)?),
        ParsedNode::Set(leaf) => copy_set(alloc, leaf),
    }
}

/// Copies a tree, spans included, with parentheses that show how it is read: around each operand of a union that an operator of the
/// level of `and` joins, as in `a or (b and c)`, and around a left operand of such an operator that one of another sort joins, as in
/// `(a - b) and c`. The meaning stays the same. The only error is out of memory.
pub fn show_reading<S: Copy>(
    alloc: Global,
    expr: &ParsedExpr<S>,
) -> Result<ParsedExpr<S>, AllocError>
    ensures tree { IfOk result (λ new. tree_of new ≡ shown (tree_of expr.now)) }
    ensures bare { IfOk result (λ new. without_parens (tree_of new) ≡ without_parens (tree_of expr.now)) }
    ensures meaning { IfOk result (λ new. tree_formula (tree_of new) ≡ tree_formula (tree_of expr.now)) }
    ensures reads_back { WellFormed (tree_of expr.now) → IfOk result (λ new.
        (d : Tree SourceSpan) × Spells (printed (tree_of new)) d × SameTree d (tree_of new)) }
{
    let new = Box::into_inner(show(alloc, expr)?);
    printed_reads_back(&new);
    Ok(new)
}
