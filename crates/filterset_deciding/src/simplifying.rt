//! Simplifies filtersets: leaves out what changes nothing for every test, whatever the workspace, the default filter and
//! the groups are.
ghost use Rattle.std.specs.Prelude.{◌≡◌, IfOk};
ghost use Rattle.filterset_faults.specs.declared.span.SourceSpan.{SourceSpan};
ghost use Rattle.filterset_grammar.specs.{AddedParens.HasWellFormedLeaves, Grammar.Spells, Printing.printed};
ghost use Rattle.filterset_grammar.specs.Tree.{SameTree, Tree};
ghost use Rattle.filterset_language.specs.Views.{tree_of};
ghost use Rattle.filterset_deciding.specs.Simplifying.Reducing.{reduced, tree_of_rest};
ghost use Rattle.filterset_deciding.specs.Simplifying.Simplified.{IsSimplified};

use filterset_language::{ParsedExpr, ParsedLeaf};
use std::alloc::{AllocError, Global};

mod alike;
mod implying;
mod joining;
mod keeping;
mod reducing;
mod reduction;

use reducing::reduce;
use reduction::Reduction;

/// Returns what is left of a tree as a tree.
fn left_of<S: Copy>(alloc: Global, expr: &ParsedExpr<S>) -> Result<ParsedExpr<S>, AllocError>
    ensures { IfOk result (λ left. tree_of left ≡ tree_of_rest (reduced (tree_of expr.now))) }
{
    match reduce(alloc, expr)? {
        Reduction::Constant(true) => Ok(ParsedExpr::Set(ParsedLeaf::All)),
        Reduction::Constant(false) => Ok(ParsedExpr::Set(ParsedLeaf::None)),
        Reduction::Tree(tree) => Ok(Box::into_inner(tree)),
    }
}

/// Simplifies a filterset: copies its tree without what changes nothing for every test, whatever the workspace, the
/// default filter and the groups are.
///
/// What is left out can be seen without asking what predicates match: constants, double negations, parentheses that no
/// operand needs, and operands that the other operand of a union or an intersection makes needless, as in `a or (a and b)`.
/// Predicates are alike if they differ in spans, signs and the texts of globs alone.
///
/// Simplifying the result again changes nothing, since it is simple. The only error is out of memory.
pub fn simplify<S: Copy>(alloc: Global, expr: &ParsedExpr<S>) -> Result<ParsedExpr<S>, AllocError>
    ensures simplified { IfOk result (λ new. IsSimplified (tree_of expr.now) (tree_of new)) }
    ensures reads_back { HasWellFormedLeaves (tree_of expr.now) → IfOk result (λ new.
        (d : Tree SourceSpan) × Spells (printed (tree_of new)) d × SameTree d (tree_of new)) }
{
    left_of(alloc, expr)?.with_parens(alloc)
}
