//! The laws of the language. Each is the contract of a function that does nothing and takes no memory.
ghost use Rattle.std.specs.Prelude.{◌≡◌, ◌↔◌, ℕ, List};
ghost use Rattle.filterset_grammar.specs.{Tree.Tree, Tree.SameTree, Grammar.Spells};
ghost use Rattle.filterset_grammar.specs.{Printing.printed, Printing.WellFormed, AddedParens.IsWithParens};
ghost use Rattle.filterset_language.specs.Views.{tree_of};
ghost use Rattle.filterset_faults.specs.declared.span.SourceSpan.{SourceSpan};

use crate::tree::ParsedExpr;
use held::prove_held;

pub(crate) mod held;

/// States that a text spells at most one tree, spans included.
pub fn one_tree()
    ensures { (text : List ℕ) (d e : Tree SourceSpan) → Spells text d → Spells text e → d ≡ e }
{}

/// States that a tree is well formed if a text spells it.
pub fn spelled_is_well_formed()
    ensures { (text : List ℕ) (e : Tree SourceSpan) → Spells text e → WellFormed e }
{}

/// States that the printed text of a tree spells the tree, spans aside, if and only if the tree is well formed.
pub fn printed_reads_back<S>(expr: &ParsedExpr<S>)
    ensures { let e = tree_of expr.now in
        ((d : Tree SourceSpan) × Spells (printed e) d × SameTree d e) ↔ WellFormed e }
{
    prove_held(expr);
}

/// States that two well-formed trees with one printed text are the same tree, spans aside.
pub fn printed_apart<S, T>(one: &ParsedExpr<S>, other: &ParsedExpr<T>)
    ensures { let d = tree_of one.now in
        let e = tree_of other.now in
        WellFormed d → WellFormed e → printed d ≡ printed e → SameTree d e }
{
    prove_held(one);
    prove_held(other);
}

/// States that there is one way to add parentheses to the operands that need them, spans included.
pub fn one_tree_with_parens()
    ensures { (e d f : Tree SourceSpan) → IsWithParens e d → IsWithParens e f → d ≡ f }
{}
