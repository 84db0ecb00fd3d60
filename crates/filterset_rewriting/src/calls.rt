//! Operators that are written in front of their operands, as in `and(a, b)`.
ghost use Rattle.std.specs.Prelude.{◌≤◌, IfOk, IfSome, MatchOption, length};
ghost use Rattle.filterset_faults.specs.declared.span.SourceSpan.{SourceSpan};
ghost use Rattle.filterset_grammar.specs.{Grammar.Spells, Printing.printed, Tree.SameTree, Tree.Tree};
ghost use Rattle.filterset_language.specs.Views.{tree_of};
ghost use Rattle.filterset_rewriting.specs.Calls.{IsCall, NoCall};

use crate::fronts::Front;
use crate::links::read_operator;
use crate::operands::read_list;
use std::alloc::{AllocError, Global};

/// How many levels of calls are read within a call.
const LEVELS: usize = 64;

/// Reads an operator at the front of a text and its operands after it, as in `and(a, b)`, and makes the expression that is meant:
/// the operator between each two operands, with parentheses where they are needed. An operand may be such a call, up to 64 levels.
///
/// Returns `None` if the text does not begin with an operator and two operands or more. The only error is out of memory. Each operand
/// is read once.
pub fn read_call<'t>(alloc: Global, text: &'t str) -> Result<Option<Front<'t>>, AllocError>
    ensures call { IfOk result (λ o. MatchOption o (NoCall text.entry.now)
        (λ f. IsCall text.entry.now (tree_of f.tree) f.behind.now)) }
    ensures within { IfOk result (λ o. IfSome o (λ f. length f.behind.now ≤ length text.entry.now)) }
    ensures reads_back { IfOk result (λ o. IfSome o (λ f.
        (d : Tree SourceSpan) × Spells (printed (tree_of f.tree)) d × SameTree d (tree_of f.tree))) }
{
    let Some((link, rest)) = read_operator(text) else {
        return Ok(None);
    };
    match read_list(alloc, LEVELS, link, rest)? {
        Some(Front { tree, behind }) => {
            let tree = tree.with_parens(alloc)?;
            Ok(Some(Front { tree, behind }))
        }
        None => Ok(None),
    }
}
