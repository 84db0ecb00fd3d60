//! Expressions at the front of texts.
ghost use Rattle.std.specs.Prelude.{◌≡◌, ◌≢◌, ◌≤◌, ◌∷◌, [], IfOk, IfSome, MatchOption, length};
ghost use Rattle.filterset_faults.specs.declared.error.ParseSingleError.TheVariants.{ExpectedEndOfExpression};
ghost use Rattle.filterset_faults.specs.declared.span.SourceSpan.{SourceSpan};
ghost use Rattle.filterset_language.specs.Views.{tree_of};
ghost use Rattle.filterset_rewriting.specs.Fronts.{IsExpression, NoExpression};

use crate::nesting::{MOST_LEVELS, find_deep_place};
use filterset_faults::{ParseSingleError, SourceSpan};
use filterset_language::{Parsed, ParsedExpr};
use std::alloc::{AllocError, Global};

/// An expression at the front of a text, and the text after it.
#[derive(Debug, Drop)]
pub struct Front<'t> {
    pub tree: ParsedExpr,
    pub behind: &'t str,
}

/// Returns the span of the only fault, if that is that a text goes on after an expression.
fn only_end(faults: &[ParseSingleError]) -> Option<SourceSpan>
    ensures { MatchOption result ((s : SourceSpan) → faults.now ≢ ExpectedEndOfExpression s ∷ [])
        (λ s. faults.now ≡ ExpectedEndOfExpression s ∷ []) }
{
    match faults {
        [fault] => match fault {
            ParseSingleError::ExpectedEndOfExpression(span) => Some(*span),
            _ => None,
        },
        _ => None,
    }
}

/// Reads an expression at the front of a text that goes on after it.
pub fn read_expression<'t>(alloc: Global, text: &'t str) -> Result<Option<Front<'t>>, AllocError>
    ensures found { IfOk result (λ o. MatchOption o (NoExpression text.entry.now)
        (λ f. IsExpression text.entry.now (tree_of f.tree) f.behind.now)) }
    ensures within { IfOk result (λ o. IfSome o (λ f. length f.behind.now ≤ length text.entry.now)) }
{
    if let Some(_place) = find_deep_place(alloc, text, MOST_LEVELS)? {
        return Ok(None);
    }
    let Parsed { tree, faults } = ParsedExpr::parse_with_faults(alloc, text)?;
    let Some(span) = only_end(faults.as_slice()) else {
        return Ok(None);
    };
    let Some((_, behind)) = text.split_at_checked(span.offset()) else {
        return Ok(None);
    };
    match tree {
        Some(tree) => Ok(Some(Front { tree, behind })),
        None => Ok(None),
    }
}
