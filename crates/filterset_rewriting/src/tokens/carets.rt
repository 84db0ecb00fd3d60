//! The operators `^` of filtersets that are read.
ghost use Rattle.std.specs.Prelude.{IfOk};
ghost use Rattle.filterset_language.specs.Views.{tree_of};
ghost use Rattle.filterset_rewriting.specs.Tokens.{AreCarets, HasCarets};

use crate::reading::read_text;
use crate::tokens::leaves::tokens_of;
use crate::tokens::{Token, TokenKind};
use filterset_faults::SourceSpan;
use filterset_language::ParsedExpr;
use std::alloc::{AllocError, Global};

/// Returns the spans of the operators `^` of a text that reads as this tree, in their order. A `^` in an argument is none.
fn carets_of(alloc: Global, text: &str, tree: &ParsedExpr) -> Result<Vec<SourceSpan>, AllocError>
    ensures { IfOk result (λ spans. AreCarets text.now (tree_of tree.now) spans.items) }
{
    let tokens = tokens_of(alloc, text, tree)?;
    let bytes = text.as_bytes();
    let mut spans = Vec::new(alloc);
    for token in &tokens {
        let is_operator = matches!(token.kind, TokenKind::Operator);
        if is_operator && matches!(bytes.get(token.span.offset()), Some(b'^')) {
            spans.push(token.span)?;
        }
    }
    Ok(spans)
}

/// Returns the spans of the operators `^` of a text, in their order. A text that does not read has none.
pub fn carets_in(alloc: Global, text: &str) -> Result<Vec<SourceSpan>, AllocError>
    ensures { IfOk result (λ spans. HasCarets text.now spans.items) }
{
    if !text.as_bytes().contains(&b'^') {
        return Ok(Vec::new(alloc));
    }
    match read_text(alloc, text)? {
        Ok(tree) => carets_of(alloc, text, &tree),
        Err(_faults) => Ok(Vec::new(alloc)),
    }
}
