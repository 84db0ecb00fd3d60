//! How what faults are about may be written instead.
ghost use Rattle.std.specs.Prelude.{◌≡◌, IfOk, option_map, slice_index, string_bytes};
ghost use Rattle.filterset_grammar.specs.Printing.{printed};
ghost use Rattle.filterset_language.specs.Views.{tree_of};
ghost use Rattle.filterset_server.specs.Repairs.{IsCallRepair, IsRepairOf, call_text, gap_beside, is_blank, repair_row, reworded, spaced, stretch_in};

use crate::edits::Edit;
use filterset_configuration::Stretch;
use filterset_faults::{ParseSingleError, SourceSpan};
use filterset_language::ParsedExpr;
use filterset_rewriting::{Front, read_call};
use std::alloc::{AllocError, Global};

/// An edit of a filterset's text, and what it is called.
#[derive(Debug, Drop)]
pub struct Repair {
    pub title: &'static str,
    pub edit: Edit,
}

/// Returns what is put between a word and the byte at an offset, which is 0 where the text ends.
fn gap_beside(text: &[u8], at: usize) -> &'static str
    ensures { result.now ≡ gap_beside (slice_index text.now at) }
{
    if at >= text.len() {
        return "";
    }
    match text[at] {
        0 | b'\n' | b'\r' | b' ' => "",
        _ => " ",
    }
}

/// Returns the stretch of a text at a span. It ends with the text if that ends first.
fn stretch_in(text: &str, span: SourceSpan) -> Stretch
    ensures { result ≡ stretch_in text.now span }
{
    Stretch {
        from: span.offset().min(text.len()),
        to: span.offset().saturating_add(span.len()).min(text.len()),
    }
}

/// Makes a word with blanks around it, as far as the text has none beside the span.
fn spaced(alloc: Global, text: &str, span: SourceSpan, word: &str) -> Result<String, AllocError>
    ensures { IfOk result (λ made. string_bytes made ≡ spaced text.now (stretch_in text.now span) word.now) }
{
    let Stretch { from, to } = stretch_in(text, span);
    let before = gap_beside(text.as_bytes(), from.saturating_sub(1));
    let behind = gap_beside(text.as_bytes(), to);
    format!(in alloc; "{before}{word}{behind}")
}

/// Returns the repair that puts a word in place of a span.
fn reword(title: &'static str, text: &str, span: SourceSpan, word: String) -> Option<Repair>
    ensures { option_map repair_row result ≡ reworded title.now text.now span (string_bytes word) }
{
    let at = stretch_in(text, span);
    let edit = Edit { at, text: word };
    Some(Repair { title, edit })
}

/// Returns whether a text has only white space.
fn is_blank(text: &str) -> bool
    ensures { result ≡ is_blank text.now }
{
    text.trim_start().is_empty()
}

/// Makes what is meant, in parentheses unless there is nothing before and after it.
fn call_text(
    alloc: Global,
    front: &str,
    meant: &ParsedExpr,
    behind: &str,
) -> Result<String, AllocError>
    ensures { IfOk result (λ made. string_bytes made ≡ call_text front.now (printed (tree_of meant.now)) behind.now) }
{
    if is_blank(front) && is_blank(behind) {
        format!(in alloc; "{meant}")
    } else {
        format!(in alloc; "({meant})")
    }
}

/// Makes the repair that puts the operator at a span between its operands, which follow it.
fn repair_call(alloc: Global, text: &str, span: SourceSpan) -> Result<Option<Repair>, AllocError>
    ensures { IfOk result (λ o. IsCallRepair text.now span (option_map repair_row o)) }
{
    let Some((front, call)) = text.split_at_checked(span.offset()) else {
        return Ok(None);
    };
    let Some(Front { tree, behind }) = read_call(alloc, call)? else {
        return Ok(None);
    };
    let at = Stretch {
        from: span.offset(),
        to: text.len().saturating_sub(behind.len()),
    };
    let text = call_text(alloc, front, &tree, behind)?;
    let title = "Write the operator between its operands";
    let edit = Edit { at, text };
    Ok(Some(Repair { title, edit }))
}

/// Makes the repair of a fault of a text, if there is one.
pub fn repair_of(
    alloc: Global,
    text: &str,
    fault: &ParseSingleError,
) -> Result<Option<Repair>, AllocError>
    ensures { IfOk result (λ o. IsRepairOf text.now fault.now (option_map repair_row o)) }
{
    match fault {
        ParseSingleError::InvalidAndOperator(span) => {
            let word = spaced(alloc, text, *span, "and")?;
            Ok(reword("Write `and`", text, *span, word))
        }
        ParseSingleError::InvalidOrOperator(span) => {
            let word = spaced(alloc, text, *span, "or")?;
            Ok(reword("Write `or`", text, *span, word))
        }
        ParseSingleError::ExprFoundUnaryOp { span, .. } => {
            let word = String::from_str(alloc, "not")?;
            Ok(reword("Write `not`", text, *span, word))
        }
        ParseSingleError::ExprFoundBinaryOp { span, .. } => repair_call(alloc, text, *span),
        ParseSingleError::InvalidEscapeCharacter(span) => {
            let backslash = SourceSpan::new(span.offset(), 1);
            let word = String::from_str(alloc, "\\\\")?;
            Ok(reword("Escape the backslash", text, backslash, word))
        }
        _ => Ok(None),
    }
}
