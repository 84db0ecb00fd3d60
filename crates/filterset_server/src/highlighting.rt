//! The tokens of documents, as the protocol has them.
ghost use Rattle.std.specs.Prelude.{◌≡◌, ◌++◌, IfOk, List, OnOk, map, option_map};
ghost use Rattle.std.specs.List.Sorted.{IsNonDecreasingBy, IsPermutation};
ghost use Rattle.serde_json.specs.View.{view};
ghost use Rattle.filterset_entries.specs.{Checked.text_row, Placements.placement_of};
ghost use Rattle.filterset_documents.specs.Joins.{Joins};
ghost use Rattle.filterset_server.specs.Highlights as spec;
ghost use Rattle.filterset_server.specs.Highlights.{HighlightsRows, RowMarks, TokenMarks, mark_data, marks_data};

use filterset_display::{Position, Range};
use filterset_documents::{Shown, parse_text, range_of};
use filterset_entries::{FilePlace, TextEntry, file_part};
use filterset_rewriting::tokens::{Token, TokenKind, tokens_of};
use serde_json::{Value, json};
use std::alloc::{AllocError, Global};

/// A token of a document.
#[derive(Clone, Copy, Debug)]
pub(crate) struct Mark {
    /// The offset in the file.
    pub from: usize,
    pub range: Range,
    pub kind: TokenKind,
}

/// Makes what is shown of a token of a text at this place: nothing, unless it is in one line.
fn token_marks(
    alloc: Global,
    shown: &Shown<'_>,
    place: Option<FilePlace<'_>>,
    token: Token,
) -> Result<Vec<Mark>, AllocError>
    ensures { IfOk result (λ marks. TokenMarks shown.now.encoding shown.now.lines.text.now
        (option_map placement_of place.entry) token marks.items) }
{
    let Some(part) = file_part(place, Some(token.span)) else {
        return Ok(Vec::new(alloc));
    };
    let (from, kind) = (part.span.offset(), token.kind);
    let range = range_of(shown, part.span);
    let Range { start, end } = range;
    let mut marks = Vec::new(alloc);
    if start.line == end.line && start.character < end.character {
        marks.push(Mark { from, range, kind })?;
    }
    Ok(marks)
}

/// Makes what is shown of a filterset: its tokens, if it reads as a tree.
fn entry_marks(
    alloc: Global,
    shown: &Shown<'_>,
    entry: &TextEntry<'_>,
) -> Result<Vec<Mark>, AllocError>
    ensures { IfOk result (λ marks.
        RowMarks shown.now.encoding shown.now.lines.text.now (text_row entry.now) marks.items) }
{
    let Some(tree) = parse_text(alloc, entry.text)? else {
        return Ok(Vec::new(alloc));
    };
    let tokens = tokens_of(alloc, entry.text, &tree)?;
    let tokens = tokens.as_slice();
    let mut marks = Vec::new(alloc);
    for token in tokens {
        let mut more = token_marks(alloc, shown, entry.place, *token)?;
        marks.append(&mut more)?;
    }
    Ok(marks)
}

/// Makes what is shown of filtersets, in the order of the file.
fn ordered_marks(
    alloc: Global,
    shown: &Shown<'_>,
    entries: &[TextEntry<'_>],
) -> Result<Vec<Mark>, AllocError>
    ensures { IfOk result (λ sorted. (marks : List Mark)
        × Joins (RowMarks shown.now.encoding shown.now.lines.text.now) (map text_row entries.now) marks
        × IsPermutation marks sorted.items × IsNonDecreasingBy (λ mark. mark.from) sorted.items) }
{
    let mut marks = Vec::new(alloc);
    for entry in entries {
        let mut more = entry_marks(alloc, shown, entry)?;
        marks.append(&mut more)?;
    }
    marks.sort_unstable_by_key(|mark| mark.from);
    Ok(marks)
}

/// Returns the number of a kind in the list of types that the server announces.
fn kind_number(kind: TokenKind) -> u8
    ensures { result ≡ spec.kind_number kind }
{
    match kind {
        TokenKind::EnumMember => 0,
        TokenKind::Function => 1,
        TokenKind::Keyword => 2,
        TokenKind::Operator => 3,
        TokenKind::Regexp => 4,
        TokenKind::String => 5,
    }
}

/// Returns how many units after a position another is, or after the start of its line if that is another.
fn column_after(last: Position, start: Position) -> usize
    ensures { result ≡ spec.column_after last start }
{
    if start.line == last.line {
        start.character.saturating_sub(last.character)
    } else {
        start.character
    }
}

/// Adds the numbers of a token that is after a position.
fn push_mark(values: &mut Vec<Value>, last: Position, mark: &Mark) -> Result<(), AllocError>
    ensures { OnOk result (map view values.new.items ≡ map view values.old.items ++ mark_data last mark.now) }
{
    let Range { start, end } = mark.range;
    values.push(Value::from(start.line.saturating_sub(last.line)))?;
    values.push(Value::from(column_after(last, start)))?;
    values.push(Value::from(end.character.saturating_sub(start.character)))?;
    values.push(Value::from(kind_number(mark.kind)))?;
    values.push(Value::from(0u8))?;
    Ok(())
}

/// Makes the numbers of tokens.
fn mark_values(alloc: Global, marks: &[Mark]) -> Result<Vec<Value>, AllocError>
    ensures { IfOk result (λ values. map view values.items ≡ marks_data spec.start marks.now) }
{
    let mut values = Vec::new(alloc);
    let mut last = Position {
        line: 0,
        character: 0,
    };
    for mark in marks {
        push_mark(&mut values, last, mark)?;
        last = mark.range.start;
    }
    Ok(values)
}

/// Makes the value of the tokens of filtersets.
pub fn highlight_entries(
    alloc: Global,
    shown: &Shown<'_>,
    entries: &[TextEntry<'_>],
) -> Result<Value, AllocError>
    ensures { IfOk result (λ value.
        HighlightsRows shown.now.encoding shown.now.lines.text.now (map text_row entries.now) (view value)) }
{
    let marks = ordered_marks(alloc, shown, entries)?;
    let values = Value::Array(mark_values(alloc, marks.as_slice())?);
    json!(in alloc; { "data": values })
}
