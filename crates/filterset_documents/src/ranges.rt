//! Parts of documents, as the protocol has them.
ghost use Rattle.std.specs.Prelude.{◌≡◌, IfOk};
ghost use Rattle.serde_json.specs.View.{view};
ghost use Rattle.filterset_documents.specs.Ranges.{IsPositionAt, IsRange, IsRangeOf, position_data, range_data};

use filterset_display::{Encoding, Lines, Position, Range};
use filterset_faults::SourceSpan;
use serde_json::{Value, json};
use std::alloc::{AllocError, Global};

/// The text of a document with its lines, and what its columns count.
#[derive(Debug, Drop)]
pub struct Shown<'t> {
    pub encoding: Encoding,
    pub lines: Lines<'t>,
}

/// Makes the value of a position.
fn position_value(alloc: Global, position: Position) -> Result<Value, AllocError>
    ensures { IfOk result (λ value. view value ≡ position_data position) }
{
    json!(in alloc; { "character": position.character, "line": position.line })
}

/// Makes the value of a range.
pub fn range_value(alloc: Global, range: Range) -> Result<Value, AllocError>
    ensures { IfOk result (λ value. view value ≡ range_data range) }
{
    let start = position_value(alloc, range.start)?;
    let end = position_value(alloc, range.end)?;
    json!(in alloc; { "end": end, "start": start })
}

/// Returns the position of the last character that begins at an offset or before it.
fn position_at(shown: &Shown<'_>, offset: usize) -> Position
    ensures { IsPositionAt shown.now.encoding shown.now.lines.text.now offset result }
{
    let at = shown.lines.text.floor_char_boundary(offset);
    shown.lines.position(shown.encoding, at)
}

/// Returns the range of a span.
pub fn range_of(shown: &Shown<'_>, span: SourceSpan) -> Range
    ensures { IsRangeOf shown.now.encoding shown.now.lines.text.now span result }
{
    let len = shown.lines.text.len();
    let end = span.offset().saturating_add(span.len());
    Range {
        start: position_at(shown, span.offset().min(len)),
        end: position_at(shown, end.min(len)),
    }
}

/// Makes the value of the range of a span.
pub fn span_value(alloc: Global, shown: &Shown<'_>, span: SourceSpan) -> Result<Value, AllocError>
    ensures { IfOk result (λ value. IsRange shown.now.encoding shown.now.lines.text.now span (view value)) }
{
    range_value(alloc, range_of(shown, span))
}
