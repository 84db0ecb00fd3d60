//! Filtersets that can be folded.
ghost use Rattle.std.specs.Prelude.{◌≡◌, IfOk, map};
ghost use Rattle.serde_json.specs.View.{view};
ghost use Rattle.filterset_entries.specs.Checked.{text_row};
ghost use Rattle.filterset_server.specs.Folding.{AreFolds, folds_of};

use filterset_display::Range;
use filterset_documents::{Shown, place_span, range_of};
use filterset_entries::TextEntry;
use serde_json::{Value, json};
use std::alloc::{AllocError, Global};

/// Makes what is folded of a range: it, if it goes over several lines.
fn folds_of(alloc: Global, range: Range) -> Result<Vec<Value>, AllocError>
    ensures { IfOk result (λ values. map view values.items ≡ folds_of range) }
{
    let Range { start, end } = range;
    let mut values = Vec::new(alloc);
    if start.line < end.line {
        values.push(json!(in alloc; { "endLine": end.line, "startLine": start.line })?)?;
    }
    Ok(values)
}

/// Makes the value of what is folded of filtersets: the lines where each is, if there are several.
pub fn folds_value(
    alloc: Global,
    shown: &Shown<'_>,
    entries: &[TextEntry<'_>],
) -> Result<Value, AllocError>
    ensures { IfOk result (λ value.
        AreFolds shown.now.encoding shown.now.lines.text.now (map text_row entries.now) (view value)) }
{
    let mut values = Vec::new(alloc);
    for entry in entries {
        let range = range_of(shown, place_span(entry.place));
        let mut more = folds_of(alloc, range)?;
        values.append(&mut more)?;
    }
    Ok(Value::Array(values))
}
