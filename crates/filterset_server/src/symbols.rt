//! The symbols of filtersets.
ghost use Rattle.std.specs.Prelude.{◌≡◌, IfOk, map};
ghost use Rattle.serde_json.specs.View.{view};
ghost use Rattle.filterset_entries.specs.Checked.{text_row};
ghost use Rattle.filterset_documents.specs.Ranges.{range_data};
ghost use Rattle.filterset_server.specs.Symbols.{AreSymbols, symbol_data};

use filterset_display::Range;
use filterset_documents::{Shown, place_span, range_of, range_value};
use filterset_entries::TextEntry;
use serde_json::{Value, json};
use std::alloc::{AllocError, Global};

/// Makes the value of a symbol.
fn symbol_value(alloc: Global, name: &str, range: Range) -> Result<Value, AllocError>
    ensures { IfOk result (λ value. view value ≡ symbol_data name.now (range_data range)) }
{
    let selection = range_value(alloc, range)?;
    let range = range_value(alloc, range)?;
    json!(in alloc; { "kind": 15u8, "name": name, "range": range, "selectionRange": selection })
}

/// Makes the value of the symbols of filtersets.
pub fn symbols_value(
    alloc: Global,
    shown: &Shown<'_>,
    entries: &[TextEntry<'_>],
) -> Result<Value, AllocError>
    ensures { IfOk result (λ value. AreSymbols shown.now.encoding shown.now.lines.text.now (map text_row entries.now)
        (view value)) }
{
    let mut values = Vec::with_capacity(alloc, entries.len())?;
    for entry in entries {
        let range = range_of(shown, place_span(entry.place));
        values.push(symbol_value(alloc, entry.origin.as_str(), range)?)?;
    }
    Ok(Value::Array(values))
}
