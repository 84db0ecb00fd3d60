//! Changes of texts.
ghost use Rattle.std.specs.Prelude.{◌≡◌, ◌++◌, ◌-◌, ◌↔◌, All, IfNone, IfOk, IfSome, IsSome, List, OnOk, drop, length, map, string_bytes, take};
ghost use Rattle.std.specs.{List.AllZip, Str.bytes_eq};
ghost use Rattle.serde_json.specs.{Data.Data, Data.array, View.items_of, View.view};
ghost use Rattle.filterset_entries.specs.{Checked.text_row, Placements.spot_of};
ghost use Rattle.filterset_server.specs.Edits.{AreEditsOf, AreRewrites, IsEdit, IsWithin, ReplacesOne, edit_row, edited, rewrites, row_edits, written_at};
ghost use Rattle.filterset_documents.specs.Ranges.{edit_data};
ghost use Rattle.filterset_documents.specs.Ranges.{range_data};

use crate::quoting::{needs_escapes, quote};
use filterset_configuration::Stretch;
use filterset_display::Range;
use filterset_documents::{Shown, is_same, range_of, range_value, stretch_at, stretch_span};
use filterset_entries::{Spot, TextEntry};
use serde_json::{Value, json};
use std::alloc::{AllocError, Global};

/// A text in place of a stretch of another.
#[derive(Debug, Drop)]
pub struct Edit {
    pub at: Stretch,
    pub text: String,
}

/// Makes what is written where a filterset is that gets this text: a string, or a line.
fn written_at(alloc: Global, spot: Spot<'_>, text: &str) -> Result<String, AllocError>
    ensures { IfOk result (λ made. string_bytes made ≡ written_at (spot_of spot.entry) text.now) }
{
    match spot {
        Spot::Literal(_) => quote(alloc, needs_escapes(text), text),
        Spot::Line(_) => String::from_str(alloc, text),
    }
}

/// Adds the edit by which a filterset gets a text, unless it has that or is not found.
fn push_edit(
    edits: &mut Vec<Edit>,
    alloc: Global,
    entry: &TextEntry<'_>,
    text: &str,
) -> Result<(), AllocError>
    ensures { OnOk result (map edit_row edits.new.items
        ≡ map edit_row edits.old.items ++ row_edits (text_row entry.now) text.now) }
{
    let Some(place) = entry.place else {
        return Ok(());
    };
    if is_same(entry.text, text) {
        return Ok(());
    }
    edits.push(Edit {
        at: stretch_at(place.spot),
        text: written_at(alloc, place.spot, text)?,
    })?;
    Ok(())
}

/// Makes the edits by which filtersets get texts.
fn edits_of(
    alloc: Global,
    entries: &[TextEntry<'_>],
    texts: &[&str],
) -> Result<Vec<Edit>, AllocError>
    requires { length texts.now ≡ length entries.now }
    ensures { IfOk result (λ edits. map edit_row edits.items
        ≡ rewrites (map text_row entries.now) (map (λ t. t.now) texts.now)) }
{
    let mut edits = Vec::new(alloc);
    for (i, entry) in entries.iter().enumerate() {
        push_edit(&mut edits, alloc, entry, texts[i])?;
    }
    Ok(edits)
}

/// Makes the edits by which filtersets get texts, in the order of the document.
pub fn ordered_edits(
    alloc: Global,
    entries: &[TextEntry<'_>],
    texts: &[&str],
) -> Result<Vec<Edit>, AllocError>
    requires { length texts.now ≡ length entries.now }
    ensures replaces { IfOk result (λ edits. All (ReplacesOne (map text_row entries.now)) (map edit_row edits.items)) }
    ensures rewrites { IfOk result (λ edits.
        AreRewrites (map text_row entries.now) (map (λ t. t.now) texts.now) (map edit_row edits.items)) }
{
    let mut edits = edits_of(alloc, entries, texts)?;
    edits.sort_unstable_by_key(|edit| edit.at.from);
    Ok(edits)
}

/// Cuts a stretch out of the rest of a text from an offset on, and returns what is before and after it. Returns `None` if
/// it does not begin and end between characters of the rest.
fn cut_out(rest: &str, at: usize, stretch: Stretch) -> Option<(&str, &str)>
    ensures within { IsSome result ↔ IsWithin at rest.now stretch }
    ensures gap { IfSome result (λ p. p.0.now ≡ take (stretch.from - at) rest.now) }
    ensures behind { IfSome result (λ p. p.1.now ≡ drop (stretch.to - at) rest.now) }
{
    let Stretch { from, to } = stretch;
    if from < at || to < from {
        return None;
    }
    let (gap, _) = rest.split_at_checked(from - at)?;
    let (_, behind) = rest.split_at_checked(to - at)?;
    Some((gap, behind))
}

/// Makes a text with edits. Returns `None` if they do not follow each other, or do not begin and end between characters.
pub fn edit_text(alloc: Global, text: &str, edits: &[Edit]) -> Result<Option<String>, AllocError>
    ensures text { IfOk result (λ o. IfSome o (λ made. string_bytes made ≡ edited text.now (map edit_row edits.now))) }
    ensures some { IfOk result (λ o. IfSome o (λ _. AreEditsOf text.now (map edit_row edits.now))) }
    ensures none { IfOk result (λ o. IfNone o (¬ AreEditsOf text.now (map edit_row edits.now))) }
{
    let mut output = String::new(alloc);
    let mut rest = text;
    let mut at = 0usize;
    for edit in edits {
        let Some((gap, behind)) = cut_out(rest, at, edit.at) else {
            return Ok(None);
        };
        output.push_str(gap)?;
        output.push_str(edit.text.as_str())?;
        rest = behind;
        at = edit.at.to;
    }
    output.push_str(rest)?;
    Ok(Some(output))
}

/// Makes the value of an edit.
fn edit_value(alloc: Global, text: &str, range: Range) -> Result<Value, AllocError>
    ensures { IfOk result (λ value. view value ≡ edit_data text.now (range_data range)) }
{
    let range = range_value(alloc, range)?;
    json!(in alloc; { "newText": text, "range": range })
}

/// Makes the value of edits.
pub fn edits_value(alloc: Global, shown: &Shown<'_>, edits: &[Edit]) -> Result<Value, AllocError>
    ensures { IfOk result (λ value. (values : List Data)
        × AllZip (IsEdit shown.now.encoding shown.now.lines.text.now) (map edit_row edits.now) values
        × (view value ≡ array (items_of values))) }
{
    let mut values = Vec::with_capacity(alloc, edits.len())?;
    for edit in edits {
        let range = range_of(shown, stretch_span(edit.at));
        values.push(edit_value(alloc, edit.text.as_str(), range)?)?;
    }
    Ok(Value::Array(values))
}
