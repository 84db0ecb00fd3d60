//! How filtersets are formatted.
ghost use Rattle.std.specs.{Prelude.IfOk, Prelude.map, Prelude.string_bytes, List.AllZip};
ghost use Rattle.serde_json.specs.View.{view};
ghost use Rattle.filterset_entries.specs.Checked.{text_row};
ghost use Rattle.filterset_documents.specs.Contents.{content_row};
ghost use Rattle.filterset_server.specs.Formatting.{FormatsContent, IsFormatted};

use crate::becoming::{becomes, list_strings};
use crate::edits::{edit_text, edits_value, ordered_edits};
use filterset_documents::{Content, Shown, parse_text};
use filterset_entries::TextEntry;
use serde_json::Value;
use std::alloc::{AllocError, Global};

/// Makes the text that a filterset with a place gets: as it prints, if it reads as a tree. Others are copied.
fn format_entry(alloc: Global, entry: &TextEntry<'_>) -> Result<String, AllocError>
    ensures { IfOk result (λ new. IsFormatted (text_row entry.now) (string_bytes new)) }
{
    let Some(_) = entry.place else {
        return String::from_str(alloc, entry.text);
    };
    match parse_text(alloc, entry.text)? {
        Some(tree) => format!(in alloc; "{tree}"),
        None => String::from_str(alloc, entry.text),
    }
}

/// Makes the texts that filtersets get.
fn format_entries(alloc: Global, entries: &[TextEntry<'_>]) -> Result<Vec<String>, AllocError>
    ensures { IfOk result (λ texts.
        AllZip IsFormatted (map text_row entries.now) (map (λ s. string_bytes s) texts.items)) }
{
    let mut texts = Vec::with_capacity(alloc, entries.len())?;
    for entry in entries {
        texts.push(format_entry(alloc, entry)?)?;
    }
    Ok(texts)
}

/// Makes the edits that format the filtersets of a document. Returns `null` if they can't be made, or if the document would not
/// hold the same with them, but for the texts.
pub fn format_content(
    alloc: Global,
    shown: &Shown<'_>,
    content: Content<'_, '_>,
) -> Result<Value, AllocError>
    ensures { IfOk result (λ value. FormatsContent shown.now.encoding shown.now.lines.text.now (content_row content.entry)
        (view value)) }
{
    let strings = format_entries(alloc, content.entries)?;
    let texts = list_strings(alloc, strings.as_slice())?;
    let texts = texts.as_slice();
    let edits = ordered_edits(alloc, content.entries, texts)?;
    let edits = edits.as_slice();
    let Some(edited) = edit_text(alloc, shown.lines.text, edits)? else {
        return Ok(Value::Null);
    };
    if becomes(alloc, content, texts, edited.as_str())? {
        edits_value(alloc, shown, edits)
    } else {
        Ok(Value::Null)
    }
}
