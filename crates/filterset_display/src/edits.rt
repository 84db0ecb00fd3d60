//! Changes of documents.
ghost use Rattle.std.specs.Prelude.{IfOk, string_bytes};
ghost use Rattle.filterset_display.specs.Edits.{AreChanged, IsChanged, IsReplaced};

use crate::lines::Lines;
use crate::positions::{Encoding, Range};
use std::alloc::{AllocError, Global};

/// A change of a document.
#[derive(Debug, Drop)]
pub struct Change {
    /// What of the document is replaced: all of it if there is no range.
    pub range: Option<Range>,
    pub text: String,
}

/// Returns a copy of `old` with `text` in place of what is in the range.
fn replace_range(
    alloc: Global,
    encoding: Encoding,
    old: &str,
    range: Range,
    text: &str,
) -> Result<String, AllocError>
    ensures { IfOk result (λ new. IsReplaced encoding old.now range text.now (string_bytes new)) }
{
    let lines = Lines::of(alloc, old)?;
    let from = lines.offset(encoding, range.start);
    let to = lines.offset(encoding, range.end);
    let (front, _) = old.split_at(from);
    let (_, back) = old.split_at(from.max(to));
    let mut new = String::from_str(alloc, front)?;
    new.push_str(text)?;
    new.push_str(back)?;
    Ok(new)
}

/// Returns the text of a document after a change.
fn make_change(
    alloc: Global,
    encoding: Encoding,
    old: &str,
    change: &Change,
) -> Result<String, AllocError>
    ensures { IfOk result (λ new. IsChanged encoding old.now change.now (string_bytes new)) }
{
    match change.range {
        Some(range) => replace_range(alloc, encoding, old, range, change.text.as_str()),
        None => String::from_str(alloc, change.text.as_str()),
    }
}

/// Makes changes of a document, one after the other, and returns its text. Returns an error only if out of memory.
pub fn change_text(
    alloc: Global,
    encoding: Encoding,
    old: &str,
    changes: &[Change],
) -> Result<String, AllocError>
    ensures { IfOk result (λ new. AreChanged encoding old.now changes.now (string_bytes new)) }
{
    let mut text = String::from_str(alloc, old)?;
    for next in changes {
        text = make_change(alloc, encoding, text.as_str(), next)?;
    }
    Ok(text)
}
