//! Texts with edits that mend them.
ghost use Rattle.std.specs.{Prelude.◌≡◌, Prelude.IfOk, Prelude.option_map, Prelude.string_bytes, List.list_any};
ghost use Rattle.filterset_server.specs.Edits.{edit_row};
ghost use Rattle.filterset_server.specs.Mending.{IsClear, IsMending, begins_in};

use crate::edits::{Edit, edit_text};
use filterset_faults::ParseSingleError;
use filterset_rewriting::{TextRefusal, read_text};
use std::alloc::{AllocError, Global};
use std::slice;

/// Returns whether a fault begins in a stretch of this length from an offset on.
fn begins_in(fault: &ParseSingleError, from: usize, len: usize) -> bool
    ensures { result ≡ begins_in from len fault.now }
{
    match fault.span() {
        Some(span) => from <= span.offset() && span.offset() - from < len,
        None => false,
    }
}

/// Returns whether one of these faults begins in a stretch of this length from an offset on.
fn any_begins(faults: &[ParseSingleError], from: usize, len: usize) -> bool
    ensures { result ≡ list_any (begins_in from len) faults.now }
{
    faults.iter().any(|fault| begins_in(fault, from, len))
}

/// Returns whether a text has no fault that begins in a stretch of this length from an offset on.
fn is_clear(alloc: Global, text: &str, from: usize, len: usize) -> Result<bool, AllocError>
    ensures { IfOk result (IsClear text.now from len) }
{
    match read_text(alloc, text)? {
        Ok(_tree) => Ok(true),
        Err(TextRefusal::Found(faults)) => Ok(!any_begins(faults.as_slice(), from, len)),
        Err(TextRefusal::TooDeep(_)) => Ok(false),
    }
}

/// Makes a text with an edit, if that mends it: no fault begins in what the edit writes.
pub fn mend(alloc: Global, text: &str, edit: &Edit) -> Result<Option<String>, AllocError>
    ensures { IfOk result (λ o. IsMending text.now (edit_row edit.now) (option_map (λ s. string_bytes s) o)) }
{
    let Some(new) = edit_text(alloc, text, slice::from_ref(edit))? else {
        return Ok(None);
    };
    if is_clear(alloc, new.as_str(), edit.at.from, edit.text.len())? {
        Ok(Some(new))
    } else {
        Ok(None)
    }
}
