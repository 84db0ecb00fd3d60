//! What is offered at a position of a document.
ghost use Rattle.std.specs.Prelude.{◌≡◌, IfOk, map};
ghost use Rattle.serde_json.specs.View.{view};
ghost use Rattle.filterset_entries.specs.{Checked.text_row, Placements.spot_of};
ghost use Rattle.filterset_offers.specs.Workspaces.{known_of};
ghost use Rattle.filterset_offers.specs.Completion.{CompletesAt, CompletesGaps, CompletesIn, CompletesRow, CompletesRows, list_data};
ghost use Rattle.filterset_offers.specs.Standing.{gap_rows};

use crate::candidates::all_candidates;
use crate::gaps::text_offset;
use crate::items::items_of;
use crate::names::{known_candidates, may_lack};
use crate::offering::offered;
use crate::standing::{Gaps, gaps_at};
use crate::workspace::Workspace;
use filterset_display::Position;
use filterset_documents::{Shown, entry_at, is_in, span_in};
use filterset_entries::{FilePlace, TextEntry};
use serde_json::{Value, json};
use std::alloc::{AllocError, Global};

/// Makes the value of a list of items, which may lack some.
fn list_value(alloc: Global, lacks: bool, items: Vec<Value>) -> Result<Value, AllocError>
    ensures { IfOk result (λ value. view value ≡ list_data lacks (map view items.items)) }
{
    let items = Value::Array(items);
    if lacks {
        json!(in alloc; { "isIncomplete": true, "items": items })
    } else {
        Ok(items)
    }
}

/// Makes the items of what is offered in place of words of a filterset at this place.
fn complete_gaps(
    alloc: Global,
    workspace: Option<Workspace<'_>>,
    shown: &Shown<'_>,
    place: FilePlace<'_>,
    entry: &TextEntry<'_>,
    gaps: &Gaps<'_>,
) -> Result<Value, AllocError>
    ensures { IfOk result (λ value. CompletesGaps (known_of workspace.entry) shown.now.encoding shown.now.lines.text.now
        (spot_of place.entry.spot) (text_row entry.now) (gap_rows gaps.now) (view value)) }
{
    let mut candidates = all_candidates(alloc)?;
    let mut known = known_candidates(alloc, workspace, gaps.name.typed)?;
    let lacks = may_lack(known.as_slice());
    candidates.append(&mut known)?;
    let found = offered(alloc, entry.kind, gaps, candidates.as_slice())?;
    let items = items_of(alloc, shown, place, gaps, found.as_slice())?;
    list_value(alloc, lacks, items)
}

/// Makes what is offered at this offset of the file in a filterset at this place.
fn complete_at(
    alloc: Global,
    workspace: Option<Workspace<'_>>,
    shown: &Shown<'_>,
    offset: usize,
    place: FilePlace<'_>,
    entry: &TextEntry<'_>,
) -> Result<Value, AllocError>
    ensures { IfOk result (λ value. CompletesAt (known_of workspace.entry) shown.now.encoding shown.now.lines.text.now offset
        (spot_of place.entry.spot) (text_row entry.now) (view value)) }
{
    let Some(gaps) = gaps_at(entry.text, text_offset(place.spot, offset)) else {
        return Ok(Value::Null);
    };
    if is_in(span_in(place, gaps.word.at), offset) {
        complete_gaps(alloc, workspace, shown, place, entry, &gaps)
    } else {
        Ok(Value::Null)
    }
}

/// Makes what is offered in a filterset at this offset of the file.
fn complete_entry(
    alloc: Global,
    workspace: Option<Workspace<'_>>,
    shown: &Shown<'_>,
    offset: usize,
    entry: &TextEntry<'_>,
) -> Result<Value, AllocError>
    ensures { IfOk result (λ value. CompletesRow (known_of workspace.entry) shown.now.encoding shown.now.lines.text.now offset
        (text_row entry.now) (view value)) }
{
    match entry.place {
        Some(place) => complete_at(alloc, workspace, shown, offset, place, entry),
        None => Ok(Value::Null),
    }
}

/// Makes what is offered at a position of filtersets: items, or `null` where no filterset is. With a workspace the names of its
/// packages, test binaries and tests are offered too. Returns an error only if out of memory.
pub fn complete_entries(
    alloc: Global,
    workspace: Option<Workspace<'_>>,
    shown: &Shown<'_>,
    position: Position,
    entries: &[TextEntry<'_>],
) -> Result<Value, AllocError>
    ensures { IfOk result (λ value. CompletesRows (known_of workspace.entry) shown.now.encoding shown.now.lines.text.now position
        (map text_row entries.now) (view value)) }
{
    let offset = shown.lines.offset(shown.encoding, position);
    match entry_at(entries, offset) {
        Some(entry) => complete_entry(alloc, workspace, shown, offset, entry),
        None => Ok(Value::Null),
    }
}
