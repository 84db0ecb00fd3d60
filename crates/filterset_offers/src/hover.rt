//! What the predicate at a position means.
ghost use Rattle.std.specs.Prelude.{◌≡◌, IfOk, map, option_map};
ghost use Rattle.serde_json.specs.View.{view};
ghost use Rattle.filterset_entries.specs.{Checked.text_row, Placements.placement_of};
ghost use Rattle.filterset_language.specs.Views.{leaf_of};
ghost use Rattle.filterset_offers.specs.Workspaces.{known_of};
ghost use Rattle.filterset_offers.specs.Hover.{HoversLeaf, HoversRow, HoversRows, hover_data, is_leaf_at, leaf_part};

use crate::matches::leaf_matches;
use crate::words::leaf_text;
use crate::workspace::Workspace;
use filterset_display::{FileSpan, Position};
use filterset_documents::{Shown, entry_at, is_in, leaf_span, parse_text, span_value};
use filterset_entries::{FilePlace, TextEntry, file_part};
use filterset_language::ParsedLeaf;
use serde_json::{Value, json};
use std::alloc::{AllocError, Global};

/// Returns the span of the file that a predicate's span in a text at this place was read from.
pub(crate) fn leaf_part<'t>(place: Option<FilePlace<'t>>, leaf: &ParsedLeaf) -> Option<FileSpan<'t>>
    ensures { result ≡ leaf_part (option_map placement_of place.entry) (leaf_of leaf.now) }
{
    file_part(place, leaf_span(leaf))
}

/// Returns whether a predicate of a text at this place has a span that holds this offset of the file.
fn is_leaf_at(place: Option<FilePlace<'_>>, offset: usize, leaf: &ParsedLeaf) -> bool
    ensures { result ≡ is_leaf_at (option_map placement_of place.entry) offset (leaf_of leaf.now) }
{
    match leaf_part(place, leaf) {
        Some(part) => is_in(part.span, offset),
        None => false,
    }
}

/// Makes the value of a text in Markdown about a range.
fn hover_value(alloc: Global, text: &str, range: Value) -> Result<Value, AllocError>
    ensures { IfOk result (λ value. view value ≡ hover_data text.now (view range)) }
{
    json!(in alloc; { "contents": { "kind": "markdown", "value": text }, "range": range })
}

/// Makes the hover of a predicate of a text at this place.
fn hover_leaf(
    alloc: Global,
    workspace: Option<Workspace<'_>>,
    shown: &Shown<'_>,
    place: Option<FilePlace<'_>>,
    leaf: &ParsedLeaf,
) -> Result<Value, AllocError>
    ensures { IfOk result (λ value. HoversLeaf (known_of workspace.entry) shown.now.encoding shown.now.lines.text.now
        (option_map placement_of place.entry) (leaf_of leaf.now) (view value)) }
{
    let Some(part) = leaf_part(place, leaf) else {
        return Ok(Value::Null);
    };
    let range = span_value(alloc, shown, part.span)?;
    let mut text = leaf_text(alloc, leaf)?;
    let matched = leaf_matches(alloc, workspace, leaf)?;
    text.push_str(matched.as_str())?;
    hover_value(alloc, text.as_str(), range)
}

/// Makes the hover of a filterset that is at this offset of the file: that of its first predicate there.
fn hover_entry(
    alloc: Global,
    workspace: Option<Workspace<'_>>,
    shown: &Shown<'_>,
    offset: usize,
    entry: &TextEntry<'_>,
) -> Result<Value, AllocError>
    ensures { IfOk result (λ value. HoversRow (known_of workspace.entry) shown.now.encoding shown.now.lines.text.now offset
        (text_row entry.now) (view value)) }
{
    let Some(tree) = parse_text(alloc, entry.text)? else {
        return Ok(Value::Null);
    };
    let leaves = tree.leaves_where(alloc, |leaf| is_leaf_at(entry.place, offset, leaf))?;
    match leaves.first() {
        Some(leaf) => hover_leaf(alloc, workspace, shown, entry.place, leaf),
        None => Ok(Value::Null),
    }
}

/// Makes the hover at a position of filtersets.
pub fn hover_entries(
    alloc: Global,
    workspace: Option<Workspace<'_>>,
    shown: &Shown<'_>,
    position: Position,
    entries: &[TextEntry<'_>],
) -> Result<Value, AllocError>
    ensures { IfOk result (λ value. HoversRows (known_of workspace.entry) shown.now.encoding shown.now.lines.text.now position
        (map text_row entries.now) (view value)) }
{
    let offset = shown.lines.offset(shown.encoding, position);
    match entry_at(entries, offset) {
        Some(entry) => hover_entry(alloc, workspace, shown, offset, entry),
        None => Ok(Value::Null),
    }
}
