//! What is at an offset of a document.
ghost use Rattle.std.specs.Prelude.{◌≡◌, find, option_map};
ghost use Rattle.filterset_entries.specs.{Checked.text_row, Placements.placement_of};
ghost use Rattle.filterset_documents.specs.Filtersets.{is_in, is_placed_at, is_row_at};

use crate::places::{stretch_at, stretch_span};
use filterset_entries::{FilePlace, TextEntry};
use filterset_faults::SourceSpan;

/// Returns whether an offset is in a span or at its end.
pub fn is_in(span: SourceSpan, offset: usize) -> bool
    ensures { result ≡ is_in span offset }
{
    span.offset() <= offset && offset - span.offset() <= span.len()
}

/// Returns whether a filterset at this place is at this offset of the file.
fn is_placed_at(place: Option<FilePlace<'_>>, offset: usize) -> bool
    ensures { result ≡ is_placed_at (option_map placement_of place.entry) offset }
{
    match place {
        Some(at) => is_in(stretch_span(stretch_at(at.spot)), offset),
        None => false,
    }
}

/// Returns the first filterset that is at this offset of the file.
pub fn entry_at<'e, 't>(entries: &'e [TextEntry<'t>], offset: usize) -> Option<&'e TextEntry<'t>>
    ensures { option_map (λ e. e.now) result ≡ find (λ e. is_row_at offset (text_row e)) entries.now }
{
    entries
        .iter()
        .find(|entry| is_placed_at(entry.place, offset))
}
