//! Where filtersets are.
ghost use Rattle.std.specs.Prelude.{◌≡◌, option_map};
ghost use Rattle.filterset_entries.specs.Placements.{placement_of, span_in, spot_of};
ghost use Rattle.filterset_documents.specs.Filtersets.{place_span, stretch_at, stretch_span};

use filterset_configuration::Stretch;
use filterset_entries::{FilePlace, Spot, file_part};
use filterset_faults::SourceSpan;

/// Returns where the string is that is read as a filterset, or the line.
pub fn stretch_at(spot: Spot<'_>) -> Stretch
    ensures { result ≡ stretch_at (spot_of spot.entry) }
{
    match spot {
        Spot::Literal(place) => place.literal,
        Spot::Line(stretch) => stretch,
    }
}

/// Returns the span of a stretch.
pub fn stretch_span(stretch: Stretch) -> SourceSpan
    ensures { result ≡ stretch_span stretch }
{
    let Stretch { from, to } = stretch;
    SourceSpan::new(from, to.saturating_sub(from))
}

/// Returns where a filterset is, or the start of the text if that is not known.
pub fn place_span(place: Option<FilePlace<'_>>) -> SourceSpan
    ensures { result ≡ place_span (option_map placement_of place.entry) }
{
    let Some(at) = place else {
        return SourceSpan::new(0, 0);
    };
    stretch_span(stretch_at(at.spot))
}

/// Returns the span of the file that a span of a text at this place was read from.
pub fn span_in(place: FilePlace<'_>, span: SourceSpan) -> SourceSpan
    ensures { result ≡ span_in (spot_of place.entry.spot) span }
{
    match file_part(Some(place), Some(span)) {
        Some(part) => part.span,
        None => unreachable!(),
    }
}
