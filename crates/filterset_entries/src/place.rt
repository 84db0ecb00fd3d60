//! Places of texts in files, and spans of predicates in texts.
ghost use Rattle.std.specs.Prelude.{◌≡◌, option_map};
ghost use Rattle.filterset_language.specs.{Faults.leaf_span, Views.leaf_of};
ghost use Rattle.filterset_entries.specs.Placements.{file_part, placement_of, span_in, spot_of};

use filterset_configuration::{Place, Stretch};
use filterset_display::{FileSpan, Source};
use filterset_language::ParsedLeaf;
use nextest_filtering::SourceSpan;

/// Where a text is in its file.
#[derive(Clone, Copy, Debug)]
pub enum Spot<'t> {
    /// A string of a configuration is read as the text.
    Literal(&'t Place),
    /// The text is a line, without its line break.
    Line(Stretch),
}

/// The place of a text in a file.
#[derive(Clone, Copy, Debug)]
pub struct FilePlace<'t> {
    pub file: &'t Source<'t>,
    pub spot: Spot<'t>,
}

/// Returns the span of a file that a span of the text at this spot was read from. That of a line ends with it at the latest.
fn span_in(spot: Spot<'_>, span: SourceSpan) -> SourceSpan
    ensures { result ≡ span_in (spot_of spot.entry) span }
{
    match spot {
        Spot::Literal(place) => place.file_span(span),
        Spot::Line(line) => {
            let from = line.from.saturating_add(span.offset()).min(line.to);
            let to = from.saturating_add(span.len()).min(line.to);
            SourceSpan::new(from, to.saturating_sub(from))
        }
    }
}

/// Returns the span of its file that a span of a text was read from, if the text has a place.
pub fn file_part<'t>(place: Option<FilePlace<'t>>, span: Option<SourceSpan>) -> Option<FileSpan<'t>>
    ensures { result ≡ file_part (option_map placement_of place.entry) span }
{
    match (place, span) {
        (Some(at), Some(span)) => Some(FileSpan {
            file: at.file,
            span: span_in(at.spot, span),
        }),
        _ => None,
    }
}

/// Returns the span of a predicate, if it has one.
pub fn leaf_span(leaf: &ParsedLeaf) -> Option<SourceSpan>
    ensures { result ≡ leaf_span (leaf_of leaf.now) }
{
    match leaf {
        ParsedLeaf::Package(_, span)
        | ParsedLeaf::Deps(_, span)
        | ParsedLeaf::Rdeps(_, span)
        | ParsedLeaf::Kind(_, span)
        | ParsedLeaf::Binary(_, span)
        | ParsedLeaf::BinaryId(_, span)
        | ParsedLeaf::Test(_, span)
        | ParsedLeaf::Group(_, span)
        | ParsedLeaf::Platform(_, span)
        | ParsedLeaf::Default(span) => Some(*span),
        ParsedLeaf::All | ParsedLeaf::None => None,
    }
}
