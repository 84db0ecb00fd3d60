//! The place of a filterset.
ghost use Rattle.std.specs.Prelude.{◌≡◌};

use crate::stretch::Stretch;
use filterset_faults::SourceSpan;

/// Where a filterset is in a file.
#[derive(Debug, Drop)]
pub struct Place {
    /// The string that is read as the filterset, with its delimiters.
    pub literal: Stretch,
    /// For each byte of the filterset, what it was read from: a byte of the string, or an escape.
    pub origins: Vec<Stretch>,
    /// The offset of the string's closing delimiter.
    pub end: usize,
}

impl Place {
    ghost use Rattle.filterset_configuration.specs.Places.{file_span, origin_at};

    /// Returns what the byte at an offset of the filterset was read from. At the filterset's end or after it, this is the
    /// empty stretch before the closing delimiter.
    pub fn origin_of(&self, offset: usize) -> Stretch
        ensures { result ≡ origin_at self.now offset }
    {
        let end = Stretch {
            from: self.end,
            to: self.end,
        };
        self.origins.get(offset).copied().unwrap_or(end)
    }

    /// Returns the offset in the file of what the byte at an offset of the filterset was read from.
    pub fn position_of(&self, offset: usize) -> usize
        ensures { result ≡ (origin_at self.now offset).from }
    {
        self.origin_of(offset).from
    }

    /// Returns the span of the file that a span of the filterset was read from.
    pub fn file_span(&self, span: SourceSpan) -> SourceSpan
        ensures { result ≡ file_span self.now span }
    {
        let from = self.position_of(span.offset());
        let to = match span.len() {
            0 => from,
            length => self.origin_of(span.offset().saturating_add(length - 1)).to,
        };
        SourceSpan::new(from, to.saturating_sub(from))
    }
}
