//! Spans of filterset texts.
ghost use Rattle.std.specs.Prelude.{◌≡◌, ◌↔◌, IsTrue};

/// A span of a text: its offset and its length, in bytes.
#[derive(Clone, Copy, Debug, PartialEq, Eq)]
pub struct SourceSpan {
    offset: usize,
    len: usize,
}

impl SourceSpan {
    ghost use Rattle.filterset_faults.specs.Span.{span, offset_of, length_of};

    /// Returns the span at this offset, with this length.
    pub fn new(offset: usize, length: usize) -> SourceSpan
        ensures { result ≡ span offset length }
    {
        SourceSpan {
            offset,
            len: length,
        }
    }

    /// Returns the number of bytes before the span.
    pub fn offset(&self) -> usize
        ensures { result ≡ offset_of self.now }
    {
        self.offset
    }

    /// Returns the number of bytes in the span.
    pub fn len(&self) -> usize
        ensures { result ≡ length_of self.now }
    {
        self.len
    }

    /// Returns whether the span has no bytes.
    pub fn is_empty(&self) -> bool
        ensures { IsTrue result ↔ (length_of self.now ≡ 0) }
    {
        self.len == 0
    }
}

impl From<(usize, usize)> for SourceSpan {
    ghost use Rattle.filterset_faults.specs.Span.{IsSpanOf};

    ghost from_gives = { IsSpanOf };

    fn from(pair: (usize, usize)) -> SourceSpan {
        SourceSpan::new(pair.0, pair.1)
    }
}
