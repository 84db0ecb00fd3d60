//! Texts under which faults are drawn.
ghost use Rattle.std.specs.Prelude.{◌≡◌, ◌≤◌, IfOk, length, map, nat_le, not};
ghost use Rattle.std.proofs.Props.{props};
ghost use Rattle.filterset_display.specs.Cutting.{line_row, lines_of, reaches};

use crate::line::{Line, Stretch, lines_of};
use filterset_faults::SourceSpan;
use std::alloc::{AllocError, Global};

/// A location in a text: its line, and its column as a terminal shows it, both from 1.
#[derive(Clone, Copy, Debug, PartialEq, Eq)]
pub struct Location {
    pub line: usize,
    pub column: usize,
}

/// A text under which faults are drawn, cut into its lines.
#[derive(Debug, Drop)]
pub struct Source<'t> {
    /// Where the text comes from, for people.
    pub origin: &'t str,
    pub text: &'t str,
    pub(crate) lines: Vec<Line<'t>>,
    ghost cut: { map line_row lines.items ≡ lines_of text.now } by { Prim.hlevel props },
}

/// A span of a file.
#[derive(Clone, Copy, Debug)]
pub struct FileSpan<'s> {
    pub file: &'s Source<'s>,
    pub span: SourceSpan,
}

impl<'t> Source<'t> {
    ghost use Rattle.filterset_display.specs.Lines.{AreMet, from_of, to_of};
    ghost use Rattle.filterset_display.specs.Locations.{EndsAt, StandsAt, StandsIn};

    /// Splits a text into lines to draw faults under. Returns an error only if out of memory.
    pub fn new(alloc: Global, origin: &'t str, text: &'t str) -> Result<Source<'t>, AllocError>
        ensures origin { IfOk result (λ source. source.origin.now ≡ origin.entry.now) }
        ensures text { IfOk result (λ source. source.text.now ≡ text.entry.now) }
    {
        let lines = lines_of(alloc, text)?;
        Ok(Source {
            origin,
            text,
            lines,
        })
    }

    /// Returns the stretch of the text that a span covers. It ends at the end of the text if the span ends later.
    pub(crate) fn stretch(&self, span: SourceSpan) -> Stretch
        ensures from { result.from ≡ from_of self.now.text.now span }
        ensures to { result.to ≡ to_of self.now.text.now span }
    {
        let end = self.text.len();
        Stretch {
            from: span.offset().min(end),
            to: span.offset().saturating_add(span.len()).min(end),
        }
    }

    /// Returns the lines in which a stretch of the text has an offset, by two binary searches.
    pub(crate) fn met_lines(&self, stretch: Stretch) -> &[Line<'t>]
        ensures { AreMet self.now.text.now stretch.from stretch.to (map line_row result.now) }
    {
        let last = stretch.from.max(stretch.to.saturating_sub(1));
        let lines = self.lines.as_slice();
        let (begun, _) = lines.split_at(lines.partition_point(
            |line: &Line| -> bool
                ensures { result ≡ nat_le line.now.start last }
            { line.start <= last },
        ));
        let (_, met) = begun.split_at(begun.partition_point(
            |line: &Line| -> bool
                ensures { result ≡ not (reaches stretch.from (line_row line.now)) }
            { !line.reaches(stretch.from) },
        ));
        met
    }

    /// Returns the location of an offset, by the line that has the offset `at`.
    fn location_of(&self, at: usize, offset: usize) -> Location
        requires { at ≤ length self.now.text.now }
        ensures { StandsIn self.now.text.now at offset result }
    {
        let line = &self.met_lines(Stretch { from: at, to: at })[0];
        Location {
            line: line.number,
            column: line.column(offset) + 1,
        }
    }

    /// Returns the location where a span begins, or the end of the text if it begins later.
    pub fn location(&self, span: SourceSpan) -> Location
        ensures { StandsAt self.now.text.now (from_of self.now.text.now span) result }
    {
        let from = self.stretch(span).from;
        self.location_of(from, from)
    }

    /// Returns the location after the last character of a span, in the line of that character.
    pub fn end_location(&self, span: SourceSpan) -> Location
        ensures { let text = self.now.text.now in EndsAt text (from_of text span) (to_of text span) result }
    {
        let Stretch { from, to } = self.stretch(span);
        self.location_of(from.max(to.saturating_sub(1)), to)
    }
}
