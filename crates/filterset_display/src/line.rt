//! The lines of a text.
ghost use Rattle.std.specs.Prelude.{◌≡◌, ◌+◌, ◌*◌, ◌≤◌, IfOk, length, map};
ghost use Rattle.filterset_display.specs.Cutting.{line_row, lines_of, reaches};
ghost use Rattle.filterset_display.specs.Lines.{caret_count, column_of};

use crate::column::columns_between;
use std::alloc::{AllocError, Global};

/// A line of a text.
#[derive(Clone, Copy, Debug)]
pub struct Line<'t> {
    /// Its number, from 1.
    pub number: usize,
    /// The offset of its first byte in the text.
    pub start: usize,
    /// The line, without the line feed that ends it.
    pub text: &'t str,
}

/// A stretch of a text, by the offsets of its first byte and of the byte after it.
#[derive(Clone, Copy, Debug)]
pub struct Stretch {
    pub from: usize,
    pub to: usize,
}

impl Line<'_> {
    /// Returns whether the line ends at this offset of the text or later.
    pub fn reaches(&self, position: usize) -> bool
        ensures { result ≡ reaches position (line_row self.now) }
    {
        position.saturating_sub(self.start) <= self.text.len()
    }

    /// Returns the number of the line's columns before an offset of the text.
    pub fn column(&self, position: usize) -> usize
        ensures value { result ≡ column_of (line_row self.now) position }
        ensures bound { result ≤ 2 * length self.now.text.now }
    {
        columns_between(self.text, 0, position.saturating_sub(self.start))
    }

    /// Returns the number of carets that mark a stretch of the text in the line.
    pub fn caret_count(&self, stretch: Stretch) -> usize
        ensures { result ≡ caret_count (line_row self.now) stretch.from stretch.to }
    {
        let from = stretch.from.saturating_sub(self.start);
        let to = stretch.to.saturating_sub(self.start);
        columns_between(self.text, from, to).max(1)
    }
}

/// Splits a text into its lines. There is at least one.
pub fn lines_of<'t>(alloc: Global, text: &'t str) -> Result<Vec<Line<'t>>, AllocError>
    ensures { IfOk result (λ lines. map line_row lines.items ≡ lines_of text.now) }
{
    let mut lines = Vec::new(alloc);
    let mut number = 1;
    let mut start = 0;
    for piece in text.split('\n') {
        lines.push(Line {
            number,
            start,
            text: piece,
        })?;
        number += 1;
        start += piece.len() + 1;
    }
    Ok(lines)
}
