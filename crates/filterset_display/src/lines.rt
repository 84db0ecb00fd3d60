//! The lines of a text, so that a position costs a search.
ghost use Rattle.std.specs.Prelude.{◌≡◌, ◌≤◌, ◌<◌, ◌+◌, ℕ, IfOk, drop, length, slice_index};
ghost use Rattle.std.specs.{List.slice_range, Str.IsCharBoundary};
ghost use Rattle.filterset_display.specs.Positions as spec;
ghost use Rattle.filterset_display.specs.Positions.{IsOffset, IsPosition, StandsAt, line_starts};

use crate::positions::{Encoding, Position, bytes_before, column};
use std::alloc::{AllocError, Global};

/// A text, and where its lines begin.
#[derive(Debug, Drop)]
pub struct Lines<'t> {
    pub text: &'t str,
    pub starts: Vec<usize>,
    ghost indexed: { starts.items ≡ line_starts text.now },
}

/// Returns the byte at a position, or 0 after the end.
pub fn byte_at(bytes: &[u8], at: usize) -> u8
    ensures { result ≡ slice_index bytes.now at }
{
    if at < bytes.len() { bytes[at] } else { 0 }
}

/// Returns whether the byte at a position ends a line break.
fn ends_line(bytes: &[u8], at: usize) -> bool
    requires { at < length bytes.now }
    ensures { result ≡ spec.ends_line (slice_index bytes.now at) (slice_index bytes.now (at + 1)) }
{
    bytes[at] == b'\n' || (bytes[at] == b'\r' && byte_at(bytes, at + 1) != b'\n')
}

/// Finds where the lines of a text begin.
fn find_starts(alloc: Global, text: &[u8]) -> Result<Vec<usize>, AllocError>
    ensures { IfOk result (λ starts. starts.items ≡ line_starts text.now) }
{
    let mut starts = Vec::new(alloc);
    starts.push(0)?;
    for at in 0..text.len() {
        if ends_line(text, at) {
            starts.push(at + 1)?;
        }
    }
    Ok(starts)
}

/// Returns the last line that begins at or before an offset.
fn line_of(starts: &[usize], offset: usize) -> usize
    requires first { 0 < length starts.now }
    requires zero { slice_index starts.now 0 ≡ 0 }
    ensures within { result < length starts.now }
    ensures begins { slice_index starts.now result ≤ offset }
    ensures last { result + 1 < length starts.now → offset < slice_index starts.now (result + 1) }
{
    let mut low = 0;
    let mut high = starts.len();
    while high - low > 1 {
        let middle = low + (high - low) / 2;
        if starts[middle] <= offset {
            low = middle;
        } else {
            high = middle;
        }
    }
    low
}

/// Returns what is between two offsets of a text, if characters begin there.
fn between(text: &str, from: usize, to: usize) -> &str
    ensures { IsCharBoundary text.now from → IsCharBoundary text.now to → from ≤ to
        → result.now ≡ slice_range text.now from to }
{
    match text.get(from..to) {
        Some(part) => part,
        None => "",
    }
}

/// Returns what is after an offset of a text, if a character begins there.
fn behind(text: &str, from: usize) -> &str
    requires { from ≤ length text.now }
    ensures value { IsCharBoundary text.now from → result.now ≡ drop from text.now }
    ensures within { length result.now + from ≤ length text.now }
{
    match text.split_at_checked(from) {
        Some((_, rest)) => rest,
        None => "",
    }
}

/// Returns the position of an offset in a text whose lines begin there.
fn position_of(text: &str, starts: &[usize], encoding: Encoding, offset: usize) -> Position
    requires { starts.now ≡ line_starts text.now }
    ensures { IsCharBoundary text.now offset → IsPosition encoding text.now offset result }
{
    let line = line_of(starts, offset);
    let start = starts[line];
    let front = between(text, start, offset);
    Position {
        line,
        character: column(encoding, front),
    }
}

/// Returns the offset of a position in a text whose lines begin there.
fn offset_of(text: &str, starts: &[usize], encoding: Encoding, position: Position) -> usize
    requires { starts.now ≡ line_starts text.now }
    ensures value { IsOffset encoding text.now position result }
    ensures boundary { IsCharBoundary text.now result }
    ensures corresponds { (offset : ℕ) → StandsAt encoding text.now position offset → result ≡ offset }
{
    match starts.get(position.line) {
        Some(start) => {
            let line = behind(text, *start);
            *start + bytes_before(encoding, position.character, line)
        }
        None => text.len(),
    }
}

impl<'t> Lines<'t> {
    /// Finds the lines of a text. Returns an error only if out of memory.
    pub fn of(alloc: Global, text: &'t str) -> Result<Lines<'t>, AllocError>
        ensures { IfOk result (λ lines. lines.text.now ≡ text.entry.now) }
    {
        let starts = find_starts(alloc, text.as_bytes())?;
        Ok(Lines { text, starts })
    }
}

impl Lines<'_> {
    /// Returns the position of an offset, which is in the text where a character begins.
    pub fn position(&self, encoding: Encoding, offset: usize) -> Position
        ensures { IsCharBoundary self.now.text.now offset → IsPosition encoding self.now.text.now offset result }
    {
        position_of(self.text, self.starts.as_slice(), encoding, offset)
    }

    /// Returns the offset of a position. A column after the line's end is that end, and a line after the last one is the end
    /// of the text.
    pub fn offset(&self, encoding: Encoding, position: Position) -> usize
        ensures value { IsOffset encoding self.now.text.now position result }
        ensures boundary { IsCharBoundary self.now.text.now result }
        ensures corresponds { (offset : ℕ) → StandsAt encoding self.now.text.now position offset → result ≡ offset }
    {
        offset_of(self.text, self.starts.as_slice(), encoding, position)
    }
}
