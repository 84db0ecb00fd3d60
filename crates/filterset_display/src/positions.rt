//! Positions as editors count them.
ghost use Rattle.std.specs.{Prelude.◌≡◌, Prelude.◌≤◌, Prelude.chars, Prelude.length, Char.len_utf8};
ghost use Rattle.filterset_display.specs.Positions as spec;

/// What a column counts.
#[derive(Clone, Copy, Debug, PartialEq, Eq)]
pub enum Encoding {
    /// Bytes.
    Utf8,
    /// Units of UTF-16: two for a character after the first 65536, else one.
    Utf16,
    /// Characters.
    Utf32,
}

/// A line and a column, both counted from 0.
#[derive(Clone, Copy, Debug, PartialEq, Eq)]
pub struct Position {
    pub line: usize,
    pub character: usize,
}

/// What is between two positions.
#[derive(Clone, Copy, Debug, PartialEq, Eq)]
pub struct Range {
    pub start: Position,
    pub end: Position,
}

fn is_break(character: char) -> bool
    ensures { result ≡ spec.is_break character }
{
    character == '\n' || character == '\r'
}

/// Returns how many units of a column a character has: none if it is of a line break.
fn units(encoding: Encoding, character: char) -> usize
    ensures value { result ≡ spec.units_of encoding character }
    ensures bound { result ≤ len_utf8 character }
{
    if is_break(character) {
        return 0;
    }
    match encoding {
        Encoding::Utf8 => character.len_utf8(),
        Encoding::Utf16 => character.len_utf16(),
        Encoding::Utf32 => 1,
    }
}

/// Returns the column after the front of a line.
pub fn column(encoding: Encoding, front: &str) -> usize
    ensures { result ≡ spec.column_of encoding front.now }
{
    let mut column = 0;
    for character in front.chars() {
        column += units(encoding, character);
    }
    column
}

/// Returns how many bytes a line has up to a column, or up to a line break that is before it.
pub fn bytes_before(encoding: Encoding, column: usize, line: &str) -> usize
    ensures value { result ≡ spec.bytes_before encoding column (chars line.now) }
    ensures within { result ≤ length line.now }
{
    let mut bytes = 0;
    let mut left = column;
    for character in line.chars() {
        let units = units(encoding, character);
        if is_break(character) || left < units {
            return bytes;
        }
        left -= units;
        bytes += character.len_utf8();
    }
    bytes
}
