//! How characters are drawn, and how many columns of a terminal they take.
ghost use Rattle.std.specs.Prelude.{◌≡◌, ◌++◌, ◌*◌, ◌<◌, ◌≤◌, OnOk, encode_utf8, length, replicate, string_bytes};
ghost use Rattle.filterset_display.specs.Columns.{columns_between, columns_of, drawn, drawn_char};

use std::alloc::AllocError;
use unicode_width::UnicodeWidthChar;

/// Returns the number of columns that a drawn character takes.
fn columns_of(c: char) -> usize
    ensures value { result ≡ columns_of c }
    ensures bound { result ≤ 2 * length (encode_utf8 c) }
{
    match c {
        '\t' => 2,
        '\r' => 0,
        _ => c.width().unwrap_or(1),
    }
}

/// Returns the number of columns of the characters of a text that begin at the byte `from` or later and before the byte
/// `to`.
pub fn columns_between(text: &str, from: usize, to: usize) -> usize
    ensures value { result ≡ columns_between text.now from to }
    ensures bound { result ≤ 2 * length text.now }
{
    let mut columns = 0;
    let mut at = 0;
    for c in text.chars() {
        if from <= at && at < to {
            columns += columns_of(c);
        }
        at += c.len_utf8();
    }
    columns
}

/// Draws a character.
fn push_char(drawing: &mut String, c: char) -> Result<(), AllocError>
    ensures { OnOk result (string_bytes drawing.new ≡ string_bytes drawing.old ++ drawn_char c) }
{
    match c {
        '\t' => drawing.push_str("  "),
        '\r' => Ok(()),
        _ if c.width().is_none() => drawing.push(char::REPLACEMENT_CHARACTER),
        _ => drawing.push(c),
    }
}

/// Draws the characters of a text.
pub fn push_drawn(drawing: &mut String, text: &str) -> Result<(), AllocError>
    ensures { OnOk result (string_bytes drawing.new ≡ string_bytes drawing.old ++ drawn text.now) }
{
    for c in text.chars() {
        push_char(drawing, c)?;
    }
    Ok(())
}

/// Writes an ASCII character `count` times.
pub fn push_repeated(drawing: &mut String, c: char, count: usize) -> Result<(), AllocError>
    requires { c < 128 }
    ensures { OnOk result (string_bytes drawing.new ≡ string_bytes drawing.old ++ replicate count c) }
{
    for _written in 0..count {
        drawing.push(c)?;
    }
    Ok(())
}
