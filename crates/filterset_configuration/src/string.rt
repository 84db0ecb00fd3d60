//! Reads a string of a file as a text.
ghost use Rattle.std.specs.Prelude.{◌≡◌, ◌≢◌, ◌+◌, ◌≤◌, IfOk, IfSome, Some, length, true};
ghost use Rattle.std.specs.Bool.{OnFalse, OnTrue};
ghost use Rattle.toml_parser.specs.Strings.{quoted, starts_string};
ghost use Rattle.filterset_json.specs.Shape.{Text};
ghost use Rattle.filterset_configuration.specs.Strings.{IsPlaceOf, is_multi_line, opening_length};

use crate::content::{Delimiter, read_content};
use crate::place::Place;
use crate::stretch::Stretch;
use std::alloc::{AllocError, Global};
use toml_parser::text::{byte_at, first};
use toml_parser::{ParseError, quoted, starts_string};

/// Returns whether two texts are the same.
pub(crate) fn is_same(a: &str, b: &str) -> bool
    ensures same { OnTrue result (a.now ≡ b.now) }
    ensures other { OnFalse result (a.now ≢ b.now) }
{
    a == b
}

/// Returns whether a string has three delimiters at its front.
fn is_multi_line(string: &str) -> bool
    ensures { result ≡ is_multi_line string.now }
{
    byte_at(string, 1) == first(string) && byte_at(string, 2) == first(string)
}

/// Returns how many bytes of a string are before its text: one delimiter, or three and a line break after them.
fn opening_length(string: &str) -> usize
    ensures value { result ≡ opening_length string.now }
    ensures bound { result ≤ 5 }
{
    if !is_multi_line(string) {
        1
    } else if byte_at(string, 3) == b'\n' {
        4
    } else if byte_at(string, 3) == b'\r' && byte_at(string, 4) == b'\n' {
        5
    } else {
        3
    }
}

/// Returns whether the string at the front is read as `text`, and so many bytes are after it.
fn is_read_as(alloc: Global, string: &str, text: &str, behind: usize) -> Result<bool, AllocError>
    ensures { IfOk result (λ is. OnTrue is ((after : Text) × (quoted string.now ≡ Some (text.now, after))
        × (length after ≡ behind))) }
{
    if !starts_string(string) {
        return Ok(false);
    }
    match quoted(alloc, string) {
        Ok((read, after)) => Ok(after.len() == behind && is_same(read.as_str(), text)),
        Err(ParseError::OutOfMemory) => Err(AllocError),
        Err(ParseError::At(..)) => Ok(false),
    }
}

/// Returns the place at `literal`, if the string there is read as `text`.
pub(crate) fn place_of(
    alloc: Global,
    file: &str,
    literal: Stretch,
    text: &str,
) -> Result<Option<Place>, AllocError>
    ensures place { IfOk result (λ o. IfSome o (IsPlaceOf file.now text.now)) }
    ensures literal { IfOk result (λ o. IfSome o (λ place. place.literal ≡ literal)) }
{
    let Some((_, string)) = file.split_at_checked(literal.from) else {
        return Ok(None);
    };
    let Some(behind) = file.len().checked_sub(literal.to) else {
        return Ok(None);
    };
    let opening = opening_length(string);
    if string.len() < opening || !is_read_as(alloc, string, text, behind)? {
        return Ok(None);
    }
    let start = literal.from + opening;
    let delimiter = Delimiter {
        byte: first(string),
        is_multi: is_multi_line(string),
    };
    match read_content(alloc, file, start, delimiter, text)? {
        Some(content) => Ok(Some(Place {
            literal,
            origins: content.origins,
            end: content.end,
        })),
        None => Ok(None),
    }
}
