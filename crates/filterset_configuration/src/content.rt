//! Reads what stands between the delimiters of a string, piece by piece.
ghost use Rattle.std.specs.Prelude.{◌≡◌, ◌==◌, ◌+◌, ◌++◌, ◌<◌, ◌≤◌, ℕ, IfOk, IfSome, OnOk, Some, drop, encode_utf8, length, replicate, slice_index};
ghost use Rattle.std.specs.List.{prefix_len};
ghost use Rattle.toml_parser.specs.Strings.{body, hex_len};
ghost use Rattle.filterset_json.specs.Shape.{Text};
ghost use Rattle.filterset_configuration.specs.Pieces.{EndsPiece, IsReadFrom, ReadsEscape, ReadsPiece, is_end};

use crate::stretch::Stretch;
use std::alloc::{AllocError, Global};
use toml_parser::bytes;
use toml_parser::text::{byte_at, first, skip_blank, skip_ws, starts_newline};

/// How a string is delimited.
#[derive(Clone, Copy, Debug)]
pub(crate) struct Delimiter {
    pub byte: u8,
    /// Whether there are three of them at each end.
    pub is_multi: bool,
}

/// What stands between the delimiters of a string.
#[derive(Debug, Drop)]
pub(crate) struct Content {
    /// For each byte of the text, the piece of the string that stands for it.
    pub origins: Vec<Stretch>,
    /// The offset of the closing delimiter.
    pub end: usize,
}

/// Where a piece of a string ends, and how many bytes of the text it stands for.
#[derive(Clone, Copy, Debug)]
pub(crate) struct PieceEnd {
    to: usize,
    count: usize,
}

/// Returns how often a byte is repeated at the front.
fn run_length(bytes: &[u8], byte: u8) -> usize
    ensures { result ≡ prefix_len (λ c. c == byte) bytes.now }
{
    bytes.iter().take_while(|b| **b == byte).count()
}

/// Returns whether a string of a file ends at `at`.
fn is_end(file: &[u8], at: usize, delimiter: Delimiter) -> bool
    requires { at ≤ length file.now }
    ensures { result ≡ is_end delimiter (drop at file.now) }
{
    let (_, rest) = file.split_at(at);
    bytes::byte_at(rest, 0) == delimiter.byte
        && (!delimiter.is_multi || run_length(rest, delimiter.byte) == 3)
}

/// Returns how many hexadecimal digits follow this letter in an escape.
fn digit_count(letter: u8) -> usize
    ensures value { result ≡ hex_len letter }
    ensures bound { result ≤ 8 }
{
    match letter {
        b'x' => 2,
        b'u' => 4,
        b'U' => 8,
        _ => 0,
    }
}

/// Returns how many bytes the first character of a text takes.
fn first_length(text: &str) -> Option<usize>
    ensures { IfSome result (λ count. (c : ℕ) × (rest : Text) × (text.now ≡ encode_utf8 c ++ rest)
        × (count ≡ length (encode_utf8 c))) }
{
    let Some(c) = text.chars().next() else {
        return None;
    };
    Some(c.len_utf8())
}

/// Returns where the escape ends whose backslash is at `at`, if the text goes on at `read` with what it stands for.
fn escape_end(file: &str, at: usize, is_multi: bool, text: &str, read: usize) -> Option<PieceEnd>
    requires { at < length file.now }
    ensures { IfSome result (EndsPiece (ReadsEscape is_multi (drop (at + 1) file.now)) file.now at (drop read text.now)) }
{
    let Some((_, escape)) = file.split_at_checked(at + 1) else {
        return None;
    };
    if is_multi && starts_newline(skip_ws(escape)) {
        let to = file.len() - skip_blank(escape, false).len();
        return Some(PieceEnd { to, count: 0 });
    }
    let Some((_, ahead)) = text.split_at_checked(read) else {
        return None;
    };
    let Some(count) = first_length(ahead) else {
        return None;
    };
    let size = 1 + digit_count(first(escape));
    if escape.len() < size {
        return None;
    }
    let to = at + 1 + size;
    Some(PieceEnd { to, count })
}

/// Returns where the piece ends that begins at `at`, if the text goes on at `read` with what it stands for.
fn piece_end(
    file: &str,
    at: usize,
    delimiter: Delimiter,
    text: &str,
    read: usize,
) -> Option<PieceEnd>
    ensures { IfSome result (EndsPiece (ReadsPiece delimiter (drop at file.now)) file.now at (drop read text.now)) }
{
    if at >= file.len() {
        return None;
    }
    if byte_at(file, at) == b'\\' && delimiter.byte == b'"' {
        return escape_end(file, at, delimiter.is_multi, text, read);
    }
    Some(PieceEnd {
        to: at + 1,
        count: 1,
    })
}

/// Appends a piece's stretch once for each byte that it stands for.
fn push_origins(
    origins: &mut Vec<Stretch>,
    stretch: Stretch,
    count: usize,
) -> Result<(), AllocError>
    ensures { OnOk result (origins.new.items ≡ origins.old.items ++ replicate count stretch) }
{
    for _byte in 0..count {
        origins.push(stretch)?;
    }
    Ok(())
}

/// Reads the content of a string that begins at `start` and is read as `text`. Returns `None` if the string is not read so.
pub(crate) fn read_content(
    alloc: Global,
    file: &str,
    start: usize,
    delimiter: Delimiter,
    text: &str,
) -> Result<Option<Content>, AllocError>
    requires { start ≤ length file.now }
    ensures { (n : ℕ) (after : Text)
        → body delimiter.byte delimiter.is_multi n (drop start file.now) ≡ Some (text.now, after)
        → IfOk result (λ o. IfSome o (λ content.
        IsReadFrom delimiter file.now after content.end start text.now content.origins.items)) }
{
    let mut origins = Vec::with_capacity(alloc, text.len())?;
    let mut at = start;
    'pieces: while !is_end(file.as_bytes(), at, delimiter) {
        let Some(piece) = piece_end(file, at, delimiter, text, origins.len()) else {
            return Ok(None);
        };
        let stretch = Stretch {
            from: at,
            to: piece.to,
        };
        push_origins(&mut origins, stretch, piece.count)?;
        at = piece.to;
    }
    Ok(Some(Content { origins, end: at }))
}
