//! Reads heads of messages.
ghost use Rattle.std.specs.Prelude.{◌≡◌, ◌==◌, ◌+◌, ◌*◌, ◌≤◌, ◌<◌, IfSome, length, position};
ghost use Rattle.std.specs.{Char.is_ascii_digit, List.prefix_len};
ghost use Rattle.filterset_display.specs.Frames as spec;
ghost use Rattle.filterset_display.specs.Frames.{allowed, most_of_message};
ghost use Rattle.filterset_display.specs.Heads.{IsBounded, IsWithin, head_of};

use crate::lines::byte_at;

/// What the front of a stream says of the next message.
#[derive(Clone, Copy, Debug, PartialEq, Eq)]
pub enum Head {
    /// The head has not come whole.
    Partial,
    /// There is no head, however the stream goes on.
    Malformed,
    /// How many bytes the head has, and how many the message after it has.
    Whole { head: usize, length: usize },
}

/// How many bytes a message has at most.
const MOST_OF_MESSAGE: usize = 64 * 1024 * 1024;

/// Returns how many bytes are before the first carriage return and line feed.
fn line_len(bytes: &[u8]) -> Option<usize>
    ensures value { result ≡ spec.line_len bytes.now }
    ensures within { IfSome result (λ len. len + 2 ≤ length bytes.now) }
{
    for at in 0..bytes.len() {
        if bytes[at] == b'\r' && byte_at(bytes, at + 1) == b'\n' {
            return Some(at);
        }
    }
    None
}

/// Returns the number that digits write, if a message may be so long.
fn number(digits: &[u8]) -> Option<usize>
    ensures value { result ≡ allowed (spec.more_digits 0 digits.now) }
    ensures bound { IfSome result (λ n. n ≤ most_of_message) }
{
    let mut value = 0usize;
    for digit in digits {
        if !digit.is_ascii_digit() {
            return None;
        }
        value = 10 * value + usize::from(*digit - b'0');
        if value > MOST_OF_MESSAGE {
            return None;
        }
    }
    Some(value)
}

/// Returns how many blanks are at the front.
fn blanks(bytes: &[u8]) -> usize
    ensures value { result ≡ prefix_len spec.is_blank bytes.now }
    ensures within { result ≤ length bytes.now }
{
    bytes
        .iter()
        .take_while(|byte| **byte == b' ' || **byte == b'\t')
        .count()
}

/// Returns how many digits are at the front.
fn digits(bytes: &[u8]) -> usize
    ensures value { result ≡ prefix_len is_ascii_digit bytes.now }
    ensures within { result ≤ length bytes.now }
{
    bytes
        .iter()
        .take_while(|byte| byte.is_ascii_digit())
        .count()
}

/// Returns the length that a field's value gives.
fn length_in(value: &[u8]) -> Option<usize>
    ensures value { result ≡ spec.length_in value.now }
    ensures bound { IsBounded result }
{
    let text = &value[blanks(value)..];
    let count = digits(text);
    let behind = &text[count..];
    if count == 0 || blanks(behind) < behind.len() {
        return None;
    }
    number(&text[..count])
}

/// Returns what is known of the length after a field.
fn behind_field(found: Option<usize>, name: &[u8], value: &[u8]) -> Option<Option<usize>>
    ensures value { result ≡ spec.behind_field found name.now value.now }
    ensures bound { IsBounded found → IfSome result IsBounded }
{
    if !name.eq_ignore_ascii_case(b"content-length") {
        return Some(found);
    }
    if found.is_some() {
        return None;
    }
    let length = length_in(value)?;
    Some(Some(length))
}

/// Returns where the first colon is.
fn colon_at(line: &[u8]) -> Option<usize>
    ensures value { result ≡ position (λ b. b == 58) line.now }
    ensures within { IfSome result (λ at. at < length line.now) }
{
    line.iter().position(|byte| *byte == b':')
}

/// Returns what is known of the length after a line.
fn behind_line(found: Option<usize>, line: &[u8]) -> Option<Option<usize>>
    ensures value { result ≡ spec.behind_line found line.now }
    ensures bound { IsBounded found → IfSome result IsBounded }
{
    match colon_at(line) {
        Some(at) => behind_field(found, &line[..at], &line[at + 1..]),
        None => None,
    }
}

/// Reads the head at the front of these bytes.
pub fn read_head(bytes: &[u8]) -> Head
    ensures value { result ≡ head_of bytes.now }
    ensures within { IsWithin (length bytes.now) result }
{
    let mut found = None;
    let mut rest = bytes;
    'lines: loop {
        let Some(len) = line_len(rest) else {
            return Head::Partial;
        };
        if len == 0 {
            return match found {
                Some(length) => Head::Whole {
                    head: bytes.len() - rest.len() + 2,
                    length,
                },
                None => Head::Malformed,
            };
        }
        found = match behind_line(found, &rest[..len]) {
            Some(found) => found,
            None => return Head::Malformed,
        };
        let (_, after) = rest.split_at(len + 2);
        rest = after;
    }
}
