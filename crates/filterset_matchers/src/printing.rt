//! Printing of matchers.
ghost use Rattle.std.specs.Prelude.{◌≡◌, ◌<◌, ◌≤◌, ◌↔◌, ◌++◌, All, IsTrue, Some, chars, cond, length, slice_index, take};
ghost use Rattle.std.specs.{Fmt.WritesOnOk, List.flat_map};
ghost use Rattle.filterset_matchers.specs.Matchers.{matcher_of};
ghost use Rattle.filterset_matchers.specs.PrintedMatcher.{printed_matcher, printed_char, printed_first, printed_implicit, printed_value, printed_slash};
ghost use Rattle.filterset_matchers.specs.Runs.{IsPlain};

use crate::matcher::NameMatcher;
use std::fmt;
use std::fmt::Display;

/// Prints the sign (`=`, `~`, `#`, or none if the matcher is implicit) and the text, or a pattern between slashes.
///
/// In a text `/`, `)`, `,`, `\`, TAB, LF and CR print as `\/`, `\)`, `\,`, `\\`, `\t`, `\n` and `\r`. Other characters from
/// U+0020 to U+007E print as they are, and all others as `\u{h}`; so does a U+0020, `=`, `~` or `#` that begins a text
/// without a sign. In a pattern `/` prints as `\/`, and all other characters as they are.
impl fmt::Display for NameMatcher {
    ghost output = { λ m. Some (printed_matcher (matcher_of m)) };

    fn fmt<W: fmt::Write>(&self, f: &mut fmt::Formatter<W>) -> fmt::Result {
        match self {
            NameMatcher::Equal { value, implicit } => write_signed(
                f,
                "=",
                *implicit,
                value.as_str(),
            ),
            NameMatcher::Contains { value, implicit } => write_signed(
                f,
                "~",
                *implicit,
                value.as_str(),
            ),
            NameMatcher::Glob { glob, implicit } => write_signed(f, "#", *implicit, glob.as_str()),
            NameMatcher::Regex(pattern) => {
                f.write_str("/")?;
                write_slashed(f, pattern.as_str())?;
                f.write_str("/")
            }
        }
    }
}

/// Writes a value, after its sign unless it is implicit.
fn write_signed<W: fmt::Write>(
    f: &mut fmt::Formatter<W>,
    sign: &str,
    implicit: bool,
    value: &str,
) -> fmt::Result
    ensures { WritesOnOk W.write_str_gives f.old result
        (cond implicit (printed_implicit (chars value.now)) (sign.now ++ printed_value value.now)) f.new }
{
    if !implicit {
        f.write_str(sign)?;
        return write_value(f, value);
    }
    let mut rest = value.chars();
    let Some(c) = rest.next() else {
        return Ok(());
    };
    FirstChar(c).fmt(f)?;
    write_value(f, rest.as_str())
}

/// Writes a value, in runs of characters that print as they are.
fn write_value<W: fmt::Write>(f: &mut fmt::Formatter<W>, value: &str) -> fmt::Result
    ensures { WritesOnOk W.write_str_gives f.old result (printed_value value.now) f.new }
{
    let (run, rest) = split_plain(value);
    f.write_str(run)?;
    let mut chars = rest.chars();
    while let Some(c) = chars.next() {
        EscapedChar(c).fmt(f)?;
        let (run, rest) = split_plain(chars.as_str());
        f.write_str(run)?;
        chars = rest.chars();
    }
    Ok(())
}

/// Splits a value after its leading characters that print as they are.
fn split_plain(value: &str) -> (&str, &str)
    ensures whole { value.now ≡ result.0.now ++ result.1.now }
    ensures plain { All IsPlain result.0.now }
{
    let count = plain_len(value.as_bytes());
    (&value[..count], &value[count..])
}

/// Returns the number of leading bytes that print as they are.
fn plain_len(value: &[u8]) -> usize
    ensures within { result ≤ length value.now }
    ensures plain { All IsPlain (take result value.now) }
    ensures whole { result < length value.now → ¬ IsPlain (slice_index value.now result) }
{
    for (i, b) in value.iter().enumerate() {
        if !is_plain(*b) {
            return i;
        }
    }
    value.len()
}

/// Returns whether a byte is a character that prints as it is.
fn is_plain(b: u8) -> bool
    ensures { IsTrue result ↔ IsPlain b }
{
    matches!(b, b' '..=b'~') && !matches!(b, b'/' | b')' | b',' | b'\\')
}

/// Writes a pattern, in runs between its slashes.
fn write_slashed<W: fmt::Write>(f: &mut fmt::Formatter<W>, pattern: &str) -> fmt::Result
    ensures { WritesOnOk W.write_str_gives f.old result (flat_map printed_slash (chars pattern.now)) f.new }
{
    let mut rest = pattern;
    while let Some((run, after)) = rest.split_once('/') {
        f.write_str(run)?;
        f.write_str("\\/")?;
        rest = after;
    }
    f.write_str(rest)
}

/// A character of a value. Displays escaped, if it must be.
#[derive(Clone, Copy)]
struct EscapedChar(char);

impl fmt::Display for EscapedChar {
    ghost output = { λ c. Some (printed_char c.0) };

    fn fmt<W: fmt::Write>(&self, f: &mut fmt::Formatter<W>) -> fmt::Result {
        let c = self.0;
        match c {
            '/' | ')' | ',' | '\\' => write!(f, "\\{c}"),
            '\t' => f.write_str("\\t"),
            '\n' => f.write_str("\\n"),
            '\r' => f.write_str("\\r"),
            ' '..='~' => write!(f, "{c}"),
            _ => {
                let code = u32::from(c);
                write!(f, "\\u{{{code:x}}}")
            }
        }
    }
}

/// The first character of a value without a sign. Displays escaped, if it must be.
#[derive(Clone, Copy)]
struct FirstChar(char);

impl fmt::Display for FirstChar {
    ghost output = { λ c. Some (printed_first c.0) };

    fn fmt<W: fmt::Write>(&self, f: &mut fmt::Formatter<W>) -> fmt::Result {
        let c = self.0;
        match c {
            ' ' | '=' | '~' | '#' => {
                let code = u32::from(c);
                write!(f, "\\u{{{code:x}}}")
            }
            _ => EscapedChar(c).fmt(f),
        }
    }
}
