//! Reads raw texts.
ghost use Rattle.std.specs.Prelude.{◌≡◌, ◌≤◌, length, take, IfOk, IfSome};
ghost use Rattle.std.specs.String.{string_bytes};
ghost use Rattle.filterset_language.specs.Faults.{EndsText};
ghost use Rattle.filterset_language.specs.Parsing.Position.{position_of, advanced, IsAtOrBehind};
ghost use Rattle.filterset_language.specs.Parsing.RawTexts.{plain_len, raw_at, SpelledTo};
ghost use Rattle.filterset_language.specs.Parsing.Recovery.{ReadsAs, StillStand, GoesOn, EndsBehind};

use crate::parsing::escapes::read_escape;
use crate::parsing::input::{Input, Read};
use filterset_faults::ParseSingleError;
use std::alloc::{AllocError, Global};

/// Reads a raw text, up to the next `,` or `)` that is not escaped, or to the end.
///
/// Reports each backslash that begins no escape and reads on after it; the text then has no value. Reports an empty
/// text, whose value is empty.
pub fn read_raw_text<'a>(
    alloc: Global,
    faults: &mut Vec<ParseSingleError>,
    input: Input<'a>,
) -> Result<Read<'a, String>, AllocError>
    ensures value { ReadsAs string_bytes faults.old faults.new result (raw_at (position_of input.entry)) }
    ensures spelled { IfOk result (λ r. IfSome r.value (λ v.
        SpelledTo (position_of input.entry) (string_bytes v) (position_of r.end))) }
    ensures stand { StillStand input.entry faults.old faults.new result }
    ensures behind { EndsBehind input.entry result }
{
    let (front, mut end) = read_plain(input);
    let mut value = String::from_str(alloc, front)?;
    while let Some(behind) = end.after("\\") {
        let Some(escape) = read_escape(behind.rest.as_bytes()) else {
            faults.push(ParseSingleError::InvalidEscapeCharacter(end.backslash()))?;
            let end = skip_raw_text(faults, behind)?;
            return Ok(Read { value: None, end });
        };
        let (run, next) = read_plain(behind.advance(escape.len));
        value.push(escape.character)?;
        value.push_str(run)?;
        end = next;
    }
    if end.offset == input.offset {
        faults.push(ParseSingleError::InvalidString(end.here()))?;
    }
    Ok(Read {
        value: Some(value),
        end,
    })
}

/// Reads the bytes up to the next `,`, `)` or backslash, and returns the position after them.
fn read_plain<'a>(input: Input<'a>) -> (&'a str, Input<'a>)
    ensures text { result.0.now ≡ take (plain_len input.entry.rest.now) input.entry.rest.now }
    ensures value { position_of result.1 ≡ advanced (plain_len input.entry.rest.now) (position_of input.entry) }
    ensures behind { IsAtOrBehind input.entry result.1 }
{
    let count = plain_len(input.rest.as_bytes());
    (&input.rest[..count], input.advance(count))
}

/// Returns the number of bytes before the next `,`, `)` or backslash.
fn plain_len(text: &[u8]) -> usize
    ensures value { result ≡ plain_len text.now }
    ensures within { result ≤ length text.now }
{
    for (i, b) in text.iter().enumerate() {
        if matches!(*b, b',' | b')' | b'\\') {
            return i;
        }
    }
    text.len()
}

/// Skips the rest of a raw text, and reports each backslash that begins no escape.
fn skip_raw_text<'a>(
    faults: &mut Vec<ParseSingleError>,
    input: Input<'a>,
) -> Result<Input<'a>, AllocError>
    ensures end { IfOk result (λ r. EndsText r.rest.now) }
    ensures grows { IfOk result (λ r. length faults.old.items ≤ length faults.new.items) }
    ensures stand { StillStand input.entry faults.old faults.new result }
    ensures behind { GoesOn input.entry result }
{
    let mut end = read_plain(input).1;
    while let Some(behind) = end.after("\\") {
        let next = match read_escape(behind.rest.as_bytes()) {
            Some(escape) => behind.advance(escape.len),
            None => {
                faults.push(ParseSingleError::InvalidEscapeCharacter(end.backslash()))?;
                behind
            }
        };
        end = read_plain(next).1;
    }
    Ok(end)
}
