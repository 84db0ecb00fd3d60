//! Reads matchers.
ghost use Rattle.std.specs.Prelude.{◌∷◌, [], ◌≡◌, IfOk, Some, false, codes, take, string_bytes};
ghost use Rattle.std.specs.Option.{option_map};
ghost use Rattle.filterset_matchers.specs.{Matcher.Regex, Matchers.matcher_of};
ghost use Rattle.filterset_language.specs.Faults.{EndsWith};
ghost use Rattle.filterset_language.specs.Parsing.{Position.position_of, Position.IsAtOrBehind, RawTexts.SpelledTo};
ghost use Rattle.filterset_language.specs.Parsing.Descent.{made, sign_at, regex_at, matcher_at};
ghost use Rattle.filterset_language.specs.Parsing.Recovery.{StillStand, EndsBehind, Recovers};
ghost use Rattle.filterset_language.specs.Parsing.Outcome.{ReadsMatcher, MakesPattern};

use crate::parsing::input::{Input, Read};
use crate::parsing::lengths::body_len;
use crate::parsing::raw_text::read_raw_text;
use filterset_faults::{ParseSingleError, SourceSpan};
use filterset_glob::{GenericGlob, GlobRefusal};
use filterset_grammar::{Predicate, TextMatching};
use filterset_matchers::{NameMatcher, PatternRefusal, PatternRegex};
use std::alloc::{AllocError, Global};
use std::rc::Rc;

/// Reads the matcher of a predicate.
pub fn read_matcher<'a>(
    alloc: Global,
    faults: &mut Vec<ParseSingleError>,
    name: Predicate,
    input: Input<'a>,
) -> Result<Read<'a, NameMatcher>, AllocError>
    ensures value { ReadsMatcher input.entry faults.old faults.new result (matcher_at name) }
    ensures stand { StillStand input.entry faults.old faults.new result }
    ensures behind { EndsBehind input.entry result }
{
    if let Some(body) = input.after("/") {
        return read_regex(alloc, faults, body);
    }
    let (sign, start) = read_sign(name, input);
    let Read { value, end } = read_raw_text(alloc, faults, start)?;
    let Some(value) = value else {
        return Ok(Read { value: None, end });
    };
    let value = make_matcher(alloc, faults, sign, value, start, end)?;
    Ok(Read { value, end })
}

/// Reads a regular expression after its opening slash, and the closing one.
///
/// The body ends before the first `/` that does not directly follow a backslash. If there is none, reports that and
/// returns no value, at the next `)` or at the end.
fn read_regex<'a>(
    alloc: Global,
    faults: &mut Vec<ParseSingleError>,
    input: Input<'a>,
) -> Result<Read<'a, NameMatcher>, AllocError>
    requires { EndsWith (take input.offset input.text.now) (codes "/") }
    ensures value { ReadsMatcher input.entry faults.old faults.new result (regex_at) }
    ensures stand { StillStand input.entry faults.old faults.new result }
    ensures behind { EndsBehind input.entry result }
{
    let count = body_len(input.rest.as_bytes());
    let slash = input.advance(count);
    let Some(end) = slash.after("/") else {
        let end = input.advance_to_close();
        faults.push(ParseSingleError::ExpectedCloseRegex(end.here()))?;
        return Ok(Read { value: None, end });
    };
    let pattern = input.rest[..count].replace(alloc, "\\/", "/")?;
    let value = build_pattern(alloc, faults, pattern, input.up_to(slash))?;
    Ok(Read { value, end })
}

/// Compiles the pattern of a body, or reports that `regex` rejects it.
#[cold]
#[inline(never)]
fn build_pattern(
    alloc: Global,
    faults: &mut Vec<ParseSingleError>,
    pattern: String,
    span: SourceSpan,
) -> Result<Option<NameMatcher>, AllocError>
    ensures { IfOk result (λ m. MakesPattern span faults.old.items faults.new.items (option_map matcher_of m)
        (Regex (string_bytes pattern))) }
{
    match PatternRegex::new(alloc, pattern) {
        Ok(pattern) => Ok(Some(NameMatcher::Regex(Rc::new(alloc, pattern)?))),
        Err(PatternRefusal::NotBuilt) => {
            faults.push(ParseSingleError::InvalidRegexWithoutMessage(span))?;
            Ok(None)
        }
        Err(PatternRefusal::OutOfMemory(error)) => Err(error),
    }
}

/// Reads the sign of a matcher. Returns how the matcher matches, whether it has no sign, and the position after the sign.
fn read_sign<'a>(name: Predicate, input: Input<'a>) -> ((TextMatching, bool), Input<'a>)
    ensures value { (result.0, position_of result.1) ≡ sign_at name (position_of input.entry) }
    ensures behind { IsAtOrBehind input.entry result.1 }
{
    if let Some(rest) = input.after("#") {
        return ((TextMatching::Glob, false), rest);
    }
    if let Some(rest) = input.after("=") {
        return ((TextMatching::Equal, false), rest);
    }
    if let Some(rest) = input.after("~") {
        return ((TextMatching::Contains, false), rest);
    }
    ((name.own_matching(), true), input)
}

/// Makes the matcher of a value that was read between two positions, or reports that it is no glob.
fn make_matcher<'a>(
    alloc: Global,
    faults: &mut Vec<ParseSingleError>,
    sign: (TextMatching, bool),
    value: String,
    start: Input<'a>,
    end: Input<'a>,
) -> Result<Option<NameMatcher>, AllocError>
    requires spelled { SpelledTo (position_of start) (string_bytes value) (position_of end) }
    requires behind { IsAtOrBehind start end }
    ensures value { IfOk result (λ m. Recovers faults.old.items faults.new.items (option_map matcher_of m)
        (made sign (string_bytes value))) }
    ensures stand { StillStand start.entry faults.old faults.new result }
{
    let (matching, implicit) = sign;
    match matching {
        TextMatching::Equal => Ok(Some(NameMatcher::Equal { value, implicit })),
        TextMatching::Contains => Ok(Some(NameMatcher::Contains { value, implicit })),
        TextMatching::Glob => match GenericGlob::new(alloc, value) {
            Ok(glob) => Ok(Some(NameMatcher::Glob { glob, implicit })),
            Err(GlobRefusal::Fault(error)) => {
                let span = start.up_to(end);
                faults.push(ParseSingleError::InvalidGlob { span, error })?;
                Ok(None)
            }
            Err(GlobRefusal::OutOfMemory(error)) => Err(error),
        },
    }
}
