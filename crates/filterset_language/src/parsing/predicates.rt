//! Reads predicates.
ghost use Rattle.std.specs.{Prelude.◌≡◌, Prelude.codes, Option.option_map};
ghost use Rattle.filterset_matchers.specs.Matchers.{matcher_of};
ghost use Rattle.filterset_grammar.specs.Tree.{Matching};
ghost use Rattle.filterset_language.specs.Views.{leaf_of};
ghost use Rattle.filterset_language.specs.Parsing.Position.{position_of, skip, after, IsAtOrBehind};
ghost use Rattle.filterset_language.specs.Parsing.Descent.{bare_end_at, bare_at, matching_at, platform_at, leaf_at};
ghost use Rattle.filterset_language.specs.Parsing.Recovery.{StepsOver, ReadsAs, StillStand, GoesOn, EndsBehind, AtName};
ghost use Rattle.filterset_language.specs.Parsing.Outcome.{ReadsLeaf};

use crate::parsing::input::{Input, Read};
use crate::parsing::matchers::read_matcher;
use crate::parsing::names::PredicateName;
use crate::parsing::platform::platform_of;
use crate::parsing::raw_text::read_raw_text;
use crate::tree::ParsedLeaf;
use filterset_faults::{ParseSingleError, SourceSpan};
use filterset_grammar::Predicate;
use filterset_matchers::NameMatcher;
use std::alloc::{AllocError, Global};

/// Reads blanks and an opening parenthesis, or reports that there is none and goes on.
fn read_open<'a>(
    faults: &mut Vec<ParseSingleError>,
    name: PredicateName,
    input: Input<'a>,
) -> Result<Input<'a>, AllocError>
    requires { AtName name input }
    ensures value { StepsOver faults.old faults.new result (after (codes "(") (skip (position_of input.entry))) }
    ensures stand { StillStand input.entry faults.old faults.new result }
    ensures behind { GoesOn input.entry result }
{
    match input.skip_blanks().after("(") {
        Some(rest) => Ok(rest),
        None => {
            faults.push(ParseSingleError::ExpectedOpenParenthesis(input.here()))?;
            Ok(input)
        }
    }
}

/// Reads blanks and a closing parenthesis, or reports that there is none and goes on.
pub fn read_close<'a>(
    faults: &mut Vec<ParseSingleError>,
    input: Input<'a>,
) -> Result<Input<'a>, AllocError>
    ensures value { StepsOver faults.old faults.new result (after (codes ")") (skip (position_of input.entry))) }
    ensures stand { StillStand input.entry faults.old faults.new result }
    ensures behind { GoesOn input.entry result }
{
    match input.skip_blanks().after(")") {
        Some(rest) => Ok(rest),
        None => {
            faults.push(ParseSingleError::ExpectedCloseParenthesis(input.here()))?;
            Ok(input)
        }
    }
}

/// Reads the closing parenthesis after an argument. Reports a comma before it.
fn read_argument_end<'a>(
    faults: &mut Vec<ParseSingleError>,
    input: Input<'a>,
) -> Result<Input<'a>, AllocError>
    ensures value { StepsOver faults.old faults.new result (after (codes ")") (skip (position_of input.entry))) }
    ensures stand { StillStand input.entry faults.old faults.new result }
    ensures behind { GoesOn input.entry result }
{
    let start = input.skip_blanks();
    if let Some(_) = start.after(",") {
        faults.push(ParseSingleError::UnexpectedComma(input.here()))?;
        return read_close(faults, input.advance_to_close());
    }
    read_close(faults, input.remember_blanks(start))
}

/// Reads the closing parenthesis of a predicate that takes no argument. Reports an argument before it.
fn read_bare_end<'a>(
    faults: &mut Vec<ParseSingleError>,
    input: Input<'a>,
) -> Result<Input<'a>, AllocError>
    ensures value { StepsOver faults.old faults.new result (bare_end_at (position_of input.entry)) }
    ensures stand { StillStand input.entry faults.old faults.new result }
    ensures behind { GoesOn input.entry result }
{
    let end = input.advance_to_close();
    let argument = &input.rest[..end.offset - input.offset];
    if !argument.trim_start().is_empty() {
        faults.push(ParseSingleError::UnexpectedArgument(input.up_to(end)))?;
    }
    read_close(faults, end)
}

/// Reads the rest of a predicate that takes no argument.
#[tactic(auto, using(crate::proofs::Recovering::recovers_then, crate::proofs::Recovering::recovers_still))]
fn read_bare<'a>(
    faults: &mut Vec<ParseSingleError>,
    leaf: ParsedLeaf,
    input: Input<'a>,
) -> Result<Read<'a, ParsedLeaf>, AllocError>
    ensures value { ReadsAs leaf_of faults.old faults.new result (bare_at (leaf_of leaf) (position_of input.entry)) }
    ensures stand { StillStand input.entry faults.old faults.new result }
    ensures behind { EndsBehind input.entry result }
{
    let end = read_bare_end(faults, input)?;
    Ok(Read {
        value: Some(leaf),
        end,
    })
}

/// Reads the argument of a predicate that takes a matcher, and the closing parenthesis.
fn read_matching<'a>(
    alloc: Global,
    faults: &mut Vec<ParseSingleError>,
    name: Predicate,
    input: Input<'a>,
) -> Result<Read<'a, ParsedLeaf>, AllocError>
    ensures value { ReadsLeaf input.entry faults.old faults.new result (matching_at name) }
    ensures stand { StillStand input.entry faults.old faults.new result }
    ensures behind { EndsBehind input.entry result }
{
    let matcher = read_matcher(alloc, faults, name, input.skip_blanks())?;
    let end = read_argument_end(faults, matcher.end)?;
    Ok(Read {
        value: make_leaf(name, matcher.value, input.up_to(matcher.end)),
        end,
    })
}

/// Makes the predicate of this name, if there is a matcher.
fn make_leaf(name: Predicate, matcher: Option<NameMatcher>, span: SourceSpan) -> Option<ParsedLeaf>
    ensures { option_map leaf_of result ≡ option_map (λ m. Matching name m span) (option_map matcher_of matcher) }
{
    let matcher = matcher?;
    Some(match name {
        Predicate::Package => ParsedLeaf::Package(matcher, span),
        Predicate::Deps => ParsedLeaf::Deps(matcher, span),
        Predicate::Rdeps => ParsedLeaf::Rdeps(matcher, span),
        Predicate::Kind => ParsedLeaf::Kind(matcher, span),
        Predicate::Binary => ParsedLeaf::Binary(matcher, span),
        Predicate::BinaryId => ParsedLeaf::BinaryId(matcher, span),
        Predicate::Test => ParsedLeaf::Test(matcher, span),
        Predicate::Group => ParsedLeaf::Group(matcher, span),
    })
}

/// Reads the argument of `platform`, and the closing parenthesis.
fn read_platform<'a>(
    alloc: Global,
    faults: &mut Vec<ParseSingleError>,
    input: Input<'a>,
) -> Result<Read<'a, ParsedLeaf>, AllocError>
    ensures value { ReadsAs leaf_of faults.old faults.new result (platform_at (position_of input.entry)) }
    ensures stand { StillStand input.entry faults.old faults.new result }
    ensures behind { EndsBehind input.entry result }
{
    let Read { value, end: behind } = read_raw_text(alloc, faults, input.skip_blanks())?;
    let end = read_argument_end(faults, behind)?;
    let Some(value) = value else {
        return Ok(Read { value: None, end });
    };
    let span = input.up_to(behind);
    let Some(platform) = platform_of(value.as_str()) else {
        faults.push(ParseSingleError::InvalidPlatformArgument(span))?;
        return Ok(Read { value: None, end });
    };
    Ok(Read {
        value: Some(ParsedLeaf::Platform(platform, span)),
        end,
    })
}

/// Reads a predicate after its name, which begins at `start`.
#[tactic(auto, using(crate::proofs::Onward::ends_onward, crate::proofs::Onward::stands_onward))]
pub fn read_predicate<'a>(
    alloc: Global,
    faults: &mut Vec<ParseSingleError>,
    name: PredicateName,
    start: Input<'a>,
    input: Input<'a>,
) -> Result<Read<'a, ParsedLeaf>, AllocError>
    requires name { AtName name input }
    requires start { IsAtOrBehind start input }
    ensures value { ReadsLeaf input.entry faults.old faults.new result (leaf_at name start.entry.offset) }
    ensures stand { StillStand input.entry faults.old faults.new result }
    ensures behind { EndsBehind input.entry result }
{
    let inside = read_open(faults, name, input)?;
    match name {
        PredicateName::Matching(name) => read_matching(alloc, faults, name, inside),
        PredicateName::Platform => read_platform(alloc, faults, inside),
        PredicateName::Default => {
            let end = read_bare_end(faults, inside)?;
            let leaf = ParsedLeaf::Default(start.up_to(end));
            Ok(Read {
                value: Some(leaf),
                end,
            })
        }
        PredicateName::All => read_bare(faults, ParsedLeaf::All, inside),
        PredicateName::None => read_bare(faults, ParsedLeaf::None, inside),
    }
}
