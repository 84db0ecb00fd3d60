//! Reads operators. Each reader returns the position after the operator.
ghost use Rattle.std.specs.{Prelude.◌≡◌, Prelude.IfSome, Prelude.codes, Prelude.is_some, Option.option_map};
ghost use Rattle.filterset_language.specs.Parsing.Position.{position_of, skip, after, IsBehind};
ghost use Rattle.filterset_language.specs.Parsing.Words.{seen, not_at, joiner_at, or_at};

use crate::parsing::input::Input;
use filterset_grammar::{
    AndOperator, DifferenceOperator, Joiner, NotOperator, OrOperator, SymmetricDifferenceOperator,
};

/// Reads a negation.
pub fn read_not(input: Input<'_>) -> Option<(NotOperator, Input<'_>)>
    ensures value { option_map seen result ≡ not_at (position_of input.entry) }
    ensures behind { IfSome result (λ x. IsBehind input.entry x.1) }
{
    if let Some(rest) = input.after_word("not") {
        return Some((NotOperator::LiteralNot, rest));
    }
    let rest = input.after("!")?;
    Some((NotOperator::Exclamation, rest))
}

/// Reads an operator of the level of `and`. `&&` and `AND` are read without a value. Most levels end at a byte with which
/// none begins.
pub fn read_joiner(input: Input<'_>) -> Option<(Option<Joiner>, Input<'_>)>
    ensures value { option_map seen result ≡ joiner_at (position_of input.entry) }
    ensures behind { IfSome result (λ x. IsBehind input.entry x.1) }
{
    if !matches!(
        input.rest.as_bytes(),
        [b'&' | b'A' | b'a' | b'-' | b'^', ..]
    ) {
        return None;
    }
    if let Some(rest) = input.after("&&") {
        return Some((None, rest));
    }
    if let Some(rest) = input.after_word("AND") {
        return Some((None, rest));
    }
    if let Some(rest) = input.after_word("and") {
        return Some((Some(Joiner::Both(AndOperator::LiteralAnd)), rest));
    }
    if let Some(rest) = input.after("&") {
        return Some((Some(Joiner::Both(AndOperator::Ampersand)), rest));
    }
    if let Some(rest) = input.after("-") {
        return Some((Some(Joiner::Without(DifferenceOperator::Minus)), rest));
    }
    let rest = input.after("^")?;
    Some((
        Some(Joiner::ExactlyOne(SymmetricDifferenceOperator::Caret)),
        rest,
    ))
}

/// Returns whether `^` follows here after blanks.
#[inline(never)]
pub fn is_before_caret(input: &Input<'_>) -> bool
    ensures { result ≡ is_some (after (codes "^") (skip (position_of input.now))) }
{
    input.skip_blanks().after("^").is_some()
}

/// Reads an operator of the level of `or`. `||` and `OR` are read without a value.
pub fn read_or(input: Input<'_>) -> Option<(Option<OrOperator>, Input<'_>)>
    ensures value { option_map seen result ≡ or_at (position_of input.entry) }
    ensures behind { IfSome result (λ x. IsBehind input.entry x.1) }
{
    if let Some(rest) = input.after("||") {
        return Some((None, rest));
    }
    if let Some(rest) = input.after_word("OR") {
        return Some((None, rest));
    }
    if let Some(rest) = input.after_word("or") {
        return Some((Some(OrOperator::LiteralOr), rest));
    }
    if let Some(rest) = input.after("|") {
        return Some((Some(OrOperator::Pipe), rest));
    }
    let rest = input.after("+")?;
    Some((Some(OrOperator::Plus), rest))
}
