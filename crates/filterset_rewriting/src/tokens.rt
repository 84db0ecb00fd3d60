//! The tokens of filtersets: their words, operators and arguments, as editors show them in colours.
ghost use Rattle.std.specs.Prelude.{◌≡◌, ◌+◌, ◌++◌, ◌^◌, ◌<◌, ◌≤◌, IfOk, List, OnOk, drop, length, take};
ghost use Rattle.std.specs.List.{take_while};
ghost use Rattle.filterset_grammar.specs.Text.{is_word_byte};
ghost use Rattle.filterset_rewriting.specs.Tokens as spec;
ghost use Rattle.filterset_rewriting.specs.Tokens.{Advances, PlainTokens, argument_tokens, form_tokens, gap_len, own_len, token};

use filterset_faults::SourceSpan;
use std::alloc::{AllocError, Global};

mod arguments;
mod carets;
mod leaves;

use arguments::{Argument, ArgumentForm};
pub use carets::carets_in;
pub use leaves::tokens_of;

/// What a token is.
#[derive(Clone, Copy, Debug, PartialEq, Eq)]
pub enum TokenKind {
    /// The platform in an argument.
    EnumMember,
    /// The name of a predicate.
    Function,
    /// An operator that is a word.
    Keyword,
    /// An operator that is a sign, or the sign of a matcher.
    Operator,
    /// A regular expression.
    Regexp,
    /// The text of a matcher.
    String,
}

/// A token of a text.
#[derive(Clone, Copy, Debug)]
pub struct Token {
    pub span: SourceSpan,
    pub kind: TokenKind,
}

/// Returns the token with this offset, length and kind.
fn make_token(offset: usize, len: usize, kind: TokenKind) -> Token
    ensures { result ≡ token offset len kind }
{
    Token {
        span: SourceSpan::new(offset, len),
        kind,
    }
}

fn is_sign(byte: u8) -> bool
    ensures { result ≡ spec.is_sign byte }
{
    matches!(byte, b'!' | b'|' | b'+' | b'&' | b'-' | b'^')
}

/// Returns how many bytes at the front of a text are of a word.
fn word_len(text: &[u8]) -> usize
    ensures { result ≡ length (take_while is_word_byte text.now) }
{
    text.iter()
        .take_while(|byte| matches!(**byte, b'0'..=b'9' | b'A'..=b'Z' | b'_' | b'a'..=b'z'))
        .count()
}

/// Returns how many bytes at the front of a text are blanks.
fn blanks_len(text: &[u8]) -> usize
    ensures { result ≡ length (take_while spec.is_blank text.now) }
{
    text.iter()
        .take_while(|byte| matches!(**byte, b' ' | b'\n' | b'\r'))
        .count()
}

/// Returns what a word is.
fn word_kind(word: &[u8]) -> TokenKind
    ensures { result ≡ spec.word_kind word.now }
{
    match word {
        b"and" | b"or" | b"not" => TokenKind::Keyword,
        _ => TokenKind::Function,
    }
}

/// Adds the token at the front of a text without arguments, if there is one, and returns how many bytes it has, or 1.
fn push_front(tokens: &mut Vec<Token>, text: &[u8], at: usize) -> Result<usize, AllocError>
    requires { 0 < length text.now }
    ensures taken { IfOk result (λ len. (0 < len) × (len ≤ length text.now)) }
    ensures tokens { IfOk result (λ len. Advances at text.now len tokens.old.items tokens.new.items) }
{
    let len = word_len(text);
    if len > 0 {
        let (word, _) = text.split_at(len);
        tokens.push(make_token(at, len, word_kind(word)))?;
        return Ok(len);
    }
    if is_sign(text[0]) {
        tokens.push(make_token(at, 1, TokenKind::Operator))?;
    }
    Ok(1)
}

/// Adds the tokens of a text without arguments that is at this offset.
pub(crate) fn push_plain(
    tokens: &mut Vec<Token>,
    text: &[u8],
    offset: usize,
) -> Result<(), AllocError>
    requires { offset + length text.now < 2 ^ 64 }
    ensures { OnOk result ((added : List Token) × PlainTokens offset text.now added
        × (tokens.new.items ≡ tokens.old.items ++ added)) }
{
    let mut at = 0;
    while at < text.len() {
        let (_, rest) = text.split_at(at);
        let len = push_front(tokens, rest, offset + at)?;
        at += len;
    }
    Ok(())
}

/// Adds the tokens of an argument without blanks in front of it.
fn push_form(
    tokens: &mut Vec<Token>,
    form: ArgumentForm,
    at: usize,
    len: usize,
) -> Result<(), AllocError>
    requires { at + len < 2 ^ 64 }
    ensures { OnOk result (tokens.new.items ≡ tokens.old.items ++ form_tokens form at len) }
{
    match form {
        ArgumentForm::Regex => tokens.push(make_token(at, len, TokenKind::Regexp))?,
        ArgumentForm::Plain => tokens.push(make_token(at, len, TokenKind::String))?,
        ArgumentForm::Platform => tokens.push(make_token(at, len, TokenKind::EnumMember))?,
        ArgumentForm::Signed => {
            let sign = len.min(1);
            tokens.push(make_token(at, sign, TokenKind::Operator))?;
            tokens.push(make_token(at + sign, len - sign, TokenKind::String))?;
        }
    }
    Ok(())
}

/// Adds the tokens of the rest of a text, at this offset, up to the end of an argument. Returns how many bytes that is.
pub(crate) fn push_next(
    tokens: &mut Vec<Token>,
    rest: &[u8],
    at: usize,
    argument: Argument,
) -> Result<usize, AllocError>
    requires { at + length rest.now < 2 ^ 64 }
    ensures taken { IfOk result (λ taken. (taken ≤ length rest.now)
        × (taken ≡ gap_len at rest.now argument + own_len at rest.now argument)) }
    ensures tokens { OnOk result (let gap = gap_len at rest.now argument in
        let own = own_len at rest.now argument in
        (before : List Token) × PlainTokens at (take gap rest.now) before
        × (tokens.new.items ≡ tokens.old.items ++ (before ++ argument_tokens argument.form (at + gap)
        (take own (drop gap rest.now))))) }
{
    let gap = argument.span.offset().saturating_sub(at).min(rest.len());
    let (before, onward) = rest.split_at(gap);
    let own = argument.span.len().min(onward.len());
    push_plain(tokens, before, at)?;
    let (own_text, _) = onward.split_at(own);
    let blanks = blanks_len(own_text);
    push_form(
        tokens,
        argument.form,
        at + gap + blanks,
        own_text.len() - blanks,
    )?;
    Ok(gap + own)
}
