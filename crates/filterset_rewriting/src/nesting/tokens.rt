//! What a text begins with.
ghost use Rattle.std.specs.Prelude.{◌≡◌, ◌≤◌, ◌+◌, ◌++◌, List, None, drop, length, slice_index, ℕ};
ghost use Rattle.std.specs.List.{take_while};
ghost use Rattle.filterset_rewriting.specs.Nesting.Tokens as spec;
ghost use Rattle.filterset_rewriting.specs.Nesting.Tokens.{Begins, IsPredicateAfter};
ghost use Rattle.filterset_rewriting.specs.declared.nesting.tokens.Lexeme.TheVariants as kinds;

use crate::nesting::arguments::{argument_end, argument_of};

/// What a text goes on with.
#[derive(Clone, Copy)]
pub enum Lexeme {
    /// A blank or an operator between operands.
    Between,
    Negation,
    Open,
    Close,
    /// A predicate with its argument.
    Predicate,
    /// Something else.
    Other,
}

/// What a text goes on with, and its length in bytes.
#[derive(Clone, Copy)]
pub struct Next {
    pub token: Lexeme,
    pub len: usize,
}

/// Returns the token that is this byte, if it is one.
fn sign_token(byte: u8) -> Option<Lexeme>
    ensures { result ≡ spec.sign_token byte }
{
    match byte {
        b' ' | b'\n' | b'\r' | b'&' | b'|' | b'+' | b'-' | b'^' => Some(Lexeme::Between),
        b'!' => Some(Lexeme::Negation),
        b'(' => Some(Lexeme::Open),
        b')' => Some(Lexeme::Close),
        _ => None,
    }
}

/// Returns the operator that is this word, if it is one.
fn word_token(word: &[u8]) -> Option<Lexeme>
    ensures { result ≡ spec.word_token word.now }
{
    match word {
        b"not" => Some(Lexeme::Negation),
        b"and" | b"or" => Some(Lexeme::Between),
        _ => None,
    }
}

/// Returns the number of letters and underscores at the beginning of a text.
fn word_len(text: &[u8]) -> usize
    ensures { result ≡ length (take_while spec.is_letter text.now) }
{
    text.iter()
        .take_while(|byte| matches!(**byte, b'a'..=b'z' | b'_'))
        .count()
}

/// Returns what the text goes on with.
pub fn next_token(text: &[u8]) -> Next
    requires { 1 ≤ length text.now }
    ensures len { (1 ≤ result.len) × (result.len ≤ length text.now) }
    ensures token { (token : Lexeme) (t : List ℕ) → Begins text.now token t
        → (result.token ≡ token) × (drop result.len text.now ≡ t) }
{
    match sign_token(text[0]) {
        Some(token) => Next { token, len: 1 },
        None => next_word(text),
    }
}

/// Returns what the text goes on with, which begins with no sign.
fn next_word(text: &[u8]) -> Next
    requires some { 1 ≤ length text.now }
    requires no_sign { spec.sign_token (slice_index text.now 0) ≡ None }
    ensures len { (1 ≤ result.len) × (result.len ≤ length text.now) }
    ensures token { (token : Lexeme) (t : List ℕ) → Begins text.now token t
        → (result.token ≡ token) × (drop result.len text.now ≡ t) }
{
    let len = word_len(text);
    if len == 0 {
        return Next {
            token: Lexeme::Other,
            len: 1,
        };
    }
    let (word, rest) = text.split_at(len);
    match word_token(word) {
        Some(token) => Next { token, len },
        None => next_predicate(word, rest),
    }
}

/// Returns what a text goes on with that begins with a word that is no operator.
fn next_predicate(word: &[u8], rest: &[u8]) -> Next
    requires { 1 ≤ length word.now }
    ensures len { (1 ≤ result.len) × (result.len ≤ length word.now + length rest.now) }
    ensures token { (t : List ℕ) → IsPredicateAfter word.now rest.now t
        → (result.token ≡ kinds.Predicate) × (drop result.len (word.now ++ rest.now) ≡ t) }
{
    let Some(argument) = argument_of(word) else {
        return Next {
            token: Lexeme::Other,
            len: word.len(),
        };
    };
    match argument_end(argument, rest) {
        Some(behind) => Next {
            token: Lexeme::Predicate,
            len: word.len() + (rest.len() - behind.len()),
        },
        None => Next {
            token: Lexeme::Other,
            len: word.len(),
        },
    }
}
