//! Where the arguments of predicates end.
ghost use Rattle.std.specs.Prelude.{◌≡◌, ◌≤◌, ◌∷◌, ◌++◌, IfSome, List, MatchOption, false, length, ℕ};
ghost use Rattle.std.specs.Str.{bytes_eq};
ghost use Rattle.filterset_grammar.specs.Text.{Blanks};
ghost use Rattle.filterset_language.specs.Parsing.Front.{blank_len};
ghost use Rattle.filterset_rewriting.specs.Nesting.Arguments as spec;
ghost use Rattle.filterset_rewriting.specs.Nesting.Arguments.{IsArgument, IsMatcher, IsRaw};

use filterset_language::lengths::{blank_len, body_len, close_len};

/// What a predicate takes as its argument.
#[derive(Clone, Copy)]
pub enum ArgumentKind {
    /// Nothing but white space.
    Nothing,
    /// A text that ends at the first `)` without a backslash in front of it.
    Raw,
    /// Such a text, or a regular expression between slashes.
    Matcher,
}

fn is_name(word: &[u8], name: &[u8]) -> bool
    ensures { result ≡ bytes_eq word.now name.now }
{
    word == name
}

fn takes_nothing(name: &[u8]) -> bool
    ensures { result ≡ spec.takes_nothing name.now }
{
    is_name(name, b"all") || is_name(name, b"none") || is_name(name, b"default")
}

fn takes_matcher(name: &[u8]) -> bool
    ensures { result ≡ spec.takes_matcher name.now }
{
    is_name(name, b"package")
        || is_name(name, b"deps")
        || is_name(name, b"rdeps")
        || is_name(name, b"kind")
        || is_name(name, b"binary")
        || is_name(name, b"binary_id")
        || is_name(name, b"test")
        || is_name(name, b"group")
}

/// Returns what the predicate of this name takes.
pub fn argument_of(name: &[u8]) -> Option<ArgumentKind>
    ensures { result ≡ spec.argument_of name.now }
{
    if takes_nothing(name) {
        Some(ArgumentKind::Nothing)
    } else if is_name(name, b"platform") {
        Some(ArgumentKind::Raw)
    } else if takes_matcher(name) {
        Some(ArgumentKind::Matcher)
    } else {
        None
    }
}

/// Returns what is after a predicate, if it is spelled as one: the text begins after its name.
pub fn argument_end(argument: ArgumentKind, text: &[u8]) -> Option<&[u8]>
    ensures within { IfSome result (λ behind. length behind.now ≤ length text.now) }
    ensures behind { (blanks inside t : List ℕ) → Blanks blanks → IsArgument argument inside
        → text.now ≡ blanks ++ (40 ∷ (inside ++ 41 ∷ t)) → MatchOption result ⊥ (λ behind. behind.now ≡ t) }
{
    let inside = after_byte(skip_blanks(text), b'(')?;
    match argument {
        ArgumentKind::Nothing => {
            let (_, rest) = inside.split_at(close_len(inside));
            after_byte(rest, b')')
        }
        ArgumentKind::Raw => raw_end(inside),
        ArgumentKind::Matcher => matcher_end(inside),
    }
}

/// Returns what is after the `)` that ends a raw text. There is none if a comma is before it.
fn raw_end(text: &[u8]) -> Option<&[u8]>
    ensures within { IfSome result (λ behind. length behind.now ≤ length text.now) }
    ensures behind { (inside t : List ℕ) → IsRaw inside
        → text.now ≡ inside ++ 41 ∷ t → MatchOption result ⊥ (λ behind. behind.now ≡ t) }
{
    let (_, rest) = text.split_at(raw_len(text));
    after_byte(rest, b')')
}

/// Returns what is after a matcher and its `)`.
fn matcher_end(text: &[u8]) -> Option<&[u8]>
    ensures within { IfSome result (λ behind. length behind.now ≤ length text.now) }
    ensures behind { (inside t : List ℕ) → IsMatcher inside
        → text.now ≡ inside ++ 41 ∷ t → MatchOption result ⊥ (λ behind. behind.now ≡ t) }
{
    let start = skip_blanks(text);
    let Some(body) = after_byte(start, b'/') else {
        return raw_end(start);
    };
    let (_, rest) = body.split_at(body_len(body));
    let end = after_byte(rest, b'/')?;
    after_byte(skip_blanks(end), b')')
}

/// Returns what is after the byte, if the text begins with it.
fn after_byte(text: &[u8], byte: u8) -> Option<&[u8]>
    ensures within { IfSome result (λ behind. length behind.now ≤ length text.now) }
    ensures behind { (t : List ℕ) → text.now ≡ byte ∷ t → MatchOption result ⊥ (λ behind. behind.now ≡ t) }
    ensures there { IfSome result (λ behind. text.now ≡ byte ∷ behind.now) }
{
    match text {
        [first, rest @ ..] if *first == byte => Some(rest),
        _ => None,
    }
}

/// Returns the text without its blanks in front.
fn skip_blanks(text: &[u8]) -> &[u8]
    ensures within { length result.now ≤ length text.now }
    ensures skipped { (blanks t : List ℕ) → Blanks blanks → blank_len t ≡ 0 → text.now ≡ blanks ++ t → result.now ≡ t }
{
    let mut rest = text;
    loop {
        let count = blank_len(rest);
        if count == 0 {
            return rest;
        }
        rest = rest.split_at(count).1;
    }
}

/// Returns whether a raw text ends at this byte.
fn ends_raw(is_escaped: bool, byte: u8) -> bool
    ensures { result ≡ spec.ends_raw is_escaped byte }
{
    !is_escaped && matches!(byte, b',' | b')')
}

/// Returns whether the byte is a backslash that escapes the next one.
fn escapes(is_escaped: bool, byte: u8) -> bool
    ensures { result ≡ spec.escapes is_escaped byte }
{
    !is_escaped && byte == b'\\'
}

/// Returns the number of bytes before the first `)` or comma without a backslash in front of it, or of the whole text.
fn raw_len(text: &[u8]) -> usize
    ensures value { result ≡ spec.raw_len false text.now }
    ensures within { result ≤ length text.now }
{
    let mut is_escaped = false;
    for (i, b) in text.iter().enumerate() {
        if ends_raw(is_escaped, *b) {
            return i;
        }
        is_escaped = escapes(is_escaped, *b);
    }
    text.len()
}
