//! Reads signs, words and values.
ghost use Rattle.std.specs.Prelude.{◌≡◌, ◌<◌, ◌≤◌, false, length, slice_get, IfSome, MatchOption};
ghost use Rattle.std.specs.Option.{option_map_or};
ghost use Rattle.filterset_configuration.specs.PlatformGrammar.{BeginsWithWord, Quoted, Sign, Word, is_letter, is_word_byte, word_len};
ghost use Rattle.filterset_configuration.specs.PlatformReading.{IsRest};
ghost use Rattle.filterset_json.specs.Shape.{Text};

/// Returns what follows an ASCII sign, if the text begins with it after white space.
pub(crate) fn after(text: &str, sign: char) -> Option<&str>
    requires { sign < 128 }
    ensures found { MatchOption result ((t : Text) → Sign sign text.now t → ⊥) (λ t. Sign sign text.now t.now) }
    ensures place { IfSome result (λ t. IsRest text.now t.now) }
    ensures shorter { IfSome result (λ t. length t.now < length text.now) }
{
    text.trim_start().strip_prefix(sign)
}

/// Returns the word that the text begins with after white space, and what follows it.
pub(crate) fn read_word(text: &str) -> Option<(&str, &str)>
    ensures found { MatchOption result ((w t : Text) → Word w text.now t → ⊥) (λ x. Word x.0.now text.now x.1.now) }
    ensures place { IfSome result (λ x. IsRest text.now x.1.now) }
    ensures shorter { IfSome result (λ x. length x.1.now < length text.now) }
{
    split_word(text.trim_start())
}

/// Returns the word that the text begins with, and what follows it.
pub(crate) fn split_word(text: &str) -> Option<(&str, &str)>
    ensures found { MatchOption result ((w t : Text) → BeginsWithWord w text.now t → ⊥)
        (λ x. BeginsWithWord x.0.now text.now x.1.now) }
    ensures place { IfSome result (λ x. IsRest text.now x.1.now) }
    ensures shorter { IfSome result (λ x. length x.1.now < length text.now) }
{
    if !begins_word(text.as_bytes()) {
        return None;
    }
    let count = word_len(text.as_bytes());
    Some((&text[..count], &text[count..]))
}

/// Returns whether the text begins with a letter.
fn begins_word(text: &[u8]) -> bool
    ensures { result ≡ option_map_or is_letter (slice_get text.now 0) false }
{
    match text {
        [] => false,
        [b, ..] => is_letter(*b),
    }
}

/// Returns the number of bytes before the first that is in no word.
fn word_len(text: &[u8]) -> usize
    ensures value { result ≡ word_len text.now }
    ensures within { result ≤ length text.now }
{
    text.iter().take_while(|b| is_word_byte(**b)).count()
}

/// Returns whether a byte is an ASCII letter or `_`.
fn is_letter(b: u8) -> bool
    ensures { result ≡ is_letter b }
{
    b.is_ascii_alphabetic() || b == b'_'
}

/// Returns whether a byte may be in a word: an ASCII letter, a digit or `_`.
pub(crate) fn is_word_byte(b: u8) -> bool
    ensures { result ≡ is_word_byte b }
{
    b.is_ascii_digit() || is_letter(b)
}

/// Returns the value in quotes that the text begins with after white space, and what follows it.
pub(crate) fn read_quoted(text: &str) -> Option<(&str, &str)>
    ensures found { MatchOption result ((v t : Text) → Quoted v text.now t → ⊥) (λ x. Quoted x.0.now text.now x.1.now) }
    ensures place { IfSome result (λ x. IsRest text.now x.1.now) }
    ensures shorter { IfSome result (λ x. length x.1.now < length text.now) }
{
    after(text, '"')?.split_once('"')
}
