//! Plain patterns, each character of which stands for itself.
ghost use Rattle.std.specs.Prelude.{◌≡◌, IfOk, option_map, string_bytes};
ghost use Rattle.filterset_matchers.specs.Pattern.{has_meaning, is_escapable, plain_text};

use std::alloc::{AllocError, Global};

/// Returns the text that a plain pattern stands for, or `None` if the pattern is not plain. The only error is out of memory.
pub(super) fn unescape(alloc: Global, pattern: &str) -> Result<Option<String>, AllocError>
    ensures { IfOk result (λ found. option_map string_bytes found ≡ plain_text pattern.now) }
{
    let mut text = String::with_capacity(alloc, pattern.len())?;
    let mut is_escaped = false;
    for character in pattern.chars() {
        if is_escaped {
            if !may_be_escaped(character) {
                return Ok(None);
            }
            text.push(character)?;
            is_escaped = false;
        } else if character == '\\' {
            is_escaped = true;
        } else {
            if is_special(character) {
                return Ok(None);
            }
            text.push(character)?;
        }
    }
    if is_escaped {
        return Ok(None);
    }
    Ok(Some(text))
}

/// Returns whether the character has a meaning of its own outside of classes.
pub(super) fn is_special(character: char) -> bool
    ensures { result ≡ has_meaning character }
{
    matches!(
        character,
        '\\' | '.' | '+' | '*' | '?' | '(' | ')' | '|' | '[' | '{' | '^' | '$'
    )
}

/// Returns whether the character stands for itself after a backslash.
fn may_be_escaped(character: char) -> bool
    ensures { result ≡ is_escapable character }
{
    character.is_ascii_punctuation() && !matches!(character, '<' | '>')
}
