//! Strings of TOML.
ghost use Rattle.std.specs.Prelude.{◌≡◌, ◌++◌, IfOk, OnOk, chars, string_bytes};
ghost use Rattle.std.specs.List.{flat_map};
ghost use Rattle.filterset_server.specs.Edits.{basic_char, needs_escapes, quoted};

use std::alloc::{AllocError, Global};

/// Writes a character of a string between quotation marks.
fn push_basic_char(output: &mut String, c: char) -> Result<(), AllocError>
    ensures { OnOk result (string_bytes output.new ≡ string_bytes output.old ++ basic_char c) }
{
    match c {
        '"' => output.push_str("\\\""),
        '\\' => output.push_str("\\\\"),
        '\n' => output.push_str("\\n"),
        _ => output.push(c),
    }
}

/// Writes a text with escapes for the characters that a string between quotation marks can't have.
fn push_basic(output: &mut String, text: &str) -> Result<(), AllocError>
    ensures { OnOk result (string_bytes output.new ≡ string_bytes output.old ++ flat_map basic_char (chars text.now)) }
{
    for c in text.chars() {
        push_basic_char(output, c)?;
    }
    Ok(())
}

/// Makes a text with escapes for the characters that a string between quotation marks can't have.
pub fn escape(alloc: Global, text: &str) -> Result<String, AllocError>
    ensures { IfOk result (λ made. string_bytes made ≡ flat_map basic_char (chars text.now)) }
{
    let mut output = String::new(alloc);
    push_basic(&mut output, text)?;
    Ok(output)
}

/// Makes a string between quotation marks, with escapes, or one between apostrophes.
pub fn quote(alloc: Global, is_basic: bool, text: &str) -> Result<String, AllocError>
    ensures { IfOk result (λ made. string_bytes made ≡ quoted is_basic text.now) }
{
    if !is_basic {
        return format!(in alloc; "'{text}'");
    }
    let mut output = String::from_str(alloc, "\"")?;
    push_basic(&mut output, text)?;
    output.push('"')?;
    Ok(output)
}

/// Returns whether a string between apostrophes can't have a text.
pub(crate) fn needs_escapes(text: &str) -> bool
    ensures { result ≡ needs_escapes text.now }
{
    text.contains('\'') || text.contains('\n')
}
