//! How texts are written in workflow commands.
ghost use Rattle.std.specs.Prelude.{◌≡◌, ◌++◌, OnOk, string_bytes};
ghost use Rattle.filterset_display.specs.Annotations.{escaped, written_in};

use std::alloc::AllocError;

/// Where in a command a text is.
#[derive(Clone, Copy, Debug, PartialEq, Eq)]
pub(crate) enum Part {
    Message,
    /// The value of a property, in which a colon and a comma have a meaning.
    Property,
}

/// Writes a character.
fn push_char(output: &mut String, part: Part, c: char) -> Result<(), AllocError>
    ensures { OnOk result (string_bytes output.new ≡ string_bytes output.old ++ written_in part c) }
{
    match (part, c) {
        (_, '%') => output.push_str("%25"),
        (_, '\r') => output.push_str("%0D"),
        (_, '\n') => output.push_str("%0A"),
        (Part::Property, ':') => output.push_str("%3A"),
        (Part::Property, ',') => output.push_str("%2C"),
        _ => output.push(c),
    }
}

/// Writes a text, with escapes for the characters that have a meaning.
pub(crate) fn push_escaped(output: &mut String, part: Part, text: &str) -> Result<(), AllocError>
    ensures { OnOk result (string_bytes output.new ≡ string_bytes output.old ++ escaped (written_in part) text.now) }
{
    for c in text.chars() {
        push_char(output, part, c)?;
    }
    Ok(())
}
