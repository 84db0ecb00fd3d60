//! What diagnostics say.
ghost use Rattle.std.specs.Prelude.{◌≡◌, ◌++◌, IfOk, OnOk, option_map, string_bytes};
ghost use Rattle.filterset_display.specs.Remarks.{remark_row};
ghost use Rattle.filterset_documents.specs.Diagnostics.{further_line, remark_text, wrong_text};

use filterset_display::Remark;
use std::alloc::{AllocError, Global};
use std::fmt::Write;

/// Adds a text, if there is one, in a line of its own, after these words.
fn push_line(message: &mut String, words: &str, text: &Option<String>) -> Result<(), AllocError>
    ensures { OnOk result (string_bytes message.new
        ≡ string_bytes message.old ++ further_line words.now (option_map (λ t. string_bytes t) text.now)) }
{
    match text {
        Some(text) => write!(message, "\n{words}{text}"),
        None => Ok(()),
    }
}

/// Makes the text of a remark: its message, its label and its help, a line each.
pub(crate) fn remark_message(alloc: Global, remark: &Remark) -> Result<String, AllocError>
    ensures { IfOk result (λ message. string_bytes message ≡ remark_text (remark_row remark.now)) }
{
    let mut message = String::from_str(alloc, remark.message.as_str())?;
    push_line(&mut message, "", &remark.label)?;
    push_line(&mut message, "help: ", &remark.help)?;
    Ok(message)
}

/// Makes the text of a wrong value at a path, which must be as expected.
pub(crate) fn wrong_message(alloc: Global, path: &str, expected: &str) -> Result<String, AllocError>
    ensures { IfOk result (λ message. string_bytes message ≡ wrong_text path.now expected.now) }
{
    format!(in alloc; "`{path}` must be {expected}")
}
