//! Paths to the values of a file, as `packages[3].targets[0].kind`.
ghost use Rattle.std.specs.{Prelude.◌≡◌, Prelude.◌++◌, Prelude.IfOk, Prelude.string_bytes, List.list_all};
ghost use Rattle.filterset_json.specs.Paths.{is_bare, is_bare_byte, joined, step_text};

use std::alloc::{AllocError, Global};

/// A step from a value to one inside it.
#[derive(Clone, Copy, Debug)]
pub enum Step<'k> {
    /// To the value of a key.
    Key(&'k str),
    /// To the item at a position of a list.
    Item(usize),
}

/// Returns whether a byte may be in a key without quotes.
fn is_bare_byte(b: u8) -> bool
    ensures { result ≡ is_bare_byte b }
{
    b.is_ascii_alphanumeric() || b == b'-' || b == b'_'
}

/// Returns whether a key needs no quotes in a path.
fn is_bare(key: &str) -> bool
    ensures { result ≡ is_bare key.now }
{
    key.bytes().all(is_bare_byte)
}

/// Returns a step as paths show it. The only error is out of memory.
pub fn step_text(alloc: Global, step: Step<'_>) -> Result<String, AllocError>
    ensures { IfOk result (λ text. string_bytes text ≡ step_text step.entry) }
{
    match step {
        Step::Key(key) if is_bare(key) => String::from_str(alloc, key),
        Step::Key(key) => format!(in alloc; "\"{key}\""),
        Step::Item(at) => format!(in alloc; "[{at}]"),
    }
}

/// Returns the path that begins with `step` and goes on with `rest`.
pub(crate) fn join(alloc: Global, step: Step<'_>, rest: &str) -> Result<String, AllocError>
    ensures { IfOk result (λ path. string_bytes path ≡ joined (step_text step.entry) rest.now) }
{
    let mut path = step_text(alloc, step)?;
    if !matches!(rest.as_bytes(), [] | [b'[', ..]) {
        path.push('.')?;
    }
    path.push_str(rest)?;
    Ok(path)
}
