//! Scans a TOML document for strings that are read as these texts.
ghost use Rattle.std.specs.Prelude.{◌<◌, ◌≤◌, IfOk, IfSome, length};

use crate::stretch::Stretch;
use std::alloc::{AllocError, Global};
use toml_parser::text::{first, skip_ws};
use toml_parser::{ParseError, quoted, starts_string};

/// A string of a document: what it is read as, whether it is a key or a part of one, and the offset after it.
#[derive(Debug, Drop)]
struct Scanned {
    text: String,
    is_key: bool,
    to: usize,
}

/// Reads the string that begins at `from`, if there is one.
fn scan_string(alloc: Global, file: &str, from: usize) -> Result<Option<Scanned>, AllocError>
    ensures on { IfOk result (λ o. IfSome o (λ scanned. from < scanned.to)) }
    ensures within { IfOk result (λ o. IfSome o (λ scanned. scanned.to ≤ length file.now)) }
{
    let Some((_, string)) = file.split_at_checked(from) else {
        return Ok(None);
    };
    if !starts_string(string) {
        return Ok(None);
    }
    match quoted(alloc, string) {
        Ok((text, after)) => Ok(Some(Scanned {
            text,
            is_key: matches!(first(skip_ws(after)), b'=' | b'.'),
            to: file.len() - after.len(),
        })),
        Err(ParseError::OutOfMemory) => Err(AllocError),
        Err(ParseError::At(..)) => Ok(None),
    }
}

/// What a scan is inside of.
#[derive(Clone, Copy)]
struct Context {
    in_comment: bool,
    /// Whether the line has had an equals sign.
    in_value: bool,
    /// How many brackets of the value are open.
    depth: usize,
}

impl Context {
    /// Returns the context after a byte that is in no string.
    fn after(self, byte: u8) -> Context {
        let mut context = self;
        match byte {
            b'\n' => {
                context.in_comment = false;
                context.in_value = self.in_value && self.depth > 0;
            }
            _ if self.in_comment => {}
            b'#' => context.in_comment = true,
            b'=' => context.in_value = true,
            b'[' | b'{' if self.in_value => context.depth = self.depth.saturating_add(1),
            b']' | b'}' if self.in_value => context.depth = self.depth.saturating_sub(1),
            _ => {}
        }
        context
    }
}

/// Finds the strings of a document that are values and are read as one of these texts, in their order.
///
/// No clause says which it finds: what a caller makes of them is checked against the file.
pub(crate) fn find_literals(
    alloc: Global,
    file: &str,
    texts: Vec<&str>,
) -> Result<Vec<Stretch>, AllocError> {
    let mut texts = texts;
    texts.sort()?;
    let mut found = Vec::new(alloc);
    let mut context = Context {
        in_comment: false,
        in_value: false,
        depth: 0,
    };
    let bytes = file.as_bytes();
    let mut at = 0;
    'bytes: while at < bytes.len() {
        let byte = bytes[at];
        if context.in_comment || !matches!(byte, b'"' | b'\'') {
            context = context.after(byte);
            at += 1;
            continue;
        }
        let Some(string) = scan_string(alloc, file, at)? else {
            return Ok(found);
        };
        let to = string.to;
        let is_value = context.in_value && !string.is_key;
        if is_value && texts.binary_search(&string.text.as_str()).is_ok() {
            found.push(Stretch { from: at, to })?;
        }
        at = to;
    }
    Ok(found)
}
