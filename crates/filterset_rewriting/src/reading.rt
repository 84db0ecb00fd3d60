//! What texts read as.
ghost use Rattle.std.specs.Prelude.{IfErr, IfOk};
ghost use Rattle.filterset_language.specs.Views.{tree_of};
ghost use Rattle.filterset_rewriting.specs.Reading.{IsRead, IsUnreadFor};

use crate::nesting::{MOST_LEVELS, find_deep_place};
use filterset_faults::ParseSingleError;
use filterset_language::{Parsed, ParsedExpr};
use std::alloc::{AllocError, Global};

/// Why a text is not taken.
#[derive(Debug, Drop)]
pub enum TextRefusal {
    /// It has these faults.
    Found(Vec<ParseSingleError>),
    /// It nests more than [`MOST_LEVELS`] levels deep: another begins at this offset.
    TooDeep(usize),
}

/// Reads a text. The outer error is out of memory.
pub fn read_text(alloc: Global, text: &str) -> Result<Result<ParsedExpr, TextRefusal>, AllocError>
    ensures read { IfOk result (λ read. IfOk read (λ tree. IsRead text.now (tree_of tree))) }
    ensures unread { IfOk result (λ read. IfErr read (IsUnreadFor text.now)) }
{
    if let Some(place) = find_deep_place(alloc, text, MOST_LEVELS)? {
        return Ok(Err(TextRefusal::TooDeep(place)));
    }
    let Parsed { tree, faults } = ParsedExpr::parse_with_faults(alloc, text)?;
    match tree {
        Some(tree) if faults.is_empty() => Ok(Ok(tree)),
        _ => Ok(Err(TextRefusal::Found(faults))),
    }
}
