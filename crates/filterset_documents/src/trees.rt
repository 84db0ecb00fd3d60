//! Texts of filtersets and their trees.
ghost use Rattle.std.specs.{Prelude.◌≡◌, Prelude.IfOk, Str.bytes_eq};
ghost use Rattle.filterset_documents.specs.Filtersets.{IsParsed};

use filterset_language::ParsedExpr;
use filterset_rewriting::read_text;
use std::alloc::{AllocError, Global};

/// Returns whether two texts are the same.
pub fn is_same(a: &str, b: &str) -> bool
    ensures { result ≡ bytes_eq a.now b.now }
{
    a == b
}

/// Parses a text, and returns its tree if there are no faults.
pub fn parse_text(alloc: Global, text: &str) -> Result<Option<ParsedExpr>, AllocError>
    ensures { IfOk result (IsParsed text.now) }
{
    match read_text(alloc, text)? {
        Ok(tree) => Ok(Some(tree)),
        Err(_faults) => Ok(None),
    }
}
