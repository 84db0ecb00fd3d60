//! What a server says of documents.
ghost use Rattle.std.specs.Prelude.{IfOk, map};
ghost use Rattle.serde_json.specs.View.{view};
ghost use Rattle.filterset_display.specs.Documents.{row_of};

use crate::documents::Document;
use crate::inquiry::Inquiry;
use crate::positions::Encoding;
use serde_json::Value;
use std::alloc::{AllocError, Global};

/// What a server says of documents.
pub trait Language {
    ghost use Rattle.filterset_display.specs.Machine.{Says};

    /// Which diagnostics documents have, and which results requests about them, with ranges in an encoding.
    ghost says: { Self → Says };

    /// Makes the diagnostics of a document. Returns an error only if out of memory.
    fn diagnose(
        &self,
        alloc: Global,
        encoding: Encoding,
        document: &Document,
    ) -> Result<Vec<Value>, AllocError>
        ensures { IfOk result
            (λ diagnostics. (says self.now).has encoding (row_of document.now) (map view diagnostics.items)) };

    /// Makes the result of a request about a document. Returns an error only if out of memory.
    fn respond(
        &self,
        alloc: Global,
        encoding: Encoding,
        document: &Document,
        inquiry: Inquiry,
    ) -> Result<Value, AllocError>
        ensures { IfOk result (λ value. (says self.now).gives encoding (row_of document.now) inquiry (view value)) };
}
