//! What requests ask about documents.
ghost use Rattle.std.specs.Prelude.{◌≡◌};
ghost use Rattle.serde_json.specs.View.{view};
ghost use Rattle.filterset_display.specs.Inquiries as spec;

use crate::positions::{Position, Range};
use crate::values::{is_same, position_at, range_at};
use serde_json::Value;

/// What a request asks about a document.
#[derive(Clone, Copy, Debug, PartialEq, Eq)]
pub enum Inquiry {
    Hover(Position),
    Completion(Position),
    CodeActions(Range),
    Formatting,
    FoldingRanges,
    /// Tokens have these types, counted from 0, and no modifiers: `enumMember`, `function`, `keyword`, `operator`, `regexp`,
    /// `string`.
    SemanticTokens,
    Symbols,
}

/// Reads what a request of this method asks about its document: `Some(None)` if it has wrong parameters, and `None` if no such
/// method is known.
pub fn read_inquiry(method: &str, message: &Value) -> Option<Option<Inquiry>>
    ensures { result ≡ spec.inquiry_in method.now (view message.now) }
{
    if is_same(method, "textDocument/hover") {
        Some(position_at(message, "/params/position").map(Inquiry::Hover))
    } else if is_same(method, "textDocument/completion") {
        Some(position_at(message, "/params/position").map(Inquiry::Completion))
    } else if is_same(method, "textDocument/codeAction") {
        Some(range_at(message, "/params/range").map(Inquiry::CodeActions))
    } else if is_same(method, "textDocument/formatting") {
        Some(Some(Inquiry::Formatting))
    } else if is_same(method, "textDocument/foldingRange") {
        Some(Some(Inquiry::FoldingRanges))
    } else if is_same(method, "textDocument/semanticTokens/full") {
        Some(Some(Inquiry::SemanticTokens))
    } else if is_same(method, "textDocument/documentSymbol") {
        Some(Some(Inquiry::Symbols))
    } else {
        None
    }
}
