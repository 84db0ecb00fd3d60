//! What the server says of documents.
ghost use Rattle.std.specs.Prelude.{◌≡◌, IfOk, string_bytes};
ghost use Rattle.serde_json.specs.View.{view};
ghost use Rattle.filterset_documents.specs.{Contents.content_row, Filtersets.is_list};
ghost use Rattle.filterset_offers.specs.Workspaces.{known_of};
ghost use Rattle.filterset.specs.Responses.{RespondsContent};

use filterset_display::{Document, Encoding, Inquiry, Language, Lines};
use filterset_documents::{Content, OpenDocument, Shown, diagnose_entries, diagnose_refusal};
use filterset_entries::TextEntry;
use filterset_offers::{Workspace, complete_entries, hover_entries, warn_entries};
use filterset_server::{act_on, folds_value, format_content, highlight_entries, symbols_value};
use filterset_sources::SourceRefusal;
use serde_json::Value;
use std::alloc::{AllocError, Global};

/// What a language server says of documents with filtersets. A document whose language is `filterset` has one a line; any
/// other is nextest's configuration.
#[derive(Clone, Copy, Debug)]
pub struct FiltersetLanguage<'w> {
    /// The workspace whose names are offered, and in which hovers say what predicates match, if it is known.
    pub workspace: Option<Workspace<'w>>,
}

/// Returns whether a document in this language has a filterset a line.
fn is_list(language: &str) -> bool
    ensures { result ≡ is_list language.now }
{
    language == "filterset"
}

/// Makes the result of a request about a document, which has this address and content.
fn respond_to(
    alloc: Global,
    workspace: Option<Workspace<'_>>,
    shown: &Shown<'_>,
    uri: &str,
    inquiry: Inquiry,
    content: Content<'_, '_>,
) -> Result<Value, AllocError>
    ensures { IfOk result (λ value. RespondsContent (known_of workspace.entry) shown.now.encoding uri.now
        shown.now.lines.text.now inquiry (content_row content.entry) (view value)) }
{
    let entries = content.entries;
    match inquiry {
        Inquiry::Symbols => symbols_value(alloc, shown, entries),
        Inquiry::Hover(position) => hover_entries(alloc, workspace, shown, position, entries),
        Inquiry::FoldingRanges => folds_value(alloc, shown, entries),
        Inquiry::SemanticTokens => highlight_entries(alloc, shown, entries),
        Inquiry::Completion(position) => {
            complete_entries(alloc, workspace, shown, position, entries)
        }
        Inquiry::CodeActions(range) => act_on(alloc, shown, uri, range, content),
        Inquiry::Formatting => format_content(alloc, shown, content),
    }
}

impl Language for FiltersetLanguage<'_> {
    ghost use Rattle.filterset_offers.specs.Workspaces.{known_of};
    ghost use Rattle.filterset.specs.Responses.{says};

    ghost says = { λ language. says (known_of language.workspace) };

    fn diagnose(
        &self,
        alloc: Global,
        encoding: Encoding,
        document: &Document,
    ) -> Result<Vec<Value>, AllocError> {
        let text = document.text.as_str();
        let is_list = is_list(document.language.as_str());
        let lines = Lines::of(alloc, text)?;
        let shown = Shown { encoding, lines };
        match OpenDocument::read(alloc, text, is_list) {
            Ok(open) => {
                let OpenDocument { filtersets, rest } = open;
                let found = filtersets.entries(alloc)?;
                let entries = found.as_slice();
                let mut values = diagnose_entries(alloc, &shown, rest, entries)?;
                let mut warnings = warn_entries(alloc, self.workspace, &shown, entries)?;
                values.append(&mut warnings)?;
                Ok(values)
            }
            Err(refusal) => diagnose_refusal(alloc, &shown, &refusal),
        }
    }

    fn respond(
        &self,
        alloc: Global,
        encoding: Encoding,
        document: &Document,
        inquiry: Inquiry,
    ) -> Result<Value, AllocError> {
        let text = document.text.as_str();
        let is_list = is_list(document.language.as_str());
        let lines = Lines::of(alloc, text)?;
        let shown = Shown { encoding, lines };
        match OpenDocument::read(alloc, text, is_list) {
            Ok(open) => {
                let entries = open.filtersets.entries(alloc)?;
                let content = open.content(entries.as_slice());
                let uri = document.uri.as_str();
                respond_to(alloc, self.workspace, &shown, uri, inquiry, content)
            }
            Err(SourceRefusal::OutOfMemory(refused)) => Err(refused),
            Err(_) => Ok(Value::Null),
        }
    }
}
