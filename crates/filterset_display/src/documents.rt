//! Documents that are open.
ghost use Rattle.std.specs.Prelude.{◌≡◌, ◌<◌, IfOk, IfSome, OnErr, OnOk, length, option_map};
ghost use Rattle.filterset_display.specs.Documents as spec;
ghost use Rattle.filterset_display.specs.Documents.{IsRevised, place_of};

use crate::edits::{Change, change_text};
use crate::positions::Encoding;
use crate::values::is_same;
use std::alloc::{AllocError, Global};

/// A document as the client has it.
#[derive(Debug, Drop)]
pub struct Document {
    pub uri: String,
    /// What the client says that the text is written in, as `toml`.
    pub language: String,
    pub version: i64,
    pub text: String,
}

/// Changes that make the next version of a document.
#[derive(Debug, Drop)]
pub struct Revision {
    pub uri: String,
    pub version: i64,
    pub changes: Vec<Change>,
}

/// Finds the document of this address.
pub fn place_of(documents: &[Document], uri: &str) -> Option<usize>
    ensures value { result ≡ place_of uri.now documents.now }
    ensures within { IfSome result (λ i. i < length documents.now) }
{
    documents
        .iter()
        .position(|document| is_same(document.uri.as_str(), uri))
}

/// Returns the document of this address, if it is open.
pub fn document_of<'d>(documents: &'d [Document], uri: &str) -> Option<&'d Document>
    ensures { option_map (λ d. d.now) result ≡ spec.document_of uri.now documents.now }
{
    documents.get(place_of(documents, uri)?)
}

/// Puts a document in place of the one of its address, or after the others. Returns an error only if out of memory, and
/// then changes nothing.
pub fn put_document(documents: &mut Vec<Document>, document: Document) -> Result<(), AllocError>
    ensures ok { OnOk result (documents.new.items ≡ spec.put_document document documents.old.items) }
    ensures err { OnErr result (documents.new.items ≡ documents.old.items) }
{
    match place_of(documents.as_slice(), document.uri.as_str()) {
        Some(i) => {
            documents[i] = document;
            Ok(())
        }
        None => {
            documents.push(document)?;
            Ok(())
        }
    }
}

/// Removes the document of this address.
pub fn remove_document(documents: &mut Vec<Document>, uri: &str)
    ensures { documents.new.items ≡ spec.without_document uri.now documents.old.items }
{
    if let Some(i) = place_of(documents.as_slice(), uri) {
        let _ = documents.remove(i);
    }
}

/// Makes the next version of a document.
pub fn revise_document(
    alloc: Global,
    encoding: Encoding,
    document: &Document,
    revision: &Revision,
) -> Result<Document, AllocError>
    ensures { IfOk result (IsRevised encoding document.now revision.now) }
{
    let changes = revision.changes.as_slice();
    let text = change_text(alloc, encoding, document.text.as_str(), changes)?;
    Ok(Document {
        uri: String::from_str(alloc, document.uri.as_str())?,
        language: String::from_str(alloc, document.language.as_str())?,
        version: revision.version,
        text,
    })
}
