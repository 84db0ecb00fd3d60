//! What is said when memory runs out.
ghost use Rattle.std.specs.Prelude.{◌≡◌, IfOk, Some, option_map, string_bytes};
ghost use Rattle.serde_json.specs.{Data.null, View.view};
ghost use Rattle.filterset_display.specs.{Documents.without_document, Machine.error_data, Machine.state_of};
ghost use Rattle.filterset_display.specs.Refusals.{ForgetsAll, forgotten_data, forgotten_diagnostic, refused_data};
ghost use Rattle.filterset_display.specs.Written.{Writes};
ghost use Rattle.filterset_display.specs.Refusals as spec;

use crate::documents::remove_document;
use crate::frames::frame_answer;
use crate::message::Notice;
use crate::replies::{INTERNAL_ERROR, make_error};
use crate::server::{Server, publish};
use serde_json::{Value, json};
use std::alloc::{AllocError, Global};

/// Makes what is written of an error.
pub fn write_error(
    alloc: Global,
    id: &Value,
    code: i64,
    message: &str,
) -> Result<String, AllocError>
    ensures { IfOk result (λ written. Writes (Some (error_data (view id.now) code message.now)) (string_bytes written)) }
{
    let error = make_error(alloc, id, code, message)?;
    frame_answer(alloc, Some(error))
}

/// Makes what is written for a request for which memory ran out.
pub fn refuse_request(alloc: Global, id: &Value) -> Result<String, AllocError>
    ensures { IfOk result (λ written. Writes (Some (refused_data (view id.now))) (string_bytes written)) }
{
    write_error(alloc, id, INTERNAL_ERROR, "out of memory")
}

/// Copies the address of the document that a notification is about.
pub fn uri_of(alloc: Global, notice: &Notice) -> Result<Option<String>, AllocError>
    ensures { IfOk result (λ o. option_map (λ uri. string_bytes uri) o ≡ spec.uri_of notice.now) }
{
    match notice {
        Notice::Opened(document) => { Ok(Some(String::from_str(alloc, document.uri.as_str())?)) }
        Notice::Changed(revision) => { Ok(Some(String::from_str(alloc, revision.uri.as_str())?)) }
        Notice::Closed(uri) => Ok(Some(String::from_str(alloc, uri.as_str())?)),
        Notice::Exit | Notice::Ignored => Ok(None),
    }
}

/// Makes the diagnostic of a document that the server has forgotten.
fn diagnose_forgotten(alloc: Global) -> Result<Value, AllocError>
    ensures { IfOk result (λ value. view value ≡ forgotten_diagnostic) }
{
    json!(in alloc; {
        "code": "memory",
        "message": "out of memory: close this document and open it again",
        "range": { "end": { "character": 0u8, "line": 0u8 }, "start": { "character": 0u8, "line": 0u8 } },
        "severity": 1u8,
        "source": "filterset"
    })
}

/// Forgets the document of an address, and makes what is written of that.
pub fn forget_document(server: &mut Server, alloc: Global, uri: &str) -> Result<String, AllocError>
    ensures written { IfOk result (λ written. Writes (Some (forgotten_data uri.now)) (string_bytes written)) }
    ensures documents { server.new.documents.items ≡ without_document uri.now server.old.documents.items }
    ensures phase { server.new.phase ≡ server.old.phase }
{
    remove_document(&mut server.documents, uri);
    let mut diagnostics = Vec::new(alloc);
    diagnostics.push(diagnose_forgotten(alloc)?)?;
    let notification = publish(alloc, uri, None, diagnostics)?;
    frame_answer(alloc, Some(notification))
}

/// Forgets all documents, since a message could not be read that may change one, and makes what is written of that.
pub fn forget_documents(server: &mut Server, alloc: Global) -> Result<String, AllocError>
    ensures written { IfOk result (λ written. Writes (Some (refused_data null)) (string_bytes written)) }
    ensures state { ForgetsAll (state_of server.old) (state_of server.new) }
{
    server.documents.clear();
    refuse_request(alloc, &Value::Null)
}
