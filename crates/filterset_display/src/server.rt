//! The server as a machine: messages in, messages out.
ghost use Rattle.std.specs.Prelude.{◌≡◌, IfOk, OnErr, Some, [], map, option_map, string_bytes};
ghost use Rattle.serde_json.specs.View.{view};
ghost use Rattle.filterset_display.specs.Machine.{Answers, Keeps, Notifies, Publishes, published_data, state_of};
ghost use Rattle.filterset_display.specs.Refusals.{AnswersOrRunsOut, Exchange, IsAround, WritesAnswer};

use crate::documents::{
    Document, Revision, document_of, put_document, remove_document, revise_document,
};
use crate::frames::frame_answer;
use crate::language::Language;
use crate::message::{Call, Incoming, Notice, read_message};
use crate::phase::{Phase, phase_after, phase_at_exit};
use crate::positions::Encoding;
use crate::refusals::{forget_document, forget_documents, refuse_request, uri_of, write_error};
use crate::replies::{INVALID_REQUEST, PARSE_ERROR, make_notification, reply};
use serde_json::{Value, json};
use std::alloc::{AllocError, Global};

/// The method of notifications of diagnostics.
const PUBLISH: &str = "textDocument/publishDiagnostics";

/// A server: how far its session has come, and the documents that are open.
#[derive(Debug, Drop)]
pub struct Server {
    pub phase: Phase,
    pub documents: Vec<Document>,
}

/// Makes the notification of the diagnostics of a document, or of this version of it.
pub fn publish(
    alloc: Global,
    uri: &str,
    version: Option<i64>,
    diagnostics: Vec<Value>,
) -> Result<Value, AllocError>
    ensures { IfOk result (λ value. view value ≡ published_data uri.now version (map view diagnostics.items)) }
{
    let diagnostics = Value::Array(diagnostics);
    match version {
        Some(version) => {
            let params =
                json!(in alloc; { "diagnostics": diagnostics, "uri": uri, "version": version })?;
            make_notification(alloc, PUBLISH, params)
        }
        None => {
            let params = json!(in alloc; { "diagnostics": diagnostics, "uri": uri })?;
            make_notification(alloc, PUBLISH, params)
        }
    }
}

/// Makes the notification of the diagnostics of a document.
fn diagnose<L: Language>(
    language: &L,
    alloc: Global,
    encoding: Encoding,
    document: &Document,
) -> Result<Value, AllocError>
    ensures { IfOk result (λ value. Publishes (L.says language.now) encoding document.now (Some (view value))) }
{
    let diagnostics = language.diagnose(alloc, encoding, document)?;
    publish(
        alloc,
        document.uri.as_str(),
        Some(document.version),
        diagnostics,
    )
}

/// Takes changes of a document.
fn change<L: Language>(
    documents: &mut Vec<Document>,
    language: &L,
    alloc: Global,
    encoding: Encoding,
    revision: Revision,
) -> Result<Option<Value>, AllocError>
    ensures ok { IfOk result (λ answer. Notifies (L.says language.now) encoding (Notice.Changed revision)
        documents.old.items (option_map view answer) documents.new.items) }
    ensures err { OnErr result (documents.new.items ≡ documents.old.items) }
{
    let Some(document) = document_of(documents.as_slice(), revision.uri.as_str()) else {
        return Ok(None);
    };
    let revised = revise_document(alloc, encoding, document, &revision)?;
    let value = diagnose(language, alloc, encoding, &revised)?;
    put_document(documents, revised)?;
    Ok(Some(value))
}

/// Answers a notification that does not end the session.
fn keep<L: Language>(
    documents: &mut Vec<Document>,
    language: &L,
    alloc: Global,
    phase: Phase,
    notice: Notice,
) -> Result<Option<Value>, AllocError>
    ensures ok { IfOk result (λ answer. Keeps (L.says language.now) phase notice documents.old.items
        (option_map view answer) documents.new.items) }
    ensures err { OnErr result (documents.new.items ≡ documents.old.items) }
{
    match phase {
        Phase::Running(encoding) => match notice {
            Notice::Opened(document) => {
                let value = diagnose(language, alloc, encoding, &document)?;
                put_document(documents, document)?;
                Ok(Some(value))
            }
            Notice::Changed(revision) => change(documents, language, alloc, encoding, revision),
            Notice::Closed(uri) => {
                let value = publish(alloc, uri.as_str(), None, Vec::new(alloc))?;
                remove_document(documents, uri.as_str());
                Ok(Some(value))
            }
            Notice::Exit | Notice::Ignored => Ok(None),
        },
        Phase::New | Phase::Stopped | Phase::Over { .. } => Ok(None),
    }
}

/// Makes what is written for a notification. If memory runs out, it may have been taken.
fn try_notice<L: Language>(
    server: &mut Server,
    language: &L,
    alloc: Global,
    notice: Notice,
) -> Result<String, AllocError>
    ensures ok { IfOk result (λ written. WritesAnswer (L.says language.now) (state_of server.old)
        (Incoming.Notification notice) (string_bytes written) (state_of server.new)) }
    ensures err { OnErr result (IsAround (L.says language.now) (state_of server.old) (Incoming.Notification notice)
        (state_of server.new)) }
{
    let answer = server.take(language, alloc, notice)?;
    frame_answer(alloc, answer)
}

/// Makes what is written for a notification, or that its document is forgotten since memory ran out.
fn answer_notice<L: Language>(
    server: &mut Server,
    language: &L,
    alloc: Global,
    notice: Notice,
) -> Result<String, AllocError>
    ensures { IfOk result (λ written. AnswersOrRunsOut (L.says language.now) (state_of server.old)
        (Incoming.Notification notice) (string_bytes written) (state_of server.new)) }
{
    let address = uri_of(alloc, &notice)?;
    match try_notice(server, language, alloc, notice) {
        Ok(written) => Ok(written),
        Err(refused) => match address {
            Some(uri) => forget_document(server, alloc, uri.as_str()),
            None => Err(refused),
        },
    }
}

/// Makes what is written for a request. If memory runs out, nothing changes.
fn try_request<L: Language>(
    server: &mut Server,
    language: &L,
    alloc: Global,
    id: &Value,
    call: &Call,
) -> Result<String, AllocError>
    ensures ok { IfOk result (λ written. WritesAnswer (L.says language.now) (state_of server.old)
        (Incoming.Request id.now call.now) (string_bytes written) (state_of server.new)) }
    ensures err { OnErr result (state_of server.new ≡ state_of server.old) }
{
    let documents = server.documents.as_slice();
    let value = reply(language, alloc, server.phase, documents, id, call)?;
    let written = frame_answer(alloc, Some(value))?;
    server.phase = phase_after(server.phase, call);
    Ok(written)
}

/// Makes what is written for a request, or that memory ran out.
fn answer_request<L: Language>(
    server: &mut Server,
    language: &L,
    alloc: Global,
    id: &Value,
    call: &Call,
) -> Result<String, AllocError>
    ensures { IfOk result (λ written. AnswersOrRunsOut (L.says language.now) (state_of server.old)
        (Incoming.Request id.now call.now) (string_bytes written) (state_of server.new)) }
{
    match try_request(server, language, alloc, id, call) {
        Ok(written) => Ok(written),
        Err(_) => refuse_request(alloc, id),
    }
}

impl Server {
    /// Returns a server of which nothing was asked.
    pub fn new(alloc: Global) -> Server
        ensures { state_of result ≡ record { phase = Phase.New; documents = [] } }
    {
        Server {
            phase: Phase::New,
            documents: Vec::new(alloc),
        }
    }

    /// Answers a notification, if there is an answer.
    fn take<L: Language>(
        &mut self,
        language: &L,
        alloc: Global,
        notice: Notice,
    ) -> Result<Option<Value>, AllocError>
        ensures ok { IfOk result (λ answer. Answers (L.says language.now) (state_of self.old) (Incoming.Notification notice)
            (option_map view answer) (state_of self.new)) }
        ensures err { OnErr result (state_of self.new ≡ state_of self.old) }
    {
        match notice {
            Notice::Exit => {
                self.phase = phase_at_exit(self.phase);
                Ok(None)
            }
            notice => keep(&mut self.documents, language, alloc, self.phase, notice),
        }
    }

    /// Makes what is written for a message that was read, which is nothing if there is no answer. If memory runs out, that is the
    /// answer: a request gets an error, and the document of a notification is forgotten.
    fn answer<L: Language>(
        &mut self,
        language: &L,
        alloc: Global,
        incoming: Incoming,
    ) -> Result<String, AllocError>
        ensures { IfOk result (λ written. AnswersOrRunsOut (L.says language.now) (state_of self.old) incoming
            (string_bytes written) (state_of self.new)) }
    {
        match incoming {
            Incoming::Request { id, call } => answer_request(self, language, alloc, &id, &call),
            Incoming::Notification(notice) => answer_notice(self, language, alloc, notice),
            Incoming::Response => frame_answer(alloc, None),
            Incoming::NotJson => write_error(alloc, &Value::Null, PARSE_ERROR, "not JSON"),
            Incoming::NotMessage => {
                write_error(alloc, &Value::Null, INVALID_REQUEST, "no message")
            }
        }
    }

    /// Makes what is written for the bytes of a message. If memory is too short to read it, that is the answer, and all documents
    /// are forgotten, since the message may change one. Returns an error only if memory is out for the answer that says so.
    pub fn exchange<L: Language>(
        &mut self,
        language: &L,
        alloc: Global,
        message: &[u8],
    ) -> Result<String, AllocError>
        ensures { IfOk result (λ written. Exchange (L.says language.now) (state_of self.old) message.now
            (string_bytes written) (state_of self.new)) }
    {
        match read_message(alloc, message) {
            Ok(incoming) => self.answer(language, alloc, incoming),
            Err(_) => forget_documents(self, alloc),
        }
    }
}
