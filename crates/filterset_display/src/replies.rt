//! Answers to requests.
ghost use Rattle.std.specs.Prelude.{◌≡◌, IfOk};
ghost use Rattle.serde_json.specs.View.{view};
ghost use Rattle.filterset_display.specs.Machine as spec;
ghost use Rattle.filterset_display.specs.Machine.{Replies, Responds, capabilities, description, error_data, notification_data, result_data, token_options};

use crate::documents::{Document, document_of};
use crate::inquiry::Inquiry;
use crate::language::Language;
use crate::message::Call;
use crate::phase::Phase;
use crate::positions::Encoding;
use serde_json::{Value, json};
use std::alloc::{AllocError, Global};

// The codes of errors that JSON-RPC and the protocol have.
pub const PARSE_ERROR: i64 = -32700;

pub const INVALID_REQUEST: i64 = -32600;

pub const INTERNAL_ERROR: i64 = -32603;

const METHOD_NOT_FOUND: i64 = -32601;

const INVALID_PARAMS: i64 = -32602;

const SERVER_NOT_INITIALIZED: i64 = -32002;

/// Makes an answer that is an error.
pub fn make_error(alloc: Global, id: &Value, code: i64, message: &str) -> Result<Value, AllocError>
    ensures { IfOk result (λ value. view value ≡ error_data (view id.now) code message.now) }
{
    json!(in alloc; {
        "error": { "code": code, "message": message },
        "id": id,
        "jsonrpc": "2.0"
    })
}

/// Makes an answer that is a result.
fn make_result(alloc: Global, id: &Value, value: Value) -> Result<Value, AllocError>
    ensures { IfOk result (λ made. view made ≡ result_data (view id.now) (view value)) }
{
    json!(in alloc; { "id": id, "jsonrpc": "2.0", "result": value })
}

/// Makes a notification.
pub fn make_notification(alloc: Global, method: &str, params: Value) -> Result<Value, AllocError>
    ensures { IfOk result (λ made. view made ≡ notification_data method.now (view params)) }
{
    json!(in alloc; { "jsonrpc": "2.0", "method": method, "params": params })
}

fn encoding_name(encoding: Encoding) -> &'static str
    ensures { result.now ≡ spec.encoding_name encoding }
{
    match encoding {
        Encoding::Utf8 => "utf-8",
        Encoding::Utf16 => "utf-16",
        Encoding::Utf32 => "utf-32",
    }
}

/// Makes the value of how a server numbers tokens.
fn describe_tokens(alloc: Global) -> Result<Value, AllocError>
    ensures { IfOk result (λ value. view value ≡ token_options) }
{
    json!(in alloc; {
        "full": true,
        "legend": {
            "tokenModifiers": [],
            "tokenTypes": ["enumMember", "function", "keyword", "operator", "regexp", "string"]
        }
    })
}

/// Makes the value of what a server can do.
fn describe_abilities(alloc: Global, encoding: Encoding) -> Result<Value, AllocError>
    ensures { IfOk result (λ value. view value ≡ capabilities encoding) }
{
    let tokens = describe_tokens(alloc)?;
    json!(in alloc; {
        "codeActionProvider": true,
        "completionProvider": {},
        "documentFormattingProvider": true,
        "documentSymbolProvider": true,
        "foldingRangeProvider": true,
        "hoverProvider": true,
        "positionEncoding": encoding_name(encoding),
        "semanticTokensProvider": tokens,
        "textDocumentSync": { "change": 2u8, "openClose": true }
    })
}

/// Makes the result of `initialize`.
fn describe_server(alloc: Global, encoding: Encoding) -> Result<Value, AllocError>
    ensures { IfOk result (λ value. view value ≡ description encoding) }
{
    let able = describe_abilities(alloc, encoding)?;
    json!(in alloc; { "capabilities": able, "serverInfo": { "name": "filterset" } })
}

/// Makes the result of a request about the document of an address.
fn respond<L: Language>(
    language: &L,
    alloc: Global,
    encoding: Encoding,
    documents: &[Document],
    uri: &str,
    inquiry: Inquiry,
) -> Result<Value, AllocError>
    ensures { IfOk result
        (λ value. Responds (L.says language.now) encoding documents.now uri.now inquiry (view value)) }
{
    match document_of(documents, uri) {
        Some(document) => language.respond(alloc, encoding, document, inquiry),
        None => Ok(Value::Null),
    }
}

/// Makes the answer to a request.
pub fn reply<L: Language>(
    language: &L,
    alloc: Global,
    phase: Phase,
    documents: &[Document],
    id: &Value,
    call: &Call,
) -> Result<Value, AllocError>
    ensures { IfOk result
        (λ value. Replies (L.says language.now) phase documents.now call.now (view id.now) (view value)) }
{
    match phase {
        Phase::New => match call {
            Call::Initialize(encoding) => {
                make_result(alloc, id, describe_server(alloc, *encoding)?)
            }
            Call::Shutdown | Call::About { .. } | Call::Wrong | Call::Unknown => {
                make_error(alloc, id, SERVER_NOT_INITIALIZED, "not initialized")
            }
        },
        Phase::Running(encoding) => match call {
            Call::Initialize(_) => make_error(alloc, id, INVALID_REQUEST, "initialized already"),
            Call::Shutdown => make_result(alloc, id, Value::Null),
            Call::About { uri, inquiry } => {
                let uri = uri.as_str();
                let value = respond(language, alloc, encoding, documents, uri, *inquiry)?;
                make_result(alloc, id, value)
            }
            Call::Wrong => make_error(alloc, id, INVALID_PARAMS, "wrong parameters"),
            Call::Unknown => make_error(alloc, id, METHOD_NOT_FOUND, "unknown method"),
        },
        Phase::Stopped | Phase::Over { .. } => {
            make_error(alloc, id, INVALID_REQUEST, "shut down")
        }
    }
}
