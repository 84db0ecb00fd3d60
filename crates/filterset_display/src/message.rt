//! Reads what messages of a client say.
ghost use Rattle.std.specs.Prelude.{◌≡◌, IfOk, codes, map, option_and_then, option_map};
ghost use Rattle.serde_json.specs.{Find.as_str, Find.get, View.items_view, View.view};
ghost use Rattle.filterset_display.specs.Messages as spec;
ghost use Rattle.filterset_display.specs.Messages.{IsIncoming, IsParsed, call_row, change_row, said_of};

use crate::documents::{Document, Revision};
use crate::edits::Change;
use crate::inquiry::{Inquiry, read_inquiry};
use crate::positions::{Encoding, Range};
use crate::values::{array_at, integer_at, is_same, range_in, text_at};
use serde_json::Value;
use std::alloc::{AllocError, Global};

/// What a request asks for.
#[derive(Debug, Drop)]
pub enum Call {
    /// To begin. Columns are to be counted in this encoding.
    Initialize(Encoding),
    Shutdown,
    /// What the server says of the document of this address.
    About { uri: String, inquiry: Inquiry },
    /// The same, with wrong parameters.
    Wrong,
    /// What no server does.
    Unknown,
}

/// What a notification says.
#[derive(Debug, Drop)]
pub enum Notice {
    Exit,
    Opened(Document),
    Changed(Revision),
    Closed(String),
    /// Nothing to the server: its method is not known, or its parameters are wrong.
    Ignored,
}

/// What a message is.
#[derive(Debug, Drop)]
pub enum Incoming {
    Request { id: Value, call: Call },
    Notification(Notice),
    Response,
    NotJson,
    /// JSON, but no message.
    NotMessage,
}

/// Reads the range of a change, which may have none.
fn read_changed_range(value: &Value) -> Option<Option<Range>>
    ensures { result ≡ spec.changed_range (get (codes "range") (view value.now)) }
{
    match value.get("range") {
        Some(found) => Some(Some(range_in(found)?)),
        None => Some(None),
    }
}

/// Reads a change.
fn read_change(alloc: Global, value: &Value) -> Result<Option<Change>, AllocError>
    ensures { IfOk result (λ o. option_map change_row o ≡ spec.change_in (view value.now)) }
{
    let Some(range) = read_changed_range(value) else {
        return Ok(None);
    };
    let Some(text) = text_at(value, "/text") else {
        return Ok(None);
    };
    Ok(Some(Change {
        range,
        text: String::from_str(alloc, text)?,
    }))
}

/// Reads changes.
fn read_changes(alloc: Global, values: &[Value]) -> Result<Option<Vec<Change>>, AllocError>
    ensures { IfOk result (λ o. option_map (λ changes. map change_row changes.items) o ≡ spec.changes_in (items_view values.now)) }
{
    let mut changes = Vec::new(alloc);
    for value in values {
        let Some(change) = read_change(alloc, value)? else {
            return Ok(None);
        };
        changes.push(change)?;
    }
    Ok(Some(changes))
}

/// Reads the document that is opened.
fn read_opened(alloc: Global, message: &Value) -> Result<Notice, AllocError>
    ensures { IfOk result (λ notice. said_of notice ≡ spec.opened_in (view message.now)) }
{
    let Some(uri) = text_at(message, "/params/textDocument/uri") else {
        return Ok(Notice::Ignored);
    };
    let Some(language) = text_at(message, "/params/textDocument/languageId") else {
        return Ok(Notice::Ignored);
    };
    let Some(version) = integer_at(message, "/params/textDocument/version") else {
        return Ok(Notice::Ignored);
    };
    let Some(text) = text_at(message, "/params/textDocument/text") else {
        return Ok(Notice::Ignored);
    };
    Ok(Notice::Opened(Document {
        uri: String::from_str(alloc, uri)?,
        language: String::from_str(alloc, language)?,
        version,
        text: String::from_str(alloc, text)?,
    }))
}

/// Reads the changes of a document.
fn read_revision(alloc: Global, message: &Value) -> Result<Notice, AllocError>
    ensures { IfOk result (λ notice. said_of notice ≡ spec.changed_in (view message.now)) }
{
    let Some(uri) = text_at(message, "/params/textDocument/uri") else {
        return Ok(Notice::Ignored);
    };
    let Some(version) = integer_at(message, "/params/textDocument/version") else {
        return Ok(Notice::Ignored);
    };
    let Some(values) = array_at(message, "/params/contentChanges") else {
        return Ok(Notice::Ignored);
    };
    let Some(changes) = read_changes(alloc, values.as_slice())? else {
        return Ok(Notice::Ignored);
    };
    Ok(Notice::Changed(Revision {
        uri: String::from_str(alloc, uri)?,
        version,
        changes,
    }))
}

/// Reads what the notification of this method says.
fn read_notice(alloc: Global, method: &str, message: &Value) -> Result<Notice, AllocError>
    ensures { IfOk result (λ notice. said_of notice ≡ spec.said_in method.now (view message.now)) }
{
    if is_same(method, "exit") {
        Ok(Notice::Exit)
    } else if is_same(method, "textDocument/didOpen") {
        read_opened(alloc, message)
    } else if is_same(method, "textDocument/didChange") {
        read_revision(alloc, message)
    } else if is_same(method, "textDocument/didClose") {
        match text_at(message, "/params/textDocument/uri") {
            Some(uri) => Ok(Notice::Closed(String::from_str(alloc, uri)?)),
            None => Ok(Notice::Ignored),
        }
    } else {
        Ok(Notice::Ignored)
    }
}

/// Returns the encoding that a value names.
fn encoding_of(value: &Value) -> Option<Encoding>
    ensures { result ≡ option_and_then spec.encoding_named (as_str (view value.now)) }
{
    let name = value.as_str()?;
    if is_same(name, "utf-8") {
        Some(Encoding::Utf8)
    } else if is_same(name, "utf-16") {
        Some(Encoding::Utf16)
    } else if is_same(name, "utf-32") {
        Some(Encoding::Utf32)
    } else {
        None
    }
}

/// Returns the first encoding of a list that is known, or UTF-16.
fn choose_encoding(values: &[Value]) -> Encoding
    ensures { result ≡ spec.first_known (items_view values.now) }
{
    for value in values {
        if let Some(encoding) = encoding_of(value) {
            return encoding;
        }
    }
    Encoding::Utf16
}

/// Returns the encoding to count in: the client's first that is known, or UTF-16.
fn read_encoding(message: &Value) -> Encoding
    ensures { result ≡ spec.encoding_in (view message.now) }
{
    match array_at(message, "/params/capabilities/general/positionEncodings") {
        Some(values) => choose_encoding(values.as_slice()),
        None => Encoding::Utf16,
    }
}

/// Reads what the request of this method asks for.
fn read_call(alloc: Global, method: &str, message: &Value) -> Result<Call, AllocError>
    ensures { IfOk result (λ call. call_row call ≡ spec.call_in method.now (view message.now)) }
{
    if is_same(method, "initialize") {
        return Ok(Call::Initialize(read_encoding(message)));
    }
    if is_same(method, "shutdown") {
        return Ok(Call::Shutdown);
    }
    let Some(read) = read_inquiry(method, message) else {
        return Ok(Call::Unknown);
    };
    let Some(uri) = text_at(message, "/params/textDocument/uri") else {
        return Ok(Call::Wrong);
    };
    let Some(inquiry) = read else {
        return Ok(Call::Wrong);
    };
    Ok(Call::About {
        uri: String::from_str(alloc, uri)?,
        inquiry,
    })
}

/// Returns the method of a message.
pub fn method_of(message: &Value) -> Option<&str>
    ensures { option_map (λ t. t.now) result ≡ spec.method_of (view message.now) }
{
    message.get("method")?.as_str()
}

/// Reads bytes as JSON, if they are. Returns an error only if out of memory.
pub fn parse_json(alloc: Global, content: &[u8]) -> Result<Option<Value>, AllocError>
    ensures { IfOk result (λ parsed. IsParsed content.now (option_map view parsed)) }
{
    let Ok(text) = std::str::from_utf8(content) else {
        return Ok(None);
    };
    match Value::from_str(alloc, text) {
        Ok(value) => Ok(Some(value)),
        Err(error) if error.is_memory() => Err(AllocError),
        Err(_) => Ok(None),
    }
}

/// Reads what the bytes of a message say. Returns an error only if out of memory.
pub fn read_message(alloc: Global, content: &[u8]) -> Result<Incoming, AllocError>
    ensures { IfOk result (IsIncoming content.now) }
{
    let Some(message) = parse_json(alloc, content)? else {
        return Ok(Incoming::NotJson);
    };
    match (method_of(&message), message.get("id")) {
        (Some(method), Some(id)) => Ok(Incoming::Request {
            id: id.clone()?,
            call: read_call(alloc, method, &message)?,
        }),
        (Some(method), None) => {
            Ok(Incoming::Notification(read_notice(alloc, method, &message)?))
        }
        (None, Some(_)) => Ok(Incoming::Response),
        (None, None) => Ok(Incoming::NotMessage),
    }
}
