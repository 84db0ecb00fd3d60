//! How a session begins: what a client sends first, and the options that it gives the server.
ghost use Rattle.std.specs.Prelude.{◌≡◌, ◌≢◌, Err, IfOk, IsTrue, OnOk, false, option_map, string_bytes};
ghost use Rattle.serde_json.specs.View.{view};
ghost use Rattle.filterset_display.specs.Openings as spec;
ghost use Rattle.filterset_display.specs.Openings.{GivesOptions, IsOpening, shown_data};
ghost use Rattle.filterset_display.specs.{Sessions.ReadsPiece, Written.Writes};

use crate::frames::{Next, frame_answer, next_frame};
use crate::message::{method_of, parse_json};
use crate::replies::make_notification;
use crate::values::is_same;
use filterset_json::{RunFault, Source};
use serde_json::{Value, json};
use std::alloc::{AllocError, Global};

/// How many bytes to ask for at a time.
const PIECE: usize = 16 * 1024;

/// What a client sent first.
#[derive(Debug, Drop)]
pub struct Opening {
    /// What was read of the stream.
    pub read: Vec<u8>,
    /// The `initializationOptions` of the first message, if it is `initialize` and has some.
    pub options: Option<Value>,
}

/// Reads the options that the bytes of a message give.
fn read_options(alloc: Global, message: &[u8]) -> Result<Option<Value>, AllocError>
    ensures { IfOk result (λ found. GivesOptions message.now (option_map view found)) }
{
    let Some(message) = parse_json(alloc, message)? else {
        return Ok(None);
    };
    let Some(method) = method_of(&message) else {
        return Ok(None);
    };
    if !is_same(method, "initialize") {
        return Ok(None);
    }
    if message.get("id").is_none() {
        return Ok(None);
    }
    match message.pointer("/params/initializationOptions") {
        Some(found) => Ok(Some(found.clone()?)),
        None => Ok(None),
    }
}

/// Adds the next piece of the input to what was read of it, and returns whether there was one. Fails if the read fails, or out of
/// memory.
pub fn read_piece<R: Source>(input: &mut R, read: &mut Vec<u8>) -> Result<bool, RunFault>
    ensures piece { IfOk result (ReadsPiece (R.left input.old) (R.left input.new) read.old.items read.new.items) }
    ensures ended { IfOk result (λ found. found ≡ false → IsTrue (R.ended input.new)) }
    ensures none_failed { OnOk result (R.failed input.new ≡ R.failed input.old) }
    ensures read_failed { result ≡ Err RunFault.Read → IsTrue (R.failed input.new) }
    ensures no_write { result ≢ Err RunFault.Write }
{
    let mut piece = [0u8; PIECE];
    let Ok(count) = input.read_some(&mut piece) else {
        return Err(RunFault::Read);
    };
    read.extend_from_slice(&piece[..count])?;
    Ok(count > 0)
}

/// Reads what a client sends first: until a message has come whole, or none can come, or the input ends. Fails if a read fails, or
/// out of memory.
pub fn read_opening<R: Source>(alloc: Global, input: &mut R) -> Result<Opening, RunFault>
    ensures opening { IfOk result (λ opening. IsOpening (R.left input.old) (R.left input.new) opening.read.items
        (option_map view opening.options)) }
    ensures none_failed { OnOk result (R.failed input.new ≡ R.failed input.old) }
    ensures read_failed { result ≡ Err RunFault.Read → IsTrue (R.failed input.new) }
    ensures no_write { result ≢ Err RunFault.Write }
{
    let mut read = Vec::new(alloc);
    loop {
        match next_frame(read.as_slice()) {
            Next::Partial => {}
            Next::Malformed => {
                return Ok(Opening {
                    read,
                    options: None,
                });
            }
            Next::Message { from, to } => {
                let options = read_options(alloc, &read[from..to])?;
                return Ok(Opening { read, options });
            }
        }
        if !read_piece(input, &mut read)? {
            return Ok(Opening {
                read,
                options: None,
            });
        }
    }
}

/// Makes the notification that shows the user an error.
fn make_error_notification(alloc: Global, message: &str) -> Result<Value, AllocError>
    ensures { IfOk result (λ value. view value ≡ shown_data message.now) }
{
    let params = json!(in alloc; { "message": message, "type": 1u8 })?;
    make_notification(alloc, "window/showMessage", params)
}

/// Makes what is written to show the user an error. Returns an error only if out of memory.
pub fn show_error(alloc: Global, message: &str) -> Result<String, AllocError>
    ensures { IfOk result (λ written. Writes (Some (shown_data message.now)) (string_bytes written)) }
{
    let notification = make_error_notification(alloc, message)?;
    frame_answer(alloc, Some(notification))
}
