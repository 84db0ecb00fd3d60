//! Messages on a stream, each after a head with its length.
ghost use Rattle.std.specs.Prelude.{◌≡◌, ◌≤◌, IfOk, drop, length, option_map, string_bytes};
ghost use Rattle.serde_json.specs.View.{view};
ghost use Rattle.filterset_display.specs.Frames.{Bytes, IsNext, ReadsBack, framed, most_of_message};
ghost use Rattle.filterset_display.specs.{Heads.front, Written.Writes};

use crate::head::{Head, read_head};
use serde_json::Value;
use std::alloc::{AllocError, Global};

/// How many bytes a head has at most.
const MOST_OF_HEAD: usize = 8 * 1024;

/// What is at the front of a stream.
#[derive(Clone, Copy, Debug, PartialEq, Eq)]
pub enum Next {
    /// Less than a message.
    Partial,
    /// No message, however the stream goes on.
    Malformed,
    /// A message, between these positions.
    Message { from: usize, to: usize },
}

/// Returns the part of the stream that can have a head.
#[tactic(auto, using(std::proofs::lemmas::List::take_min))]
fn front(stream: &[u8]) -> &[u8]
    ensures { result.now ≡ front stream.now }
{
    let (front, _) = stream.split_at(MOST_OF_HEAD.min(stream.len()));
    front
}

/// Finds the message at the front of a stream. Heads have at most 8 KiB, and messages at most 64 MiB.
pub fn next_frame(stream: &[u8]) -> Next
    ensures { IsNext stream.now result }
{
    match read_head(front(stream)) {
        Head::Partial => {
            if stream.len() < MOST_OF_HEAD {
                Next::Partial
            } else {
                Next::Malformed
            }
        }
        Head::Malformed => Next::Malformed,
        Head::Whole { head, length } => {
            if stream.len() - head < length {
                return Next::Partial;
            }
            Next::Message {
                from: head,
                to: head + length,
            }
        }
    }
}

/// Drops so many bytes at the front of a stream, which needs no memory.
pub fn drop_front(stream: &mut Vec<u8>, count: usize)
    requires { count ≤ length stream.old.items }
    ensures { stream.new.items ≡ drop count stream.old.items }
{
    stream.rotate_left(count);
    stream.truncate(stream.len() - count);
}

/// Makes what is written of an answer: its text after a head, or nothing if there is none. Returns an error only if out of memory.
pub fn frame_answer(alloc: Global, answer: Option<Value>) -> Result<String, AllocError>
    ensures written { IfOk result (λ written. Writes (option_map view answer) (string_bytes written)) }
    ensures reads_back { (text : Bytes) → length text ≤ most_of_message → ReadsBack (framed text) text }
{
    let Some(value) = answer else {
        return Ok(String::new(alloc));
    };
    let text = value.to_string(alloc)?;
    let length = text.len();
    format!(in alloc; "Content-Length: {length}\r\n\r\n{text}")
}
