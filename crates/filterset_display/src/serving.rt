//! The loop of a server.
ghost use Rattle.std.specs.Prelude.{◌≡◌, ◌≢◌, Err, IfOk, IfSome, IsTrue, OnOk, Some};
ghost use Rattle.std.specs.Io.KnownBytes.{prepend_known};
ghost use Rattle.filterset_display.specs.{Frames.Bytes, Machine.state_of};
ghost use Rattle.filterset_display.specs.Sessions.{GoesOn, IsEnding, Served};

use crate::ending::Ending;
use crate::frames::{Next, drop_front, next_frame};
use crate::language::Language;
use crate::opening::read_piece;
use crate::phase::Phase;
use crate::server::Server;
use filterset_json::{RunFault, Sink, Source, write_all};
use std::alloc::{AllocError, Global};

/// Returns how a session ends in a phase, if it does.
fn ending_of(server: &Server) -> Option<Ending>
    ensures in_phase { (rest : Bytes) → IfSome result (λ ending. IsEnding ending (state_of server.now) rest) }
    ensures not_at_end { result ≢ Some Ending.InputEnded }
{
    match server.phase {
        Phase::Over { in_order } => Some(Ending::Exit { in_order }),
        _ => None,
    }
}

/// Answers the message at the front of what waits, or reads more of the input. Returns how the session ends, if it does.
fn take_turn<L: Language, R: Source, W: Sink>(
    server: &mut Server,
    waiting: &mut Vec<u8>,
    language: &L,
    alloc: Global,
    input: &mut R,
    output: &mut W,
) -> Result<Option<Ending>, RunFault>
    ensures goes_on { OnOk result (GoesOn (L.says language.now) (R.left input.old) (R.left input.new)
        (W.taken output.old) (W.taken output.new) (state_of server.old) waiting.old.items (state_of server.new) waiting.new.items) }
    ensures ends { IfOk result
        (λ end. IfSome end (λ ending. IsEnding ending (state_of server.new) waiting.new.items)) }
    ensures ended { IfOk result (λ end. end ≡ Some Ending.InputEnded → IsTrue (R.ended input.new)) }
    ensures none_failed { OnOk result ((R.failed input.new ≡ R.failed input.old)
        × (W.failed output.new ≡ W.failed output.old)) }
    ensures read_failed { result ≡ Err RunFault.Read → IsTrue (R.failed input.new) }
    ensures write_failed { result ≡ Err RunFault.Write → IsTrue (W.failed output.new) }
{
    match next_frame(waiting.as_slice()) {
        Next::Malformed => Ok(Some(Ending::Malformed)),
        Next::Message { from, to } => {
            let written = server.exchange(language, alloc, &waiting[from..to])?;
            write_all(output, written.as_bytes())?;
            drop_front(waiting, to);
            Ok(ending_of(server))
        }
        Next::Partial => {
            if read_piece(input, waiting)? {
                return Ok(None);
            }
            Ok(Some(Ending::InputEnded))
        }
    }
}

/// Answers the messages of a client until the session ends. `opening` is what was read of the input before, which comes first.
/// Fails if a read or a write fails, or out of memory, which an input without end comes to.
pub fn serve<L: Language, R: Source, W: Sink>(
    language: &L,
    alloc: Global,
    opening: &[u8],
    input: &mut R,
    output: &mut W,
) -> Result<Ending, RunFault>
    // What was written answers the messages that were read, and nothing else was.
    ensures served { IfOk result (Served (L.says language.now) (prepend_known opening.now (R.left input.old))
        (R.left input.new) (W.taken output.old) (W.taken output.new)) }
    // It ends for want of messages only at the end of the input.
    ensures ended { IfOk result (λ ending. ending ≡ Ending.InputEnded → IsTrue (R.ended input.new)) }
    ensures none_failed { OnOk result ((R.failed input.new ≡ R.failed input.old)
        × (W.failed output.new ≡ W.failed output.old)) }
    ensures read_failed { result ≡ Err RunFault.Read → IsTrue (R.failed input.new) }
    ensures write_failed { result ≡ Err RunFault.Write → IsTrue (W.failed output.new) }
{
    let mut server = Server::new(alloc);
    let mut waiting = Vec::from_slice(alloc, opening)?;
    for _turn in 0..u64::MAX {
        if let Some(ending) = take_turn(
            &mut server,
            &mut waiting,
            language,
            alloc,
            input,
            output,
        )? {
            return Ok(ending);
        }
    }
    Err(RunFault::Memory(AllocError))
}
