//! Writes whole texts to writers.
ghost use Rattle.std.specs.Prelude.{◌≡◌, ◌||◌, ◌++◌, ◌<◌, Bool, Err, IsTrue, List, OnErr, OnOk, Option, false, length, ℕ};
ghost use Rattle.std.specs.Io.{KnownBytes.Appends, KnownBytes.WriteAppends, WritesAtMost};
ghost use Rattle.filterset_json.specs.Marks.{write_fails};

use crate::fault::RunFault;
use std::io;
use std::io::Write;

/// A writer that counts as failed after the first write that fails.
pub trait Sink {
    /// The bytes that the writer has taken, if they are known.
    ghost taken: { Self → Option (List ℕ) };
    /// A write returned an error, or took no byte of a piece that is not empty.
    ghost failed: { Self → Bool };

    /// Takes bytes from the front of the piece, and returns how many.
    fn write_some(&mut self, piece: &[u8]) -> io::Result<usize>
        ensures bound { WritesAtMost result piece.now }
        ensures bytes { WriteAppends (taken self.old) (taken self.new) result piece.now }
        ensures failed { failed self.new ≡ (failed self.old || write_fails result piece.now) };
}

/// A writer of std as a `Sink`.
#[derive(Debug, Drop)]
pub struct ToWriter<W: Write> {
    inner: W,
    failed: bool,
}

impl<W: Write> ToWriter<W> {
    /// Returns the writer as one that has not failed.
    pub fn new(inner: W) -> ToWriter<W>
        ensures { result ≡ record { inner = inner; failed = false } }
    {
        ToWriter {
            inner,
            failed: false,
        }
    }
}

impl<W: Write> Sink for ToWriter<W> {
    ghost taken = { λ s. W.contents s.inner };

    ghost failed = { λ s. s.failed };

    fn write_some(&mut self, piece: &[u8]) -> io::Result<usize> {
        match self.inner.write(piece) {
            Ok(count) => {
                if count == 0 && !piece.is_empty() {
                    self.failed = true;
                }
                Ok(count)
            }
            Err(error) => {
                self.failed = true;
                Err(error)
            }
        }
    }
}

/// Writes the whole text, or the part of it that comes before a failed write.
pub fn write_all<W: Sink>(output: &mut W, text: &[u8]) -> Result<(), RunFault>
    ensures whole { OnOk result (Appends (W.taken output.old) (W.taken output.new) text.now) }
    ensures kept { OnOk result (W.failed output.new ≡ W.failed output.old) }
    ensures failed { OnErr result (IsTrue (W.failed output.new)) }
    ensures beginning { OnErr result ((front : List ℕ) × (rest : List ℕ) × (text.now ≡ front ++ rest)
        × (0 < length rest) × Appends (W.taken output.old) (W.taken output.new) front) }
    ensures only { OnErr result (result ≡ Err RunFault.Write) }
{
    let mut rest = text;
    while !rest.is_empty() {
        match output.write_some(rest) {
            Ok(count) if count > 0 => rest = &rest[count..],
            _ => return Err(RunFault::Write),
        }
    }
    Ok(())
}
