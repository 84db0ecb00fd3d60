//! Reads readers to their end.
ghost use Rattle.std.specs.Prelude.{◌≡◌, ◌≢◌, ◌||◌, Bool, Err, IfOk, IfSome, IsTrue, List, OnOk, Option, false, ℕ};
ghost use Rattle.std.specs.Io.{KnownBytes.ReadConsumes, ReadsAtMost};
ghost use Rattle.filterset_json.specs.Marks.{read_fails, read_ends};

use crate::fault::RunFault;
use std::alloc::Global;
use std::io;
use std::io::Read;

/// A reader that counts as failed after the first read that fails, and as ended after the first that finds the end.
pub trait Source {
    /// The bytes that are left, if they are known.
    ghost left: { Self → Option (List ℕ) };
    /// A read returned an error.
    ghost failed: { Self → Bool };
    /// A read returned no byte for a buffer that is not empty.
    ghost ended: { Self → Bool };

    /// Reads at most as many bytes as the buffer has room for, and returns how many: none at the end, or if there is no
    /// room.
    fn read_some(&mut self, buf: &mut [u8]) -> io::Result<usize>
        ensures bound { ReadsAtMost result buf.new }
        ensures bytes { ReadConsumes (left self.old) (left self.new) result buf.new }
        ensures failed { failed self.new ≡ (failed self.old || read_fails result) }
        ensures ended { ended self.new ≡ (ended self.old || read_ends result buf.new) };
}

/// A reader of std as a `Source`.
#[derive(Debug, Drop)]
pub struct FromReader<R: Read> {
    inner: R,
    failed: bool,
    ended: bool,
}

impl<R: Read> FromReader<R> {
    /// Returns the reader as one that has neither failed nor ended.
    pub fn new(inner: R) -> FromReader<R>
        ensures { result ≡ record { inner = inner; failed = false; ended = false } }
    {
        FromReader {
            inner,
            failed: false,
            ended: false,
        }
    }
}

impl<R: Read> Source for FromReader<R> {
    ghost left = { λ s. R.remaining s.inner };

    ghost failed = { λ s. s.failed };

    ghost ended = { λ s. s.ended };

    fn read_some(&mut self, buf: &mut [u8]) -> io::Result<usize> {
        let room = !buf.is_empty();
        match self.inner.read(buf) {
            Ok(count) => {
                if room && count == 0 {
                    self.ended = true;
                }
                Ok(count)
            }
            Err(error) => {
                self.failed = true;
                Err(error)
            }
        }
    }
}

/// How many bytes to ask for at a time.
const PIECE: usize = 16 * 1024;

/// Reads all bytes up to the reader's end. On a reader without end, it runs out of memory.
pub fn read_all<R: Source>(alloc: Global, input: &mut R) -> Result<Vec<u8>, RunFault>
    ensures whole { IfOk result
        (λ bytes. IfSome (R.left input.old) (λ left. bytes.items ≡ left)) }
    ensures ended { OnOk result (IsTrue (R.ended input.new)) }
    ensures kept { result ≢ Err RunFault.Read → R.failed input.new ≡ R.failed input.old }
    ensures failed { result ≡ Err RunFault.Read → IsTrue (R.failed input.new) }
    ensures no_write { result ≢ Err RunFault.Write }
{
    let mut bytes = Vec::new(alloc);
    let mut piece = [0u8; PIECE];
    loop {
        let Ok(count) = input.read_some(&mut piece) else {
            return Err(RunFault::Read);
        };
        if count == 0 {
            return Ok(bytes);
        }
        bytes.extend_from_slice(&piece[..count])?;
    }
}
