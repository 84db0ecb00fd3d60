//! Standard output and standard error.
ghost use Rattle.std.specs.Prelude.{◌≡◌, IsTrue, false, true};
ghost use Rattle.filterset.specs.Written.{AppendsPart};

use filterset_json::{Sink, write_all};
use std::io;
use std::io::Write;

/// A writer that keeps why a write failed.
#[derive(Drop)]
pub struct HostOutput<W: Write> {
    inner: W,
    failure: Option<io::Error>,
}

impl<W: Write + Drop> HostOutput<W> {
    /// Returns the writer as one that has not failed.
    pub fn new(inner: W) -> HostOutput<W> {
        HostOutput {
            inner,
            failure: None,
        }
    }

    /// Returns why the last write that failed did, but not if nobody reads what is written.
    pub fn into_failure(self) -> Option<io::Error> {
        let HostOutput {
            inner: _inner,
            failure,
        } = self;
        match failure {
            Some(error) if error.kind() == io::ErrorKind::BrokenPipe => None,
            other => other,
        }
    }
}

impl<W: Write> Sink for HostOutput<W> {
    ghost use Rattle.std.specs.Prelude.{is_some};

    ghost taken = { λ s. W.contents s.inner };

    ghost failed = { λ s. is_some s.failure };

    fn write_some(&mut self, piece: &[u8]) -> io::Result<usize> {
        match self.inner.write(piece) {
            Ok(count) => {
                if count == 0 && !piece.is_empty() {
                    self.failure = Some(io::Error::from(io::ErrorKind::WriteZero));
                }
                Ok(count)
            }
            Err(error) => {
                let kind = error.kind();
                self.failure = Some(error);
                Err(io::Error::from(kind))
            }
        }
    }
}

/// Writes a text, and returns whether all of it was written.
pub fn write_text<W: Sink>(output: &mut W, text: &str) -> bool
    ensures written { AppendsPart result (W.taken output.old) (W.taken output.new) text.now }
    ensures kept { result ≡ true → W.failed output.new ≡ W.failed output.old }
    ensures failed { result ≡ false → IsTrue (W.failed output.new) }
{
    match write_all(output, text.as_bytes()) {
        Ok(()) => true,
        Err(_) => false,
    }
}
