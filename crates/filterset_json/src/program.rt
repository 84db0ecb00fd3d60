//! Runs programs that read a record and write a report.
ghost use Rattle.std.specs.Prelude.{◌≡◌, ◌≢◌, Err, IfErr, IfOk, IsTrue, List, OnOk, string_bytes, ℕ};
ghost use Rattle.filterset_json.specs.Runs.{IsBegun, IsWritten, ending_status};

use crate::fault::RunFault;
use crate::sink::{Sink, ToWriter, write_all};
use crate::source::{FromReader, Source, read_all};
use std::alloc::{AllocError, Global};
use std::process::ExitCode;

/// A program that reads a record and writes a report.
pub trait Program {
    /// What a report says about its record as a whole.
    type Outcome: Copy;

    /// The text is a report of a record with these bytes, and this is its outcome.
    ghost reports: { List ℕ → List ℕ → Self.Outcome → Type 0 };
    /// The exit status for an outcome.
    ghost status_of: { Self.Outcome → ℕ };

    /// Makes the report of a record, and returns its outcome. The only error is out of memory.
    fn report(alloc: Global, bytes: &[u8]) -> Result<(String, Self::Outcome), AllocError>
        ensures { IfOk result (λ made. reports bytes.now (string_bytes made.0) made.1) };

    /// Returns the exit status for an outcome.
    fn status(outcome: Self::Outcome) -> u8
        ensures { result ≡ status_of outcome };
}

/// Reads a record to its end, makes its report, and then writes the report. Fails if a read or a write fails, or out of
/// memory.
pub fn run<P: Program, R: Source, W: Sink>(
    alloc: Global,
    input: &mut R,
    output: &mut W,
) -> Result<P::Outcome, RunFault>
    // The report of what was read is written, and nothing else.
    ensures report { IfOk result
        (IsWritten P.reports (R.left input.old) (W.taken output.old) (W.taken output.new)) }
    // After a failed write, a beginning of such a report is written, and not the whole.
    ensures beginning { result ≡ Err RunFault.Write
        → IsBegun P.reports (R.left input.old) (W.taken output.old) (W.taken output.new) }
    // After every other fault, nothing is written.
    ensures silent { IfErr result (λ fault. fault ≢ RunFault.Write → output.new ≡ output.old) }

    ensures ended { OnOk result (IsTrue (R.ended input.new)) }
    ensures none_failed { OnOk result ((R.failed input.new ≡ R.failed input.old)
        × (W.failed output.new ≡ W.failed output.old)) }
    ensures read_failed { result ≡ Err RunFault.Read → IsTrue (R.failed input.new) }
    ensures write_failed { result ≡ Err RunFault.Write → IsTrue (W.failed output.new) }
{
    let bytes = read_all(alloc, input)?;
    let (text, outcome) = P::report(alloc, bytes.as_slice())?;
    write_all(output, text.as_bytes())?;
    Ok(outcome)
}

/// Returns the exit status of a run: the status of its outcome, or 3 if it failed.
pub fn status<P: Program>(ended: Result<P::Outcome, RunFault>) -> u8
    ensures { result ≡ ending_status P.status_of ended }
{
    match ended {
        Ok(outcome) => P::status(outcome),
        Err(_) => 3,
    }
}

/// Runs the program from standard input to standard output. Writes a fault to standard error.
pub fn execute<P: Program>(rt: HostRuntime) -> ExitCode {
    let mut input = FromReader::new(rt.stdin());
    let mut output = ToWriter::new(rt.stdout());
    let ended = run::<P, _, _>(rt.alloc(), &mut input, &mut output);
    if let Err(fault) = ended {
        // A line that cannot be written changes nothing.
        let _ = eprintln!(rt; "{fault}");
    }
    ExitCode::from(status::<P>(ended))
}
