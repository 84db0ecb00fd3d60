//! A run: from a request to its answer, written out.
ghost use Rattle.std.specs.Prelude.{◌≡◌, ◌||◌, IfErr, IfOk, IsTrue, false, true};
ghost use Rattle.filterset_display.specs.Columns.{Text};
ghost use Rattle.filterset_loading.specs.Files.{OrMemory};
ghost use Rattle.filterset.specs.{Requests.IsAnswered, Requests.IsFaultOf, Written.AppendsPart, Written.is_refusal};

use crate::answering::answer;
use crate::output::write_text;
use filterset_entries::Ending;
use filterset_json::{Sink, Source};
use filterset_loading::{CommandFault, FileSource, Request};
use std::alloc::Global;

/// How a request was answered.
#[derive(Clone, Copy, Debug)]
pub struct Outcome {
    pub ending: Ending,
    /// Whether the answer has faults that keep the command from doing what it is asked for.
    pub is_refusal: bool,
    /// Whether all of the answer was written.
    pub is_written: bool,
}

/// Returns whether an answer that ends so has faults that keep the command from doing what it is asked for.
fn is_refusal(request: &Request<'_>, ending: Ending) -> bool
    ensures { result ≡ is_refusal request.now ending }
{
    match (request, ending) {
        (Request::Check { .. }, _) => false,
        (_, Ending::Faulty) => true,
        _ => false,
    }
}

/// Answers a request, and then writes the answer: to `errors` if it has faults that keep the command from doing what it is
/// asked for, and else to `output`. The answer is whole before its first byte is written.
pub fn run<F: FileSource, R: Source, W: Sink, E: Sink>(
    alloc: Global,
    request: &Request<'_>,
    files: &F,
    input: &mut R,
    output: &mut W,
    errors: &mut E,
) -> Result<Outcome, CommandFault>
    ensures refusal { IfOk result (λ run. run.is_refusal ≡ is_refusal request.now run.ending) }
    // If contracts can see the writer's bytes, the answer of the request is written, and nothing else; or, after a failed
    // write, a beginning of it, and not the whole.
    ensures answer { IfOk result (λ run. run.is_refusal ≡ false → (text : Text)
        × IsAnswered (F.content files.now) request.now (R.left input.old) run.ending text
        × AppendsPart run.is_written (W.taken output.old) (W.taken output.new) text × (errors.new ≡ errors.old)) }
    // Faults that keep a command from an answer are written as errors, and nothing to the output.
    ensures faults { IfOk result (λ run. run.is_refusal ≡ true → (text : Text)
        × IsAnswered (F.content files.now) request.now (R.left input.old) run.ending text
        × AppendsPart run.is_written (E.taken errors.old) (E.taken errors.new) text × (output.new ≡ output.old)) }
    // After any other fault, nothing is written.
    ensures silent { IfErr result (λ fault. output.new ≡ output.old) }
    ensures no_errors { IfErr result (λ fault. errors.new ≡ errors.old) }
    // Such a fault, but out of memory, is true of the files, or of standard input and its reader.
    ensures refused { IfErr result (OrMemory
        (IsFaultOf (F.content files.now) (F.fails files.now) request.now (R.left input.old) (R.failed input.new))) }
    ensures none_failed { IfOk result (λ run. R.failed input.new ≡ R.failed input.old) }
    ensures none_unwritten { IfOk result (λ run. run.is_written ≡ true
        → (W.failed output.new ≡ W.failed output.old) × (E.failed errors.new ≡ E.failed errors.old)) }
    ensures write_failed { IfOk result
        (λ run. run.is_written ≡ false → IsTrue (W.failed output.new || E.failed errors.new)) }
{
    let made = answer(alloc, request, files, input)?;
    let ending = made.ending;
    if is_refusal(request, ending) {
        let is_written = write_text(errors, made.text.as_str());
        return Ok(Outcome {
            ending,
            is_refusal: true,
            is_written,
        });
    }
    let is_written = write_text(output, made.text.as_str());
    Ok(Outcome {
        ending,
        is_refusal: false,
        is_written,
    })
}
