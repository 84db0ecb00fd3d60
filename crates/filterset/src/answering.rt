//! The answers to requests.
ghost use Rattle.std.specs.Prelude.{◌≡◌, ◌<◌, IfErr, IfOk, OnOk, map, string_bytes};
ghost use Rattle.filterset_entries.specs.Checked.{text_row};
ghost use Rattle.filterset_loading.specs.{Files.OrMemory, Files.content_of, Words.IsInputFault, Words.input_count};
ghost use Rattle.filterset.specs.Requests.{Answers, AnswersWith, Faults, IsAnswered, IsFaultOf, IsInput, rows_of};

use filterset_asking::{ask, check_texts, format_texts, simplify_texts};
use filterset_display::Source as File;
use filterset_entries::{Answer, Ending, TextEntry, given_entries, line_entries};
use filterset_json::Source;
use filterset_loading::{
    CommandFault, FileSource, INPUT_NAME, Request, Texts, WithInput, read_input,
};
use filterset_verdicts::decide_given;
use nextest_filtering::FiltersetKind;
use std::alloc::{AllocError, Global};

/// Answers a request. It may read standard input and files.
pub fn answer<F: FileSource, R: Source>(
    alloc: Global,
    request: &Request<'_>,
    files: &F,
    input: &mut R,
) -> Result<Answer, CommandFault>
    ensures answered { IfOk result (λ answer. IsAnswered (F.content files.now) request.now (R.left input.old)
        answer.ending (string_bytes answer.text)) }
    ensures refused { IfErr result (OrMemory (IsFaultOf (F.content files.now) (F.fails files.now) request.now
        (R.left input.old) (R.failed input.new))) }
    ensures none_failed { OnOk result (R.failed input.new ≡ R.failed input.old) }
{
    let text = input_of(alloc, request, input)?;
    answer_with(alloc, request, files, text.as_str())
}

/// Reads standard input, if the request is about that.
fn input_of<R: Source>(
    alloc: Global,
    request: &Request<'_>,
    input: &mut R,
) -> Result<String, CommandFault>
    ensures whole { IfOk result (λ text. IsInput request.now (R.left input.old) (string_bytes text)) }
    ensures refused { IfErr result (OrMemory (λ fault. (0 < input_count request.now)
        × IsInputFault (R.left input.old) (R.failed input.new) fault)) }
    ensures none_failed { OnOk result (R.failed input.new ≡ R.failed input.old) }
{
    if request.input_count() > 0 {
        read_input(alloc, input)
    } else {
        Ok(String::new(alloc))
    }
}

/// Makes the entries of the filtersets: the arguments, or the lines of standard input, which is this file.
fn entries_of<'t>(
    alloc: Global,
    kind: FiltersetKind,
    texts: &Texts<'t>,
    file: &'t File<'t>,
) -> Result<Vec<TextEntry<'t>>, AllocError>
    ensures { IfOk result (λ entries. map text_row entries.items ≡ rows_of kind texts.now file.entry) }
{
    match texts {
        Texts::Given(texts) => given_entries(alloc, "argument", kind, texts),
        Texts::StandardInput => line_entries(alloc, file, kind, false),
    }
}

/// Answers a request, where standard input has the text `input`, if the request is about that.
fn answer_with<F: FileSource>(
    alloc: Global,
    request: &Request<'_>,
    files: &F,
    input: &str,
) -> Result<Answer, CommandFault>
    ensures answered { IfOk result (λ answer. Answers (F.content files.now) input.now request.now
        answer.ending (string_bytes answer.text)) }
    ensures refused { IfErr result (OrMemory
        (Faults (content_of (F.content files.now) input.now) (F.fails files.now) request.now)) }
{
    let file = File::new(alloc, INPUT_NAME, input)?;
    let files = WithInput { files, input };
    answer_from(alloc, request, &files, &file)
}

/// Answers a request, where standard input is this file, if the request is about that.
fn answer_from<F: FileSource>(
    alloc: Global,
    request: &Request<'_>,
    files: &F,
    file: &File<'_>,
) -> Result<Answer, CommandFault>
    ensures answered { IfOk result (λ answer. AnswersWith (F.content files.now) file.entry request.now
        answer.ending (string_bytes answer.text)) }
    ensures refused { IfErr result (OrMemory (Faults (F.content files.now) (F.fails files.now) request.now)) }
{
    match request {
        Request::Check {
            kind,
            form,
            texts,
            paths,
        } => {
            let given = entries_of(alloc, *kind, texts, file)?;
            check_texts(alloc, files, *form, paths, given)
        }
        Request::Format { form, texts } => {
            let given = entries_of(alloc, FiltersetKind::Test, texts, file)?;
            Ok(format_texts(alloc, *form, given.as_slice())?)
        }
        Request::Simplify { form, texts } => {
            let given = entries_of(alloc, FiltersetKind::Test, texts, file)?;
            Ok(simplify_texts(alloc, *form, given.as_slice())?)
        }
        Request::Decide(asked) => decide_given(alloc, files, asked),
        Request::Ask(asked) => ask(alloc, files, asked),
        Request::Show(text) => Ok(Answer {
            text: String::from_str(alloc, text)?,
            ending: Ending::Fine,
        }),
    }
}
