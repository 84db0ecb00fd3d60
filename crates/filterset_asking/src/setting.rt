//! The warnings of texts under a setting.
ghost use Rattle.std.specs.Prelude.{◌≡◌, ◌==◌, ◌+◌, ◌++◌, [], IfOk, OnOk, if◌then◌else◌, map, string_bytes};
ghost use Rattle.std.specs.List.{count_by};
ghost use Rattle.filterset_entries.specs.Checked.{text_row};
ghost use Rattle.filterset_answers.specs.Compiled.{AreFiltersets};
ghost use Rattle.filterset_asking.specs.Warnings.{AnswersWarnings, is_skipped, skipped_line, summary, warned_ending};

use crate::texts::{WarningContext, warn_texts};
use filterset_answers::{CompiledTexts, QuestionFiltersets, compile_texts, group_overrides};
use filterset_display::Form;
use filterset_entries::{Answer, Ending, Setting, TextEntry, WarningEnd};
use filterset_listing::{AskedBinary, subjects_of};
use nextest_filtering::{EvalContext, ParseContext};
use std::alloc::{AllocError, Global};
use std::fmt::Write;

/// Returns how a command ends after this many warnings, if they are denied or not.
fn warned_ending(denies: bool, count: usize) -> Ending
    ensures { result ≡ warned_ending denies count }
{
    if denies && count != 0 {
        Ending::Faulty
    } else {
        Ending::Fine
    }
}

/// Returns how many of these binaries were skipped.
fn count_skipped(binaries: &[AskedBinary<'_>]) -> usize
    ensures { result ≡ count_by is_skipped binaries.now }
{
    binaries.iter().filter(|binary| binary.is_skipped).count()
}

/// Writes of how many binaries the tests are not known, if there are any.
fn push_skipped(output: &mut String, skipped: usize) -> Result<(), AllocError>
    ensures { OnOk result (string_bytes output.new ≡ string_bytes output.old ++ skipped_line skipped) }
{
    if skipped == 0 {
        Ok(())
    } else if skipped == 1 {
        output.push_str("not checked: tests of 1 skipped binary\n")
    } else {
        writeln!(output, "not checked: tests of {skipped} skipped binaries")?;
        Ok(())
    }
}

/// Writes for people of how many binaries the tests are not known, and how many warnings there are.
fn push_summary(
    output: &mut String,
    form: Form,
    skipped: usize,
    count: usize,
) -> Result<(), AllocError>
    ensures { OnOk result (string_bytes output.new ≡ string_bytes output.old ++ summary form skipped count) }
{
    match form {
        Form::Drawn(_) => {
            push_skipped(output, skipped)?;
            writeln!(output, "warnings: {count}")?;
            Ok(())
        }
        Form::Json | Form::Github => Ok(()),
    }
}

/// Ends the text of warnings, which are so many: for people by a summary.
fn end_warnings(
    text: String,
    form: Form,
    denies: bool,
    skipped: usize,
    count: usize,
) -> Result<Answer, AllocError>
    ensures text { IfOk result (λ answer. string_bytes answer.text ≡ string_bytes text ++ summary form skipped count) }
    ensures ending { IfOk result (λ answer. answer.ending ≡ warned_ending denies count) }
{
    let mut text = text;
    push_summary(&mut text, form, skipped, count)?;
    Ok(Answer {
        text,
        ending: warned_ending(denies, count),
    })
}

/// Makes the answer that there are so many warnings, or an empty one if there are none.
pub fn count_warnings(alloc: Global, form: Form, end: WarningEnd) -> Result<Answer, AllocError>
    ensures text { IfOk result (λ answer.
        string_bytes answer.text ≡ (if end.before == 0 then [] else summary form 0 end.before)) }
    ensures ending { IfOk result (λ answer. answer.ending ≡ warned_ending end.denies end.before) }
{
    let text = String::new(alloc);
    if end.before == 0 {
        let ending = warned_ending(end.denies, end.before);
        return Ok(Answer { text, ending });
    }
    end_warnings(text, form, end.denies, 0, end.before)
}

/// The texts of which there are warnings, how these are written, and how they end the command.
#[derive(Clone, Copy)]
pub struct WarnedTexts<'t> {
    pub form: Form,
    pub end: WarningEnd,
    pub entries: &'t [TextEntry<'t>],
}

/// Writes the warnings of texts by the filtersets of a setting.
fn warn_by<'s>(
    alloc: Global,
    texts: WarnedTexts<'_>,
    setting: &'s Setting<'_>,
    filtersets: &'s QuestionFiltersets,
    binaries: &'s [AskedBinary<'_>],
) -> Result<Answer, AllocError>
    requires { AreFiltersets setting.now.graph.now setting.now.groups.now setting.now [] filtersets.now }
    ensures { IfOk result (λ answer. AnswersWarnings texts.entry.form texts.entry.end setting.now
        (map text_row texts.entry.entries.now) binaries.now answer.ending (string_bytes answer.text)) }
{
    let compiled = &filtersets.setting;
    let eval_context = EvalContext::new(&compiled.default.compiled);
    let overrides = group_overrides(alloc, setting.overrides, compiled.overrides.as_slice())?;
    let subjects = subjects_of(alloc, overrides.as_slice(), &eval_context, binaries)?;
    let cx = WarningContext {
        form: texts.form,
        parse_context: ParseContext::new(alloc, setting.graph)?,
        known_groups: setting.groups,
        eval_context,
        subjects,
    };
    let mut text = String::new(alloc);
    let count = warn_texts(&mut text, alloc, &cx, texts.entries)?;
    let total = texts.end.total(count)?;
    let skipped = count_skipped(binaries);
    let answer = end_warnings(text, texts.form, texts.end.denies, skipped, total)?;
    Ok(answer)
}

/// Writes the warnings of texts under a setting, by the tests of these binaries, and for people a summary. If a text of the
/// setting has faults, it writes nothing.
pub fn warn_setting(
    alloc: Global,
    texts: WarnedTexts<'_>,
    setting: &Setting<'_>,
    binaries: &[AskedBinary<'_>],
) -> Result<Answer, AllocError>
    ensures { IfOk result (λ answer. AnswersWarnings texts.entry.form texts.entry.end setting.now
        (map text_row texts.entry.entries.now) binaries.now answer.ending (string_bytes answer.text)) }
{
    match compile_texts(alloc, texts.form, setting, &[])? {
        CompiledTexts::Filtersets(filtersets) => {
            warn_by(alloc, texts, setting, &filtersets, binaries)
        }
        CompiledTexts::Faults(_faults) => Ok(Answer {
            text: String::new(alloc),
            ending: Ending::Fine,
        }),
    }
}
