//! Filtersets as they print, or simplified.
ghost use Rattle.std.specs.Prelude.{◌≡◌, ◌++◌, IfOk, ℕ, map, string_bytes};
ghost use Rattle.filterset_display.specs.Columns.{Text};
ghost use Rattle.filterset_answers.specs.Answers.{TextFaults};
ghost use Rattle.filterset_asking.specs.Formatted.{FormatsTexts, FormattedPart, IsRewritten, RewritesTexts, SimplifiesTexts};
ghost use Rattle.filterset_entries.specs.{Checked.HasReadingFaults, Checked.text_row, Endings.ending_of};
ghost use Rattle.filterset_language.specs.Views.{tree_of};

use filterset_deciding::simplify;
use filterset_display::Form;
use filterset_entries::{Answer, TextEntry, ending_of, fault_remarks, push_faults};
use filterset_rewriting::read_text;
use nextest_filtering::ParsedExpr;
use std::alloc::{AllocError, Global};
use std::fmt::Write;

/// How filtersets are written.
#[derive(Clone, Copy, Debug)]
pub enum Rewriting {
    /// As they print.
    Printed,
    /// Without what changes nothing for every test.
    Simplified,
}

/// Returns a tree as it is to be printed.
fn rewrite(alloc: Global, rewriting: Rewriting, tree: ParsedExpr) -> Result<ParsedExpr, AllocError>
    ensures { IfOk result (λ new. IsRewritten rewriting (tree_of tree) (tree_of new)) }
{
    match rewriting {
        Rewriting::Printed => Ok(tree),
        Rewriting::Simplified => simplify(alloc, &tree),
    }
}

/// What is written of texts: the lines of those that parse, and the faults of the others.
#[derive(Drop)]
struct RewrittenTexts {
    lines: String,
    faults: String,
}

/// Writes a text as it prints, or its faults, and returns whether it has any.
fn push_text(
    written: &mut RewrittenTexts,
    alloc: Global,
    form: Form,
    rewriting: Rewriting,
    number: usize,
    entry: &TextEntry<'_>,
) -> Result<bool, AllocError>
    ensures { IfOk result (λ has. (line : Text) × (piece : Text)
        × (string_bytes written.new.lines ≡ string_bytes written.old.lines ++ line)
        × (string_bytes written.new.faults ≡ string_bytes written.old.faults ++ piece)
        × FormattedPart rewriting has (text_row entry.now) line
        × TextFaults HasReadingFaults form number (text_row entry.now) has piece) }
{
    match read_text(alloc, entry.text)? {
        Ok(tree) => {
            let rewritten = rewrite(alloc, rewriting, tree)?;
            writeln!(written.lines, "{rewritten}")?;
            Ok(false)
        }
        Err(refusal) => {
            let remarks = fault_remarks(alloc, &refusal)?;
            let remarks = remarks.as_slice();
            push_faults(&mut written.faults, alloc, form, entry, number, remarks)?;
            Ok(true)
        }
    }
}

/// Writes texts as they print, or simplified, a line each, or their faults.
fn rewrite_texts(
    alloc: Global,
    form: Form,
    rewriting: Rewriting,
    texts: &[TextEntry<'_>],
) -> Result<Answer, AllocError>
    ensures { IfOk result (λ answer. (faulty : ℕ) × RewritesTexts rewriting form (map text_row texts.now) faulty
        (string_bytes answer.text) × (answer.ending ≡ ending_of faulty)) }
{
    let mut written = RewrittenTexts {
        lines: String::new(alloc),
        faults: String::new(alloc),
    };
    let mut faulty = 0;
    for (i, entry) in texts.iter().enumerate() {
        let has = push_text(&mut written, alloc, form, rewriting, i + 1, entry)?;
        faulty += usize::from(has);
    }
    let RewrittenTexts { lines, faults } = written;
    let ending = ending_of(faulty);
    if faulty == 0 {
        return Ok(Answer {
            text: lines,
            ending,
        });
    }
    Ok(Answer {
        text: faults,
        ending,
    })
}

/// Writes texts as they print, a line each. If some do not parse, it writes their faults instead. Texts are numbered from 1.
pub fn format_texts(
    alloc: Global,
    form: Form,
    texts: &[TextEntry<'_>],
) -> Result<Answer, AllocError>
    ensures { IfOk result (λ answer. (faulty : ℕ) × FormatsTexts form (map text_row texts.now) faulty
        (string_bytes answer.text) × (answer.ending ≡ ending_of faulty)) }
{
    rewrite_texts(alloc, form, Rewriting::Printed, texts)
}

/// Writes texts without what changes nothing for every test, a line each, or their faults, as [`format_texts`] does.
pub fn simplify_texts(
    alloc: Global,
    form: Form,
    texts: &[TextEntry<'_>],
) -> Result<Answer, AllocError>
    ensures { IfOk result (λ answer. (faulty : ℕ) × SimplifiesTexts form (map text_row texts.now) faulty
        (string_bytes answer.text) × (answer.ending ≡ ending_of faulty)) }
{
    rewrite_texts(alloc, form, Rewriting::Simplified, texts)
}
