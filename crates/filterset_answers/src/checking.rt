//! The faults of texts.
ghost use Rattle.std.specs.Prelude.{◌≡◌, ◌++◌, IfOk, OnOk, [], codes, if◌then◌else◌, ℕ, map, string_bytes};
ghost use Rattle.filterset_display.specs.{Columns.Text, Remarks.remark_row};
ghost use Rattle.nextest_filtering.specs.Groups.{IsKnown};
ghost use Rattle.filterset_answers.specs.Answers.{ChecksTexts, FaultsOf, TextFaults, counts_text, has_some, summary};
ghost use Rattle.filterset_entries.specs.{Checked.HasFaults, Checked.text_row, Endings.ending_of};

use filterset_display::{Form, Remark};
use filterset_entries::{Answer, Names, TextEntry, ending_of, faults_of, push_faults};
use std::alloc::{AllocError, Global};
use std::fmt::Write;

/// Returns whether there are faults.
fn has_some(faults: &[Remark]) -> bool
    ensures { result ≡ has_some (map remark_row faults.now) }
{
    match faults {
        [] => false,
        [..] => true,
    }
}

/// Writes the faults of a text, and returns whether it has any.
fn push_text(
    output: &mut String,
    alloc: Global,
    names: &Names<'_>,
    form: Form,
    number: usize,
    entry: &TextEntry<'_>,
) -> Result<bool, AllocError>
    requires { IsKnown names.now.known_groups }
    ensures { IfOk result (λ has. (piece : Text) × (string_bytes output.new ≡ string_bytes output.old ++ piece)
        × TextFaults (HasFaults names.now) form number (text_row entry.now) has piece) }
{
    let faults = faults_of(alloc, names, entry)?;
    push_faults(output, alloc, form, entry, number, faults.as_slice())?;
    Ok(has_some(faults.as_slice()))
}

/// Returns the line that says that names of packages and test binaries are not checked, unless they are.
fn unchecked_packages(are_known: bool) -> &'static str
    ensures { result.now ≡ (if are_known then [] else codes "not checked: names of packages and test binaries\n") }
{
    if are_known {
        ""
    } else {
        "not checked: names of packages and test binaries\n"
    }
}

/// Returns the line that says that names of groups are not checked, unless they are.
fn unchecked_groups(are_known: bool) -> &'static str
    ensures { result.now ≡ (if are_known then [] else codes "not checked: names of test groups\n") }
{
    if are_known {
        ""
    } else {
        "not checked: names of test groups\n"
    }
}

/// Writes for people how many texts there are, how many of them have faults, and which names are not checked.
fn push_counts(
    output: &mut String,
    names: &Names<'_>,
    count: usize,
    faulty: usize,
) -> Result<(), AllocError>
    ensures { OnOk result (string_bytes output.new ≡ string_bytes output.old ++ counts_text names.now count faulty) }
{
    let packages = unchecked_packages(names.has_packages);
    let groups = unchecked_groups(names.has_groups);
    write!(
        output,
        "filtersets: {count}, with faults: {faulty}\n{packages}{groups}"
    )
}

/// Writes the last lines, for people.
fn push_summary(
    output: &mut String,
    names: &Names<'_>,
    form: Form,
    count: usize,
    faulty: usize,
) -> Result<(), AllocError>
    ensures { OnOk result (string_bytes output.new
        ≡ string_bytes output.old ++ summary form names.now count faulty) }
{
    match form {
        Form::Drawn(_) => push_counts(output, names, count, faulty),
        Form::Json | Form::Github => Ok(()),
    }
}

/// Writes the faults of texts, and counts the texts that have any.
fn push_texts(
    output: &mut String,
    alloc: Global,
    names: &Names<'_>,
    form: Form,
    texts: &[TextEntry<'_>],
) -> Result<usize, AllocError>
    requires { IsKnown names.now.known_groups }
    ensures { IfOk result (λ faulty. (piece : Text) × (string_bytes output.new ≡ string_bytes output.old ++ piece)
        × FaultsOf (HasFaults names.now) form 1 (map text_row texts.now) faulty piece) }
{
    let mut faulty = 0;
    for (i, entry) in texts.iter().enumerate() {
        let has = push_text(output, alloc, names, form, i + 1, entry)?;
        faulty += usize::from(has);
    }
    Ok(faulty)
}

/// Checks texts: writes the faults of each, and for people at the end how many texts have faults and which names are not
/// checked. Texts are numbered from 1.
pub fn check(
    alloc: Global,
    names: &Names<'_>,
    form: Form,
    texts: &[TextEntry<'_>],
) -> Result<Answer, AllocError>
    requires { IsKnown names.now.known_groups }
    ensures { IfOk result (λ answer. (faulty : ℕ) × ChecksTexts names.now form (map text_row texts.now) faulty
        (string_bytes answer.text) × (answer.ending ≡ ending_of faulty)) }
{
    let mut text = String::new(alloc);
    let faulty = push_texts(&mut text, alloc, names, form, texts)?;
    push_summary(&mut text, names, form, texts.len(), faulty)?;
    Ok(Answer {
        text,
        ending: ending_of(faulty),
    })
}
