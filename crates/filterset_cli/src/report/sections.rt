//! Writes what a report says about each filterset.
ghost use Rattle.std.specs.Prelude.{◌≡◌, ◌++◌, Bool, IfOk, OnOk, codes, map, string_bytes};
ghost use Rattle.filterset_language.specs.Views.{tree_of};
ghost use Rattle.nextest_filtering.specs.{Compiling.IsFiltersetOf, Groups.IsKnown};
ghost use Rattle.filterset_expression.specs.Meaning.{IsCompiled};
ghost use Rattle.filterset_json.specs.{Pieces.Pieces, Shape.Text};
ghost use Rattle.filterset_cli.specs.Asking.{ForItsColumns, ForItsExpr, IsLookupOf, IsSameExpr};
ghost use Rattle.filterset_cli.specs.{Library.background_of, Library.IsAboutBinary, Lines.answer_text};
ghost use Rattle.filterset_cli.specs.Report.{Accepted, BinaryLines, Section, Sections, TestLine, outcome_of, printed_line};
ghost use Rattle.filterset_record.specs.{Record.FiltersetRow, Rows.binary_row, Rows.filterset_row, Rows.test_row};

use crate::listed::ListedBinary;
use crate::lookup::RecordLookup;
use crate::report::ReportOutcome;
use crate::report::faults::push_faults;
use crate::report::setting::{Setting, query_of};
use filterset_record::{BinaryEntry, ColumnExpr, Command, FiltersetEntry};
use nextest_filtering::{BinaryQuery, Filterset, FlatExpr, laws};
use std::alloc::{AllocError, Global};
use std::fmt::Write;

/// Adds the line of a binary, which has the answer `told`.
fn push_binary_line(
    lines: &mut String,
    binary: &BinaryEntry,
    told: Option<bool>,
) -> Result<(), AllocError>
    ensures { OnOk result (string_bytes lines.new ≡ string_bytes lines.old ++ (codes "  binary "
        ++ (binary.now.id ++ (codes ": " ++ (answer_text told ++ codes "\n"))))) }
{
    let answer = match told {
        Some(true) => "yes",
        Some(false) => "no",
        None => "unknown",
    };
    let id = binary.id.as_str();
    writeln!(lines, "  binary {id}: {answer}")
}

/// Adds the lines of a binary's tests, and asks for all of them at once. Copies the lines of tests in a row that have the
/// same answer together.
fn push_asked_tests(
    lines: &mut String,
    alloc: Global,
    columns: &mut ColumnExpr<'_>,
    lookup: &RecordLookup<'_>,
    asked: &BinaryQuery<'_>,
    listed: &ListedBinary<'_>,
) -> Result<(), AllocError>
    requires about { IsAboutBinary asked.now (binary_row listed.now.binary.now) }
    ensures lines { OnOk result ((text : Text) × (string_bytes lines.new ≡ string_bytes lines.old ++ text)
        × ForItsExpr columns.old (λ background tree. IsLookupOf background.binaries lookup.now
        → Pieces (TestLine background tree (binary_row listed.now.binary.now))
        (map test_row listed.now.binary.now.tests.items) text)) }
    ensures same { IsSameExpr columns.old columns.new }
{
    let column = columns.matches_tests(alloc, asked, &listed.names, lookup)?;
    let mut position = 0;
    while position < column.len() {
        let end = column.run_end(position);
        lines.push_str(listed.lines_between(column.get(position), position, end))?;
        position = end;
    }
    Ok(())
}

/// Adds the lines of a binary: its own, and one for each of its tests. Asks about the binary once, and only then about its
/// tests if they differ.
fn push_binary(
    lines: &mut String,
    alloc: Global,
    flat: &FlatExpr<'_>,
    columns: &mut ColumnExpr<'_>,
    lookup: &RecordLookup<'_>,
    listed: &ListedBinary<'_>,
) -> Result<(), AllocError>
    ensures lines { OnOk result ((text : Text) × (string_bytes lines.new ≡ string_bytes lines.old ++ text)
        × ForItsColumns flat.now columns.old (λ background tree. IsLookupOf background.binaries lookup.now
        → BinaryLines background tree (binary_row listed.now.binary.now) text)) }
    ensures same { IsSameExpr columns.old columns.new }
{
    let asked = query_of(listed.binary);
    let told = flat.matches_binary(alloc, &asked)?;
    push_binary_line(lines, listed.binary, told)?;
    match told {
        Some(answer) => {
            lines.push_str(listed.lines_between(answer, 0, listed.binary.tests.len()))
        }
        None => push_asked_tests(lines, alloc, columns, lookup, &asked, listed),
    }
}

/// Adds what an accepted filterset says about the binaries. Compiles it to steps once, and only if there are binaries.
fn push_asked(
    lines: &mut String,
    alloc: Global,
    setting: &Setting<'_, '_>,
    filterset: &Filterset,
) -> Result<(), AllocError>
    requires { let background = background_of setting.now in
        IsCompiled background.packages (tree_of filterset.now.parsed) filterset.now.compiled }
    ensures { let tree = tree_of filterset.now.parsed in
        let background = background_of setting.now in
        OnOk result ((text : Text) × Pieces (BinaryLines background tree) background.binaries text
        × (string_bytes lines.new ≡ string_bytes lines.old ++ text)) }
{
    let binaries = setting.lookup.binaries;
    if binaries.is_empty() {
        return Ok(());
    }
    let flat = FlatExpr::new(alloc, &filterset.compiled, &setting.eval_context)?;
    let mut columns = ColumnExpr::new(alloc, &filterset.compiled, setting.eval_context);
    for listed in &setting.lookup.listed {
        push_binary(lines, alloc, &flat, &mut columns, &setting.lookup, listed)?;
    }
    Ok(())
}

/// Adds the line of an accepted filterset: `done` says what was done with it, before its text as it prints.
fn push_printed(
    lines: &mut String,
    index: usize,
    done: &str,
    filterset: &Filterset,
) -> Result<(), AllocError>
    ensures { OnOk result (string_bytes lines.new
        ≡ string_bytes lines.old ++ printed_line done.now index (tree_of filterset.now.parsed)) }
{
    let printed = &filterset.parsed;
    writeln!(lines, "filterset {index} {done}: {printed}")
}

/// Adds what the command asks for about an accepted filterset. The text that it prints is a filterset of the same kind, with
/// the same tree.
fn push_by_command(
    lines: &mut String,
    alloc: Global,
    setting: &Setting<'_, '_>,
    index: usize,
    filterset: &Filterset,
) -> Result<(), AllocError>
    requires { let background = background_of setting.now in
        IsCompiled background.packages (tree_of filterset.now.parsed) filterset.now.compiled }
    ensures { let background = background_of setting.now in
        let tree = tree_of filterset.now.parsed in
        OnOk result ((section : Text) × (string_bytes lines.new ≡ string_bytes lines.old ++ section)
        × ((row : FiltersetRow) → IsFiltersetOf row.text row.kind background.packages background.groups tree
        → Accepted setting.now.command background index row tree section)) }
{
    match setting.command {
        Command::Report => {
            push_printed(lines, index, "accepted", filterset)?;
            push_asked(lines, alloc, setting, filterset)
        }
        Command::Format => {
            laws::printed_is_a_filterset(&filterset.parsed);
            push_printed(lines, index, "formatted", filterset)
        }
    }
}

/// Adds the section of a filterset, and returns whether the filterset is accepted.
fn push_section(
    lines: &mut String,
    alloc: Global,
    setting: &Setting<'_, '_>,
    index: usize,
    filterset: FiltersetEntry,
) -> Result<bool, AllocError>
    requires { IsKnown setting.now.known_groups }
    ensures { IfOk result (λ accepted. (section : Text)
        × Section setting.now.command (background_of setting.now) index (filterset_row filterset) accepted section
        × (string_bytes lines.new ≡ string_bytes lines.old ++ section)) }
{
    let FiltersetEntry { text, kind } = filterset;
    let known_groups = &setting.known_groups;
    match Filterset::parse(alloc, text, &setting.parse_context, kind, known_groups) {
        Ok(filterset) => {
            push_by_command(lines, alloc, setting, index, &filterset)?;
            Ok(true)
        }
        Err(refusal) => {
            let refused = refusal.into_faults()?;
            write!(lines, "filterset {index} refused: ")?;
            push_faults(lines, refused.errors.as_slice())?;
            Ok(false)
        }
    }
}

/// Writes the section of each filterset, and returns whether all are accepted.
pub fn report_sections(
    alloc: Global,
    setting: &Setting<'_, '_>,
    filtersets: Vec<FiltersetEntry>,
) -> Result<(String, ReportOutcome), AllocError>
    requires { IsKnown setting.now.known_groups }
    ensures { IfOk result (λ made. (all : Bool)
        × Sections setting.now.command (background_of setting.now) 0 (map filterset_row filtersets.items) all
        (string_bytes made.0)
        × (made.1 ≡ outcome_of all)) }
{
    let mut lines = String::new(alloc);
    let mut all_accepted = true;
    for (index, filterset) in filtersets.into_iter().enumerate() {
        all_accepted &= push_section(&mut lines, alloc, setting, index, filterset)?;
    }
    let outcome = if all_accepted {
        ReportOutcome::AllAccepted
    } else {
        ReportOutcome::SomeRefused
    };
    Ok((lines, outcome))
}
