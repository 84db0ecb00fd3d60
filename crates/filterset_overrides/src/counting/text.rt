//! The table of overrides, as text.
ghost use Rattle.std.specs.Prelude.{◌≡◌, ◌++◌, IfOk, OnOk, is_some, string_bytes};
ghost use Rattle.std.specs.List.{list_all, list_any};
ghost use Rattle.filterset_overrides.specs.TableText.{count_text, given_at, gives_none, is_overtaken, is_zero, override_table_text, row_line, warning_line, warning_lines};

use crate::counting::{OverrideRow, OverrideTable, SettingColumn, TestCount};
use std::alloc::{AllocError, Global};
use std::fmt::Write;

impl TestCount {
    /// Returns whether there are no tests, known or unknown.
    fn is_zero(&self) -> bool
        ensures { result ≡ is_zero self.now }
    {
        self.sure == 0 && self.unknown == 0
    }
}

impl SettingColumn<'_> {
    /// Returns how many tests get the setting from the override at this place, if it sets it.
    fn given_at(&self, at: usize) -> Option<TestCount>
        ensures { result ≡ given_at at self.now }
    {
        match self.given.get(at) {
            Some(given) => *given,
            None => None,
        }
    }

    /// Returns whether no test gets the setting from the override at this place.
    fn gives_none(&self, at: usize) -> bool
        ensures { result ≡ gives_none (given_at at self.now) }
    {
        match self.given_at(at) {
            Some(count) => count.is_zero(),
            None => true,
        }
    }
}

/// Writes a number of tests, and of how many further tests it is unknown, if there are any.
fn push_count(output: &mut String, count: TestCount) -> Result<(), AllocError>
    ensures { OnOk result (string_bytes output.new ≡ string_bytes output.old ++ count_text count) }
{
    let TestCount { sure, unknown } = count;
    if unknown == 0 {
        return write!(output, "{sure}");
    }
    write!(output, "{sure} (unknown: {unknown})")
}

/// Writes the line of an override.
fn push_row(
    output: &mut String,
    columns: &[SettingColumn<'_>],
    row: &OverrideRow<'_>,
) -> Result<(), AllocError>
    ensures { OnOk result (string_bytes output.new ≡ string_bytes output.old ++ row_line columns.now row.now) }
{
    let path = row.path;
    write!(output, "{path}: tests: ")?;
    push_count(output, row.tests)?;
    for column in columns {
        if let Some(count) = column.given_at(row.at) {
            let key = column.key;
            write!(output, ", {key}: ")?;
            push_count(output, count)?;
        }
    }
    output.push_str("\n")
}

/// Returns whether the override at this place sets something.
fn any_set(columns: &[SettingColumn<'_>], at: usize) -> bool
    ensures { result ≡ list_any (λ c. is_some (given_at at c)) columns.now }
{
    columns.iter().any(|column| column.given_at(at).is_some())
}

/// Returns whether no test gets a setting from the override at this place.
fn none_given(columns: &[SettingColumn<'_>], at: usize) -> bool
    ensures { result ≡ list_all (λ c. gives_none (given_at at c)) columns.now }
{
    columns.iter().all(|column| column.gives_none(at))
}

/// Returns whether the override applies to tests, and sets something, but no test gets a setting from it.
fn is_overtaken(columns: &[SettingColumn<'_>], row: &OverrideRow<'_>) -> bool
    ensures { result ≡ is_overtaken columns.now row.now }
{
    !row.tests.is_zero() && any_set(columns, row.at) && none_given(columns, row.at)
}

/// Writes a warning about the override at this path, if it holds.
fn push_warning(output: &mut String, holds: bool, path: &str, what: &str) -> Result<(), AllocError>
    ensures { OnOk result (string_bytes output.new
        ≡ string_bytes output.old ++ warning_line holds path.now what.now) }
{
    if holds {
        writeln!(output, "warning: {path}: {what}")?;
    }
    Ok(())
}

/// Writes what is odd about an override.
fn push_warnings(
    output: &mut String,
    columns: &[SettingColumn<'_>],
    row: &OverrideRow<'_>,
) -> Result<(), AllocError>
    ensures { OnOk result (string_bytes output.new
        ≡ string_bytes output.old ++ warning_lines columns.now row.now) }
{
    let overtaken = "overrides before it take each of its settings";
    push_warning(output, row.tests.is_zero(), row.path, "applies to no test")?;
    push_warning(output, is_overtaken(columns, row), row.path, overtaken)?;
    push_warning(
        output,
        row.picks_all,
        row.path,
        "its filter picks every test",
    )
}

/// Writes the table of overrides, a line each: to how many tests the override applies, and how many get each of its
/// settings from it. A number of tests of which that is unknown follows in parentheses.
///
/// Below are warnings about overrides that apply to no test, that give no test a setting since overrides before them do,
/// and whose filter picks every test.
///
/// Returns an error only if out of memory.
pub fn override_table_text(alloc: Global, table: &OverrideTable<'_>) -> Result<String, AllocError>
    ensures { IfOk result (λ text. string_bytes text ≡ override_table_text table.now) }
{
    let columns = table.columns.as_slice();
    let mut text = String::new(alloc);
    for row in &table.rows {
        push_row(&mut text, columns, row)?;
    }
    for row in &table.rows {
        push_warnings(&mut text, columns, row)?;
    }
    Ok(text)
}
