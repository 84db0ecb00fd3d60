//! How many tests each override applies to, and how many get each of its settings from it.
ghost use Rattle.std.specs.Prelude.{◌≡◌, ◌==◌, All, IfOk, List, [], not};
ghost use Rattle.std.specs.List.{list_any};
ghost use Rattle.filterset_graph.specs.declared.package.PackageMetadata.{PackageMetadata};
ghost use Rattle.filterset_expression.specs.{Contexts.default_of, declared.expression.CompiledExpr.CompiledExpr};
ghost use Rattle.filterset_overrides.specs.Applied.{AreApplied, overrides_of};
ghost use Rattle.filterset_overrides.specs.Applying.{IsCompiledOf, Test, tests_of};
ghost use Rattle.filterset_overrides.specs.Counting.{EachAfter, IsRow, IsTable};

mod answers;
mod applied;
mod columns;
pub mod text;

use crate::asked::{AskedOverride, ListedBinary};
use crate::counting::answers::count_answers;
use crate::counting::applied::{AppliedOverride, apply_all};
use crate::counting::columns::count_settings;
use crate::keys::keys_of;
use filterset_expression::EvalContext;
use std::alloc::{AllocError, Global};

/// A number of tests.
#[derive(Clone, Copy, Debug, PartialEq, Eq)]
pub struct TestCount {
    /// The tests of which it is known that they count.
    pub sure: usize,
    /// Those of which it is unknown.
    pub unknown: usize,
}

/// An override, and how many tests it applies to.
#[derive(Clone, Copy, Debug)]
pub struct OverrideRow<'o> {
    /// How many overrides are before it.
    pub at: usize,
    pub path: &'o str,
    pub tests: TestCount,
    /// Whether it has a filter, and the filter picks every test. False if there are no tests.
    pub picks_all: bool,
}

/// A setting, and how many tests get it from each override.
#[derive(Debug, Drop)]
pub struct SettingColumn<'o> {
    pub key: &'o str,
    /// By the order of the overrides. `None` for one that does not set the key.
    pub given: Vec<Option<TestCount>>,
}

/// How many tests each override applies to, and how many get each of its settings from it.
#[derive(Debug, Drop)]
pub struct OverrideTable<'o> {
    pub rows: Vec<OverrideRow<'o>>,
    pub columns: Vec<SettingColumn<'o>>,
}

/// Returns the row of each override.
fn rows_of<'o>(
    alloc: Global,
    applied: &[AppliedOverride<'o>],
) -> Result<Vec<OverrideRow<'o>>, AllocError>
    ensures { IfOk result (λ rows. (packages : List PackageMetadata) (default : CompiledExpr) (tests : List Test)
        → AreApplied packages default tests applied.now
        → EachAfter (IsRow packages default tests) [] (overrides_of applied.now) rows.items) }
{
    let mut rows = Vec::with_capacity(alloc, applied.len())?;
    for (at, one) in applied.iter().enumerate() {
        rows.push(OverrideRow {
            at,
            path: one.asked.path,
            tests: count_answers(one.answers.as_slice()),
            picks_all: one.picks_all,
        })?;
    }
    Ok(rows)
}

/// Returns how many of the tests each override applies to, and for each of its settings how many tests get it from the
/// override: those that it applies to, without those that get the setting from an override before it.
///
/// The overrides are in the order in which they go before each other. Each filter is compiled to steps once, and asked
/// once about a binary that it decides. Returns an error only if out of memory.
pub fn count_overrides<'o>(
    alloc: Global,
    overrides: &[AskedOverride<'o>],
    context: &EvalContext<'_>,
    binaries: &[ListedBinary<'_>],
) -> Result<OverrideTable<'o>, AllocError>
    ensures { IfOk result (λ table. (packages : List PackageMetadata) → All (IsCompiledOf packages) overrides.now
        → IsTable packages (default_of context.now) (tests_of binaries.now) overrides.now table) }
{
    // A sum that a `usize` cannot hold counts as out of memory: memory cannot hold so many tests.
    let mut test_count = 0usize;
    for binary in binaries {
        test_count = test_count
            .checked_add(binary.tests.len())
            .ok_or(AllocError)?;
    }
    let applied = apply_all(alloc, overrides, context, binaries)?;
    let rows = rows_of(alloc, &applied)?;
    let keys = keys_of(alloc, overrides, &[])?;
    let columns = count_settings(alloc, &keys, &applied, test_count)?;
    Ok(OverrideTable { rows, columns })
}

/// Returns whether it is unknown of a test whether one of the overrides applies to it.
pub fn any_unknown_test(table: &OverrideTable<'_>) -> bool
    ensures { result ≡ list_any (λ r. not (r.tests.unknown == 0)) table.now.rows.items }
{
    table.rows.iter().any(|row| row.tests.unknown != 0)
}
