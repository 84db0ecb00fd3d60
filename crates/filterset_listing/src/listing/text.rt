//! The tests of a list that a filterset picks, as text.
ghost use Rattle.std.specs.Prelude.{◌≡◌, ◌++◌, IfOk, OnOk, length, string_bytes};
ghost use Rattle.std.specs.List.{count_by, sum_by};
ghost use Rattle.filterset_listing.specs.ListText.{counts_line, has_tests, has_unknown, is_open, list_text, shown_text};
ghost use Rattle.filterset_listing.specs.Listing.{uncounted_of};

use crate::counting::{add_count, push_some};
use crate::listing::BinaryPicks;
use std::alloc::{AllocError, Global};
use std::fmt::Write;

impl BinaryPicks<'_, '_> {
    /// Returns whether the filterset picks tests of the binary.
    fn has_tests(&self) -> bool
        ensures { result ≡ has_tests self.now }
    {
        !self.tests.is_empty()
    }

    /// Returns whether the answer about a test of the binary is unknown.
    pub(crate) fn has_unknown(&self) -> bool
        ensures { result ≡ has_unknown self.now }
    {
        !self.unknown.is_empty()
    }

    /// Returns whether the filterset may pick tests that the list does not have: nextest skipped the binary, and the
    /// filterset does not leave it out.
    pub fn is_open(&self) -> bool
        ensures { result ≡ is_open self.now }
    {
        self.binary.is_skipped && !self.is_left_out
    }
}

/// Writes the id of a binary, and under it the tests that the filterset picks, and those that are unknown.
fn push_shown(output: &mut String, picks: &BinaryPicks<'_, '_>) -> Result<(), AllocError>
    ensures { OnOk result (string_bytes output.new ≡ string_bytes output.old ++ shown_text picks.now) }
{
    let id = picks.binary.query.binary_id.as_str();
    let skipped = if picks.is_open() {
        "    (skipped)\n"
    } else {
        ""
    };
    write!(output, "{id}:\n{skipped}")?;
    for test in &picks.tests {
        let test = test.as_str();
        writeln!(output, "    {test}")?;
    }
    for unknown in &picks.unknown {
        let test = unknown.test.as_str();
        let path = unknown.path;
        writeln!(output, "    {test} (unknown: platform of {path})")?;
    }
    Ok(())
}

/// Counts the unknown tests.
pub fn unknown_count(all: &[BinaryPicks<'_, '_>]) -> Result<usize, AllocError>
    ensures { IfOk result (λ count. count ≡ sum_by (λ s. length s.unknown.items) all.now) }
{
    let mut count = 0;
    for picks in all {
        count = add_count(count, picks.unknown.len())?;
    }
    Ok(count)
}

/// Counts the tests that do not count.
pub fn uncounted_count(all: &[BinaryPicks<'_, '_>]) -> Result<usize, AllocError>
    ensures { IfOk result (λ count. count ≡ sum_by (λ s. length (uncounted_of s)) all.now) }
{
    let mut count = 0;
    for picks in all {
        count = add_count(count, picks.binary.uncounted.len())?;
    }
    Ok(count)
}

/// Counts the binaries with tests that the filterset picks.
fn binary_count(all: &[BinaryPicks<'_, '_>]) -> usize
    ensures { result ≡ count_by has_tests all.now }
{
    all.iter().filter(|picks| picks.has_tests()).count()
}

/// Counts the binaries that are left out without asking about their tests.
fn left_out_count(all: &[BinaryPicks<'_, '_>]) -> usize
    ensures { result ≡ count_by (λ s. s.is_left_out) all.now }
{
    all.iter().filter(|picks| picks.is_left_out).count()
}

/// Writes how many tests of how many binaries the filterset picks, how many binaries it leaves out, how many tests are
/// unknown, and how many do not count.
fn push_counts(output: &mut String, all: &[BinaryPicks<'_, '_>]) -> Result<(), AllocError>
    ensures { OnOk result (string_bytes output.new ≡ string_bytes output.old ++ counts_line all.now) }
{
    let mut tests = 0;
    for picks in all {
        tests = add_count(tests, picks.tests.len())?;
    }
    let (binaries, left_out) = (binary_count(all), left_out_count(all));
    write!(
        output,
        "tests: {tests}, in binaries: {binaries}, binaries left out without asking: {left_out}"
    )?;
    push_some(output, ", unknown: ", unknown_count(all)?, "")?;
    let uncounted = uncounted_count(all)?;
    push_some(output, ", left out by --run-ignored: ", uncounted, "")?;
    writeln!(output)
}

/// Writes the tests that a filterset picks, a line each, under the ids of their binaries, and below them those that are
/// unknown. A binary that nextest skipped is written as skipped, unless it is left out. The last line says how many tests
/// of how many binaries there are, how many binaries were left out without asking about their tests, and, if there are any,
/// how many tests are unknown and how many do not count.
pub fn list_text(alloc: Global, all: &[BinaryPicks<'_, '_>]) -> Result<String, AllocError>
    ensures { IfOk result (λ text. string_bytes text ≡ list_text all.now) }
{
    let mut text = String::new(alloc);
    for picks in all {
        if picks.is_open() || picks.has_tests() || picks.has_unknown() {
            push_shown(&mut text, picks)?;
        }
    }
    push_counts(&mut text, all)?;
    Ok(text)
}
