//! How two filtersets differ on a list, as text.
ghost use Rattle.std.specs.Prelude.{◌≡◌, ◌++◌, IfOk, List, OnOk, length, map, string_bytes};
ghost use Rattle.std.specs.List.{AllZip, flat_map, list_any, sum_by};
ghost use Rattle.filterset_expression.specs.declared.expression.CompiledExpr.{CompiledExpr};
ghost use Rattle.filterset_faults.specs.declared.span.SourceSpan.{SourceSpan};
ghost use Rattle.filterset_graph.specs.declared.package.PackageMetadata.{PackageMetadata};
ghost use Rattle.filterset_grammar.specs.Tree.{Tree};
ghost use Rattle.filterset_listing.specs.Comparing.{IsBinaryDifference, TellsDifference, TellsUnknown, tests_in};
ghost use Rattle.filterset_listing.specs.ComparisonText.{comparison_text, differs, has_unknown, part_text};
ghost use Rattle.filterset_listing.specs.Pickers.{expr_picker, tree_picker};
ghost use Rattle.filterset_listing.specs.declared.{binary.AskedBinary.AskedBinary, groups.GroupOverride.GroupOverride};

use crate::comparing::skipped::push_skipped;
use crate::comparing::{BinaryDifference, Part};
use crate::counting::{add_count, push_some};
use filterset_graph::TestCaseName;
use std::alloc::{AllocError, Global};
use std::fmt::Write;

impl<'s> BinaryDifference<'s> {
    /// Returns the tests of one part.
    fn part(&self, part: Part) -> &[&'s TestCaseName]
        ensures { map (λ t. t.now) result.now ≡ tests_in part self.now }
    {
        match part {
            Part::OnlyFirst => self.first.as_slice(),
            Part::OnlySecond => self.second.as_slice(),
            Part::Both => self.both.as_slice(),
            Part::Unknown => self.unknown.as_slice(),
        }
    }

    /// Returns whether one filterset picks a test that the other does not, or may pick one that nextest did not list.
    fn differs(&self) -> bool
        ensures { result ≡ differs self.now }
    {
        !self.first.is_empty()
            || !self.second.is_empty()
            || self.is_skipped_in(Part::OnlyFirst)
            || self.is_skipped_in(Part::OnlySecond)
            || self.is_skipped_in(Part::Unknown)
    }

    /// Returns whether a test of the binary is unknown to one of the filtersets.
    fn has_unknown(&self) -> bool
        ensures { result ≡ has_unknown self.now }
    {
        !self.unknown.is_empty()
    }
}

/// Writes the number of the tests of one part, and with `has_names` the tests.
fn push_part(
    output: &mut String,
    all: &[BinaryDifference<'_>],
    heading: &str,
    part: Part,
    has_names: bool,
) -> Result<(), AllocError>
    ensures { OnOk result (string_bytes output.new
        ≡ string_bytes output.old ++ part_text has_names heading.now part all.now) }
{
    let mut count = 0;
    for counted in all {
        count = add_count(count, counted.part(part).len())?;
    }
    writeln!(output, "{heading}: {count}")?;
    if has_names {
        for difference in all {
            let id = difference.binary.query.binary_id.as_str();
            for test in difference.part(part) {
                let test = test.as_str();
                writeln!(output, "    {id} {test}")?;
            }
        }
    }
    Ok(())
}

/// Counts the tests that do not count.
fn uncounted_count(all: &[BinaryDifference<'_>]) -> Result<usize, AllocError>
    ensures { IfOk result (λ count. count ≡ sum_by (λ d. length d.binary.uncounted.now) all.now) }
{
    let mut count = 0;
    for difference in all {
        count = add_count(count, difference.binary.uncounted.len())?;
    }
    Ok(count)
}

/// Writes how many tests only the first filterset picks, how many only the second, and how many both, and how many are
/// unknown to one of the filtersets, if there are any. With `has_names` it writes the tests under each number, a line each,
/// after the id of their binary.
///
/// Below this it writes how many binaries that nextest skipped only the first filterset picks, how many only the second,
/// and how many were not compared, because one of the filtersets does not decide them. It leaves out a number that is 0.
/// With `has_names` it writes the ids of the binaries under each number. Last it writes how many tests do not count, if there
/// are any.
pub fn comparison_text(
    alloc: Global,
    all: &[BinaryDifference<'_>],
    has_names: bool,
) -> Result<String, AllocError>
    ensures { IfOk result (λ text. string_bytes text ≡ comparison_text has_names all.now) }
{
    let mut text = String::new(alloc);
    push_part(&mut text, all, "only A", Part::OnlyFirst, has_names)?;
    push_part(&mut text, all, "only B", Part::OnlySecond, has_names)?;
    push_part(&mut text, all, "both", Part::Both, has_names)?;
    if has_any_unknown(all) {
        push_part(&mut text, all, "unknown", Part::Unknown, has_names)?;
    }
    push_skipped(
        &mut text,
        all,
        "skipped binaries that only A picks",
        Part::OnlyFirst,
        has_names,
    )?;
    push_skipped(
        &mut text,
        all,
        "skipped binaries that only B picks",
        Part::OnlySecond,
        has_names,
    )?;
    push_skipped(
        &mut text,
        all,
        "skipped binaries that were not compared",
        Part::Unknown,
        has_names,
    )?;
    let uncounted = uncounted_count(all)?;
    push_some(&mut text, "left out by --run-ignored: ", uncounted, "\n")?;
    Ok(text)
}

/// Returns whether one of the two filtersets picks a test that the other does not, or may pick one that nextest did not
/// list: they do not decide a skipped binary alike. Tests that are unknown to one of them do not count.
pub fn differ(all: &[BinaryDifference<'_>]) -> bool
    ensures value { result ≡ list_any differs all.now }
    ensures picks { (default one other : CompiledExpr) (overrides : List GroupOverride) (binaries : List AskedBinary)
        → AllZip (IsBinaryDifference (expr_picker default overrides one) (expr_picker default overrides other))
        binaries all.now
        → TellsDifference (expr_picker default overrides one) (expr_picker default overrides other) binaries result }
    ensures meaning { (packages : List PackageMetadata) (default : CompiledExpr) (overrides : List GroupOverride)
        (one other : Tree SourceSpan) (binaries : List AskedBinary)
        → AllZip (IsBinaryDifference (tree_picker packages default overrides one)
        (tree_picker packages default overrides other)) binaries all.now
        → TellsDifference (tree_picker packages default overrides one) (tree_picker packages default overrides other)
        binaries result }
{
    all.iter().any(|difference| difference.differs())
}

/// Returns whether a test of the binaries is unknown.
fn has_any_unknown(all: &[BinaryDifference<'_>]) -> bool
    ensures { result ≡ list_any has_unknown all.now }
{
    all.iter().any(|difference| difference.has_unknown())
}

/// Returns whether a test is unknown to one of the two filtersets, because the platform of an override is.
pub fn any_unknown(all: &[BinaryDifference<'_>]) -> bool
    ensures value { result ≡ list_any has_unknown all.now }
    ensures picks { (default one other : CompiledExpr) (overrides : List GroupOverride) (binaries : List AskedBinary)
        → AllZip (IsBinaryDifference (expr_picker default overrides one) (expr_picker default overrides other))
        binaries all.now
        → TellsUnknown (expr_picker default overrides one) (expr_picker default overrides other) binaries result }
    ensures meaning { (packages : List PackageMetadata) (default : CompiledExpr) (overrides : List GroupOverride)
        (one other : Tree SourceSpan) (binaries : List AskedBinary)
        → AllZip (IsBinaryDifference (tree_picker packages default overrides one)
        (tree_picker packages default overrides other)) binaries all.now
        → TellsUnknown (tree_picker packages default overrides one) (tree_picker packages default overrides other)
        binaries result }
{
    has_any_unknown(all)
}
