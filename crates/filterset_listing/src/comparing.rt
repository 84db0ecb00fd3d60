//! How two filtersets differ on a list.
ghost use Rattle.std.specs.{Prelude.◌≡◌, Prelude.◌++◌, Prelude.IfOk, Prelude.List, Prelude.OnOk, List.AllZip};
ghost use Rattle.filterset_expression.specs.{Contexts.default_of, FlatExpressions.IsFlat, Meaning.IsCompiled};
ghost use Rattle.filterset_expression.specs.declared.expression.CompiledExpr.{CompiledExpr};
ghost use Rattle.filterset_faults.specs.declared.span.SourceSpan.{SourceSpan};
ghost use Rattle.filterset_graph.specs.declared.package.PackageMetadata.{PackageMetadata};
ghost use Rattle.filterset_grammar.specs.Tree.{Tree};
ghost use Rattle.filterset_listing.specs.Comparing.{IsBinaryDifference, is_of, tests_in};
ghost use Rattle.filterset_listing.specs.{Listing.one_of, Overrides.AreFor, Overrides.AreLaid, Overrides.all_tests};
ghost use Rattle.filterset_listing.specs.Pickers.{expr_picker, tree_picker};
ghost use Rattle.filterset_listing.specs.declared.comparing.Part as parts;
ghost use Rattle.filterset_listing.specs.declared.groups.GroupOverride as declared;

mod skipped;
pub mod text;

use crate::binary::AskedBinary;
use crate::groups::{FlatOverride, GroupOverride, answer, lay_out, told_overrides};
use filterset_expression::{CompiledExpr, EvalContext, FlatExpr, TestQuery};
use filterset_graph::TestCaseName;
use std::alloc::{AllocError, Global};

/// How two filtersets answer about a test, or about a binary that nextest skipped.
#[derive(Clone, Copy, Debug)]
pub enum Part {
    /// Only the first filterset picks it.
    OnlyFirst,
    /// Only the second filterset does.
    OnlySecond,
    /// Both do.
    Both,
    /// At least one of the filtersets does not decide it.
    Unknown,
}

impl Part {
    /// Returns whether these are answers of the part.
    fn is_of(self, first: Option<bool>, second: Option<bool>) -> bool
        ensures { result ≡ is_of self first second }
    {
        match (self, first, second) {
            (Part::OnlyFirst, Some(true), Some(false)) => true,
            (Part::OnlySecond, Some(false), Some(true)) => true,
            (Part::Both, Some(true), Some(true)) => true,
            (Part::Unknown, first, second) => first.is_none() || second.is_none(),
            _ => false,
        }
    }
}

/// How two filtersets differ on a binary: their answers about it, and its tests by the answers about them, in the order of
/// the list.
#[derive(Debug, Drop)]
pub struct BinaryDifference<'s> {
    pub binary: AskedBinary<'s>,
    /// The first filterset's answer about the binary, or `None` if its answers about tests depend on the tests.
    pub first_answer: Option<bool>,
    /// The second filterset's answer about the binary.
    pub second_answer: Option<bool>,
    /// The tests that only the first filterset picks.
    pub first: Vec<&'s TestCaseName>,
    /// The tests that only the second filterset picks.
    pub second: Vec<&'s TestCaseName>,
    /// The tests that both pick.
    pub both: Vec<&'s TestCaseName>,
    /// The tests that are unknown to one of them, because the platform of an override is.
    pub unknown: Vec<&'s TestCaseName>,
}

impl<'s> BinaryDifference<'s> {
    /// Adds a test to the part of the answers about it, if they are of one.
    fn push(
        &mut self,
        test: &'s TestCaseName,
        first: Option<bool>,
        second: Option<bool>,
    ) -> Result<(), AllocError>
        ensures binary { self.new.binary ≡ self.old.binary }
        ensures first_answer { self.new.first_answer ≡ self.old.first_answer }
        ensures second_answer { self.new.second_answer ≡ self.old.second_answer }
        ensures parts { OnOk result ((part : parts.Part)
            → tests_in part self.new ≡ tests_in part self.old ++ one_of (is_of part first second) test.entry.now) }
    {
        match (first, second) {
            (Some(true), Some(false)) => self.first.push(test)?,
            (Some(false), Some(true)) => self.second.push(test)?,
            (Some(true), Some(true)) => self.both.push(test)?,
            (Some(false), Some(false)) => {}
            _ => self.unknown.push(test)?,
        }
        Ok(())
    }
}

/// Returns the overrides that the answers of two filtersets depend on: none if neither has a `group` predicate.
fn overrides_for_both<'o, 'g>(
    first: &FlatExpr<'_>,
    second: &FlatExpr<'_>,
    overrides: &'o [GroupOverride<'g>],
) -> &'o [GroupOverride<'g>]
    ensures first { AreFor first.now overrides.now result.now }
    ensures second { AreFor second.now overrides.now result.now }
{
    if first.has_group_matchers() || second.has_group_matchers() {
        overrides
    } else {
        &[]
    }
}

/// Returns how two filtersets differ on a binary.
fn difference_of<'s>(
    alloc: Global,
    first: &FlatExpr<'_>,
    second: &FlatExpr<'_>,
    overrides: &[FlatOverride<'_, '_>],
    binary: &AskedBinary<'s>,
) -> Result<BinaryDifference<'s>, AllocError>
    ensures { IfOk result (λ difference. (one other default : CompiledExpr) (given : List declared.GroupOverride)
        → IsFlat first.now one default → IsFlat second.now other default → AreLaid default given overrides.now
        → IsBinaryDifference (expr_picker default given one) (expr_picker default given other) binary.now difference) }
{
    let first_answer = first.matches_binary(alloc, &binary.query)?;
    let second_answer = second.matches_binary(alloc, &binary.query)?;
    let mut difference = BinaryDifference {
        binary: *binary,
        first_answer,
        second_answer,
        first: Vec::new(alloc),
        second: Vec::new(alloc),
        both: Vec::new(alloc),
        unknown: Vec::new(alloc),
    };
    let rows = told_overrides(alloc, overrides, &binary.query)?;
    for test in binary.tests {
        let query = TestQuery {
            binary_query: binary.query,
            test_name: test,
        };
        let by_first = answer(alloc, first, &rows, first_answer, &query)?;
        let by_second = answer(alloc, second, &rows, second_answer, &query)?;
        difference.push(test, by_first.known(), by_second.known())?;
    }
    Ok(difference)
}

/// Compares two filtersets on each binary, also if nextest skipped it: then by their answers about the binary. The
/// overrides say in which groups tests are; without overrides every test is in the group `@global`.
pub fn compare<'s, 'e>(
    alloc: Global,
    first: &'e CompiledExpr,
    second: &'e CompiledExpr,
    context: &EvalContext<'_>,
    overrides: &[GroupOverride<'_>],
    binaries: &[AskedBinary<'s>],
) -> Result<Vec<BinaryDifference<'s>>, AllocError>
    ensures picks { let default = default_of context.now in IfOk result (λ all.
        AllZip (IsBinaryDifference (expr_picker default overrides.now first.now)
        (expr_picker default overrides.now second.now)) binaries.now all.items) }

    // If both expressions are compiled trees, the answers and the parts are those of the trees.
    ensures meaning { let default = default_of context.now in IfOk result (λ all. (packages : List PackageMetadata)
        (one other : Tree SourceSpan) → IsCompiled packages one first.now → IsCompiled packages other second.now
        → AllZip (IsBinaryDifference (tree_picker packages default overrides.now one)
        (tree_picker packages default overrides.now other)) binaries.now all.items) }
{
    let first = FlatExpr::new(alloc, first, context)?;
    let second = FlatExpr::new(alloc, second, context)?;
    let everything = CompiledExpr::ALL;
    let laid = lay_out(
        alloc,
        overrides_for_both(&first, &second, overrides),
        &everything,
        context,
    )?;
    let mut all = Vec::with_capacity(alloc, binaries.len())?;
    for binary in binaries {
        all.push(difference_of(alloc, &first, &second, &laid, binary)?)?;
    }
    Ok(all)
}
