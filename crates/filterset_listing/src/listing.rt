//! Which tests of a list a filterset picks.
ghost use Rattle.std.specs.Prelude.{◌≡◌, ◌++◌, IfOk, List, OnOk};
ghost use Rattle.std.specs.List.{AllZip, list_any};
ghost use Rattle.filterset_expression.specs.{Contexts.default_of, FlatExpressions.IsFlat, Meaning.IsCompiled};
ghost use Rattle.filterset_expression.specs.declared.expression.CompiledExpr.{CompiledExpr};
ghost use Rattle.filterset_faults.specs.declared.span.SourceSpan.{SourceSpan};
ghost use Rattle.filterset_graph.specs.declared.package.PackageMetadata.{PackageMetadata};
ghost use Rattle.filterset_grammar.specs.Tree.{Tree};
ghost use Rattle.filterset_listing.specs.Asking.{ExprCanPick, ExprPicks, TreeCanPick, TreePicks};
ghost use Rattle.filterset_listing.specs.{Groups.Says, ListText.has_unknown};
ghost use Rattle.filterset_listing.specs.Listing.{IsBinaryPicks, picked_by, tests_of, unknown_by, unknown_of};
ghost use Rattle.filterset_listing.specs.Overrides.{AreLaid};
ghost use Rattle.filterset_listing.specs.declared.groups.GroupOverride as declared;

pub mod json;
pub mod text;

use crate::binary::AskedBinary;
use crate::groups::{
    FlatOverride, GroupOverride, TestAnswer, answer, is_no, lay_out, overrides_for, told_overrides,
};
use filterset_expression::{CompiledExpr, EvalContext, FlatExpr, TestQuery};
use filterset_graph::TestCaseName;
use std::alloc::{AllocError, Global};

/// A test that a filterset picks in one group that the test may be in, and not in another.
#[derive(Clone, Copy, Debug)]
pub struct UnknownTest<'s, 'g> {
    pub test: &'s TestCaseName,
    /// The path of the override that it depends on: the first one that picks the test and whose platforms are unknown.
    pub path: &'g str,
}

/// The tests of a binary that a filterset picks.
#[derive(Debug, Drop)]
pub struct BinaryPicks<'s, 'g> {
    pub binary: AskedBinary<'s>,
    /// Whether the filterset picks none of the binary's tests, whatever their names are, so that it was not asked about
    /// them.
    pub is_left_out: bool,
    /// The tests that the filterset picks, in the order of the list.
    pub tests: Vec<&'s TestCaseName>,
    /// The tests whose answer is unknown, in the order of the list.
    pub unknown: Vec<UnknownTest<'s, 'g>>,
}

impl<'s, 'g> BinaryPicks<'s, 'g> {
    /// Lists a test by the answer about it.
    fn push(&mut self, test: &'s TestCaseName, answer: TestAnswer<'g>) -> Result<(), AllocError>
        ensures binary { self.new.binary ≡ self.old.binary }
        ensures is_left_out { self.new.is_left_out ≡ self.old.is_left_out }
        ensures tests { OnOk result (tests_of self.new ≡ tests_of self.old ++ picked_by answer.entry test.entry.now) }
        ensures unknown { OnOk result
            (unknown_of self.new ≡ unknown_of self.old ++ unknown_by answer.entry test.entry.now) }
    {
        match answer {
            TestAnswer::Known(true) => self.tests.push(test)?,
            TestAnswer::Known(false) => {}
            TestAnswer::Unknown(path) => self.unknown.push(UnknownTest { test, path })?,
        }
        Ok(())
    }
}

/// Returns the tests of a binary that the filterset picks.
fn picks_of<'s, 'g>(
    alloc: Global,
    flat: &FlatExpr<'_>,
    overrides: &[FlatOverride<'g, '_>],
    binary: &AskedBinary<'s>,
) -> Result<BinaryPicks<'s, 'g>, AllocError>
    ensures { IfOk result (λ picks. (expr default : CompiledExpr) (given : List declared.GroupOverride)
        → IsFlat flat.now expr default → AreLaid default given overrides.now
        → IsBinaryPicks (Says default given (ExprPicks default expr)) (ExprCanPick default expr) binary.now picks) }
{
    let told = flat.matches_binary(alloc, &binary.query)?;
    let mut picks = BinaryPicks {
        binary: *binary,
        is_left_out: is_no(told),
        tests: Vec::new(alloc),
        unknown: Vec::new(alloc),
    };
    if picks.is_left_out {
        return Ok(picks);
    }
    let rows = told_overrides(alloc, overrides, &binary.query)?;
    for test in binary.tests {
        let query = TestQuery {
            binary_query: binary.query,
            test_name: test,
        };
        let answer = answer(alloc, flat, &rows, told, &query)?;
        picks.push(test, answer)?;
    }
    Ok(picks)
}

/// Returns the tests of each binary that the filterset picks, and the tests whose answer is unknown, in the order of the
/// list. The overrides say in which groups tests are. Without overrides every test is in the group `@global`.
///
/// The filterset is asked about a binary first. If that decides the binary, it is asked about none of the tests. Overrides
/// are asked only if the filterset has a `group` predicate.
pub fn list<'s, 'g>(
    alloc: Global,
    expr: &CompiledExpr,
    context: &EvalContext<'_>,
    overrides: &[GroupOverride<'g>],
    binaries: &[AskedBinary<'s>],
) -> Result<Vec<BinaryPicks<'s, 'g>>, AllocError>
    ensures picks { let default = default_of context.now in IfOk result (λ all.
        AllZip (IsBinaryPicks (Says default overrides.now (ExprPicks default expr.now)) (ExprCanPick default expr.now))
        binaries.now all.items) }

    // If the expression is a compiled tree, exactly those tests are picked that the tree picks.
    ensures meaning { let default = default_of context.now in IfOk result (λ all. (packages : List PackageMetadata)
        (tree : Tree SourceSpan) → IsCompiled packages tree expr.now
        → AllZip (IsBinaryPicks (Says default overrides.now (TreePicks packages default tree))
        (TreeCanPick packages default tree)) binaries.now all.items) }
{
    let flat = FlatExpr::new(alloc, expr, context)?;
    let everything = CompiledExpr::ALL;
    let laid = lay_out(alloc, overrides_for(&flat, overrides), &everything, context)?;
    let mut all = Vec::with_capacity(alloc, binaries.len())?;
    for binary in binaries {
        all.push(picks_of(alloc, &flat, &laid, binary)?)?;
    }
    Ok(all)
}

/// Returns whether the answer about a test is unknown.
pub fn lists_unknown(all: &[BinaryPicks<'_, '_>]) -> bool
    ensures { result ≡ list_any has_unknown all.now }
{
    all.iter().any(|picks| picks.has_unknown())
}
