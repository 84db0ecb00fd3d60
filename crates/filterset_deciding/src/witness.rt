//! Possible tests, and whether the answer to a question is no for one.
ghost use Rattle.std.specs.{Prelude.◌≡◌, Prelude.IfOk, Prelude.string_bytes, List.AllZip};
ghost use Rattle.filterset_expression.specs.Contexts.{default_of};
ghost use Rattle.filterset_deciding.specs.AnyTest.{in_group, AreLaid, HasTexts, IsPickOf};
ghost use Rattle.filterset_deciding.specs.{Deciding.IsAbout, Searching.AreAnswersAt};

use filterset_expression::{
    BinaryQuery, CompiledExpr, EvalContext, FlatExpr, GroupLookup, TestQuery,
};
use filterset_graph::{BuildPlatform, PackageId, RustBinaryId, RustTestBinaryKind, TestCaseName};
use filterset_matchers::NameMatcher;
use std::alloc::{AllocError, Global};

/// A test that there could be: all that a filterset can ask about it.
#[derive(Debug)]
pub struct PossibleTest {
    pub package_id: PackageId,
    pub binary_id: RustBinaryId,
    pub binary_name: String,
    pub kind: RustTestBinaryKind,
    pub platform: BuildPlatform,
    pub test_name: TestCaseName,
    /// The name of its group.
    pub group: String,
}

// By hand, so that a function that drops one proves one call.
impl Drop for PossibleTest {
    fn drop(self) {
        let PossibleTest {
            package_id: _package_id,
            binary_id: _binary_id,
            binary_name: _binary_name,
            kind: _kind,
            platform: _,
            test_name: _test_name,
            group: _group,
        } = self;
    }
}

/// A possible test for which the answer to a question is no.
#[derive(Debug)]
pub struct Witness {
    pub test: PossibleTest,
    /// Whether each of the filtersets picks it.
    pub picks: Vec<bool>,
}

// By hand, as for `PossibleTest`.
impl Drop for Witness {
    fn drop(self) {
        let Witness {
            test: _test,
            picks: _picks,
        } = self;
    }
}

/// A lookup by which the test is in this group.
#[derive(Clone, Copy, Debug)]
pub(crate) struct InGroup<'a> {
    pub group: &'a str,
}

impl GroupLookup for InGroup<'_> {
    ghost matches_group = { λ known. in_group known.group.now };

    fn is_member_test(
        &self,
        alloc: Global,
        _test: &TestQuery<'_>,
        matcher: &NameMatcher,
    ) -> Result<bool, AllocError> {
        matcher.is_match(alloc, self.group)
    }
}

impl PossibleTest {
    /// Returns the test as filtersets are asked about it.
    pub fn query(&self) -> TestQuery<'_>
        ensures is_of { IsAbout result self.now }
        ensures texts { HasTexts result }
    {
        let _id = self.binary_id.as_str();
        let _kind = self.kind.as_str();
        let _name = self.test_name.as_str();
        TestQuery {
            binary_query: BinaryQuery {
                package_id: &self.package_id,
                binary_id: &self.binary_id,
                binary_name: self.binary_name.as_str(),
                kind: &self.kind,
                platform: self.platform,
            },
            test_name: &self.test_name,
        }
    }
}

/// Lays out filtersets, so that each can be asked about many tests.
pub(crate) fn lay_out<'x>(
    alloc: Global,
    exprs: &[&'x CompiledExpr],
    cx: &EvalContext<'x>,
) -> Result<Vec<FlatExpr<'x>>, AllocError>
    ensures { IfOk result (λ flats. AreLaid (default_of cx.now) exprs.now flats.items) }
{
    let mut flats = Vec::with_capacity(alloc, exprs.len())?;
    for expr in exprs {
        flats.push(FlatExpr::new(alloc, *expr, cx)?)?;
    }
    Ok(flats)
}

/// Returns whether the filterset picks the test in this group.
pub(crate) fn picks(
    alloc: Global,
    flat: &FlatExpr<'_>,
    query: &TestQuery<'_>,
    lookup: &InGroup<'_>,
) -> Result<bool, AllocError>
    ensures { IfOk result (IsPickOf query.now lookup.now.group.now flat.now) }
{
    flat.matches_test_with_groups(alloc, query, lookup)
}

/// Returns whether each of the filtersets picks the test in this group.
pub(crate) fn pick_all(
    alloc: Global,
    flats: &[FlatExpr<'_>],
    query: &TestQuery<'_>,
    lookup: &InGroup<'_>,
) -> Result<Vec<bool>, AllocError>
    ensures { IfOk result (λ all. AllZip (IsPickOf query.now lookup.now.group.now) flats.now all.items) }
{
    let mut all = Vec::with_capacity(alloc, flats.len())?;
    for flat in flats {
        all.push(picks(alloc, flat, query, lookup)?)?;
    }
    Ok(all)
}

/// Asks all filtersets about the test. The only error is out of memory.
pub(crate) fn ask_all<'x>(
    alloc: Global,
    exprs: &[&'x CompiledExpr],
    cx: &EvalContext<'x>,
    test: PossibleTest,
) -> Result<Witness, AllocError>
    ensures test { IfOk result (λ witness. witness.test ≡ test) }
    ensures picks { IfOk result (λ witness. AreAnswersAt (default_of cx.now) exprs.now test witness.picks.items) }
{
    let query = test.query();
    let lookup = InGroup {
        group: test.group.as_str(),
    };
    let flats = lay_out(alloc, exprs, cx)?;
    let picks = pick_all(alloc, flats.as_slice(), &query, &lookup)?;
    Ok(Witness { test, picks })
}
