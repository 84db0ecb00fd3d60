//! Groups of tests, by overrides: what a filterset answers about a test that may be in several groups.
ghost use Rattle.std.specs.Prelude.{◌≡◌, ◌↔◌, IfOk, IsTrue, List};
ghost use Rattle.filterset_expression.specs.{Contexts.default_of, Expression.Holds};
ghost use Rattle.filterset_expression.specs.FlatExpressions.{IsFlat, IsTold};
ghost use Rattle.filterset_expression.specs.declared.expression.CompiledExpr as compiled;
ghost use Rattle.filterset_listing.specs.Asking.{ExprPicks, in_group, is_no};
ghost use Rattle.filterset_listing.specs.Groups.{Covers, IsAnswer, applies, known_of};
ghost use Rattle.filterset_listing.specs.Overrides.{AreFor, AreLaid, AreTold, Joins, MayApply, StepsOn, all_tests, given_of};
ghost use Rattle.filterset_listing.specs.declared.groups.GroupOverride as declared;

use crate::lookup::OneGroup;
use filterset_expression::{BinaryQuery, CompiledExpr, EvalContext, FlatExpr, TestQuery};
use filterset_graph::{BuildPlatform, GLOBAL_TEST_GROUP};
use std::alloc::{AllocError, Global};

/// An override that puts tests in a group: the tests that its filter picks, if its platforms apply to them. A test is in
/// the group of the first such override, or in `@global` if there is none.
#[derive(Clone, Copy, Debug)]
pub struct GroupOverride<'g> {
    /// The override's place in the configuration, as `profile.ci.overrides[2]`.
    pub path: &'g str,
    /// Without a filter it is for all tests.
    pub filter: Option<&'g CompiledExpr>,
    /// Whether its platforms apply to tests that are built for the target. `None` is unknown.
    pub for_target: Option<bool>,
    /// Whether they apply to tests that are built for the host.
    pub for_host: Option<bool>,
    pub group: &'g str,
}

impl GroupOverride<'_> {
    /// Returns whether the override's platforms apply to what is built for a platform.
    fn applies(&self, platform: BuildPlatform) -> Option<bool>
        ensures { result ≡ applies self.now platform }
    {
        match platform {
            BuildPlatform::Target => self.for_target,
            BuildPlatform::Host => self.for_host,
        }
    }
}

/// Returns whether an answer is no.
pub fn is_no(answer: Option<bool>) -> bool
    ensures { result ≡ is_no answer }
{
    match answer {
        Some(answer) => !answer,
        None => false,
    }
}

/// Whether a filterset picks a test.
#[derive(Clone, Copy, Debug)]
pub enum TestAnswer<'g> {
    /// The answer is the same for each group that the test may be in.
    Known(bool),
    /// The test is picked in one group that it may be in, and not in another. This is the path of the first override that
    /// picks the test and whose platforms are unknown.
    Unknown(&'g str),
}

impl TestAnswer<'_> {
    /// Returns the answer, or `None` if it is unknown.
    pub fn known(self) -> Option<bool>
        ensures { result ≡ known_of self.entry }
    {
        match self {
            TestAnswer::Known(answer) => Some(answer),
            TestAnswer::Unknown(_) => None,
        }
    }
}

/// An override with the steps of its filter.
pub struct FlatOverride<'g, 'f> {
    pub given: GroupOverride<'g>,
    filter: FlatExpr<'f>,
}

// By hand, so that a function that drops overrides proves one call.
impl Drop for FlatOverride<'_, '_> {
    fn drop(self) {
        let FlatOverride {
            given: _,
            filter: _filter,
        } = self;
    }
}

/// Lays out overrides. `all` is the filter of an override without one.
pub fn lay_out<'g, 'f>(
    alloc: Global,
    overrides: &'f [GroupOverride<'g>],
    all: &'f CompiledExpr,
    context: &EvalContext<'f>,
) -> Result<Vec<FlatOverride<'g, 'f>>, AllocError>
    requires { all.now ≡ all_tests }
    ensures { IfOk result (λ laid. AreLaid (default_of context.now) overrides.now laid.items) }
{
    let mut laid = Vec::with_capacity(alloc, overrides.len())?;
    for given in overrides {
        let filter = FlatExpr::new(alloc, given.filter.unwrap_or(all), context)?;
        laid.push(FlatOverride {
            given: *given,
            filter,
        })?;
    }
    Ok(laid)
}

/// Returns the overrides that the answers of the filterset depend on: none if it has no `group` predicate.
pub fn overrides_for<'o, 'g>(
    flat: &FlatExpr<'_>,
    overrides: &'o [GroupOverride<'g>],
) -> &'o [GroupOverride<'g>]
    ensures { AreFor flat.now overrides.now result.now }
{
    if flat.has_group_matchers() {
        overrides
    } else {
        &[]
    }
}

/// An override that may apply to tests of a binary.
#[derive(Clone, Copy)]
pub struct ToldOverride<'o, 'g, 'f> {
    pub laid: &'o FlatOverride<'g, 'f>,
    /// Whether its platforms surely apply.
    pub is_sure: bool,
    /// The answer of its filter about the binary.
    told: Option<bool>,
}

impl ToldOverride<'_, '_, '_> {
    /// Returns whether its filter picks a test of the binary.
    pub fn covers(&self, alloc: Global, query: &TestQuery<'_>) -> Result<bool, AllocError>
        ensures { IfOk result (λ answer. (default : compiled.CompiledExpr)
            → MayApply default query.now.binary_query self.now
            → IsTrue answer ↔ Covers default (given_of self.now) query.now) }
    {
        match self.told {
            Some(answer) => Ok(answer),
            None => picks_in(alloc, &self.laid.filter, &OneGroup::GLOBAL, query),
        }
    }
}

/// Returns those of the overrides that may apply to tests of a binary, each with the answer of its filter.
pub fn told_overrides<'o, 'g, 'f>(
    alloc: Global,
    all: &'o [FlatOverride<'g, 'f>],
    query: &BinaryQuery<'_>,
) -> Result<Vec<ToldOverride<'o, 'g, 'f>>, AllocError>
    ensures { IfOk result (λ rows. (default : compiled.CompiledExpr) (overrides : List declared.GroupOverride)
        → AreLaid default overrides all.now → AreTold default overrides query.now rows.items) }
{
    let mut rows = Vec::new(alloc);
    for laid in all {
        let applies = laid.given.applies(query.platform);
        if is_no(applies) {
            continue;
        }
        let told = laid.filter.matches_binary(alloc, query)?;
        if is_no(told) {
            continue;
        }
        rows.push(ToldOverride {
            laid,
            is_sure: applies.is_some(),
            told,
        })?;
    }
    Ok(rows)
}

/// Returns whether the filterset picks the test in the lookup's group.
pub fn picks_in(
    alloc: Global,
    flat: &FlatExpr<'_>,
    lookup: &OneGroup<'_>,
    query: &TestQuery<'_>,
) -> Result<bool, AllocError>
    ensures { IfOk result (λ answer. (expr default : compiled.CompiledExpr) → IsFlat flat.now expr default
        → IsTrue answer ↔ ExprPicks default expr query.now lookup.now.group.now) }
{
    flat.matches_test_with_groups(alloc, query, lookup)
}

/// The answer of a filterset for the groups of overrides whose platforms are unknown.
#[derive(Clone, Copy)]
struct Seen<'g> {
    answer: bool,
    /// The path of the first such override.
    path: &'g str,
}

/// Where a walk over overrides is.
#[derive(Clone, Copy)]
enum Step<'g> {
    Decided(TestAnswer<'g>),
    /// It goes on, with what was seen so far.
    Open(Option<Seen<'g>>),
}

/// Joins the answer for one more group to what was seen so far.
fn join<'g>(seen: Option<Seen<'g>>, answer: bool) -> TestAnswer<'g>
    ensures { Joins seen.entry answer result }
{
    match seen {
        Some(seen) if seen.answer != answer => TestAnswer::Unknown(seen.path),
        _ => TestAnswer::Known(answer),
    }
}

/// Takes the step of a walk over one override.
fn step_over<'g>(
    alloc: Global,
    flat: &FlatExpr<'_>,
    row: &ToldOverride<'_, 'g, '_>,
    seen: Option<Seen<'g>>,
    query: &TestQuery<'_>,
) -> Result<Step<'g>, AllocError>
    ensures { IfOk result (λ step. (expr default : compiled.CompiledExpr) → IsFlat flat.now expr default
        → MayApply default query.now.binary_query row.now
        → StepsOn default query.now (ExprPicks default expr query.now) (given_of row.now) seen.entry step) }
{
    if !row.covers(alloc, query)? {
        return Ok(Step::Open(seen));
    }
    let laid = row.laid;
    let GroupOverride { group, path, .. } = laid.given;
    let answer = picks_in(alloc, flat, &OneGroup { group }, query)?;
    match join(seen, answer) {
        TestAnswer::Known(answer) => {
            if row.is_sure {
                return Ok(Step::Decided(TestAnswer::Known(answer)));
            }
            Ok(Step::Open(Some(seen.unwrap_or(Seen { answer, path }))))
        }
        TestAnswer::Unknown(path) => Ok(Step::Decided(TestAnswer::Unknown(path))),
    }
}

/// Returns whether the filterset picks the test. `told` is its answer about the test's binary, and `rows` are the overrides
/// that may apply to tests of the binary.
///
/// The walk over the overrides ends at the first one that surely applies, or that makes the answer unknown.
pub fn answer<'g>(
    alloc: Global,
    flat: &FlatExpr<'_>,
    rows: &[ToldOverride<'_, 'g, '_>],
    told: Option<bool>,
    query: &TestQuery<'_>,
) -> Result<TestAnswer<'g>, AllocError>
    requires { IsTold flat.now query.now.binary_query told }
    ensures { IfOk result (λ answer. (expr default : compiled.CompiledExpr) (overrides : List declared.GroupOverride)
        → IsFlat flat.now expr default → AreTold default overrides query.now.binary_query rows.now
        → IsAnswer default overrides query.now (ExprPicks default expr query.now) answer) }
{
    if let Some(answer) = told {
        return Ok(TestAnswer::Known(answer));
    }
    let mut seen = None;
    for row in rows {
        match step_over(alloc, flat, row, seen, query)? {
            Step::Decided(answer) => return Ok(answer),
            Step::Open(next) => seen = next,
        }
    }
    let last = picks_in(alloc, flat, &OneGroup::GLOBAL, query)?;
    Ok(join(seen, last))
}
