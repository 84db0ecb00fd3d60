//! Tests of a list for which the answer to a question is no.
ghost use Rattle.std.specs.Prelude.{◌≡◌, ℕ, All, Contains, IfNone, IfOk, IfSome, IsUtf8, List, map, string_bytes};
ghost use Rattle.std.specs.{Borrow.Bor, List.count_by, List.list_any};
ghost use Rattle.filterset_expression.specs.{Contexts.default_of, Expression.is_group, FlatExpressions.has_step};
ghost use Rattle.filterset_expression.specs.declared.expression.CompiledExpr as compiled;
ghost use Rattle.filterset_expression.specs.declared.query.TestQuery as queries;
ghost use Rattle.filterset_deciding.specs.{AnyTest.HasTexts, Deciding.IsAbout};
ghost use Rattle.filterset_deciding.specs.Listed.{AreOfQuestion, IsFirstUnmet, IsMetAsked, IsMetByAll, IsUnmetAsked, IsUnmetIn, asks_group};

use crate::question::Question;
use crate::witness::{InGroup, PossibleTest, Witness, lay_out, pick_all, picks};
use filterset_expression::{CompiledExpr, EvalContext, FlatExpr, TestQuery};
use filterset_graph::{RustBinaryId, RustTestBinaryKind, TestCaseName};
use std::alloc::{AllocError, Global};

/// Tests of a list, and the groups that each may be in.
#[derive(Clone, Copy, Debug)]
pub struct ListedTests<'l> {
    pub tests: &'l [TestQuery<'l>],
    pub groups: &'l [&'l str],
}

impl<'l> ListedTests<'l> {
    /// Returns these tests, each of which may be in these groups.
    pub fn of(tests: &'l [TestQuery<'l>], groups: &'l [&'l str]) -> ListedTests<'l>
        ensures tests { result.tests.now ≡ tests.entry.now }
        ensures groups { result.groups.now ≡ groups.entry.now }
    {
        ListedTests { tests, groups }
    }
}

/// A question, with its filtersets laid out for many tests.
#[derive(Drop)]
struct LaidQuestion<'x> {
    question: Question,
    given: FlatExpr<'x>,
    exprs: Vec<FlatExpr<'x>>,
}

/// Copies what a test is asked about, in this group.
fn copy_test(alloc: Global, query: &TestQuery<'_>, group: &str) -> Result<PossibleTest, AllocError>
    ensures is_of { IfOk result (IsAbout query.now) }
    ensures group { IfOk result (λ possible. string_bytes possible.group ≡ group.now) }
    ensures texts { IfOk result (λ _. HasTexts query.now × IsUtf8 group.now) }
{
    let binary = query.binary_query;
    let (binary_id, kind) = (binary.binary_id.as_str(), binary.kind.as_str());
    let test_name = query.test_name.as_str();
    Ok(PossibleTest {
        package_id: binary.package_id.try_clone(alloc)?,
        binary_id: RustBinaryId::new(alloc, binary_id)?,
        binary_name: String::from_str(alloc, binary.binary_name)?,
        kind: RustTestBinaryKind::new(String::from_str(alloc, kind)?),
        platform: binary.platform,
        test_name: TestCaseName::new(alloc, test_name)?,
        group: String::from_str(alloc, group)?,
    })
}

/// Counts the answers that are yes.
fn count_picks(answers: &[bool]) -> usize
    ensures { result ≡ count_by (λ x. x) answers.now }
{
    answers.iter().filter(|answer| **answer).count()
}

/// Returns whether one of these filtersets asks for the group of a test.
fn any_asks_group(flats: &[FlatExpr<'_>]) -> bool
    ensures { result ≡ list_any (has_step is_group) flats.now }
{
    flats.iter().any(|flat| flat.has_group_matchers())
}

impl LaidQuestion<'_> {
    /// Returns whether a filterset asks for the group of a test.
    fn asks_group(&self) -> bool
        ensures { result ≡ asks_group self.now }
    {
        self.given.has_group_matchers() || any_asks_group(self.exprs.as_slice())
    }

    /// Returns the groups to ask about: all, or the first if no filterset asks for the group.
    fn groups_to_ask<'g>(&self, groups: &'g [&'g str]) -> &'g [&'g str]
        ensures within { (group : List ℕ) → Contains (map (λ g. g.now) result.now) group
            → Contains (map (λ g. g.now) groups.entry.now) group }
        ensures enough { (query : queries.TestQuery) → All (λ g. IsMetAsked self.now query g.now) result.now
            → All (λ g. IsMetAsked self.now query g.now) groups.entry.now }
    {
        if groups.is_empty() {
            return groups;
        }
        if self.asks_group() {
            groups
        } else {
            &groups[..1]
        }
    }

    /// Returns whether each filterset picks the test in this group, if the answer is no for it.
    fn ask(
        &self,
        alloc: Global,
        query: &TestQuery<'_>,
        group: &str,
    ) -> Result<Option<Vec<bool>>, AllocError>
        ensures unmet { IfOk result (λ found. IfSome found (λ answers.
            (given default : compiled.CompiledExpr) (exprs : List (Bor compiled.CompiledExpr))
            → AreOfQuestion given default exprs self.now
            → IsUnmetAsked given default exprs self.now.question query.now group.now answers.items)) }
        ensures met { IfOk result (λ found. IfNone found (IsMetAsked self.now query.now group.now)) }
    {
        let lookup = InGroup { group };
        let is_given = picks(alloc, &self.given, query, &lookup)?;
        if !is_given {
            return Ok(None);
        }
        let answers = pick_all(alloc, self.exprs.as_slice(), query, &lookup)?;
        let count = count_picks(answers.as_slice());
        if self.question.is_met(count, answers.len()) {
            return Ok(None);
        }
        Ok(Some(answers))
    }

    /// Returns the test in the first group in which the answer is no for it.
    fn find_in_groups(
        &self,
        alloc: Global,
        query: &TestQuery<'_>,
        groups: &[&str],
    ) -> Result<Option<Witness>, AllocError>
        ensures some { IfOk result (λ found. IfSome found (λ witness.
            (given default : compiled.CompiledExpr) (exprs : List (Bor compiled.CompiledExpr))
            → AreOfQuestion given default exprs self.now
            → IsUnmetIn given default exprs self.now.question query.now groups.now witness.test witness.picks.items)) }
        ensures none { IfOk result (λ found. IfNone found (All (λ g. IsMetAsked self.now query.now g.now) groups.now)) }
    {
        for group in groups {
            if let Some(picks) = self.ask(alloc, query, *group)? {
                let test = copy_test(alloc, query, *group)?;
                return Ok(Some(Witness { test, picks }));
            }
        }
        Ok(None)
    }
}

/// Returns the first of the tests for which the answer to the question is no in one of the groups, if there is one. Only
/// tests that the given filterset picks count.
///
/// Each filterset is laid out once, and asked once about each test in each group, or in the first if no filterset asks for
/// groups. The only error is out of memory.
pub fn find_listed<'x>(
    alloc: Global,
    given: &'x CompiledExpr,
    exprs: &[&'x CompiledExpr],
    cx: &EvalContext<'x>,
    question: Question,
    listed: ListedTests<'_>,
) -> Result<Option<Witness>, AllocError>
    ensures some { IfOk result (λ found. IfSome found (λ witness. IsFirstUnmet question given.now (default_of cx.now) exprs.now
        listed.entry.tests.now listed.entry.groups.now witness.test witness.picks.items)) }
    ensures none { IfOk result (λ found. IfNone found (IsMetByAll question given.now (default_of cx.now) exprs.now
        listed.entry.tests.now listed.entry.groups.now)) }
{
    let laid = LaidQuestion {
        question,
        given: FlatExpr::new(alloc, given, cx)?,
        exprs: lay_out(alloc, exprs, cx)?,
    };
    let ListedTests { tests, groups } = listed;
    let asked = laid.groups_to_ask(groups);
    for test in tests {
        if let Some(witness) = laid.find_in_groups(alloc, test, asked)? {
            return Ok(Some(witness));
        }
    }
    Ok(None)
}
