//! Whether overrides apply to tests.
ghost use Rattle.std.specs.Prelude.{◌≡◌, ◌++◌, All, IfOk, IsTrue, List, OnOk};
ghost use Rattle.std.specs.List.{AllZip};
ghost use Rattle.filterset_graph.specs.declared.package.PackageMetadata.{PackageMetadata};
ghost use Rattle.filterset_expression.specs.{Contexts.default_of, Expression.no_groups, FlatExpressions.IsTold};
ghost use Rattle.filterset_expression.specs.declared.expression.CompiledExpr.{CompiledExpr};
ghost use Rattle.filterset_overrides.specs.Applying.{AppliesAs, HasApplication, IsCompiledOf, Test, tests_of, tests_of_one, verdict};
ghost use Rattle.filterset_overrides.specs.{Counting.is_picked, Asking.IsLaidOut};

use crate::asked::{AskedOverride, ListedBinary};
use filterset_expression::{CompiledExpr, EvalContext, FlatExpr, GroupLookup, TestQuery};
use filterset_matchers::NameMatcher;
use std::alloc::{AllocError, Global};

/// A lookup in which no test is in a group. The filter of an override has no `group` predicate.
#[derive(Clone, Copy, Debug)]
struct NoGroups;

impl GroupLookup for NoGroups {
    ghost matches_group = { λ _. no_groups };

    fn is_member_test(
        &self,
        _alloc: Global,
        _test: &TestQuery<'_>,
        _matcher: &NameMatcher,
    ) -> Result<bool, AllocError> {
        Ok(false)
    }
}

/// How an override applies to a test.
#[derive(Clone, Copy, Debug, PartialEq, Eq)]
pub enum Application {
    Applies,
    /// Its filter does not pick the test.
    NotPicked,
    /// Its filter picks the test, but its platforms do not apply.
    OtherPlatform,
    /// Its filter picks the test, and it is unknown whether its platforms apply.
    UnknownPlatform,
}

impl Application {
    /// Returns whether the override's filter picks the test.
    pub fn is_picked(self) -> bool
        ensures { result ≡ is_picked self }
    {
        !matches!(self, Application::NotPicked)
    }

    /// Returns whether the override applies. `None` is unknown.
    pub fn verdict(self) -> Option<bool>
        ensures { result ≡ verdict self }
    {
        match self {
            Application::Applies => Some(true),
            Application::NotPicked | Application::OtherPlatform => Some(false),
            Application::UnknownPlatform => None,
        }
    }
}

/// An override, and how it applies to a test.
#[derive(Clone, Copy, Debug)]
pub struct ExplainedOverride<'o> {
    pub asked: AskedOverride<'o>,
    pub application: Application,
}

/// Returns how an override applies, by whether its filter picks the test, and whether its platforms apply.
fn application_of(is_picked: bool, platforms: Option<bool>) -> Application
    ensures { HasApplication (IsTrue is_picked) platforms result }
{
    match (is_picked, platforms) {
        (false, _) => Application::NotPicked,
        (true, Some(true)) => Application::Applies,
        (true, Some(false)) => Application::OtherPlatform,
        (true, None) => Application::UnknownPlatform,
    }
}

/// Returns how the override applies to a test. Its filter is laid out as `flat`, and `told` is the filter's answer about the
/// test's binary.
fn apply_flat(
    alloc: Global,
    asked: &AskedOverride<'_>,
    flat: &FlatExpr<'_>,
    lookup: &NoGroups,
    told: Option<bool>,
    query: &TestQuery<'_>,
) -> Result<Application, AllocError>
    requires { IsTold flat.now query.now.binary_query told }
    ensures { IfOk result (λ application. (packages : List PackageMetadata) (default : CompiledExpr)
        → IsCompiledOf packages asked.now → IsLaidOut default asked.now flat.now
        → AppliesAs packages default (query.now.binary_query, query.now.test_name.now) asked.now application) }
{
    let is_picked = flat.matches_test_of_told(alloc, told, query, lookup)?;
    let platforms = asked.platforms_of(query.binary_query.platform);
    Ok(application_of(is_picked, platforms))
}

/// Adds how the override applies to each test of a binary, whose filter is laid out as `flat`.
fn push_applications(
    alloc: Global,
    asked: &AskedOverride<'_>,
    flat: &FlatExpr<'_>,
    binary: &ListedBinary<'_>,
    applications: &mut Vec<Application>,
) -> Result<(), AllocError>
    ensures { OnOk result ((packages : List PackageMetadata) (default : CompiledExpr) (tests : List Test)
        → IsCompiledOf packages asked.now → IsLaidOut default asked.now flat.now
        → AllZip (λ test. AppliesAs packages default test asked.now) tests applications.old.items
        → AllZip (λ test. AppliesAs packages default test asked.now) (tests ++ tests_of_one binary.now)
        applications.new.items) }
{
    let told = flat.matches_binary(alloc, &binary.query)?;
    for test in binary.tests {
        let query = TestQuery {
            binary_query: binary.query,
            test_name: *test,
        };
        applications.push(apply_flat(alloc, asked, flat, &NoGroups, told, &query)?)?;
    }
    Ok(())
}

/// Returns how the override applies to each test. Its filter is asked about a binary first.
pub fn apply_to_tests(
    alloc: Global,
    asked: &AskedOverride<'_>,
    context: &EvalContext<'_>,
    binaries: &[ListedBinary<'_>],
) -> Result<Vec<Application>, AllocError>
    ensures { IfOk result (λ applications. (packages : List PackageMetadata) → IsCompiledOf packages asked.now
        → AllZip (λ test. AppliesAs packages (default_of context.now) test asked.now) (tests_of binaries.now)
        applications.items) }
{
    let all = CompiledExpr::ALL;
    let filter = asked.filter.unwrap_or(&all);
    let flat = FlatExpr::new(alloc, filter, context)?;
    let mut applications = Vec::new(alloc);
    for binary in binaries {
        push_applications(alloc, asked, &flat, binary, &mut applications)?;
    }
    Ok(applications)
}

/// Returns how the override applies to the test.
pub fn apply_to_test(
    alloc: Global,
    asked: &AskedOverride<'_>,
    context: &EvalContext<'_>,
    query: &TestQuery<'_>,
) -> Result<Application, AllocError>
    ensures { IfOk result (λ application. (packages : List PackageMetadata) → IsCompiledOf packages asked.now
        → AppliesAs packages (default_of context.now) (query.now.binary_query, query.now.test_name.now) asked.now
        application) }
{
    let all = CompiledExpr::ALL;
    let filter = asked.filter.unwrap_or(&all);
    let flat = FlatExpr::new(alloc, filter, context)?;
    let told = flat.matches_binary(alloc, &query.binary_query)?;
    apply_flat(alloc, asked, &flat, &NoGroups, told, query)
}
