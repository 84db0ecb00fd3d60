//! Overrides with what they answer about each test.
ghost use Rattle.std.specs.Prelude.{◌≡◌, ◌==◌, ◌&&◌, All, IfOk, List, is_some, length, not};
ghost use Rattle.std.specs.List.{list_all};
ghost use Rattle.filterset_graph.specs.declared.package.PackageMetadata.{PackageMetadata};
ghost use Rattle.filterset_expression.specs.Contexts.{default_of};
ghost use Rattle.filterset_overrides.specs.Applied.{AreApplied, overrides_of};
ghost use Rattle.filterset_overrides.specs.{Applying.IsCompiledOf, Applying.tests_of, Counting.is_picked};

use crate::applying::{Application, apply_to_tests};
use crate::asked::{AskedOverride, ListedBinary};
use crate::counting::answers::verdicts_of;
use filterset_expression::EvalContext;
use std::alloc::{AllocError, Global};

/// An override with what it answers about each test.
#[derive(Drop)]
pub struct AppliedOverride<'o> {
    pub asked: AskedOverride<'o>,
    /// Of each test whether the override applies to it.
    pub answers: Vec<Option<bool>>,
    /// Whether it has a filter, and the filter picks every test. False if there are no tests.
    pub picks_all: bool,
}

/// Returns whether the filter picks each of the tests.
fn all_picked(applications: &[Application]) -> bool
    ensures { result ≡ list_all is_picked applications.now }
{
    applications
        .iter()
        .all(|application| application.is_picked())
}

/// Returns whether there are tests, and the filter picks each.
fn has_all_picked(applications: &[Application]) -> bool
    ensures { result ≡ (not (length applications.now == 0) && list_all is_picked applications.now) }
{
    !applications.is_empty() && all_picked(applications)
}

/// Returns whether the override has a filter, there are tests, and the filter picks each.
fn picks_all(asked: &AskedOverride<'_>, applications: &[Application]) -> bool
    ensures { result ≡ (is_some asked.now.filter
        && (not (length applications.now == 0) && list_all is_picked applications.now)) }
{
    asked.filter.is_some() && has_all_picked(applications)
}

/// Returns what each override answers about each test.
pub fn apply_all<'o>(
    alloc: Global,
    overrides: &[AskedOverride<'o>],
    context: &EvalContext<'_>,
    binaries: &[ListedBinary<'_>],
) -> Result<Vec<AppliedOverride<'o>>, AllocError>
    ensures asked { IfOk result (λ all. overrides_of all.items ≡ overrides.now) }
    ensures applied { IfOk result (λ all. (packages : List PackageMetadata) → All (IsCompiledOf packages) overrides.now
        → AreApplied packages (default_of context.now) (tests_of binaries.now) all.items) }
{
    let mut all = Vec::with_capacity(alloc, overrides.len())?;
    for asked in overrides {
        let applications = apply_to_tests(alloc, asked, context, binaries)?;
        all.push(AppliedOverride {
            asked: *asked,
            answers: verdicts_of(alloc, &applications)?,
            picks_all: picks_all(asked, &applications),
        })?;
    }
    Ok(all)
}
