//! What a branch says of the platform of a test, and of leaves that say the same of all tests.
ghost use Rattle.std.specs.Prelude.{◌≡◌, ◌↔◌, IfNone, IfSome, IsTrue, true};
ghost use Rattle.filterset_expression.specs.FlatSteps.{step_of};
ghost use Rattle.filterset_deciding.specs.AnyTest.{AnyTest};
ghost use Rattle.filterset_deciding.specs.Aspects.{AgreesOn, IsKnownOn, is_constant, is_of_platform};
ghost use Rattle.filterset_deciding.specs.Known.{Agrees};

use crate::running::ValuedStep;
use filterset_expression::{FiltersetLeaf, FlatStep};
use filterset_graph::BuildPlatform;

/// Returns whether this step allows the platform.
fn allows_platform(placed: ValuedStep<'_>, platform: BuildPlatform) -> bool
    ensures { (test : AnyTest) → test.query.binary_query.platform ≡ platform
        → IsTrue result ↔ IsKnownOn (λ leaf. is_of_platform leaf ≡ true) test (step_of placed.entry.step) placed.entry.value }
{
    match placed.step {
        FlatStep::Leaf(FiltersetLeaf::Platform(own, _)) => match placed.value {
            Some(value) => (*own == platform) == value,
            None => true,
        },
        _ => true,
    }
}

/// Returns whether all steps allow the platform.
fn is_platform_allowed(branch: &[ValuedStep<'_>], platform: BuildPlatform) -> bool
    ensures { (test : AnyTest) → test.query.binary_query.platform ≡ platform
        → IsTrue result ↔ AgreesOn (λ leaf. is_of_platform leaf ≡ true) test branch.now }
{
    for placed in branch {
        if !allows_platform(*placed, platform) {
            return false;
        }
    }
    true
}

/// Finds a platform for a test of the branch.
pub(crate) fn find_platform(branch: &[ValuedStep<'_>]) -> Option<BuildPlatform>
    ensures some { IfSome result (λ platform. (test : AnyTest) → test.query.binary_query.platform ≡ platform
        → AgreesOn (λ leaf. is_of_platform leaf ≡ true) test branch.now) }
    ensures none { IfNone result ((test : AnyTest) → ¬ Agrees test branch.now) }
{
    if is_platform_allowed(branch, BuildPlatform::Target) {
        Some(BuildPlatform::Target)
    } else if is_platform_allowed(branch, BuildPlatform::Host) {
        Some(BuildPlatform::Host)
    } else {
        None
    }
}

/// Returns whether the value of the step's leaf is right, if it says the same of all tests.
fn is_constant_right(placed: ValuedStep<'_>) -> bool
    ensures { (test : AnyTest) → IsTrue result
        ↔ IsKnownOn (λ leaf. is_constant leaf ≡ true) test (step_of placed.entry.step) placed.entry.value }
{
    match placed.step {
        FlatStep::Leaf(FiltersetLeaf::All) => placed.value != Some(false),
        FlatStep::Leaf(FiltersetLeaf::Default | FiltersetLeaf::None) => placed.value != Some(true),
        _ => true,
    }
}

/// Returns whether the values of all leaves are right that say the same of all tests.
pub(crate) fn are_constants_right(branch: &[ValuedStep<'_>]) -> bool
    ensures { (test : AnyTest) → IsTrue result ↔ AgreesOn (λ leaf. is_constant leaf ≡ true) test branch.now }
{
    for placed in branch {
        if !is_constant_right(*placed) {
            return false;
        }
    }
    true
}
