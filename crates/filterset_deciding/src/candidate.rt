//! Makes a test that agrees with a branch, if there is one.
ghost use Rattle.std.specs.Prelude.{◌≡◌, IfErr, IfOk, string_bytes};
ghost use Rattle.filterset_deciding.specs.{AnyTest.AnyTest, Aspects.AgreesOn, Aspects.IsOfField, Aspects.text_of};
ghost use Rattle.filterset_deciding.specs.{Candidates.IsFaultOf, Deciding.IsOf, Known.Agrees};

use crate::aspects::{are_constants_right, find_platform};
use crate::demand::{Doubt, TestField, doubt_of};
use crate::packages::make_package;
use crate::running::ValuedStep;
use crate::seeking::Effort;
use crate::texts::{Sought, find_text};
use crate::witness::PossibleTest;
use filterset_graph::{RustBinaryId, RustTestBinaryKind, TestCaseName};
use std::alloc::{AllocError, Global};

/// Why no test of a branch was made.
#[derive(Drop)]
pub(crate) enum NoCandidate<'x> {
    /// No test agrees with the branch.
    Impossible,
    /// It is not known whether some text meets what the branch demands.
    Doubtful(Doubt<'x>),
    /// The search for such a text was stopped.
    Stopped,
    OutOfMemory(AllocError),
}

impl From<AllocError> for NoCandidate<'_> {
    ghost use Rattle.std.specs.Prelude.{◌≡◌};
    ghost use Rattle.filterset_deciding.specs.declared.candidate.NoCandidate.TheVariants.{OutOfMemory};

    ghost from_gives = { λ refused fault. fault ≡ OutOfMemory refused };

    fn from(refused: AllocError) -> Self {
        NoCandidate::OutOfMemory(refused)
    }
}

/// Makes a text that meets what the branch demands of it.
fn make_text<'x>(
    alloc: Global,
    branch: &[ValuedStep<'x>],
    field: TestField,
    effort: &mut Effort,
) -> Result<String, NoCandidate<'x>>
    ensures text { IfOk result (λ text. (test : AnyTest) → text_of field test ≡ string_bytes text
        → AgreesOn (IsOfField field) test branch.now) }
    ensures fault { IfErr result (IsFaultOf branch.now) }
{
    let doubt = doubt_of(alloc, branch, field)?;
    match find_text(alloc, field, doubt.demands.as_slice(), effort)? {
        Sought::Text(text) => Ok(text),
        Sought::Nothing => Err(NoCandidate::Impossible),
        Sought::Unknown => Err(NoCandidate::Doubtful(doubt)),
        Sought::Stopped => Err(NoCandidate::Stopped),
    }
}

/// Makes a test that agrees with the branch.
pub(crate) fn make_candidate<'x>(
    alloc: Global,
    branch: &[ValuedStep<'x>],
    effort: &mut Effort,
) -> Result<PossibleTest, NoCandidate<'x>>
    ensures test { IfOk result (λ possible. (test : AnyTest) → IsOf test possible → Agrees test branch.now) }
    ensures fault { IfErr result (IsFaultOf branch.now) }
{
    if !are_constants_right(branch) {
        return Err(NoCandidate::Impossible);
    }
    let Some(platform) = find_platform(branch) else {
        return Err(NoCandidate::Impossible);
    };
    let Some(package_id) = make_package(alloc, branch)? else {
        return Err(NoCandidate::Impossible);
    };
    let kind = make_text(alloc, branch, TestField::Kind, effort)?;
    let binary_name = make_text(alloc, branch, TestField::BinaryName, effort)?;
    let binary_id = make_text(alloc, branch, TestField::BinaryId, effort)?;
    let test_name = make_text(alloc, branch, TestField::TestName, effort)?;
    let group = make_text(alloc, branch, TestField::Group, effort)?;
    Ok(PossibleTest {
        package_id,
        binary_id: RustBinaryId::new(alloc, binary_id.as_str())?,
        binary_name,
        kind: RustTestBinaryKind::new(kind),
        platform,
        test_name: TestCaseName::new(alloc, test_name.as_str())?,
        group,
    })
}
