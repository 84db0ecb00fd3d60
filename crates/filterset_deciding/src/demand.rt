//! What the values of a branch demand of a text of a test.
ghost use Rattle.std.specs.Prelude.{◌≡◌, ◌↔◌, Contains, IfNone, IfOk, IfSome, IsTrue, Some};
ghost use Rattle.std.specs.List.{AllByRecursion};
ghost use Rattle.filterset_expression.specs.{Expression.compiled_leaf, FlatSteps.step_of};
ghost use Rattle.filterset_deciding.specs.AnyTest.{AnyTest};
ghost use Rattle.filterset_deciding.specs.Aspects.{AgreesOn, IsKnownOn, IsOfField, text_of};
ghost use Rattle.filterset_deciding.specs.Demands.{IsDemandedBy, IsDoubtIn, field_of};
ghost use Rattle.filterset_deciding.specs.Texts.{AreComparisons, HasUnsearched, IsAmong, Meets};
ghost use Rattle.filterset_deciding.specs.{declared.demand.Demand.Demand, Known.steps_in};
ghost use Rattle.filterset_matchers.specs.Equality.{compared};

use crate::running::ValuedStep;
use filterset_expression::{FiltersetLeaf, FlatStep};
use filterset_matchers::NameMatcher;
use std::alloc::{AllocError, Global};

/// A text of a test that matchers are put to.
#[derive(Clone, Copy, Debug, PartialEq, Eq)]
pub enum TestField {
    Kind,
    BinaryName,
    BinaryId,
    TestName,
    Group,
}

/// A matcher, and whether it has to match.
#[derive(Clone, Copy, Debug)]
pub struct Demand<'x> {
    pub matcher: &'x NameMatcher,
    pub is_matched: bool,
}

/// Why an answer is unknown: it depends on whether some text meets all of these demands at once.
#[derive(Debug)]
pub struct Doubt<'x> {
    /// The text of a test.
    pub field: TestField,
    pub demands: Vec<Demand<'x>>,
}

// By hand, so that a function that drops one proves one call.
impl Drop for Doubt<'_> {
    fn drop(self) {
        let Doubt {
            field: _,
            demands: _demands,
        } = self;
    }
}

/// How many demands each other one is compared with, so that leaving out repeated ones takes linear time.
const COMPARED: usize = 100;

/// Returns the first demands, as many as are compared with.
fn first_demands<'d, 'x>(demands: &'d [Demand<'x>]) -> &'d [Demand<'x>]
    ensures { (demand : Demand) → IsAmong result.now demand → IsAmong demands.entry.now demand }
{
    if demands.len() <= COMPARED {
        return demands;
    }
    &demands[..COMPARED]
}

/// Returns whether one of these demands is the same.
fn is_repeated(demand: Demand<'_>, kept: &[Demand<'_>]) -> bool
    ensures { IsTrue result → IsAmong kept.now demand.entry }
{
    for other in kept {
        if demand.matcher == other.matcher && demand.is_matched == other.is_matched {
            return true;
        }
    }
    false
}

impl<'x> Doubt<'x> {
    /// Copies the doubt without demands that are repeated, as far as these are among the first. The only error is out of
    /// memory.
    pub(crate) fn without_repeats(&self, alloc: Global) -> Result<Doubt<'x>, AllocError>
        ensures field { IfOk result (λ kept. kept.field ≡ self.now.field) }
        ensures demands { IfOk result (λ kept. AllByRecursion (Contains self.now.demands.items) kept.demands.items) }
        ensures comparisons { IfOk result (λ kept. AreComparisons kept.demands.items → AreComparisons self.now.demands.items) }
        ensures unsearched { IfOk result (λ kept. HasUnsearched self.now.demands.items → HasUnsearched kept.demands.items) }
    {
        let mut demands = Vec::new(alloc);
        for demand in &self.demands {
            if !is_repeated(*demand, first_demands(demands.as_slice())) {
                demands.push(*demand)?;
            }
        }
        Ok(Doubt {
            field: self.field,
            demands,
        })
    }
}

/// Returns the text that the leaf's matcher is put to, if it has a matcher.
fn field_of(leaf: &FiltersetLeaf) -> Option<TestField>
    ensures { result ≡ field_of (compiled_leaf leaf.now) }
{
    match leaf {
        FiltersetLeaf::Kind(..) => Some(TestField::Kind),
        FiltersetLeaf::Binary(..) => Some(TestField::BinaryName),
        FiltersetLeaf::BinaryId(..) => Some(TestField::BinaryId),
        FiltersetLeaf::Test(..) => Some(TestField::TestName),
        FiltersetLeaf::Group(..) => Some(TestField::Group),
        FiltersetLeaf::Packages(..)
        | FiltersetLeaf::Platform(..)
        | FiltersetLeaf::Default
        | FiltersetLeaf::All
        | FiltersetLeaf::None => None,
    }
}

/// Returns what a step demands of this text of a test, if it demands something.
fn demand_of<'x>(placed: ValuedStep<'x>, field: TestField) -> Option<Demand<'x>>
    ensures some { IfSome result (λ demand. IsDemandedBy field placed.entry demand) }
    ensures none { IfNone result ((test : AnyTest)
        → IsKnownOn (IsOfField field) test (step_of placed.entry.step) placed.entry.value) }
{
    let FlatStep::Leaf(leaf) = placed.step else {
        return None;
    };
    let is_matched = placed.value?;
    if field_of(leaf)? != field {
        return None;
    }
    let matcher = leaf.matcher()?;
    Some(Demand {
        matcher,
        is_matched,
    })
}

/// Returns all that a branch demands of this text of a test. The only error is out of memory.
pub(crate) fn doubt_of<'x>(
    alloc: Global,
    branch: &[ValuedStep<'x>],
    field: TestField,
) -> Result<Doubt<'x>, AllocError>
    ensures field { IfOk result (λ doubt. doubt.field ≡ field) }
    ensures about { IfOk result (λ doubt. IsDoubtIn (steps_in branch.now) doubt) }
    ensures meets { IfOk result (λ doubt. (test : AnyTest)
        → Meets (text_of field test) doubt.demands.items ↔ AgreesOn (IsOfField field) test branch.now) }
{
    let mut demands = Vec::new(alloc);
    for placed in branch {
        match demand_of(*placed, field) {
            Some(demand) => demands.push(demand)?,
            None => {}
        }
    }
    Ok(Doubt { field, demands })
}
