//! How many tests get each setting from each override.
ghost use Rattle.std.specs.Prelude.{◌≡◌, ◌++◌, ◌∷◌, All, Bool, IfOk, List, Option, Some, [], false, length, map};
ghost use Rattle.std.proofs.Common.{replicate};
ghost use Rattle.filterset_graph.specs.declared.package.PackageMetadata.{PackageMetadata};
ghost use Rattle.filterset_expression.specs.declared.expression.CompiledExpr.{CompiledExpr};
ghost use Rattle.filterset_overrides.specs.Applied.{AreApplied, AreTaken, IsApplied, overrides_of};
ghost use Rattle.filterset_overrides.specs.{Applying.Test, Counting.EachAfter, Counting.IsGiven};
ghost use Rattle.filterset_overrides.specs.declared.asked.AskedOverride.{AskedOverride};

use crate::asked::sets;
use crate::counting::answers::{count_answers, either_of, given_of};
use crate::counting::applied::AppliedOverride;
use crate::counting::{SettingColumn, TestCount};
use std::alloc::{AllocError, Global};

/// Counts the tests that get the setting from the override, if it sets it. `taken` has of each test whether an override
/// before takes the setting, and afterwards whether that or this one does.
fn count_given(
    alloc: Global,
    key: &str,
    applied: &AppliedOverride<'_>,
    taken: &mut Vec<Option<bool>>,
) -> Result<Option<TestCount>, AllocError>
    ensures { IfOk result (λ given. (packages : List PackageMetadata) (default : CompiledExpr) (tests : List Test)
        (before : List AskedOverride) → IsApplied packages default tests applied.now
        → AreTaken packages default tests key.now before taken.old.items
        → IsGiven packages default tests key.now before applied.now.asked given
        × AreTaken packages default tests key.now (before ++ applied.now.asked ∷ []) taken.new.items) }
{
    if !sets(applied.asked.settings, key) {
        return Ok(None);
    }
    let given = given_of(alloc, applied.answers.as_slice(), taken.as_slice())?;
    *taken = either_of(alloc, taken.as_slice(), applied.answers.as_slice())?;
    Ok(Some(count_answers(given.as_slice())))
}

/// Counts for each override the tests that get the setting from it.
fn count_setting(
    alloc: Global,
    key: &str,
    applied: &[AppliedOverride<'_>],
    test_count: usize,
) -> Result<Vec<Option<TestCount>>, AllocError>
    ensures { IfOk result (λ given. (packages : List PackageMetadata) (default : CompiledExpr) (tests : List Test)
        → length tests ≡ test_count → AreApplied packages default tests applied.now
        → EachAfter (IsGiven packages default tests key.now) [] (overrides_of applied.now) given.items) }
{
    let mut taken = vec![in alloc; Some(false); test_count]?;
    let mut given = Vec::with_capacity(alloc, applied.len())?;
    for one in applied {
        given.push(count_given(alloc, key, one, &mut taken)?)?;
    }
    Ok(given)
}

/// Counts for each key and each override the tests that get the setting from it.
pub fn count_settings<'o>(
    alloc: Global,
    keys: &[&'o str],
    applied: &[AppliedOverride<'_>],
    test_count: usize,
) -> Result<Vec<SettingColumn<'o>>, AllocError>
    ensures keys { IfOk result (λ columns. map (λ c. c.key.now) columns.items ≡ map (λ k. k.now) keys.now) }
    ensures given { IfOk result (λ columns. (packages : List PackageMetadata) (default : CompiledExpr)
        (tests : List Test) → length tests ≡ test_count → AreApplied packages default tests applied.now
        → All (λ c. EachAfter (IsGiven packages default tests c.key.now) [] (overrides_of applied.now) c.given.items)
        columns.items) }
{
    let mut columns = Vec::with_capacity(alloc, keys.len())?;
    for key in keys {
        let given = count_setting(alloc, key, applied, test_count)?;
        columns.push(SettingColumn { key: *key, given })?;
    }
    Ok(columns)
}
