//! Which overrides apply to a test, and what gives it each of its settings.
ghost use Rattle.std.specs.Prelude.{◌≡◌, All, IfOk, List, is_none, map};
ghost use Rattle.std.specs.List.{list_any};
ghost use Rattle.filterset_graph.specs.declared.package.PackageMetadata.{PackageMetadata};
ghost use Rattle.filterset_expression.specs.{Contexts.default_of, declared.expression.CompiledExpr.CompiledExpr};
ghost use Rattle.filterset_overrides.specs.Applying.{DoesApply, IsCompiledOf, Test, verdict};
ghost use Rattle.filterset_overrides.specs.Asking.{IsGivenBy};
ghost use Rattle.filterset_overrides.specs.Giving.{AreExplained, Explains, IsGiver, IsProfileGiver, asked_of};

pub mod text;

use crate::applying::{ExplainedOverride, apply_to_test};
use crate::asked::{AskedOverride, AskedProfile, sets};
use crate::keys::keys_of;
use filterset_expression::{EvalContext, TestQuery};
use std::alloc::{AllocError, Global};

/// What gives a test a setting.
#[derive(Clone, Copy, Debug)]
pub enum Giver<'o> {
    /// The override at this path.
    Override(&'o str),
    /// Unknown: the platforms of the override at this path may apply, and then it is this one.
    Unknown(&'o str),
    /// The profile of this name.
    Profile(&'o str),
    /// No override and no profile, so that the setting is nextest's own.
    Nextest,
}

/// A setting of a test, and what gives it.
#[derive(Clone, Copy, Debug)]
pub struct ExplainedSetting<'o> {
    pub key: &'o str,
    pub giver: Giver<'o>,
}

/// How overrides apply to a test, in their order, and what gives it each of its settings.
#[derive(Debug, Drop)]
pub struct TestOverrides<'o> {
    pub overrides: Vec<ExplainedOverride<'o>>,
    pub settings: Vec<ExplainedSetting<'o>>,
}

/// Returns how each override applies to the test.
fn apply_all<'o>(
    alloc: Global,
    overrides: &[AskedOverride<'o>],
    context: &EvalContext<'_>,
    query: &TestQuery<'_>,
) -> Result<Vec<ExplainedOverride<'o>>, AllocError>
    ensures asked { IfOk result (λ explained. asked_of explained.items ≡ overrides.now) }
    ensures explained { IfOk result (λ explained. (packages : List PackageMetadata)
        → All (IsCompiledOf packages) overrides.now
        → AreExplained packages (default_of context.now) (query.now.binary_query, query.now.test_name.now)
        explained.items) }
{
    let mut explained = Vec::with_capacity(alloc, overrides.len())?;
    for asked in overrides {
        let application = apply_to_test(alloc, asked, context, query)?;
        explained.push(ExplainedOverride {
            asked: *asked,
            application,
        })?;
    }
    Ok(explained)
}

/// Returns the override as what gives the setting, if it sets it and applies, or may.
fn given_by<'o>(key: &str, explained: &ExplainedOverride<'o>) -> Option<Giver<'o>>
    ensures { IsGivenBy key.now explained.now result }
{
    if !sets(explained.asked.settings, key) {
        return None;
    }
    match explained.application.verdict() {
        Some(true) => Some(Giver::Override(explained.asked.path)),
        Some(false) => None,
        None => Some(Giver::Unknown(explained.asked.path)),
    }
}

/// Returns the first profile that sets the key, or nextest itself.
fn first_profile<'o>(key: &str, profiles: &[AskedProfile<'o>]) -> Giver<'o>
    ensures { IsProfileGiver key.now profiles.now result }
{
    for profile in profiles {
        if sets(profile.settings, key) {
            return Giver::Profile(profile.name);
        }
    }
    Giver::Nextest
}

/// Returns what gives the setting: the first override that does or may, or else a profile or nextest itself.
fn giver_of<'o>(
    key: &str,
    explained: &[ExplainedOverride<'o>],
    profiles: &[AskedProfile<'o>],
) -> Giver<'o>
    ensures { (packages : List PackageMetadata) (default : CompiledExpr) (test : Test)
        → AreExplained packages default test explained.now
        → IsGiver (DoesApply packages default test) key.now (asked_of explained.now) profiles.now result }
{
    for one in explained {
        if let Some(giver) = given_by(key, one) {
            return giver;
        }
    }
    first_profile(key, profiles)
}

/// Returns each of the keys with what gives it.
fn explain_settings<'o>(
    alloc: Global,
    keys: &[&'o str],
    explained: &[ExplainedOverride<'o>],
    profiles: &[AskedProfile<'o>],
) -> Result<Vec<ExplainedSetting<'o>>, AllocError>
    ensures keys { IfOk result (λ settings. map (λ s. s.key.now) settings.items ≡ map (λ k. k.now) keys.now) }
    ensures givers { IfOk result (λ settings. (packages : List PackageMetadata) (default : CompiledExpr) (test : Test)
        → AreExplained packages default test explained.now
        → All (λ s. IsGiver (DoesApply packages default test) s.key.now (asked_of explained.now) profiles.now s.giver)
        settings.items) }
{
    let mut settings = Vec::with_capacity(alloc, keys.len())?;
    for key in keys {
        settings.push(ExplainedSetting {
            key: *key,
            giver: giver_of(key, explained, profiles),
        })?;
    }
    Ok(settings)
}

/// Returns how each override applies to the test, and for each setting that an override or a profile sets what gives it.
///
/// The overrides are in the order in which they go before each other, and so are the profiles. Returns an error only if
/// out of memory.
pub fn explain_overrides<'o>(
    alloc: Global,
    overrides: &[AskedOverride<'o>],
    profiles: &[AskedProfile<'o>],
    context: &EvalContext<'_>,
    query: &TestQuery<'_>,
) -> Result<TestOverrides<'o>, AllocError>
    ensures { IfOk result (λ explained. (packages : List PackageMetadata) → All (IsCompiledOf packages) overrides.now
        → Explains packages (default_of context.now) (query.now.binary_query, query.now.test_name.now)
        overrides.now profiles.now explained) }
{
    let explained = apply_all(alloc, overrides, context, query)?;
    let keys = keys_of(alloc, overrides, profiles)?;
    let settings = explain_settings(alloc, keys.as_slice(), explained.as_slice(), profiles)?;
    Ok(TestOverrides {
        overrides: explained,
        settings,
    })
}

/// Returns whether it is unknown of one of the overrides whether it applies to the test.
///
/// If this is false, what gives the test each of its settings is known too.
pub fn any_unknown(explained: &TestOverrides<'_>) -> bool
    ensures { result ≡ list_any (λ e. is_none (verdict e.application)) explained.now.overrides.items }
{
    explained
        .overrides
        .iter()
        .any(|one| one.application.verdict().is_none())
}
