//! Finds the profiles that a profile falls back on.
ghost use Rattle.std.specs.Prelude.{◌≡◌, ◌<◌, List, Some, IfErr, IfOk, IfSome, MatchResult, alloc_error, length, map, option_copied, option_map, slice_get};
ghost use Rattle.filterset_configuration.specs.Lineages.{IsLineageFault, IsMissing, Lineage, first_named, named, parent};
ghost use Rattle.filterset_configuration.specs.declared.fault.LineageFault.TheVariants.{OutOfMemory};

use crate::fault::LineageFault;
use crate::names::is_built_in;
use crate::paths::profile_path;
use crate::profiles::Profile;
use std::alloc::{AllocError, Global};

/// Returns the first profile that is named so, with its position.
fn find_named<'p>(profiles: &'p [Profile], name: &str) -> Option<(usize, &'p Profile)>
    ensures found { option_map (λ x. x.1.now) result ≡ first_named profiles.now name.now }
    ensures position { IfSome result (λ x. (x.0 < length profiles.now) × (slice_get profiles.now x.0 ≡ Some x.1.now)) }
{
    for (at, profile) in profiles.iter().enumerate() {
        if profile.name.as_str() == name {
            return Some((at, profile));
        }
    }
    None
}

/// Returns the profile of a name, with its position: `default` for a `default-miri` that the file lacks.
fn find_profile<'p>(profiles: &'p [Profile], name: &str) -> Option<(usize, &'p Profile)>
    ensures found { option_map (λ x. x.1.now) result ≡ named profiles.now name.now }
    ensures position { IfSome result (λ x. (x.0 < length profiles.now) × (slice_get profiles.now x.0 ≡ Some x.1.now)) }
{
    match find_named(profiles, name) {
        None if name == "default-miri" => find_named(profiles, "default"),
        found => found,
    }
}

/// Returns the name of the profile that a profile falls back on. `default` need not fall back on one.
fn parent(profile: &Profile) -> Option<&str>
    ensures { option_copied result ≡ parent profile.now }
{
    match &profile.inherits {
        Some(name) => Some(name.as_str()),
        None if profile.name.as_str() == "default" => None,
        None => Some("default"),
    }
}

/// Makes the fault of a name that no profile has, which the last profile of a chain inherits from.
fn missing(alloc: Global, chain: &[&Profile], name: &str) -> Result<LineageFault, AllocError>
    ensures { IfOk result (IsMissing (map (λ p. p.now) chain.now) name.now) }
{
    let name = String::from_str(alloc, name)?;
    let Some(child) = chain.last() else {
        return Ok(LineageFault::NoProfile(name));
    };
    let path = profile_path(alloc, child.name.as_str())?;
    let path = format!(in alloc; "{path}.inherits")?;
    Ok(LineageFault::NoParent { path, name })
}

/// Returns the profiles that the profile of a name falls back on: itself first, then those that each inherits from, and
/// last `default`. `default` and `default-miri`, which are built in, may be absent.
pub fn lineage<'p>(
    alloc: Global,
    profiles: &'p [Profile],
    name: &str,
) -> Result<Vec<&'p Profile>, LineageFault>
    ensures read { IfOk result (λ chain. Lineage profiles.now name.now (map (λ p. p.now) chain.items)) }
    ensures only { (chain : List Profile) → Lineage profiles.now name.now chain → MatchResult result
        (λ found. map (λ p. p.now) found.items ≡ chain) (λ fault. fault ≡ OutOfMemory alloc_error) }
    ensures refused { IfErr result (IsLineageFault profiles.now name.now) }
{
    let mut is_passed = vec![in alloc; false; profiles.len()]?;
    let mut chain = Vec::new(alloc);
    let mut next = Some(name);
    while let Some(wanted) = next {
        let Some((at, profile)) = find_profile(profiles, wanted) else {
            if is_built_in(wanted) {
                return Ok(chain);
            }
            return Err(missing(alloc, &chain, wanted)?);
        };
        if is_passed[at] {
            let path = profile_path(alloc, profile.name.as_str())?;
            return Err(LineageFault::Cycle { path });
        }
        is_passed[at] = true;
        chain.push(profile)?;
        next = parent(profile);
    }
    Ok(chain)
}
