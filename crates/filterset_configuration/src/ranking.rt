//! Puts the overrides of a lineage in order.
ghost use Rattle.std.specs.Prelude.{◌≡◌, ◌++◌, List, IfOk, OnOk, flat_map, map};
ghost use Rattle.std.specs.List.{AllZip};
ghost use Rattle.filterset_configuration.specs.{PlatformTrees.facts_of, Ranking.IsRanked, Ranking.placed};
ghost use Rattle.filterset_configuration.specs.declared.ranking.RankedOverride.{RankedOverride};

use crate::overrides::Override;
use crate::paths::{override_path, profile_path};
use crate::platforms::PlatformFacts;
use crate::profiles::Profile;
use std::alloc::{AllocError, Global};

/// An override of a lineage.
#[derive(Debug, Drop)]
pub struct RankedOverride<'p> {
    /// As `profile.ci.overrides[2]`.
    pub path: String,
    pub read: &'p Override,
    /// Whether its platforms apply to what is built for the target. `None`: that is not known.
    pub for_target: Option<bool>,
    /// Whether its platforms apply to what is built for the host.
    pub for_host: Option<bool>,
}

/// Adds the overrides of a profile.
fn push_overrides<'p>(
    alloc: Global,
    profile: &'p Profile,
    host: &PlatformFacts,
    target: &PlatformFacts,
    ranked: &mut Vec<RankedOverride<'p>>,
) -> Result<(), AllocError>
    ensures { OnOk result ((more : List RankedOverride) × (ranked.new.items ≡ ranked.old.items ++ more)
        × AllZip (IsRanked (facts_of host.now) (facts_of target.now)) (placed profile.now) more) }
{
    let path = profile_path(alloc, profile.name.as_str())?;
    for (at, read) in profile.overrides.iter().enumerate() {
        ranked.push(RankedOverride {
            path: override_path(alloc, path.as_str(), at)?,
            read,
            for_target: read.platform.applies(host, target),
            for_host: read.platform.applies(host, host),
        })?;
    }
    Ok(())
}

/// Returns the overrides of a lineage in order: those of its first profile as in the file, then those of the next.
///
/// `host` and `target` are what is known of the platform that runs the build, and of the one that tests are built for.
pub fn rank_overrides<'p>(
    alloc: Global,
    lineage: &[&'p Profile],
    host: &PlatformFacts,
    target: &PlatformFacts,
) -> Result<Vec<RankedOverride<'p>>, AllocError>
    ensures { IfOk result (λ ranked. AllZip (IsRanked (facts_of host.now) (facts_of target.now))
        (flat_map placed (map (λ p. p.now) lineage.now)) ranked.items) }
{
    let mut ranked = Vec::new(alloc);
    for profile in lineage {
        push_overrides(alloc, profile, host, target, &mut ranked)?;
    }
    Ok(ranked)
}
