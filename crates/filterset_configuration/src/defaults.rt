//! Decides the default filter of a lineage.
ghost use Rattle.std.specs.Prelude.{◌≡◌, None, Some, IfOk, MatchOption, find, is_some, map, option_map, string_bytes};
ghost use Rattle.filterset_configuration.specs.Ranking.{IsDefaultFilter, IsSetTo, first_default};

use crate::paths::profile_path;
use crate::profiles::Profile;
use crate::ranking::RankedOverride;
use std::alloc::{AllocError, Global};

/// The default filter of a lineage.
#[derive(Debug, Drop)]
pub enum DefaultFilter<'p> {
    /// The filterset at the path, as `profile.ci.default-filter`.
    Set { path: String, text: &'p str },
    /// It is not known whether the platforms of the override at the path apply, which sets one.
    Unknown { path: String },
    /// None is set: all tests.
    All,
}

/// Returns the first override that sets a default filter, of those whose platforms may apply.
fn first_default<'r, 'p>(
    ranked: &'r [RankedOverride<'p>],
) -> Option<(&'r RankedOverride<'p>, &'p str)>
    ensures { MatchOption result (first_default ranked.now ≡ None) (λ x. (first_default ranked.now ≡ Some x.0.now)
        × (option_map (λ s. string_bytes s) x.0.now.read.now.default_filter ≡ Some x.1.now)) }
{
    for one in ranked {
        if let Some(text) = &one.read.default_filter
            && one.for_target.unwrap_or(true)
        {
            return Some((one, text.as_str()));
        }
    }
    None
}

/// Returns the first profile that sets a default filter.
fn first_own_default<'p>(lineage: &[&'p Profile]) -> Option<(&'p Profile, &'p str)>
    ensures { let first = find (λ p. is_some p.default_filter) (map (λ p. p.now) lineage.now) in
        MatchOption result (first ≡ None) (λ x. (first ≡ Some x.0.now)
        × (option_map (λ s. string_bytes s) x.0.now.default_filter ≡ Some x.1.now)) }
{
    for profile in lineage {
        if let Some(text) = &profile.default_filter {
            return Some((profile, text.as_str()));
        }
    }
    None
}

/// Makes the default filter that is set at `path`.
fn set_at<'p>(alloc: Global, path: &str, text: &'p str) -> Result<DefaultFilter<'p>, AllocError>
    ensures { IfOk result (IsSetTo path.now text.now) }
{
    let path = format!(in alloc; "{path}.default-filter")?;
    Ok(DefaultFilter::Set { path, text })
}

/// Returns the default filter of a lineage and its overrides: that of the first override that sets one and applies to
/// what is built for the target, else that of the first profile that sets one.
pub fn default_filter<'p>(
    alloc: Global,
    lineage: &[&'p Profile],
    ranked: &[RankedOverride<'p>],
) -> Result<DefaultFilter<'p>, AllocError>
    ensures { IfOk result (IsDefaultFilter ranked.now (map (λ p. p.now) lineage.now)) }
{
    if let Some((first, text)) = first_default(ranked) {
        if first.for_target.is_none() {
            let path = String::from_str(alloc, first.path.as_str())?;
            return Ok(DefaultFilter::Unknown { path });
        }
        return set_at(alloc, first.path.as_str(), text);
    }
    match first_own_default(lineage) {
        Some((profile, text)) => {
            let path = profile_path(alloc, profile.name.as_str())?;
            set_at(alloc, path.as_str(), text)
        }
        None => Ok(DefaultFilter::All),
    }
}
