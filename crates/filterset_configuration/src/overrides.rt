//! Reads the overrides of profiles.
ghost use Rattle.std.specs.Prelude.{◌≡◌, List, IfErr, IfOk, codes, unwrap_or};
ghost use Rattle.toml.specs.{Data.array, Data.get, Data.no_items, Data.no_members, Data.table, View.view};
ghost use Rattle.filterset_configuration.specs.declared.platforms.filter.PlatformFilter.{PlatformFilter};
ghost use Rattle.filterset_configuration.specs.Profiles.{AreOverrides, ArePlatforms, IsOverride, IsPlatform, Under, has_platform, shape_of};
ghost use Rattle.filterset_configuration.specs.{Refusals.Refuses, declared.overrides.Override.Override};

use crate::paths::override_path;
use crate::platforms::PlatformFilter;
use crate::refusal::ProfileRefusal;
use crate::values::{read_group, read_keys_but, read_platform, read_text, wrong_at, wrong_under};
use crate::wrong::ValueRole;
use std::alloc::Global;
use toml::Value;

/// An override of a profile.
#[derive(Debug, Drop)]
pub struct Override {
    /// The platforms that it is for.
    pub platform: PlatformFilter,
    /// The filterset of the tests that it is for.
    pub filter: Option<String>,
    /// The default filter that it sets.
    pub default_filter: Option<String>,
    /// The group that it puts its tests in.
    pub test_group: Option<String>,
    /// The keys that it sets: all but `platform`, `filter` and `default-filter`, in the order of the table.
    pub settings: Vec<String>,
}

/// Reads the parts of a table of platforms.
fn read_parts(alloc: Global, path: &str, value: &Value) -> Result<PlatformFilter, ProfileRefusal>
    ensures read { IfOk result (λ p. Under IsPlatform (codes "host") (view value.now) p.host
        × Under IsPlatform (codes "target") (view value.now) p.target) }
    ensures refused { IfErr result (Refuses ((p : PlatformFilter)
        × Under IsPlatform (codes "host") (view value.now) p.host
        × Under IsPlatform (codes "target") (view value.now) p.target)) }
{
    let path = format!(in alloc; "{path}.platform")?;
    Ok(PlatformFilter {
        host: read_platform(alloc, path.as_str(), value, "host")?,
        target: read_platform(alloc, path.as_str(), value, "target")?,
    })
}

/// Reads the platforms of an override: a text is the target's, and a table may have both.
fn read_platforms(
    alloc: Global,
    path: &str,
    value: &Value,
) -> Result<PlatformFilter, ProfileRefusal>
    ensures read { IfOk result (ArePlatforms (unwrap_or (get (codes "platform") (view value.now)) (table no_members))) }
    ensures refused { IfErr result (Refuses ((p : PlatformFilter)
        × ArePlatforms (unwrap_or (get (codes "platform") (view value.now)) (table no_members)) p)) }
{
    let host = None;
    let Some(found) = value.get("platform") else {
        return Ok(PlatformFilter { host, target: None });
    };
    if found.is_table() {
        return read_parts(alloc, path, found);
    }
    let target = read_platform(alloc, path, value, "platform")?;
    Ok(PlatformFilter { host, target })
}

/// Returns whether an override has platforms.
fn has_platform(value: &Value) -> bool
    ensures { result ≡ has_platform (view value.now) }
{
    match value.get("platform") {
        Some(found) => !found.is_table()
            || found.get("host").is_some()
            || found.get("target").is_some(),
        None => false,
    }
}

/// Returns what is wrong with the keys of an override.
pub(crate) fn shape_of(value: &Value) -> Option<ValueRole>
    ensures { result ≡ shape_of (view value.now) }
{
    if value.get("filter").is_none() {
        return if has_platform(value) {
            None
        } else {
            Some(ValueRole::ForNothing)
        };
    }
    value.get("default-filter").map(|_| ValueRole::ForBoth)
}

/// Reads an override.
fn read_override(
    alloc: Global,
    path: &str,
    file: &Value,
    value: &Value,
) -> Result<Override, ProfileRefusal>
    ensures read { IfOk result (IsOverride (view file.now) (view value.now)) }
    ensures refused { IfErr result (Refuses ((o : Override) × IsOverride (view file.now) (view value.now) o)) }
{
    if !value.is_table() {
        return Err(wrong_at(alloc, path, "a table")?);
    }
    let read = Override {
        platform: read_platforms(alloc, path, value)?,
        filter: read_text(alloc, path, value, "filter")?,
        default_filter: read_text(alloc, path, value, "default-filter")?,
        test_group: read_group(alloc, path, file, value)?,
        settings: read_keys_but(alloc, value, &["platform", "filter", "default-filter"])?,
    };
    match shape_of(value) {
        Some(role) => Err(wrong_at(alloc, path, role.expected())?),
        None => Ok(read),
    }
}

/// Reads the overrides of the profile at `path`.
pub(crate) fn read_overrides(
    alloc: Global,
    path: &str,
    file: &Value,
    value: &Value,
) -> Result<Vec<Override>, ProfileRefusal>
    ensures read { IfOk result (λ v. AreOverrides (view file.now)
        (unwrap_or (get (codes "overrides") (view value.now)) (array no_items)) v.items) }
    ensures refused { IfErr result (Refuses ((os : List Override) × AreOverrides (view file.now)
        (unwrap_or (get (codes "overrides") (view value.now)) (array no_items)) os)) }
{
    let Some(found) = value.get("overrides") else {
        return Ok(Vec::new(alloc));
    };
    let Some(values) = found.as_array() else {
        return Err(wrong_under(alloc, path, "overrides", "a list")?);
    };
    let items = values.as_slice();
    let mut overrides = Vec::with_capacity(alloc, items.len())?;
    for (at, item) in items.iter().enumerate() {
        let path = override_path(alloc, path, at)?;
        overrides.push(read_override(alloc, path.as_str(), file, item)?)?;
    }
    Ok(overrides)
}
