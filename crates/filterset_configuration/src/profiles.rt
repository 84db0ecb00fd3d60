//! Reads profiles.
ghost use Rattle.std.specs.Prelude.{◌≡◌, List, IfErr, IfOk, string_bytes};
ghost use Rattle.toml.specs.{Data.table, View.table_view, View.view};
ghost use Rattle.filterset_configuration.specs.Profiles.{AreProfiles, HasProfiles, IsProfile};
ghost use Rattle.filterset_configuration.specs.Refusals.{Refuses};
ghost use Rattle.filterset_configuration.specs.declared.profiles.Profile.{Profile};

use crate::overrides::{Override, read_overrides};
use crate::paths::profile_path;
use crate::refusal::ProfileRefusal;
use crate::values::{read_keys_but, read_text, wrong_at};
use filterset_sources::ParsedText;
use std::alloc::Global;
use toml::{Table, Value};

/// A profile.
#[derive(Debug, Drop)]
pub struct Profile {
    pub name: String,
    /// The profile that it falls back on, in place of `default`.
    pub inherits: Option<String>,
    pub default_filter: Option<String>,
    /// The overrides, in the order of the file.
    pub overrides: Vec<Override>,
    /// The keys that it sets: all but `inherits`, `default-filter` and `overrides`, in the order of the table.
    pub settings: Vec<String>,
}

/// Reads a profile.
fn read_profile(
    alloc: Global,
    name: &str,
    file: &Value,
    value: &Value,
) -> Result<Profile, ProfileRefusal>
    ensures name { IfOk result (λ p. string_bytes p.name ≡ name.now) }
    ensures read { IfOk result (IsProfile (view file.now) (view value.now)) }
    ensures refused { IfErr result (Refuses ((p : Profile) × IsProfile (view file.now) (view value.now) p)) }
{
    let path = profile_path(alloc, name)?;
    let path = path.as_str();
    if !value.is_table() {
        return Err(wrong_at(alloc, path, "a table")?);
    }
    Ok(Profile {
        name: String::from_str(alloc, name)?,
        inherits: read_text(alloc, path, value, "inherits")?,
        default_filter: read_text(alloc, path, value, "default-filter")?,
        overrides: read_overrides(alloc, path, file, value)?,
        settings: read_keys_but(alloc, value, &["inherits", "default-filter", "overrides"])?,
    })
}

/// Reads each profile of a table.
fn read_members(
    alloc: Global,
    file: &Value,
    members: &Table,
) -> Result<Vec<Profile>, ProfileRefusal>
    ensures read { IfOk result (λ v. AreProfiles (view file.now) (table (table_view members.now)) v.items) }
    ensures refused { IfErr result (Refuses ((ps : List Profile)
        × AreProfiles (view file.now) (table (table_view members.now)) ps)) }
{
    let mut profiles = Vec::with_capacity(alloc, members.len())?;
    for (name, value) in members.iter() {
        profiles.push(read_profile(alloc, name.as_str(), file, value)?)?;
    }
    Ok(profiles)
}

/// Reads the profiles of a configuration, as `.config/nextest.toml` has them, by the order of their names. Ignores all
/// other keys.
pub fn read_profiles(alloc: Global, parsed: ParsedText<'_>) -> Result<Vec<Profile>, ProfileRefusal>
    ensures read { IfOk result (λ v. HasProfiles parsed.entry.text.now v.items) }
    ensures refused { IfErr result (Refuses ((ps : List Profile) × HasProfiles parsed.entry.text.now ps)) }
{
    let file = parsed.file;
    let Some(found) = file.get("profile") else {
        return Ok(Vec::new(alloc));
    };
    match found.as_table() {
        Some(members) => read_members(alloc, file, members),
        None => Err(wrong_at(alloc, "profile", "a table")?),
    }
}
