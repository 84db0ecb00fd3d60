//! Reads single values.
ghost use Rattle.std.specs.Prelude.{◌≡◌, Option, String, IfErr, IfOk, codes, is_some, map, option_and_then, string_bytes};
ghost use Rattle.std.specs.declared.alloc.Global.{Global};
ghost use Rattle.toml.specs.{Data.get, View.view};
ghost use Rattle.filterset_configuration.specs.declared.platforms.specification.PlatformSpec.{PlatformSpec};
ghost use Rattle.filterset_configuration.specs.Profiles.{IsGroup, IsPlatform, IsText, Under, is_group, settings_but};
ghost use Rattle.filterset_configuration.specs.Refusals.{IsWrong, Refuses};

use crate::platforms::{PlatformRefusal, PlatformSpec};
use crate::refusal::ProfileRefusal;
use crate::wrong::ValueRole;
use std::alloc::{AllocError, Global};
use toml::Value;

/// Makes the refusal of the value under a key of what is at `path`.
pub(crate) fn wrong_under(
    alloc: Global,
    path: &str,
    key: &str,
    expected: &'static str,
) -> Result<ProfileRefusal, AllocError>
    ensures { IfOk result IsWrong }
{
    let path = format!(in alloc; "{path}.{key}")?;
    Ok(ProfileRefusal::Wrong { path, expected })
}

/// Makes the refusal of the value at `path`.
pub(crate) fn wrong_at(
    alloc: Global,
    path: &str,
    expected: &'static str,
) -> Result<ProfileRefusal, AllocError>
    ensures { IfOk result IsWrong }
{
    let path = String::from_str(alloc, path)?;
    Ok(ProfileRefusal::Wrong { path, expected })
}

/// Reads the text under a key, if there is one.
pub(crate) fn read_text(
    alloc: Global,
    path: &str,
    value: &Value,
    key: &str,
) -> Result<Option<String>, ProfileRefusal>
    ensures read { IfOk result (Under IsText key.now (view value.now)) }
    ensures refused { IfErr result (Refuses ((o : Option (String Global)) × Under IsText key.now (view value.now) o)) }
{
    let Some(found) = value.get(key) else {
        return Ok(None);
    };
    let Some(text) = found.as_str() else {
        return Err(wrong_under(alloc, path, key, "a text")?);
    };
    Ok(Some(String::from_str(alloc, text)?))
}

/// Reads the keys that a table sets: all but `others`. There are none if the value is no table.
pub(crate) fn read_keys_but(
    alloc: Global,
    value: &Value,
    others: &[&str],
) -> Result<Vec<String>, AllocError>
    ensures { IfOk result (λ keys. map (λ s. string_bytes s) keys.items
        ≡ settings_but (map (λ o. o.now) others.now) (view value.now)) }
{
    let mut keys = Vec::new(alloc);
    let Some(members) = value.as_table() else {
        return Ok(keys);
    };
    for key in members.keys() {
        if others.contains(&key.as_str()) {
            continue;
        }
        keys.push(String::from_str(alloc, key.as_str())?)?;
    }
    Ok(keys)
}

/// Returns whether the table under a key of a file has a member of this name.
pub(crate) fn has_member(file: &Value, key: &str, name: &str) -> bool
    ensures { result ≡ is_some (option_and_then (get name.now) (get key.now (view file.now))) }
{
    match file.get(key) {
        Some(found) => found.get(name).is_some(),
        None => false,
    }
}

/// Returns whether a group of tests is `@global`, or a key of the file's `[test-groups]`.
pub(crate) fn is_group(file: &Value, name: &str) -> bool
    ensures { result ≡ is_group (view file.now) name.now }
{
    name == "@global" || has_member(file, "test-groups", name)
}

/// Reads the group of tests that an override sets, if it sets one.
pub(crate) fn read_group(
    alloc: Global,
    path: &str,
    file: &Value,
    value: &Value,
) -> Result<Option<String>, ProfileRefusal>
    ensures read { IfOk result (Under (IsGroup (view file.now)) (codes "test-group") (view value.now)) }
    ensures refused { IfErr result (Refuses ((o : Option (String Global))
        × Under (IsGroup (view file.now)) (codes "test-group") (view value.now) o)) }
{
    let Some(name) = read_text(alloc, path, value, "test-group")? else {
        return Ok(None);
    };
    if is_group(file, name.as_str()) {
        return Ok(Some(name));
    }
    Err(wrong_under(alloc, path, "test-group", ValueRole::Group.expected())?)
}

/// Reads the platform under a key, if there is one.
pub(crate) fn read_platform(
    alloc: Global,
    path: &str,
    value: &Value,
    key: &str,
) -> Result<Option<PlatformSpec>, ProfileRefusal>
    ensures read { IfOk result (Under IsPlatform key.now (view value.now)) }
    ensures refused { IfErr result (Refuses ((o : Option PlatformSpec) × Under IsPlatform key.now (view value.now) o)) }
{
    let Some(found) = value.get(key) else {
        return Ok(None);
    };
    let Some(text) = found.as_str() else {
        return Err(wrong_under(alloc, path, key, "a text")?);
    };
    match PlatformSpec::parse(alloc, text) {
        Ok(platform) => Ok(Some(platform)),
        Err(PlatformRefusal::OutOfMemory(error)) => Err(ProfileRefusal::OutOfMemory(error)),
        Err(PlatformRefusal::Fault(_)) => {
            Err(wrong_under(alloc, path, key, ValueRole::Platform.expected())?)
        }
    }
}
