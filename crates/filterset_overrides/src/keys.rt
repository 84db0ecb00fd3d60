//! The keys that overrides and profiles set.
ghost use Rattle.std.specs.Prelude.{◌++◌, IfOk, List, OnOk, map, string_bytes};
ghost use Rattle.filterset_overrides.specs.{Applying.Text, Giving.AreDistinctOf, Giving.all_settings};

use crate::asked::{AskedOverride, AskedProfile};
use std::alloc::{AllocError, Global};

/// Adds the keys that are not there.
fn push_keys<'o>(keys: &mut Vec<&'o str>, settings: &'o [String]) -> Result<(), AllocError>
    ensures { OnOk result ((all : List Text) → AreDistinctOf all (map (λ k. k.now) keys.old.items)
        → AreDistinctOf (all ++ map string_bytes settings.entry.now) (map (λ k. k.now) keys.new.items)) }
{
    for setting in settings {
        let key = setting.as_str();
        if keys.iter().any(|there| *there == key) {
            continue;
        }
        keys.push(key)?;
    }
    Ok(())
}

/// Returns the keys that one of the overrides or of the profiles sets, each once.
pub fn keys_of<'o>(
    alloc: Global,
    overrides: &[AskedOverride<'o>],
    profiles: &[AskedProfile<'o>],
) -> Result<Vec<&'o str>, AllocError>
    ensures { IfOk result (λ keys. AreDistinctOf (all_settings overrides.now profiles.now) (map (λ k. k.now) keys.items)) }
{
    let mut keys = Vec::new(alloc);
    for asked in overrides {
        push_keys(&mut keys, asked.settings)?;
    }
    for profile in profiles {
        push_keys(&mut keys, profile.settings)?;
    }
    Ok(keys)
}
