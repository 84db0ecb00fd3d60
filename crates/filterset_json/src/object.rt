//! Objects: which keys they may have, and the entries under their keys.
ghost use Rattle.std.specs.Prelude.{◌≡◌, IfErr, IfOk, OnOk, Option, [], codes, map, option_map, string_bytes};
ghost use Rattle.std.specs.{BTreeMap.keys, List.list_all};
ghost use Rattle.serde_json.specs.View.{view};
ghost use Rattle.filterset_json.specs.Places.{Itself, Names, WrongIfGiven, WrongMember};
ghost use Rattle.filterset_json.specs.Refusals.{Refuses};
ghost use Rattle.filterset_json.specs.Shape.{Given, IsObjectWith, IsText, Optional, Required, Text, is_named};

use crate::entry::{Entry, read_at};
use crate::path::Step;
use crate::refusal::EntryRefusal;
use serde_json::{Map, Value};
use std::alloc::Global;

/// Returns whether each key of an object is one of `names`.
fn has_keys_among(members: &Map<String, Value>, names: &[&str]) -> bool
    ensures { result ≡ list_all (λ key. is_named names.now (string_bytes key)) (keys members.now) }
{
    members.keys().all(|key| names.contains(&key.as_str()))
}

/// Refuses `value` unless it is an object that has no other keys than `names`.
pub fn check_keys(alloc: Global, value: &Value, names: &[&str]) -> Result<(), EntryRefusal>
    ensures ok { OnOk result (IsObjectWith (map (λ name. name.now) names.now) (view value.now)) }
    ensures refused { IfErr result
        (Refuses (IsObjectWith (map (λ name. name.now) names.now) (view value.now))) }
    ensures place { IfErr result (Names (λ place. place ≡ ([], codes "an object that has no other keys"))) }
{
    match value.as_object() {
        Some(members) if has_keys_among(members, names) => Ok(()),
        _ => Err(EntryRefusal::wrong(alloc, "an object that has no other keys")),
    }
}

/// Reads the entry under a key of an object, which must have the key.
pub fn required<T: Entry>(alloc: Global, value: &Value, key: &str) -> Result<T, EntryRefusal>
    ensures read { IfOk result (λ entry. Required key.now T.stands_for (view value.now) (T.row_of entry)) }
    ensures refused { IfErr result (Refuses ((row : T.Row) × Required key.now T.stands_for (view value.now) row)) }
    ensures place { IfErr result (Names (WrongMember key.now T.is_wrong (view value.now))) }
{
    match value.get(key) {
        Some(found) => read_at(alloc, Step::Key(key), found),
        None if value.is_object() => {
            Err(EntryRefusal::wrong(alloc, T::EXPECTED).after(alloc, Step::Key(key)))
        }
        None => Err(EntryRefusal::wrong(alloc, "an object")),
    }
}

/// Reads the entry under a key. Returns `default` if the key is missing.
pub fn optional<T: Entry>(
    alloc: Global,
    value: &Value,
    key: &str,
    default: T,
) -> Result<T, EntryRefusal>
    ensures read { IfOk result
        (λ entry. Optional key.now T.stands_for (T.row_of default) (view value.now) (T.row_of entry)) }
    ensures refused { IfErr result (Refuses ((row : T.Row) × (other : T.Row)
        × Optional key.now T.stands_for other (view value.now) row)) }
    ensures place { IfErr result (Names (WrongIfGiven key.now T.is_wrong (view value.now))) }
{
    match value.get(key) {
        Some(found) => read_at(alloc, Step::Key(key), found),
        None => Ok(default),
    }
}

/// Reads the entry under a key. Returns `None` if the key is missing.
pub fn given<T: Entry>(alloc: Global, value: &Value, key: &str) -> Result<Option<T>, EntryRefusal>
    ensures read { IfOk result
        (λ found. Given key.now T.stands_for (view value.now) (option_map T.row_of found)) }
    ensures refused { IfErr result (Refuses ((found : Option T.Row)
        × Given key.now T.stands_for (view value.now) found)) }
    ensures place { IfErr result (Names (WrongIfGiven key.now T.is_wrong (view value.now))) }
{
    match value.get(key) {
        Some(found) => Ok(Some(read_at(alloc, Step::Key(key), found)?)),
        None => Ok(None),
    }
}

/// Reads the text under a key. Returns `default` if the key is missing.
pub fn optional_text(
    alloc: Global,
    value: &Value,
    key: &str,
    default: &str,
) -> Result<String, EntryRefusal>
    ensures read { IfOk result
        (λ text. Optional key.now IsText default.now (view value.now) (string_bytes text)) }
    ensures refused { IfErr result (Refuses ((text : Text) × (other : Text)
        × Optional key.now IsText other (view value.now) text)) }
    ensures place { IfErr result (Names (WrongIfGiven key.now (Itself IsText (codes "a text")) (view value.now))) }
{
    match value.get(key) {
        Some(found) => read_at(alloc, Step::Key(key), found),
        None => Ok(String::from_str(alloc, default)?),
    }
}
