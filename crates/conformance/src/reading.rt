//! Reads what rows are made of.
use filterset_json::{Entry, EntryRefusal, text_of};
use serde_json::Value;
use std::alloc::Global;

/// Returns the value under a key, which the object must have.
pub fn value_under<'v>(
    alloc: Global,
    object: &'v Value,
    key: &str,
) -> Result<&'v Value, EntryRefusal> {
    match object.get(key) {
        Some(value) => Ok(value),
        None => Err(EntryRefusal::wrong(alloc, "an object with all its keys")),
    }
}

/// Returns the items of the list that `value` is.
fn items_of<'v>(alloc: Global, value: &'v Value) -> Result<&'v [Value], EntryRefusal> {
    match value.as_array() {
        Some(items) => Ok(items.as_slice()),
        None => Err(EntryRefusal::wrong(alloc, "a list")),
    }
}

/// Returns the items of the list under a key, which the object must have.
pub fn list_under<'v>(
    alloc: Global,
    object: &'v Value,
    key: &str,
) -> Result<&'v [Value], EntryRefusal> {
    items_of(alloc, value_under(alloc, object, key)?)
}

/// Returns the items of the list under a key. Returns no items if the key is missing.
pub fn list_or_none<'v>(
    alloc: Global,
    object: &'v Value,
    key: &str,
) -> Result<&'v [Value], EntryRefusal> {
    match object.get(key) {
        Some(value) => items_of(alloc, value),
        None => Ok(&[]),
    }
}

/// Returns the text that `value` is: a string, or its pieces one after another, with `n` for each count `"n"`.
pub fn read_text(alloc: Global, value: &Value, n: usize) -> Result<String, EntryRefusal> {
    let Some(pieces) = value.as_array() else {
        return String::read(alloc, value);
    };
    let mut text = String::new(alloc);
    for piece in pieces {
        match piece.as_array().map(|items| items.as_slice()) {
            Some([copy, count]) => {
                let count = match count.as_str() {
                    Some("n") => n,
                    _ => usize::read(alloc, count)?,
                };
                let copies = text_of(alloc, copy)?.repeat(alloc, count)?;
                text.push_str(copies.as_str())?;
            }
            Some(_) => return Err(EntryRefusal::wrong(alloc, "a text and a count")),
            None => text.push_str(text_of(alloc, piece)?)?,
        }
    }
    Ok(text)
}

/// Returns the text under a key. Returns `None` if the key is missing.
pub fn given_text(
    alloc: Global,
    object: &Value,
    key: &str,
) -> Result<Option<String>, EntryRefusal> {
    match object.get(key) {
        Some(value) => Ok(Some(read_text(alloc, value, 0)?)),
        None => Ok(None),
    }
}
