//! Reads values of messages.
ghost use Rattle.std.specs.{Prelude.◌≡◌, Prelude.option_map, Str.bytes_eq};
ghost use Rattle.serde_json.specs.View.{items_view, view};
ghost use Rattle.filterset_display.specs.Values as spec;

use crate::positions::{Position, Range};
use serde_json::Value;

/// Returns whether two texts are the same.
pub fn is_same(a: &str, b: &str) -> bool
    ensures { result ≡ bytes_eq a.now b.now }
{
    a == b
}

/// Returns the text at a path of keys.
pub fn text_at<'v>(value: &'v Value, path: &str) -> Option<&'v str>
    ensures { option_map (λ t. t.now) result ≡ spec.text_at path.now (view value.now) }
{
    value.pointer(path)?.as_str()
}

/// Returns the natural number at a path of keys.
fn natural_at(value: &Value, path: &str) -> Option<usize>
    ensures { result ≡ spec.natural_at path.now (view value.now) }
{
    let number = value.pointer(path)?.as_u64()?;
    Some(number as usize)
}

/// Returns the integer at a path of keys.
pub fn integer_at(value: &Value, path: &str) -> Option<i64>
    ensures { result ≡ spec.integer_at path.now (view value.now) }
{
    value.pointer(path)?.as_i64()
}

/// Returns the list at a path of keys.
pub fn array_at<'v>(value: &'v Value, path: &str) -> Option<&'v Vec<Value>>
    ensures { option_map (λ v. items_view v.now.items) result ≡ spec.array_at path.now (view value.now) }
{
    value.pointer(path)?.as_array()
}

/// Reads the position at a path of keys.
pub fn position_at(value: &Value, path: &str) -> Option<Position>
    ensures { result ≡ spec.position_at path.now (view value.now) }
{
    let found = value.pointer(path)?;
    let line = natural_at(found, "/line")?;
    let character = natural_at(found, "/character")?;
    Some(Position { line, character })
}

/// Reads the range at a path of keys.
#[tactic(auto, unfolding(crate::specs::Values::range_at))]
pub fn range_at(value: &Value, path: &str) -> Option<Range>
    ensures { result ≡ spec.range_at path.now (view value.now) }
{
    range_in(value.pointer(path)?)
}

/// Reads a range.
pub fn range_in(value: &Value) -> Option<Range>
    ensures { result ≡ spec.range_in (view value.now) }
{
    let start = position_at(value, "/start")?;
    let end = position_at(value, "/end")?;
    Some(Range { start, end })
}
