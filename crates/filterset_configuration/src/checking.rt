//! Checks the values of profiles.
ghost use Rattle.std.specs.Prelude.{◌≡◌, ◌++◌, List, IfOk, OnOk};
ghost use Rattle.std.specs.Bool.{OnFalse, OnTrue};
ghost use Rattle.toml.specs.View.{view};
ghost use Rattle.filterset_configuration.specs.Keys.{Finds};
ghost use Rattle.filterset_configuration.specs.Wrong.{AreWrongValues, IsKnown, IsRight, Judged, value_row, values_of};
ghost use Rattle.filterset_configuration.specs.declared.wrong.WrongValue.{WrongValue};

use crate::circles::mark_circles;
use crate::names::is_built_in;
use crate::placing::{NumberedValues, numbered_values, place_in};
use crate::platforms::{PlatformRefusal, PlatformSpec};
use crate::values::{has_member, is_group};
use crate::walking::values_of;
use crate::wrong::{ProfileValue, ValueRole, WrongValue};
use filterset_sources::ParsedText;
use std::alloc::{AllocError, Global};
use toml::Value;

/// A file whose values are checked.
#[derive(Drop)]
struct CheckedFile<'f> {
    text: &'f str,
    file: &'f Value,
    /// Which of its profiles fall back on themselves.
    circles: Vec<bool>,
    /// Its values, with numbers in place of their texts.
    numbered: Option<NumberedValues>,
}

/// Returns whether a value of a file is right.
fn is_right(
    alloc: Global,
    file: &CheckedFile<'_>,
    role: ValueRole,
    text: &str,
) -> Result<bool, AllocError>
    requires { IsKnown file.now }
    ensures right { IfOk result (λ is. OnTrue is (IsRight (view file.now.file.now) role text.now)) }
    ensures wrong { IfOk result (λ is. OnFalse is (¬ IsRight (view file.now.file.now) role text.now)) }
{
    match role {
        ValueRole::Parent => Ok(is_built_in(text) || has_member(file.file, "profile", text)),
        ValueRole::NoCircle(at) => match file.circles.get(at) {
            Some(is_in_circle) => Ok(!*is_in_circle),
            None => Ok(true),
        },
        ValueRole::Group => Ok(is_group(file.file, text)),
        ValueRole::Platform => match PlatformSpec::parse(alloc, text) {
            Ok(_) => Ok(true),
            Err(PlatformRefusal::OutOfMemory(refused)) => Err(refused),
            Err(PlatformRefusal::Fault(_)) => Ok(false),
        },
        ValueRole::NoText | ValueRole::ForNothing | ValueRole::ForBoth => Ok(false),
        ValueRole::ReservedProfile | ValueRole::ReservedGroup => Ok(false),
    }
}

/// Adds the value at a position of a file's values, if it is wrong.
fn push_wrong(
    found: &mut Vec<WrongValue>,
    alloc: Global,
    file: &CheckedFile<'_>,
    at: usize,
    value: &ProfileValue,
) -> Result<(), AllocError>
    requires { IsKnown file.now }
    ensures { OnOk result ((front : List WrongValue) × (found.new.items ≡ found.old.items ++ front)
        × Judged file.now.text.now (view file.now.file.now) at (value_row value.now) front) }
{
    if is_right(alloc, file, value.role, value.text.as_str())? {
        return Ok(());
    }
    found.push(WrongValue {
        path: String::from_str(alloc, value.path.as_str())?,
        expected: value.role.expected(),
        text: String::from_str(alloc, value.text.as_str())?,
        place: place_in(alloc, file.text, &file.numbered, at, value)?,
    })?;
    Ok(())
}

/// Finds the values of a configuration that are wrong, other than its filtersets, each with its place: what a profile
/// inherits from if it is no profile, or falls back on that profile; a group that the file lacks; what is no platform; an
/// override that is for nothing; and a name of a profile or of a group that is reserved.
///
/// Each place is right. That each text has one is tested only. Returns an error only if out of memory.
pub fn find_wrong_values(
    alloc: Global,
    parsed: ParsedText<'_>,
) -> Result<Vec<WrongValue>, AllocError>
    ensures { IfOk result (λ found. AreWrongValues parsed.entry.text.now found.items) }
{
    let (text, file) = (parsed.text, parsed.file);
    let found = values_of(alloc, file)?;
    let values = found.as_slice();
    let checked = CheckedFile {
        text,
        file,
        circles: mark_circles(alloc, file)?,
        numbered: numbered_values(alloc, text, values)?,
    };
    let mut wrong = Vec::new(alloc);
    for (at, value) in values.iter().enumerate() {
        push_wrong(&mut wrong, alloc, &checked, at, value)?;
    }
    Ok(wrong)
}
