//! Finds the places of values in the file that they were read from.
ghost use Rattle.std.specs.Prelude.{IfOk, IfSome};
ghost use Rattle.filterset_configuration.specs.Wrong.{AreNumbered, IsValuePlace, value_row};

use crate::numbering::Numbering;
use crate::place::Place;
use crate::walking::values_of;
use crate::wrong::ProfileValue;
use filterset_sources::{SourceRefusal, file_of};
use std::alloc::{AllocError, Global};

/// The values of a file with the numbers of some of its strings in their place.
#[derive(Drop)]
pub(crate) struct NumberedValues {
    pub numbering: Numbering,
    pub values: Vec<ProfileValue>,
}

/// Puts numbers in place of the strings of a file that are read as the texts of its values, and reads its values again.
pub(crate) fn numbered_values(
    alloc: Global,
    file: &str,
    values: &[ProfileValue],
) -> Result<Option<NumberedValues>, AllocError>
    ensures { IfOk result (λ o. IfSome o (AreNumbered file.now)) }
{
    let texts: Vec<&str> = values
        .iter()
        .map(|value| value.text.as_str())
        .collect(alloc)?;
    let Some(numbering) = Numbering::of(alloc, file, texts)? else {
        return Ok(None);
    };
    match file_of(alloc, numbering.text.as_str()) {
        Ok(file) => {
            let values = values_of(alloc, &file)?;
            Ok(Some(NumberedValues { numbering, values }))
        }
        Err(SourceRefusal::OutOfMemory(refused)) => Err(refused),
        Err(_) => Ok(None),
    }
}

/// Returns the place of the value at a position, if it was found.
pub(crate) fn place_in(
    alloc: Global,
    file: &str,
    numbered: &Option<NumberedValues>,
    at: usize,
    value: &ProfileValue,
) -> Result<Option<Place>, AllocError>
    requires { IfSome numbered.now (AreNumbered file.now) }
    ensures { IfOk result (λ o. IfSome o (IsValuePlace file.now at (value_row value.now))) }
{
    let Some(numbered) = numbered else {
        return Ok(None);
    };
    let Some(other) = numbered.values.get(at) else {
        return Ok(None);
    };
    if other.path.as_str() != value.path.as_str() {
        return Ok(None);
    }
    let (text, number) = (value.text.as_str(), other.text.as_str());
    numbered.numbering.place_of(alloc, file, text, number)
}
