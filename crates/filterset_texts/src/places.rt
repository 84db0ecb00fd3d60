//! The places before, between and after the parts of sequences.

ghost use Rattle.std.specs.Prelude.{◌≡◌, ◌++◌, IfOk, OnOk};
ghost use Rattle.filterset_texts.specs.Places.{places_of, places_of_parts, places_of_sequences, row_of};

use crate::part::{Condition, Part};
use std::alloc::{AllocError, Global};

/// A place in a sequence: the part before it, or `None` for the first place.
pub(crate) type Place<'p> = Option<&'p Part>;

/// Lists the places of all sequences of the conditions, in order.
pub(crate) fn list_places<'p>(
    alloc: Global,
    conditions: &'p [Condition],
) -> Result<Vec<Place<'p>>, AllocError>
    ensures { IfOk result (λ places. row_of places.items ≡ places_of conditions.now) }
{
    let mut places = Vec::new(alloc);
    for condition in conditions {
        push_sequences(&mut places, &condition.sequences)?;
    }
    Ok(places)
}

fn push_sequences<'p>(
    places: &mut Vec<Place<'p>>,
    sequences: &'p [Vec<Part>],
) -> Result<(), AllocError>
    ensures { OnOk result (row_of places.new.items ≡ row_of places.old.items ++ places_of_sequences sequences.now) }
{
    for sequence in sequences {
        push_parts(places, sequence)?;
    }
    Ok(())
}

fn push_parts<'p>(places: &mut Vec<Place<'p>>, parts: &'p [Part]) -> Result<(), AllocError>
    ensures { OnOk result (row_of places.new.items ≡ row_of places.old.items ++ places_of_parts parts.now) }
{
    places.push(None)?;
    for part in parts {
        places.push(Some(part))?;
    }
    Ok(())
}
