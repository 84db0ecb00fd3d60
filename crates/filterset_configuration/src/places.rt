//! The places of a configuration's filtersets.
ghost use Rattle.std.specs.Prelude.{◌≡◌, IfOk, IfSome, Some, option_map, slice_get};
ghost use Rattle.filterset_sources.specs.Configurations.{configured_row, configured_rows};
ghost use Rattle.filterset_configuration.specs.Places.{ArePlaces, ArePlacesAmong, PlaceAt, place_at};

use crate::numbering::Numbering;
use crate::place::Place;
use crate::string::is_same;
use filterset_sources::{Configuration, ConfiguredFilterset, SourceRefusal, read_configuration};
use std::alloc::{AllocError, Global};

/// The places of a configuration's filtersets in its file.
#[derive(Debug, Drop)]
pub struct Places {
    /// In the order of the filtersets. A filterset that was not found has none.
    pub places: Vec<Option<Place>>,
}

impl Places {
    /// Finds the place of each filterset of a configuration in the file that it was read from.
    ///
    /// Each place is right. That each filterset has one is tested only. Returns an error only if out of memory.
    pub fn of(
        alloc: Global,
        file: &str,
        configuration: &Configuration,
    ) -> Result<Places, AllocError>
        ensures { IfOk result (λ found.
            ArePlaces file.now (configured_rows configuration.now.filtersets.items) found.places.items) }
    {
        let filtersets = configuration.filtersets.as_slice();
        let texts: Vec<&str> = filtersets
            .iter()
            .map(|one| one.text.as_str())
            .collect(alloc)?;
        let none = Places {
            places: Vec::new(alloc),
        };
        let Some(numbering) = Numbering::of(alloc, file, texts)? else {
            return Ok(none);
        };
        match read_configuration(alloc, numbering.text.as_str()) {
            Ok(other) => {
                let others = other.filtersets.as_slice();
                let places = places_among(alloc, file, &numbering, filtersets, others)?;
                Ok(Places { places })
            }
            Err(SourceRefusal::OutOfMemory(refused)) => Err(refused),
            Err(_) => Ok(none),
        }
    }

    /// Returns the place of the filterset at this position of the configuration, if it was found.
    pub fn get(&self, position: usize) -> Option<&Place>
        ensures { option_map (λ p. p.now) result ≡ place_at self.now.places.items position }
    {
        match self.places.get(position) {
            Some(Some(place)) => Some(place),
            _ => None,
        }
    }
}

/// Returns the filterset at a position.
fn filterset_at(filtersets: &[ConfiguredFilterset], at: usize) -> Option<&ConfiguredFilterset>
    ensures { IfSome result (λ found. slice_get (configured_rows filtersets.now) at ≡ Some (configured_row found.now)) }
{
    filtersets.get(at)
}

/// Returns the place of the filterset at a position, if `others` are the filtersets of the file with numbers.
fn place_at(
    alloc: Global,
    file: &str,
    numbering: &Numbering,
    filtersets: &[ConfiguredFilterset],
    others: &[ConfiguredFilterset],
    at: usize,
) -> Result<Option<Place>, AllocError>
    ensures { IfOk result (λ o. IfSome o (PlaceAt file.now numbering.now.literals.items
        (configured_rows filtersets.now) (configured_rows others.now) at)) }
{
    let Some(filterset) = filterset_at(filtersets, at) else {
        return Ok(None);
    };
    let Some(other) = filterset_at(others, at) else {
        return Ok(None);
    };
    if !is_same(other.path.as_str(), filterset.path.as_str()) {
        return Ok(None);
    }
    numbering.place_of(alloc, file, filterset.text.as_str(), other.text.as_str())
}

/// Returns the place of each filterset, if `others` are the filtersets of the file with numbers.
fn places_among(
    alloc: Global,
    file: &str,
    numbering: &Numbering,
    filtersets: &[ConfiguredFilterset],
    others: &[ConfiguredFilterset],
) -> Result<Vec<Option<Place>>, AllocError>
    ensures { IfOk result (λ places. ArePlacesAmong file.now numbering.now.literals.items
        (configured_rows filtersets.now) (configured_rows others.now) places.items) }
{
    let mut places = Vec::with_capacity(alloc, filtersets.len())?;
    for at in 0..filtersets.len() {
        places.push(place_at(alloc, file, numbering, filtersets, others, at)?)?;
    }
    Ok(places)
}
