//! Letters: of the characters that the same parts admit, a search needs only one.

ghost use Rattle.std.specs.Prelude.{◌≡◌, ◌++◌, ◌↔◌, IfOk, IsTrue, OnOk};
ghost use Rattle.std.specs.{Char.InScalarRange, List.All, List.Any};
ghost use Rattle.filterset_glob.specs.Matching.{InRanges};
ghost use Rattle.filterset_texts.specs.Letters.{AreLetters, HasLetterLike, KeepsLetters, cuts_of, cuts_of_ranges};
ghost use Rattle.filterset_texts.specs.Places.{Admits, IsAdmittedAt, place_of, row_of};

use crate::marks::are_same;
use crate::part::Part;
use crate::places::Place;
use std::alloc::{AllocError, Global};

/// The characters to try first, so that texts can be read.
const READABLE: &[u8] = b"abcdefghijklmnopqrstuvwxyz0123456789_-:/. ";

/// A character, and the places whose parts admit it.
#[derive(Drop)]
pub(crate) struct Letter {
    pub(crate) character: char,
    /// A mark for each place: whether the part before it matches one character alone, and this one.
    pub(crate) marks: Vec<bool>,
}

/// Lists letters: for each character there is one that the same parts admit, and no two have the same marks.
pub(crate) fn list_letters(alloc: Global, places: &[Place<'_>]) -> Result<Vec<Letter>, AllocError>
    ensures { IfOk result (λ letters. AreLetters (row_of places.now) letters.items) }
{
    let mut letters = Vec::new(alloc);
    for byte in READABLE {
        add_letter(alloc, places, &mut letters, char::from(*byte))?;
    }
    let cuts = list_cuts(alloc, places)?;
    add_letters(alloc, places, &mut letters, &cuts)?;
    Ok(letters)
}

/// Adds a letter for each of the numbers that is a character's.
fn add_letters(
    alloc: Global,
    places: &[Place<'_>],
    letters: &mut Vec<Letter>,
    numbers: &[u32],
) -> Result<(), AllocError>
    ensures kept { OnOk result (KeepsLetters (row_of places.now) letters.old.items letters.new.items) }
    ensures has { OnOk result (All (λ number. InScalarRange number
        → HasLetterLike (row_of places.now) letters.new.items number) numbers.now) }
{
    for number in numbers {
        if let Some(character) = char::from_u32(*number) {
            add_letter(alloc, places, letters, character)?;
        }
    }
    Ok(())
}

/// Adds a letter for the character, unless there is one that the same parts admit.
fn add_letter(
    alloc: Global,
    places: &[Place<'_>],
    letters: &mut Vec<Letter>,
    character: char,
) -> Result<(), AllocError>
    ensures kept { OnOk result (KeepsLetters (row_of places.now) letters.old.items letters.new.items) }
    ensures has { OnOk result (HasLetterLike (row_of places.now) letters.new.items character) }
{
    let marks = mark_admitting(alloc, places, character)?;
    if !has_marks(letters, &marks) {
        letters.push(Letter { character, marks })?;
    }
    Ok(())
}

/// Returns whether a letter has these marks.
fn has_marks(letters: &[Letter], marks: &[bool]) -> bool
    ensures { IsTrue result ↔ Any (λ letter. letter.marks.items ≡ marks.now) letters.now }
{
    for letter in letters {
        if are_same(&letter.marks, marks) {
            return true;
        }
    }
    false
}

/// Lists the numbers at which parts begin or end to admit characters.
fn list_cuts(alloc: Global, places: &[Place<'_>]) -> Result<Vec<u32>, AllocError>
    ensures { IfOk result (λ cuts. cuts.items ≡ cuts_of (row_of places.now)) }
{
    let mut cuts = Vec::new(alloc);
    cuts.push(0)?;
    cuts.push(0xE000)?;
    for place in places {
        if let Some(Part::One { ranges, .. }) = place {
            push_cuts(&mut cuts, ranges)?;
        }
    }
    Ok(cuts)
}

fn push_cuts(cuts: &mut Vec<u32>, ranges: &[(char, char)]) -> Result<(), AllocError>
    ensures { OnOk result (cuts.new.items ≡ cuts.old.items ++ cuts_of_ranges ranges.now) }
{
    for (low, high) in ranges {
        cuts.push(*low as u32)?;
        cuts.push(*high as u32 + 1)?;
    }
    Ok(())
}

/// Returns a mark for each place: whether the part before it matches one character alone, and this one.
fn mark_admitting(
    alloc: Global,
    places: &[Place<'_>],
    character: char,
) -> Result<Vec<bool>, AllocError>
    ensures { IfOk result (λ marks. IsAdmittedAt (row_of places.now) character marks.items) }
{
    let mut marks = Vec::new(alloc);
    for place in places {
        marks.push(is_admitted(place, character))?;
    }
    Ok(marks)
}

fn is_admitted(place: &Place<'_>, character: char) -> bool
    ensures { IsTrue result ↔ Admits (place_of place.now) character }
{
    match place {
        Some(Part::One { negated, ranges }) => *negated != is_in_ranges(ranges, character),
        _ => false,
    }
}

fn is_in_ranges(ranges: &[(char, char)], character: char) -> bool
    ensures { IsTrue result ↔ InRanges ranges.now character }
{
    for (low, high) in ranges {
        if *low <= character && character <= *high {
            return true;
        }
    }
    false
}
