//! Replaces strings of a file by their numbers.
ghost use Rattle.std.specs.Prelude.{◌≡◌, IfOk, IfSome, decimal, string_bytes};
ghost use Rattle.filterset_configuration.specs.Numbers.{AreApart, numbered};

use crate::place::Place;
use crate::scanning::find_literals;
use crate::stretch::Stretch;
use crate::string::{is_same, place_of};
use std::alloc::{AllocError, Global};
use std::fmt::Write;

/// Writes a file with its number in place of each of these stretches. Returns `None` if they do not follow each other.
fn numbered(alloc: Global, file: &str, stretches: &[Stretch]) -> Result<Option<String>, AllocError>
    ensures text { IfOk result (λ o. IfSome o (λ made. string_bytes made ≡ numbered file.now stretches.now)) }
    ensures apart { IfOk result (λ o. IfSome o (λ _. AreApart 0 stretches.now)) }
{
    let mut output = String::new(alloc);
    let mut rest = file;
    let mut at = 0usize;
    for (number, stretch) in stretches.iter().enumerate() {
        if stretch.from < at || stretch.to < stretch.from {
            return Ok(None);
        }
        let Some((gap, literal)) = rest.split_at_checked(stretch.from - at) else {
            return Ok(None);
        };
        let Some((_, after)) = literal.split_at_checked(stretch.to - stretch.from) else {
            return Ok(None);
        };
        write!(output, "{gap}'{number}'")?;
        rest = after;
        at = stretch.to;
    }
    output.push_str(rest)?;
    Ok(Some(output))
}

/// Returns the number that is written so, if there is one.
fn number_of(alloc: Global, text: &str) -> Result<Option<usize>, AllocError>
    ensures { IfOk result (λ o. IfSome o (λ number. text.now ≡ decimal number)) }
{
    let Ok(number) = text.parse::<usize>() else {
        return Ok(None);
    };
    let written = format!(in alloc; "{number}")?;
    if is_same(text, written.as_str()) {
        Ok(Some(number))
    } else {
        Ok(None)
    }
}

/// A file with the numbers of some of its strings in their place.
#[derive(Debug, Drop)]
pub struct Numbering {
    /// The strings, in their order.
    pub literals: Vec<Stretch>,
    pub text: String,
}

impl Numbering {
    ghost use Rattle.filterset_configuration.specs.Places.{IsNumberedPlace};

    /// Puts numbers in place of the strings of a file that are values and are read as one of these texts, or returns `None`
    /// if that cannot be done. No clause says which strings these are.
    ///
    /// Returns an error only if out of memory.
    pub fn of(alloc: Global, file: &str, texts: Vec<&str>) -> Result<Option<Numbering>, AllocError>
        ensures apart { IfOk result (λ o. IfSome o (λ n. AreApart 0 n.literals.items)) }
        ensures text { IfOk result (λ o. IfSome o (λ n. string_bytes n.text ≡ numbered file.now n.literals.items)) }
    {
        let literals = find_literals(alloc, file, texts)?;
        match numbered(alloc, file, literals.as_slice())? {
            Some(text) => Ok(Some(Numbering { literals, text })),
            None => Ok(None),
        }
    }

    /// Returns the place of the string that has this number, if it is read as `text`, and the text is not the number.
    ///
    /// Returns an error only if out of memory.
    pub fn place_of(
        &self,
        alloc: Global,
        file: &str,
        text: &str,
        number: &str,
    ) -> Result<Option<Place>, AllocError>
        ensures { IfOk result (λ o. IfSome o
            (IsNumberedPlace self.now.literals.items file.now text.now number.now)) }
    {
        if is_same(text, number) {
            return Ok(None);
        }
        let Some(at) = number_of(alloc, number)? else {
            return Ok(None);
        };
        match self.literals.get(at) {
            Some(literal) => place_of(alloc, file, *literal, text),
            None => Ok(None),
        }
    }
}
