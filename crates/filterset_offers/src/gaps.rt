//! The word at an offset of a text.
ghost use Rattle.std.specs.Prelude.{◌≡◌, ◌≤◌, ◌+◌, ◌-◌, ◌↔◌, IfSome, IsSome, drop, length, take};
ghost use Rattle.std.specs.{List.prefix_len, List.suffix_len, Str.IsCharBoundary};
ghost use Rattle.filterset_entries.specs.Placements.{spot_of};
ghost use Rattle.filterset_offers.specs.Candidates as bytes;
ghost use Rattle.filterset_offers.specs.Gaps as spec;
ghost use Rattle.filterset_offers.specs.Gaps.{gap_row};

use crate::candidates::{is_name_byte, is_word_byte};
use filterset_configuration::Stretch;
use filterset_entries::Spot;
use filterset_faults::SourceSpan;

/// A word of a text.
#[derive(Clone, Copy, Debug)]
pub struct Gap<'t> {
    /// What is before the word.
    pub before: &'t str,
    /// The part of the word that is before the cursor.
    pub typed: &'t str,
    /// What is after the word.
    pub behind: &'t str,
    /// Where the word is in the text.
    pub at: SourceSpan,
}

/// Which bytes a word has.
#[derive(Clone, Copy, Debug, PartialEq, Eq)]
pub enum Word {
    /// Those of words of the language.
    Plain,
    /// Those of names.
    Name,
}

/// Returns whether a byte is one of such words.
fn is_of(word: Word, byte: u8) -> bool
    ensures { result ≡ spec.is_of word byte }
{
    match word {
        Word::Plain => is_word_byte(byte),
        Word::Name => is_name_byte(byte),
    }
}

/// Returns how many bytes of a word are at the front.
fn front_len(word: Word, text: &[u8]) -> usize
    ensures value { result ≡ prefix_len (spec.is_of word) text.now }
    ensures within { result ≤ length text.now }
{
    text.iter().take_while(|byte| is_of(word, **byte)).count()
}

/// Returns how many bytes of a word are at the end.
fn end_len(word: Word, text: &[u8]) -> usize
    ensures value { result ≡ suffix_len (spec.is_of word) text.now }
    ensures within { result ≤ length text.now }
{
    text.iter()
        .rev()
        .take_while(|byte| is_of(word, **byte))
        .count()
}

/// Cuts a word from the front of a text.
fn cut_front(word: Word, text: &str) -> (usize, &str)
    ensures len { result.0 ≡ prefix_len (spec.is_of word) text.now }
    ensures within { result.0 ≤ length text.now }
    ensures rest { result.1.now ≡ drop result.0 text.now }
{
    let len = front_len(word, text.as_bytes());
    let (_, rest) = text.split_at(len);
    (len, rest)
}

/// Cuts a word from the end of a text.
fn cut_end(word: Word, text: &str) -> (&str, &str)
    ensures front { result.0.now ≡ take (length text.now - suffix_len (spec.is_of word) text.now) text.now }
    ensures word { result.1.now ≡ drop (length text.now - suffix_len (spec.is_of word) text.now) text.now }
    ensures within { length result.1.now ≤ length text.now }
{
    let len = end_len(word, text.as_bytes());
    text.split_at(text.len() - len)
}

/// Returns the word of such bytes at an offset of a text, or `None` if the offset is not between characters.
pub fn gap_at(word: Word, text: &str, offset: usize) -> Option<Gap<'_>>
    ensures boundary { IsSome result ↔ IsCharBoundary text.now offset }
    ensures gap { IfSome result (λ gap. gap_row gap ≡ spec.gap_at (spec.is_of word) text.now offset) }
{
    let (front, rest) = text.split_at_checked(offset)?;
    let (before, typed) = cut_end(word, front);
    let (more, behind) = cut_front(word, rest);
    Some(Gap {
        before,
        typed,
        behind,
        at: SourceSpan::new(before.len(), typed.len() + more),
    })
}

/// Returns how many bytes of a text were read from what is before an offset of the file.
fn count_before(origins: &[Stretch], offset: usize) -> usize
    ensures { result ≡ prefix_len (spec.is_before offset) origins.now }
{
    origins
        .iter()
        .take_while(|origin| origin.to <= offset)
        .count()
}

/// Returns how many bytes of a text at this spot of a file are read from what is before an offset of the file.
pub fn text_offset(spot: Spot<'_>, offset: usize) -> usize
    ensures { result ≡ spec.text_offset (spot_of spot.entry) offset }
{
    match spot {
        Spot::Literal(place) => count_before(place.origins.as_slice(), offset),
        Spot::Line(stretch) => offset.saturating_sub(stretch.from),
    }
}
