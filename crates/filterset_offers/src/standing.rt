//! Which candidates stand where they are put.
ghost use Rattle.std.specs.Prelude.{◌≡◌, ◌↔◌, IfOk, IfSome, IsSome, string_bytes};
ghost use Rattle.std.specs.Str.{IsCharBoundary};
ghost use Rattle.filterset_offers.specs.{Candidates.row_of, Gaps.gap_row};
ghost use Rattle.filterset_offers.specs.Standing.{Fits, Stands, behind_of, gap_rows, text_with};
ghost use Rattle.filterset_offers.specs.Standing as spec;

use crate::candidates::{Candidate, Mark};
use crate::gaps::{Gap, Word, gap_at};
use crate::marks::shows;
use filterset_documents::parse_text;
use nextest_filtering::FiltersetKind;
use std::alloc::{AllocError, Global};

/// The words at an offset of a text.
#[derive(Clone, Copy, Debug)]
pub struct Gaps<'t> {
    pub word: Gap<'t>,
    pub name: Gap<'t>,
}

/// Returns the words at an offset of a text, or `None` if the offset is not between characters.
pub fn gaps_at(text: &str, offset: usize) -> Option<Gaps<'_>>
    ensures boundary { IsSome result ↔ IsCharBoundary text.now offset }
    ensures gaps { IfSome result (λ gaps. gap_rows gaps ≡ spec.gaps_at text.now offset) }
{
    let word = gap_at(Word::Plain, text, offset)?;
    let name = gap_at(Word::Name, text, offset)?;
    Some(Gaps { word, name })
}

/// Returns the word that a candidate replaces.
pub fn gap_for<'t>(candidate: &Candidate<'_>, gaps: &Gaps<'t>) -> Gap<'t>
    ensures { gap_row result ≡ spec.gap_for (row_of candidate.now) (gap_rows gaps.now) }
{
    match candidate.mark {
        Mark::Begins(_) | Mark::Precedes(_) => gaps.word,
        Mark::Inside(_) | Mark::Names(_) => gaps.name,
    }
}

/// Returns whether an opening parenthesis follows a word.
fn is_called(gap: &Gap<'_>) -> bool
    ensures { result ≡ spec.is_called (gap_row gap.now) }
{
    let behind = gap.behind.as_bytes();
    !behind.is_empty() && behind[0] == b'('
}

/// Returns what is put after the name of a candidate.
pub fn tail_in(candidate: &Candidate<'_>, gap: &Gap<'_>) -> &'static str
    ensures { result.now ≡ spec.tail_in (row_of candidate.now) (gap_row gap.now) }
{
    if is_called(gap) { "" } else { candidate.tail }
}

/// Returns what follows a candidate where it is tried.
fn sample_in(candidate: &Candidate<'_>, gap: &Gap<'_>) -> &'static str
    ensures { result.now ≡ spec.sample_in (row_of candidate.now) (gap_row gap.now) }
{
    if is_called(gap) && !candidate.tail.is_empty() {
        ""
    } else {
        candidate.sample
    }
}

/// Makes the text with a candidate in place of a word, and with this after it.
fn text_with(
    alloc: Global,
    candidate: &Candidate<'_>,
    gap: &Gap<'_>,
    behind: &str,
) -> Result<String, AllocError>
    ensures { IfOk result (λ text. string_bytes text ≡ text_with (row_of candidate.now) (gap_row gap.now) behind.now) }
{
    let (before, label) = (gap.before, candidate.label);
    let (tail, sample) = (tail_in(candidate, gap), sample_in(candidate, gap));
    format!(in alloc; "{before}{label}{tail}{sample}{behind}")
}

/// Returns whether a candidate stands in place of a word, with this after it.
fn stands(
    alloc: Global,
    kind: FiltersetKind,
    candidate: &Candidate<'_>,
    gap: &Gap<'_>,
    behind: &str,
) -> Result<bool, AllocError>
    ensures { IfOk result (Stands kind (row_of candidate.now) (gap_row gap.now) behind.now) }
{
    let text = text_with(alloc, candidate, gap, behind)?;
    let Some(tree) = parse_text(alloc, text.as_str())? else {
        return Ok(false);
    };
    shows(alloc, kind, candidate, gap.at.offset(), &tree)
}

/// Makes what closes a text.
fn closing_of(alloc: Global, text: &str) -> Result<String, AllocError>
    ensures { IfOk result (λ made. string_bytes made ≡ spec.closing text.now) }
{
    let bytes = text.as_bytes();
    let opened = bytes.iter().filter(|byte| **byte == b'(').count();
    let closed = bytes.iter().filter(|byte| **byte == b')').count();
    let mut closing = String::new(alloc);
    for _written in 0..opened.saturating_sub(closed) {
        closing.push_str(")")?;
    }
    Ok(closing)
}

/// Returns whether a candidate stands in place of a word, with the rest of the text or closed.
fn stands_in(
    alloc: Global,
    kind: FiltersetKind,
    is_closed: bool,
    candidate: &Candidate<'_>,
    gap: &Gap<'_>,
) -> Result<bool, AllocError>
    ensures { IfOk result (Stands kind (row_of candidate.now) (gap_row gap.now) (behind_of is_closed (gap_row gap.now))) }
{
    if is_closed {
        let closing = closing_of(alloc, gap.before)?;
        stands(alloc, kind, candidate, gap, closing.as_str())
    } else {
        stands(alloc, kind, candidate, gap, gap.behind)
    }
}

/// Returns whether a candidate fits: it begins with what is typed, and stands in its place.
pub fn fits(
    alloc: Global,
    kind: FiltersetKind,
    gaps: &Gaps<'_>,
    is_closed: bool,
    candidate: &Candidate<'_>,
) -> Result<bool, AllocError>
    ensures { IfOk result (Fits kind (gap_rows gaps.now) is_closed (row_of candidate.now)) }
{
    let gap = gap_for(candidate, gaps);
    let (label, typed) = (candidate.label.as_bytes(), gap.typed.as_bytes());
    if label.starts_with(typed) {
        stands_in(alloc, kind, is_closed, candidate, &gap)
    } else {
        Ok(false)
    }
}
