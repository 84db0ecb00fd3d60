//! What is offered.
ghost use Rattle.std.specs.Prelude.{IfOk, map};
ghost use Rattle.filterset_offers.specs.Candidates.{row_of};
ghost use Rattle.filterset_offers.specs.Standing.{AreFitting, AreOffered, gap_rows};

use crate::candidates::Candidate;
use crate::standing::{Gaps, fits};
use nextest_filtering::FiltersetKind;
use std::alloc::{AllocError, Global};

/// Returns the candidates that fit.
fn fitting<'n>(
    alloc: Global,
    kind: FiltersetKind,
    gaps: &Gaps<'_>,
    is_closed: bool,
    candidates: &[Candidate<'n>],
) -> Result<Vec<Candidate<'n>>, AllocError>
    ensures { IfOk result (λ found. AreFitting kind (gap_rows gaps.now) is_closed (map row_of candidates.now)
        (map row_of found.items)) }
{
    let mut found = Vec::new(alloc);
    for candidate in candidates {
        if fits(alloc, kind, gaps, is_closed, candidate)? {
            found.push(*candidate)?;
        }
    }
    Ok(found)
}

/// Returns the candidates that are offered: those that fit with the rest of the text or, if there are none, without it.
pub fn offered<'n>(
    alloc: Global,
    kind: FiltersetKind,
    gaps: &Gaps<'_>,
    candidates: &[Candidate<'n>],
) -> Result<Vec<Candidate<'n>>, AllocError>
    ensures { IfOk result (λ found. AreOffered kind (gap_rows gaps.now) (map row_of candidates.now) (map row_of found.items)) }
{
    let found = fitting(alloc, kind, gaps, false, candidates)?;
    if found.is_empty() {
        fitting(alloc, kind, gaps, true, candidates)
    } else {
        Ok(found)
    }
}
