//! The items of what is offered.
ghost use Rattle.std.specs.{Prelude.◌≡◌, Prelude.IfOk, Prelude.map, List.AllZip};
ghost use Rattle.serde_json.specs.View.{view};
ghost use Rattle.filterset_entries.specs.Placements.{spot_of};
ghost use Rattle.filterset_documents.specs.Ranges.{edit_data};
ghost use Rattle.filterset_offers.specs.{Candidates.row_of, Completion.IsItem, Completion.item_data, Gaps.gap_row};
ghost use Rattle.filterset_offers.specs.Standing.{gap_rows, inserted};

use crate::candidates::Candidate;
use crate::gaps::Gap;
use crate::standing::{Gaps, gap_for, tail_in};
use filterset_documents::{Shown, span_in, span_value};
use filterset_entries::FilePlace;
use serde_json::{Value, json};
use std::alloc::{AllocError, Global};

/// Makes the item of a candidate that is put in place of a word, which is in this range.
fn item_value(
    alloc: Global,
    candidate: &Candidate<'_>,
    gap: &Gap<'_>,
    range: Value,
) -> Result<Value, AllocError>
    ensures { IfOk result (λ value. view value ≡ item_data (row_of candidate.now)
        (edit_data (inserted (row_of candidate.now) (gap_row gap.now)) (view range))) }
{
    let (label, tail) = (candidate.label, tail_in(candidate, gap));
    let text = format!(in alloc; "{label}{tail}")?;
    json!(in alloc; {
        "detail": candidate.detail,
        "kind": candidate.kind,
        "label": label,
        "textEdit": { "newText": text, "range": range },
    })
}

/// Makes the item of a candidate for a filterset at this place.
fn item_of(
    alloc: Global,
    shown: &Shown<'_>,
    place: FilePlace<'_>,
    gaps: &Gaps<'_>,
    candidate: &Candidate<'_>,
) -> Result<Value, AllocError>
    ensures { IfOk result (λ value. IsItem shown.now.encoding shown.now.lines.text.now (spot_of place.entry.spot)
        (gap_rows gaps.now) (row_of candidate.now) (view value)) }
{
    let gap = gap_for(candidate, gaps);
    let range = span_value(alloc, shown, span_in(place, gap.at))?;
    item_value(alloc, candidate, &gap, range)
}

/// Makes the items of candidates for a filterset at this place.
pub fn items_of(
    alloc: Global,
    shown: &Shown<'_>,
    place: FilePlace<'_>,
    gaps: &Gaps<'_>,
    candidates: &[Candidate<'_>],
) -> Result<Vec<Value>, AllocError>
    ensures { IfOk result (λ values. AllZip (IsItem shown.now.encoding shown.now.lines.text.now (spot_of place.entry.spot)
        (gap_rows gaps.now)) (map row_of candidates.now) (map view values.items)) }
{
    let mut values = Vec::with_capacity(alloc, candidates.len())?;
    for candidate in candidates {
        let item = item_of(alloc, shown, place, gaps, candidate)?;
        values.push(item)?;
    }
    Ok(values)
}
