//! The sequences of texts that matchers compare with.
ghost use Rattle.std.specs.Prelude.{◌≡◌, ◌∷◌, [], length, IfOk, OnOk};
ghost use Rattle.std.specs.Str.{chars, Iter.HasSubslice};
ghost use Rattle.filterset_texts.specs.{Cuts.HoldInTurn, Cuts.HoldTogether, Parts.Fits, Parts.FitsSome};

use crate::part::Part;
use crate::tokens::make_literal;
use std::alloc::{AllocError, Global};

/// Appends a part for each character of the text.
fn append_text(alloc: Global, sequence: &mut Vec<Part>, text: &str) -> Result<(), AllocError>
    ensures { OnOk result (HoldTogether (Fits sequence.new.items)
        (HoldInTurn (Fits sequence.old.items) (λ piece. piece ≡ chars text.now))) }
{
    for c in text.chars() {
        sequence.push(make_literal(alloc, c)?)?;
    }
    Ok(())
}

/// Makes the sequence that matches this text alone.
pub(crate) fn expand_equal(alloc: Global, value: &str) -> Result<Vec<Vec<Part>>, AllocError>
    ensures matched { IfOk result (λ sequences. HoldTogether (FitsSome sequences.items) (λ text. text ≡ chars value.now)) }
    ensures count { IfOk result (λ sequences. length sequences.items ≡ 1) }
{
    let mut sequence = Vec::new(alloc);
    append_text(alloc, &mut sequence, value)?;
    Ok(vec![in alloc; sequence]?)
}

/// Makes the sequence that matches texts that contain this one.
pub(crate) fn expand_contains(alloc: Global, value: &str) -> Result<Vec<Vec<Part>>, AllocError>
    ensures matched { IfOk result (λ sequences. HoldTogether (FitsSome sequences.items)
        (λ text. HasSubslice text (chars value.now))) }
    ensures count { IfOk result (λ sequences. length sequences.items ≡ 1) }
{
    let mut sequence = vec![in alloc; Part::Any]?;
    append_text(alloc, &mut sequence, value)?;
    sequence.push(Part::Any)?;
    Ok(vec![in alloc; sequence]?)
}
