//! Sequences of parts, joined.
ghost use Rattle.std.specs.Prelude.{◌≡◌, ◌+◌, ◌*◌, ◌⊎◌, [], ◌∷◌, length, IfOk, OnOk};
ghost use Rattle.filterset_texts.specs.{Cuts.HoldInTurn, Cuts.HoldTogether, Parts.Fits, Parts.FitsSome};

use crate::part::Part;
use std::alloc::{AllocError, Global};

/// Copies a part.
fn copy_part(alloc: Global, part: &Part) -> Result<Part, AllocError>
    ensures { IfOk result (λ copy. HoldTogether (Fits (copy ∷ [])) (Fits (part.now ∷ []))) }
{
    Ok(match part {
        Part::One { negated, ranges } => Part::One {
            negated: *negated,
            ranges: ranges.to_vec(alloc)?,
        },
        Part::Any => Part::Any,
    })
}

/// Appends copies of the parts.
fn append_copies(alloc: Global, sequence: &mut Vec<Part>, parts: &[Part]) -> Result<(), AllocError>
    ensures { OnOk result (HoldTogether (Fits sequence.new.items) (HoldInTurn (Fits sequence.old.items) (Fits parts.now))) }
{
    for part in parts {
        sequence.push(copy_part(alloc, part)?)?;
    }
    Ok(())
}

/// Pushes the front followed by each of the backs.
fn push_joined(
    alloc: Global,
    mut front: Vec<Part>,
    backs: &[Vec<Part>],
    joined: &mut Vec<Vec<Part>>,
) -> Result<(), AllocError>
    ensures matched { OnOk result (HoldTogether (FitsSome joined.new.items)
        (λ text. FitsSome joined.old.items text ⊎ HoldInTurn (Fits front.items) (FitsSome backs.now) text)) }
    ensures count { OnOk result (length joined.new.items ≡ length joined.old.items + length backs.now) }
{
    let Some((last, others)) = backs.split_last() else {
        return Ok(());
    };
    for back in others {
        let mut sequence = Vec::new(alloc);
        append_copies(alloc, &mut sequence, &front)?;
        append_copies(alloc, &mut sequence, back)?;
        joined.push(sequence)?;
    }
    append_copies(alloc, &mut front, last)?; // the last needs no copy of the front
    joined.push(front)?;
    Ok(())
}

/// Joins each of the fronts with each of the backs.
#[inline(never)]
pub(crate) fn join_each(
    alloc: Global,
    fronts: Vec<Vec<Part>>,
    backs: &[Vec<Part>],
) -> Result<Vec<Vec<Part>>, AllocError>
    ensures matched { IfOk result (λ joined. HoldTogether (FitsSome joined.items)
        (HoldInTurn (FitsSome fronts.items) (FitsSome backs.now))) }
    ensures count { IfOk result (λ joined. length joined.items ≡ length fronts.items * length backs.now) }
{
    let mut joined = Vec::new(alloc);
    for front in fronts {
        push_joined(alloc, front, backs, &mut joined)?;
    }
    Ok(joined)
}
