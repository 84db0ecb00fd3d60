//! The warnings of a filterset.
ghost use Rattle.std.specs.Prelude.{◌≡◌, ◌++◌, IfOk, OnOk, map};
ghost use Rattle.filterset_display.specs.Remarks.{remark_row};
ghost use Rattle.filterset_listing.specs.Finding.{found_of, unmatched_of};
ghost use Rattle.filterset_language.specs.Views.{leaf_of, tree_of};
ghost use Rattle.filterset_asking.specs.Warnings.{constant_text, needless_remark, remarks_of, unmatched_remark};

use crate::span::span_of;
use filterset_display::{Remark, Severity};
use filterset_entries::leaf_span;
use filterset_listing::{Hints, NeedlessOperand, UnmatchedPredicate};
use std::alloc::{AllocError, Global};

/// Returns what there is to say of a predicate that matches no test.
fn unmatched_remark(alloc: Global, predicate: &UnmatchedPredicate<'_>) -> Result<Remark, AllocError>
    ensures { IfOk result (λ remark.
        remark_row remark ≡ unmatched_remark (leaf_of predicate.now.leaf.now, predicate.now.skipped)) }
{
    Ok(Remark {
        severity: Severity::Warning,
        code: "NoTestMatch",
        message: format!(in alloc; "{predicate}")?,
        label: None,
        help: None,
        span: leaf_span(predicate.leaf),
    })
}

/// Returns a constant as it is written.
fn constant_text(is_all: bool) -> &'static str
    ensures { result.now ≡ constant_text is_all }
{
    if is_all { "all()" } else { "none()" }
}

/// Returns what there is to say of an operand that changes nothing.
fn needless_remark(alloc: Global, operand: &NeedlessOperand<'_>) -> Result<Remark, AllocError>
    ensures { IfOk result (λ remark.
        remark_row remark ≡ needless_remark (tree_of operand.now.node.now, operand.now.is_all)) }
{
    let (node, constant) = (operand.node, constant_text(operand.is_all));
    Ok(Remark {
        severity: Severity::Warning,
        code: "NeedlessOperand",
        message: format!(in alloc;
            "`{node}` changes nothing: `{constant}` in its place picks the same tests"
        )?,
        label: None,
        help: None,
        span: span_of(node),
    })
}

/// Adds what there is to say of these predicates.
fn add_unmatched(
    remarks: &mut Vec<Remark>,
    alloc: Global,
    predicates: &[UnmatchedPredicate<'_>],
) -> Result<(), AllocError>
    ensures { OnOk result (map remark_row remarks.new.items
        ≡ map remark_row remarks.old.items ++ map unmatched_remark (unmatched_of predicates.now)) }
{
    for predicate in predicates {
        remarks.push(unmatched_remark(alloc, predicate)?)?;
    }
    Ok(())
}

/// Adds what there is to say of these operands.
fn add_needless(
    remarks: &mut Vec<Remark>,
    alloc: Global,
    operands: &[NeedlessOperand<'_>],
) -> Result<(), AllocError>
    ensures { OnOk result (map remark_row remarks.new.items
        ≡ map remark_row remarks.old.items ++ map needless_remark (found_of operands.now)) }
{
    for operand in operands {
        remarks.push(needless_remark(alloc, operand)?)?;
    }
    Ok(())
}

/// Returns what there is to say of a filterset.
pub fn remarks_of(alloc: Global, hints: &Hints<'_>) -> Result<Vec<Remark>, AllocError>
    ensures { IfOk result (λ remarks. map remark_row remarks.items
        ≡ remarks_of (unmatched_of hints.now.unmatched.items) (found_of hints.now.needless.items)) }
{
    let mut remarks = Vec::new(alloc);
    add_unmatched(&mut remarks, alloc, hints.unmatched.as_slice())?;
    add_needless(&mut remarks, alloc, hints.needless.as_slice())?;
    Ok(remarks)
}
