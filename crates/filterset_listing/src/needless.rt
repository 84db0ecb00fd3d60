//! Operands that change nothing for any subject.
ghost use Rattle.std.specs.Prelude.{◌≡◌, IfOk, OnOk};
ghost use Rattle.filterset_language.specs.Views.{tree_of};
ghost use Rattle.filterset_listing.specs.Columns.{first_of, second_of, values_of};
ghost use Rattle.filterset_listing.specs.Finding.{constant_for, found_of, FindsFor, never, needless_by, may_still};
ghost use Rattle.filterset_listing.specs.SubjectValues.{may_be};

use crate::columns::Columns;
use filterset_language::ParsedExpr;
use std::alloc::{AllocError, Global};

/// An operand in whose place a constant changes nothing.
#[derive(Clone, Copy, Debug)]
pub struct NeedlessOperand<'t> {
    pub node: &'t ParsedExpr,
    /// Whether the constant is `all()`, and not `none()`.
    pub is_all: bool,
}

/// Returns whether a value may turn out to be this one.
pub fn may_be(value: Option<bool>, other: bool) -> bool
    ensures { result ≡ may_be value other }
{
    match value {
        Some(value) => value == other,
        None => true,
    }
}

/// Returns whether an operand says this of no subject for which it may decide what is said.
fn never(values: &[Option<bool>], deciding: &[bool], other: bool) -> bool
    ensures { result ≡ never values.now deciding.now other }
{
    values
        .iter()
        .zip(deciding)
        .all(|(value, deciding)| !(*deciding && may_be(*value, other)))
}

/// Returns the constant that changes nothing in place of an operand with these values: whether it is `all()`. If both
/// constants do, it is `none()`.
fn needless_by(values: &[Option<bool>], deciding: &[bool]) -> Option<bool>
    ensures { result ≡ needless_by values.now deciding.now }
{
    if never(values, deciding, true) {
        return Some(false);
    }
    if never(values, deciding, false) {
        return Some(true);
    }
    None
}

/// Returns of each subject whether an operand may decide what is said, beside another operand that has to be `value`.
fn beside(
    alloc: Global,
    deciding: &[bool],
    others: &[Option<bool>],
    value: bool,
) -> Result<Vec<bool>, AllocError>
    ensures { IfOk result (λ made. made.items ≡ may_still deciding.now others.now value) }
{
    deciding
        .iter()
        .zip(others)
        .map(|(deciding, other)| *deciding && may_be(*other, value))
        .collect(alloc)
}

/// Returns the constant that changes nothing in place of a tree, if it is an operand. Parentheses are none.
fn constant_for(
    tree: &ParsedExpr,
    columns: &Columns<'_>,
    deciding: &[bool],
    is_operand: bool,
) -> Option<bool>
    ensures { result ≡ constant_for (tree_of tree.now) (values_of columns.now) deciding.now is_operand }
{
    match tree {
        ParsedExpr::Parens(_) => None,
        _ => {
            if is_operand {
                needless_by(columns.values(), deciding)
            } else {
                None
            }
        }
    }
}

/// Returns of each subject whether the left operand and the right one of a tree may decide what is said, where the right
/// one has to be `right` for that, and the left one `left`.
fn beside_both(
    alloc: Global,
    deciding: &[bool],
    columns: &Columns<'_>,
    right: bool,
    left: bool,
) -> Result<(Vec<bool>, Vec<bool>), AllocError>
    ensures { IfOk result (λ made.
        (made.0.items ≡ may_still deciding.now (values_of (second_of columns.now)) right)
        × (made.1.items ≡ may_still deciding.now (values_of (first_of columns.now)) left)) }
{
    let of_left = beside(alloc, deciding, columns.second().values(), right)?;
    let of_right = beside(alloc, deciding, columns.first().values(), left)?;
    Ok((of_left, of_right))
}

/// Adds the operands of a tree in whose place a constant changes nothing, from left to right, but none within another.
/// `deciding` says of each subject whether the tree may decide what is said of it.
pub fn find_needless<'t>(
    alloc: Global,
    tree: &'t ParsedExpr,
    columns: &Columns<'_>,
    deciding: &[bool],
    is_operand: bool,
    found: &mut Vec<NeedlessOperand<'t>>,
) -> Result<(), AllocError>
    ensures { OnOk result (FindsFor (tree_of tree.now) columns.now deciding.now is_operand
        (found_of found.old.items) (found_of found.new.items)) }
{
    let constant = constant_for(tree, columns, deciding, is_operand);
    let (first, second) = (columns.first(), columns.second());
    match constant {
        Some(is_all) => {
            found.push(NeedlessOperand { node: tree, is_all })?;
            Ok(())
        }
        None => match tree {
            ParsedExpr::Not(_, operand) => {
                find_needless(alloc, operand, first, deciding, true, found)
            }
            ParsedExpr::Union(_, left, right) => {
                let (of_left, of_right) = beside_both(alloc, deciding, columns, false, false)?;
                find_needless(alloc, left, first, &of_left, true, found)?;
                find_needless(alloc, right, second, &of_right, true, found)
            }
            ParsedExpr::Intersection(_, left, right) => {
                let (of_left, of_right) = beside_both(alloc, deciding, columns, true, true)?;
                find_needless(alloc, left, first, &of_left, true, found)?;
                find_needless(alloc, right, second, &of_right, true, found)
            }
            ParsedExpr::Difference(_, left, right) => {
                let (of_left, of_right) = beside_both(alloc, deciding, columns, false, true)?;
                find_needless(alloc, left, first, &of_left, true, found)?;
                find_needless(alloc, right, second, &of_right, true, found)
            }
            ParsedExpr::SymmetricDifference(_, left, right) => {
                find_needless(alloc, left, first, deciding, true, found)?;
                find_needless(alloc, right, second, deciding, true, found)
            }
            ParsedExpr::Parens(inner) => {
                find_needless(alloc, inner, columns, deciding, is_operand, found)
            }
            ParsedExpr::Set(_) => Ok(()),
        },
    }
}
