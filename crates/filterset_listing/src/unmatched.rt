//! Predicates that match no test of a list.
ghost use Rattle.std.specs.Prelude.{◌≡◌, ◌++◌, false, IfOk, OnOk};
ghost use Rattle.std.specs.{List.count_by, List.list_any, Option.is_none, Option.unwrap_or};
ghost use Rattle.filterset_language.specs.Views.{tree_of};
ghost use Rattle.filterset_listing.specs.Finding.{unmatched_by, unmatched_of};

use crate::columns::Columns;
use filterset_language::{ParsedExpr, ParsedLeaf, ParsedNode};
use std::alloc::AllocError;
use std::fmt;

/// A predicate that matches no test of a list. Displays as the message of a warning.
#[derive(Clone, Copy, Debug)]
pub struct UnmatchedPredicate<'t> {
    pub leaf: &'t ParsedLeaf,
    /// How many skipped binaries may have a test that the predicate matches.
    pub skipped: usize,
}

impl fmt::Display for UnmatchedPredicate<'_> {
    ghost use Rattle.std.specs.Prelude.{Some};
    ghost use Rattle.filterset_language.specs.Views.{leaf_of};
    ghost use Rattle.filterset_listing.specs.Unmatched.{unmatched_message};

    ghost output = { λ p. Some (unmatched_message (leaf_of p.leaf.now, p.skipped)) };

    fn fmt<W: fmt::Write>(&self, f: &mut fmt::Formatter<W>) -> fmt::Result {
        let UnmatchedPredicate { leaf, skipped } = *self;
        if skipped == 0 {
            write!(f, "`{leaf}` matches no test")
        } else if skipped == 1 {
            write!(
                f,
                "`{leaf}` matches no test (1 binary was skipped; its tests are not known)"
            )
        } else {
            write!(
                f,
                "`{leaf}` matches no test ({skipped} binaries were skipped; their tests are not known)"
            )
        }
    }
}

/// Returns whether one of these values is surely true.
pub fn any_yes(values: &[Option<bool>]) -> bool
    ensures { result ≡ list_any (λ v. unwrap_or v false) values.now }
{
    values.iter().any(|value| value.unwrap_or(false))
}

/// Returns how many of these values are unknown.
fn count_unknown(values: &[Option<bool>]) -> usize
    ensures { result ≡ count_by is_none values.now }
{
    values.iter().filter(|value| value.is_none()).count()
}

/// Adds the predicates of a tree that match no test, from left to right.
pub fn find_unmatched<'t>(
    tree: &'t ParsedExpr,
    columns: &Columns<'_>,
    found: &mut Vec<UnmatchedPredicate<'t>>,
) -> Result<(), AllocError>
    ensures { OnOk result (unmatched_of found.new.items
        ≡ unmatched_of found.old.items ++ unmatched_by (tree_of tree.now) columns.now) }
{
    match tree.node() {
        ParsedNode::Not(_, operand) => find_unmatched(operand, columns.first(), found),
        ParsedNode::Union(_, left, right) | ParsedNode::Join(_, left, right) => {
            find_unmatched(left, columns.first(), found)?;
            find_unmatched(right, columns.second(), found)
        }
        ParsedNode::Parens(inner) => find_unmatched(inner, columns, found),
        ParsedNode::Set(leaf) => {
            let values = columns.values();
            if any_yes(values) {
                return Ok(());
            }
            let skipped = count_unknown(values);
            found.push(UnmatchedPredicate { leaf, skipped })?;
            Ok(())
        }
    }
}
