//! What a list of tests says of a filterset.
ghost use Rattle.std.specs.Prelude.{◌≡◌, IfOk, List, map, true};
ghost use Rattle.filterset_expression.specs.{Contexts.default_of, Meaning.IsCompiled};
ghost use Rattle.filterset_graph.specs.declared.package.PackageMetadata.{PackageMetadata};
ghost use Rattle.filterset_language.specs.Views.{tree_of};
ghost use Rattle.filterset_listing.specs.{Columns.Fits, Finding.found_of, Finding.unmatched_of, Needless.AreNeedless};
ghost use Rattle.filterset_listing.specs.{SubjectValues.Basis, Unmatched.AreUnmatched};

use crate::columns::{Asked, Columns, columns_of};
use crate::needless::{NeedlessOperand, find_needless};
use crate::subjects::Subject;
use crate::unmatched::{UnmatchedPredicate, any_yes, find_unmatched};
use filterset_expression::{CompiledExpr, EvalContext};
use filterset_language::ParsedExpr;
use std::alloc::{AllocError, Global};

/// What a list of tests says of a filterset.
#[derive(Debug, Drop)]
pub struct Hints<'t> {
    /// The predicates that match no test, from left to right.
    pub unmatched: Vec<UnmatchedPredicate<'t>>,
    /// The operands in whose place `all()` or `none()` picks the same tests, from left to right; of such an operand no part.
    /// There are none if a predicate matches no test, or if the filterset picks none.
    pub needless: Vec<NeedlessOperand<'t>>,
}

/// Returns of each subject that the whole tree decides what is said of it.
fn all_deciding(alloc: Global, subjects: &[Subject<'_>]) -> Result<Vec<bool>, AllocError>
    ensures { IfOk result (λ made. made.items ≡ map (λ s. true) subjects.now) }
{
    subjects.iter().map(|_subject| true).collect(alloc)
}

/// Returns the needless operands of a filterset, of whose predicates these match no test.
fn needless_of<'t>(
    alloc: Global,
    tree: &'t ParsedExpr,
    columns: &Columns<'_>,
    subjects: &[Subject<'_>],
    unmatched: &[UnmatchedPredicate<'_>],
) -> Result<Vec<NeedlessOperand<'t>>, AllocError>
    ensures { IfOk result (λ found. (basis : Basis) → Fits basis subjects.now (tree_of tree.now) columns.now
        → AreNeedless basis subjects.now (tree_of tree.now) (unmatched_of unmatched.now) (found_of found.items)) }
{
    let mut found = Vec::new(alloc);
    if !unmatched.is_empty() {
        return Ok(found);
    }
    if !any_yes(columns.values()) {
        return Ok(found);
    }
    let deciding = all_deciding(alloc, subjects)?;
    find_needless(alloc, tree, columns, &deciding, false, &mut found)?;
    Ok(found)
}

/// Returns the predicates of a tree that match no test of a list, and the operands that change nothing. `compiled` is what
/// the tree is compiled to.
///
/// A predicate is listed if it is true of no test that is a subject, and of no skipped binary whatever its tests are; with it
/// goes the number of skipped binaries that may have a test that it matches. An operand is not listed if it may decide about
/// a test of a skipped binary, nor if the filterset picks no test, nor beside a predicate that is listed. Each predicate is
/// evaluated once for each subject. The only error is out of memory.
pub fn find_hints<'t>(
    alloc: Global,
    tree: &'t ParsedExpr,
    compiled: &CompiledExpr,
    context: &EvalContext<'_>,
    subjects: &[Subject<'_>],
) -> Result<Hints<'t>, AllocError>
    ensures unmatched { IfOk result (λ hints. (packages : List PackageMetadata)
        → IsCompiled packages (tree_of tree.now) compiled.now
        → AreUnmatched (record { packages = packages; default = default_of context.now }) subjects.now
        (tree_of tree.now) (unmatched_of hints.unmatched.items)) }
    ensures needless { IfOk result (λ hints. (packages : List PackageMetadata)
        → IsCompiled packages (tree_of tree.now) compiled.now
        → AreNeedless (record { packages = packages; default = default_of context.now }) subjects.now
        (tree_of tree.now) (unmatched_of hints.unmatched.items) (found_of hints.needless.items)) }
{
    let asked = Asked {
        context: *context,
        subjects,
    };
    let columns = columns_of(alloc, &asked, tree, compiled)?;
    let mut unmatched = Vec::new(alloc);
    find_unmatched(tree, &columns, &mut unmatched)?;
    let needless = needless_of(alloc, tree, &columns, subjects, &unmatched)?;
    Ok(Hints {
        unmatched,
        needless,
    })
}
