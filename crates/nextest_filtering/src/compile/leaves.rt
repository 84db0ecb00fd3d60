//! The compiler of predicates.
ghost use Rattle.std.specs.Prelude.{◌≡◌, ◌≢◌, ◌∷◌, [], IfOk, IsTrue, OnOk};
ghost use Rattle.filterset_faults.specs.declared.error.ParseSingleError.TheVariants as fault;
ghost use Rattle.filterset_language.specs.Views.{leaf_of};
ghost use Rattle.nextest_filtering.specs.{Checks.AddsUnless, Checks.AddsUnmatched, Compiling.packages_of};
ghost use Rattle.filterset_expression.specs.{Expression.compiled_leaf, Meaning.IsCompiledLeaf};
ghost use Rattle.filterset_expression.specs.Expression as compiled;

use crate::compile::checks::{matches_binary_id, matches_binary_name, matches_group};
use crate::compile::context::{KnownGroups, ParseContext};
use crate::compile::packages::{select_dependencies, select_dependents, select_named};
use filterset_expression::FiltersetLeaf;
use filterset_faults::{ParseSingleError, SourceSpan};
use filterset_graph::PackageId;
use filterset_language::ParsedLeaf;
use std::alloc::{AllocError, Global};
use std::collections::BTreeSet;

/// Compiles a predicate. Appends its fault if it has to match something and does not.
pub(super) fn compile_leaf(
    alloc: Global,
    cx: &ParseContext<'_>,
    known_groups: &KnownGroups,
    leaf: &ParsedLeaf,
    faults: &mut Vec<ParseSingleError>,
) -> Result<FiltersetLeaf, AllocError>
    ensures compiled { IfOk result (λ made.
        IsCompiledLeaf (packages_of cx.now) (leaf_of leaf.now) (compiled_leaf made)) }
    ensures unmatched { OnOk result (AddsUnmatched (packages_of cx.now) known_groups.now
        (leaf_of leaf.now ∷ []) faults.old.items faults.new.items) }
{
    match leaf {
        ParsedLeaf::Package(matcher, span) => {
            compile_packages(select_named(alloc, cx, matcher)?, *span, faults)
        }
        ParsedLeaf::Deps(matcher, span) => {
            compile_packages(select_dependencies(alloc, cx, matcher)?, *span, faults)
        }
        ParsedLeaf::Rdeps(matcher, span) => {
            compile_packages(select_dependents(alloc, cx, matcher)?, *span, faults)
        }
        ParsedLeaf::Kind(matcher, span) => {
            Ok(FiltersetLeaf::Kind(matcher.try_clone(alloc)?, *span))
        }
        ParsedLeaf::Binary(matcher, span) => {
            let is_matched = matches_binary_name(alloc, cx, matcher)?;
            push_unless(
                is_matched,
                ParseSingleError::NoBinaryNameMatch(*span),
                faults,
            )?;
            Ok(FiltersetLeaf::Binary(matcher.try_clone(alloc)?, *span))
        }
        ParsedLeaf::BinaryId(matcher, span) => {
            let is_matched = matches_binary_id(alloc, cx, matcher)?;
            push_unless(is_matched, ParseSingleError::NoBinaryIdMatch(*span), faults)?;
            Ok(FiltersetLeaf::BinaryId(matcher.try_clone(alloc)?, *span))
        }
        ParsedLeaf::Platform(platform, span) => Ok(FiltersetLeaf::Platform(*platform, *span)),
        ParsedLeaf::Test(matcher, span) => {
            Ok(FiltersetLeaf::Test(matcher.try_clone(alloc)?, *span))
        }
        ParsedLeaf::Group(matcher, span) => {
            let is_matched = matches_group(alloc, known_groups, matcher)?;
            push_unless(is_matched, ParseSingleError::NoGroupMatch(*span), faults)?;
            Ok(FiltersetLeaf::Group(matcher.try_clone(alloc)?, *span))
        }
        ParsedLeaf::Default(_) => Ok(FiltersetLeaf::Default),
        ParsedLeaf::All => Ok(FiltersetLeaf::All),
        ParsedLeaf::None => Ok(FiltersetLeaf::None),
    }
}

/// Returns the leaf of these packages. Appends a fault if there are none.
fn compile_packages(
    ids: BTreeSet<PackageId>,
    span: SourceSpan,
    faults: &mut Vec<ParseSingleError>,
) -> Result<FiltersetLeaf, AllocError>
    ensures compiled { IfOk result (λ made. compiled_leaf made ≡ compiled.Packages ids.keys) }
    ensures unmatched { OnOk result
        (AddsUnless (ids.keys ≢ []) (fault.NoPackageMatch span) faults.old.items faults.new.items) }
{
    if ids.is_empty() {
        faults.push(ParseSingleError::NoPackageMatch(span))?;
    }
    Ok(FiltersetLeaf::Packages(ids))
}

/// Appends the fault unless the predicate matches something.
fn push_unless(
    is_matched: bool,
    fault: ParseSingleError,
    faults: &mut Vec<ParseSingleError>,
) -> Result<(), AllocError>
    ensures { OnOk result (AddsUnless (IsTrue is_matched) fault faults.old.items faults.new.items) }
{
    if !is_matched {
        faults.push(fault)?;
    }
    Ok(())
}
