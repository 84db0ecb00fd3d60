//! Warnings of predicates that match nothing in a workspace.
ghost use Rattle.std.specs.{Prelude.◌≡◌, Prelude.IfOk, Prelude.map, Prelude.option_map, List.count_by};
ghost use Rattle.serde_json.specs.View.{view};
ghost use Rattle.filterset_entries.specs.{Checked.text_row, Placements.placement_of};
ghost use Rattle.filterset_documents.specs.Joins.{Joins};
ghost use Rattle.filterset_language.specs.Views.{leaf_of};
ghost use Rattle.filterset_offers.specs.Workspaces.{known_of, workspace_row};
ghost use Rattle.filterset_offers.specs.Unmatched.{LeafWarnings, RowWarnings, RowsWarnings, WarnsOfLeaf, is_skipped, skipped_for};

use crate::hover::leaf_part;
use crate::index::WorkspaceIndex;
use crate::workspace::Workspace;
use filterset_display::Severity;
use filterset_documents::{Shown, diagnostic_at, parse_text};
use filterset_entries::{FilePlace, TextEntry};
use filterset_language::ParsedLeaf;
use filterset_listing::UnmatchedPredicate;
use filterset_sources::{Suite, SuiteStatus};
use serde_json::Value;
use std::alloc::{AllocError, Global};

/// The code of a predicate that matches no test.
const CODE: &str = "NoTestMatch";

/// Returns whether nextest did not list the tests of a binary.
fn is_skipped(suite: &Suite) -> bool
    ensures { result ≡ is_skipped suite.now.status }
{
    match suite.status {
        SuiteStatus::Listed => false,
        SuiteStatus::Skipped => true,
    }
}

/// A workspace whose predicates are asked about, and of how many binaries nextest did not list the tests.
#[derive(Debug, Drop)]
struct Asked<'w> {
    index: WorkspaceIndex<'w>,
    skipped: usize,
    ghost counted: { skipped ≡ count_by (λ suite. is_skipped suite.status) index.workspace.suites.now },
}

/// Returns how many of the skipped binaries may have a test that a predicate matches.
fn skipped_for(skipped: usize, leaf: &ParsedLeaf) -> usize
    ensures { result ≡ skipped_for skipped (leaf_of leaf.now) }
{
    match leaf {
        ParsedLeaf::Test(..) => skipped,
        _ => 0,
    }
}

/// Makes the warning of a predicate of a text at this place, if it has a span.
fn warn_leaf(
    alloc: Global,
    shown: &Shown<'_>,
    place: Option<FilePlace<'_>>,
    predicate: UnmatchedPredicate<'_>,
) -> Result<Vec<Value>, AllocError>
    ensures { IfOk result (λ values. WarnsOfLeaf shown.now.encoding shown.now.lines.text.now
        (option_map placement_of place.entry) (leaf_of predicate.entry.leaf.now, predicate.entry.skipped) (map view values.items)) }
{
    let mut values = Vec::new(alloc);
    if let Some(part) = leaf_part(place, predicate.leaf) {
        let message = format!(in alloc; "{predicate}")?;
        let message = message.as_str();
        let warning = diagnostic_at(alloc, shown, Severity::Warning, part.span, CODE, message)?;
        values.push(warning)?;
    }
    Ok(values)
}

/// Makes the warning of a predicate, if it matches nothing.
fn leaf_warnings(
    alloc: Global,
    asked: &Asked<'_>,
    shown: &Shown<'_>,
    place: Option<FilePlace<'_>>,
    leaf: &ParsedLeaf,
) -> Result<Vec<Value>, AllocError>
    ensures { IfOk result (λ values. LeafWarnings (workspace_row asked.now.index.workspace) shown.now.encoding shown.now.lines.text.now
        (option_map placement_of place.entry) (leaf_of leaf.now) (map view values.items)) }
{
    if asked.index.matches_something(alloc, leaf)? {
        return Ok(Vec::new(alloc));
    }
    let skipped = skipped_for(asked.skipped, leaf);
    warn_leaf(alloc, shown, place, UnmatchedPredicate { leaf, skipped })
}

/// Makes the warnings of a filterset: those of its predicates that have a span in the file, one after the other.
fn entry_warnings(
    alloc: Global,
    asked: &Asked<'_>,
    shown: &Shown<'_>,
    entry: &TextEntry<'_>,
) -> Result<Vec<Value>, AllocError>
    ensures { IfOk result (λ values. RowWarnings (workspace_row asked.now.index.workspace) shown.now.encoding shown.now.lines.text.now
        (text_row entry.now) (map view values.items)) }
{
    let mut values = Vec::new(alloc);
    let Some(tree) = parse_text(alloc, entry.text)? else {
        return Ok(values);
    };
    let leaves = tree.leaves_where(alloc, |leaf| leaf_part(entry.place, leaf).is_some())?;
    let leaves = leaves.as_slice();
    for leaf in leaves {
        let mut more = leaf_warnings(alloc, asked, shown, entry.place, leaf)?;
        values.append(&mut more)?;
    }
    Ok(values)
}

/// Makes the warnings of filtersets in a workspace that is prepared, one after the other.
fn warn_each(
    alloc: Global,
    asked: &Asked<'_>,
    shown: &Shown<'_>,
    entries: &[TextEntry<'_>],
) -> Result<Vec<Value>, AllocError>
    ensures { IfOk result (λ values. Joins (RowWarnings (workspace_row asked.now.index.workspace) shown.now.encoding
        shown.now.lines.text.now) (map text_row entries.now) (map view values.items)) }
{
    let mut values = Vec::new(alloc);
    for entry in entries {
        let mut more = entry_warnings(alloc, asked, shown, entry)?;
        values.append(&mut more)?;
    }
    Ok(values)
}

/// Makes the warnings of filtersets, one after the other, if a workspace is known.
pub fn warn_entries(
    alloc: Global,
    workspace: Option<Workspace<'_>>,
    shown: &Shown<'_>,
    entries: &[TextEntry<'_>],
) -> Result<Vec<Value>, AllocError>
    ensures { IfOk result (λ values. RowsWarnings (known_of workspace.entry) shown.now.encoding shown.now.lines.text.now
        (map text_row entries.now) (map view values.items)) }
{
    let Some(workspace) = workspace else {
        return Ok(Vec::new(alloc));
    };
    let index = WorkspaceIndex::new(alloc, workspace)?;
    let suites = index.workspace.suites;
    let skipped = suites.iter().filter(|suite| is_skipped(suite)).count();
    let asked = Asked { index, skipped };
    warn_each(alloc, &asked, shown, entries)
}
