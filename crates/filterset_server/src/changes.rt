//! Changes of files that give filtersets new texts, and the actions that make them.
ghost use Rattle.std.specs.Prelude.{◌≡◌, ◌<◌, IfOk, length, map, option_map, slice_set, string_bytes};
ghost use Rattle.serde_json.specs.View.{view};
ghost use Rattle.filterset_entries.specs.{Checked.text_row, Placements.spot_of};
ghost use Rattle.filterset_documents.specs.Filtersets.{stretch_span};
ghost use Rattle.filterset_server.specs.Actions.{IsChosen, IsTried};
ghost use Rattle.filterset_server.specs.Changes.{changed_span, changed_text, texts_of};
ghost use Rattle.filterset_server.specs.Subjects.{proposal_row, target_row};

use crate::becoming::becomes;
use crate::quoting::{escape, quote};
use crate::subject::Proposal;
use crate::target::Target;
use crate::values::{action_value, mended};
use filterset_display::{Change, change_text};
use filterset_documents::{range_of, span_in, stretch_span};
use filterset_entries::{FilePlace, Spot, TextEntry};
use filterset_faults::SourceSpan;
use serde_json::Value;
use std::alloc::{AllocError, Global};
use std::slice;

/// Returns the span of the file that a proposal replaces.
fn changed_span(place: FilePlace<'_>, proposal: &Proposal) -> SourceSpan
    ensures { result ≡ changed_span (spot_of place.entry.spot) proposal.now.fault (stretch_span proposal.now.repair.edit.at) }
{
    match (place.spot, proposal.fault) {
        (Spot::Literal(found), None) => stretch_span(found.literal),
        _ => span_in(place, stretch_span(proposal.repair.edit.at)),
    }
}

/// Makes what a proposal writes into a file: with or without escapes, as a string of TOML if it writes the whole filterset anew.
fn changed_text(
    alloc: Global,
    place: FilePlace<'_>,
    proposal: &Proposal,
    is_basic: bool,
) -> Result<String, AllocError>
    ensures { IfOk result (λ made. string_bytes made
        ≡ changed_text is_basic (spot_of place.entry.spot) proposal.now.fault (string_bytes proposal.now.repair.edit.text)) }
{
    let text = proposal.repair.edit.text.as_str();
    match (place.spot, proposal.fault) {
        (Spot::Literal(_), None) => quote(alloc, is_basic, text),
        (Spot::Literal(_), Some(_)) if is_basic => escape(alloc, text),
        _ => String::from_str(alloc, text),
    }
}

/// Lists the texts of filtersets of which the one at a position gets another.
fn list_changed<'t>(
    alloc: Global,
    entries: &[TextEntry<'t>],
    at: usize,
    new: &'t str,
) -> Result<Vec<&'t str>, AllocError>
    requires { at < length entries.now }
    ensures { IfOk result (λ texts. map (λ t. t.now) texts.items
        ≡ slice_set (texts_of (map text_row entries.now)) at new.entry.now) }
{
    let mut texts = Vec::with_capacity(alloc, entries.len())?;
    for entry in entries {
        texts.push(entry.text)?;
    }
    texts[at] = new;
    Ok(texts)
}

/// Makes the action by which a filterset gets a text, with or without escapes, if its change does so and changes no other.
fn try_action(
    alloc: Global,
    target: &Target<'_>,
    proposal: &Proposal,
    new: &str,
    is_basic: bool,
) -> Result<Option<Value>, AllocError>
    ensures { IfOk result (λ o. IsTried (target_row target.now) (proposal_row proposal.now) new.now is_basic (option_map view o)) }
{
    let subject = target.subject;
    let shown = subject.shown;
    let range = range_of(shown, changed_span(target.place, proposal));
    let text = changed_text(alloc, target.place, proposal, is_basic)?;
    let change = Change {
        range: Some(range),
        text,
    };
    let changes = slice::from_ref(&change);
    let after = change_text(alloc, shown.encoding, shown.lines.text, changes)?;
    let texts = list_changed(alloc, subject.content.entries, target.at, new)?;
    if becomes(alloc, subject.content, texts.as_slice(), after.as_str())? {
        let diagnostics = mended(alloc, target, proposal.fault)?;
        let text = change.text.as_str();
        let action = action_value(alloc, target, proposal, diagnostics, range, text)?;
        Ok(Some(action))
    } else {
        Ok(None)
    }
}

/// Chooses the action by which a filterset gets a text: without escapes, or else with them.
pub fn choose_action(
    alloc: Global,
    target: &Target<'_>,
    proposal: &Proposal,
    new: &str,
) -> Result<Option<Value>, AllocError>
    ensures { IfOk result (λ o. IsChosen (target_row target.now) (proposal_row proposal.now) new.now (option_map view o)) }
{
    match try_action(alloc, target, proposal, new, false)? {
        Some(action) => Ok(Some(action)),
        None => try_action(alloc, target, proposal, new, true),
    }
}
