//! The actions for the filtersets of a document.
ghost use Rattle.std.specs.Prelude.{◌≡◌, ◌<◌, IfOk, length, map, option_map, string_bytes};
ghost use Rattle.serde_json.specs.View.{view};
ghost use Rattle.filterset_entries.specs.Checked.{text_row};
ghost use Rattle.filterset_documents.specs.{Joins.Joins, Contents.content_row};
ghost use Rattle.filterset_language.specs.Views.{tree_of};
ghost use Rattle.filterset_server.specs.Actions.{ActsOn, AreActions, FaultActions, IsRepairIn, IsSpelled, NewActions, ProposalActions, RewriteActions, RowActions, TextActions, TreeActions};
ghost use Rattle.filterset_server.specs.Repairs.{repair_row};
ghost use Rattle.filterset_server.specs.Subjects.{proposal_row, rewrite_row, subject_row, target_row};

use crate::changes::choose_action;
use crate::edits::Edit;
use crate::mending::mend;
use crate::repairs::{Repair, repair_of};
use crate::subject::{Proposal, Subject, meets};
use crate::target::Target;
use filterset_configuration::Stretch;
use filterset_display::Range;
use filterset_documents::{Content, Shown, fault_span, is_same, stretch_at, stretch_span};
use filterset_entries::TextEntry;
use filterset_faults::ParseSingleError;
use filterset_language::ParsedExpr;
use filterset_rewriting::{TextRefusal, caret_count, read_text, show_reading, spell_out};
use serde_json::Value;
use std::alloc::{AllocError, Global};

/// The title of the action that writes a filterset as it prints.
const FORMAT: &str = "Format this filterset";

/// The title of the action that adds parentheses which show how a filterset is read.
const ENCLOSE: &str = "Add parentheses";

/// The title of the action that writes a filterset without `^`.
const SPELL: &str = "Write without `^`";

/// Makes the action of a proposal by which the filterset gets this text, if a change of the file gives it that and changes no
/// other.
fn new_actions(
    alloc: Global,
    target: &Target<'_>,
    proposal: &Proposal,
    new: &str,
) -> Result<Vec<Value>, AllocError>
    ensures { IfOk result (λ values. NewActions (target_row target.now) (proposal_row proposal.now) new.now (map view values.items)) }
{
    let mut values = Vec::new(alloc);
    match choose_action(alloc, target, proposal, new)? {
        Some(action) => {
            values.push(action)?;
            Ok(values)
        }
        None => Ok(values),
    }
}

/// Makes the action of a proposal, if it mends the filterset's text.
fn proposal_actions(
    alloc: Global,
    target: &Target<'_>,
    proposal: &Proposal,
) -> Result<Vec<Value>, AllocError>
    ensures { IfOk result (λ values. ProposalActions (target_row target.now) (proposal_row proposal.now) (map view values.items)) }
{
    match mend(alloc, target.text, &proposal.repair.edit)? {
        Some(new) => new_actions(alloc, target, proposal, new.as_str()),
        None => Ok(Vec::new(alloc)),
    }
}

/// Makes the repair of a fault, if it has one, and is in what is asked about.
fn repair_in(
    alloc: Global,
    target: &Target<'_>,
    fault: &ParseSingleError,
) -> Result<Option<Repair>, AllocError>
    ensures { IfOk result (λ o. IsRepairIn (target_row target.now) fault.now (option_map repair_row o)) }
{
    if meets(target.subject, fault_span(Some(target.place), fault.span())) {
        repair_of(alloc, target.text, fault)
    } else {
        Ok(None)
    }
}

/// Makes the action that mends a fault, if it has a repair, and is in what is asked about.
fn fault_actions(
    alloc: Global,
    target: &Target<'_>,
    fault: &ParseSingleError,
) -> Result<Vec<Value>, AllocError>
    ensures { IfOk result (λ values. FaultActions (target_row target.now) fault.now (map view values.items)) }
{
    let Some(repair) = repair_in(alloc, target, fault)? else {
        return Ok(Vec::new(alloc));
    };
    let proposal = Proposal {
        fault: Some(*fault),
        repair,
    };
    proposal_actions(alloc, target, &proposal)
}

/// Makes the actions that mend faults, in their order.
fn mending_actions(
    alloc: Global,
    target: &Target<'_>,
    faults: &[ParseSingleError],
) -> Result<Vec<Value>, AllocError>
    ensures { IfOk result (λ values. Joins (FaultActions (target_row target.now)) faults.now (map view values.items)) }
{
    let mut values = Vec::new(alloc);
    for fault in faults {
        let mut more = fault_actions(alloc, target, fault)?;
        values.append(&mut more)?;
    }
    Ok(values)
}

/// Makes the proposal to write a text anew.
fn propose_text(
    alloc: Global,
    title: &'static str,
    text: &str,
    new: &str,
) -> Result<Proposal, AllocError>
    ensures { IfOk result (λ p. proposal_row p ≡ rewrite_row title.now text.now new.now) }
{
    let at = Stretch {
        from: 0,
        to: text.len(),
    };
    let edit = Edit {
        at,
        text: String::from_str(alloc, new)?,
    };
    Ok(Proposal {
        fault: None,
        repair: Repair { title, edit },
    })
}

/// Makes the action that writes a filterset anew, unless its new text is the same as another.
fn rewrite_actions(
    alloc: Global,
    target: &Target<'_>,
    title: &'static str,
    other: &str,
    new: &str,
) -> Result<Vec<Value>, AllocError>
    ensures { IfOk result (λ values. RewriteActions (target_row target.now) title.now other.now new.now (map view values.items)) }
{
    if is_same(other, new) {
        return Ok(Vec::new(alloc));
    }
    let proposal = propose_text(alloc, title, target.text, new)?;
    proposal_actions(alloc, target, &proposal)
}

/// Makes the text of a tree without `^`, if it has one to eight of them, and else as it prints.
fn spelled_text(alloc: Global, tree: &ParsedExpr) -> Result<String, AllocError>
    ensures { IfOk result (λ made. IsSpelled (tree_of tree.now) (string_bytes made)) }
{
    if matches!(caret_count(tree), 1..=8) {
        let spelled = spell_out(alloc, tree)?;
        format!(in alloc; "{spelled}")
    } else {
        format!(in alloc; "{tree}")
    }
}

/// Makes the actions for a filterset that reads as a tree.
fn tree_actions(
    alloc: Global,
    target: &Target<'_>,
    tree: &ParsedExpr,
) -> Result<Vec<Value>, AllocError>
    ensures { IfOk result (λ values. TreeActions (target_row target.now) (tree_of tree.now) (map view values.items)) }
{
    let printed = format!(in alloc; "{tree}")?;
    let printed = printed.as_str();
    let shown = show_reading(alloc, tree)?;
    let shown = format!(in alloc; "{shown}")?;
    let shown = shown.as_str();
    let mut values = rewrite_actions(alloc, target, FORMAT, target.text, printed)?;
    let mut more = rewrite_actions(alloc, target, ENCLOSE, printed, shown)?;
    values.append(&mut more)?;
    let spelled = spelled_text(alloc, tree)?;
    let spelled = spelled.as_str();
    let mut last = rewrite_actions(alloc, target, SPELL, printed, spelled)?;
    values.append(&mut last)?;
    Ok(values)
}

/// Makes the actions for the text of a filterset.
fn text_actions(alloc: Global, target: &Target<'_>) -> Result<Vec<Value>, AllocError>
    ensures { IfOk result (λ values. TextActions (target_row target.now) (map view values.items)) }
{
    match read_text(alloc, target.text)? {
        Ok(tree) => tree_actions(alloc, target, &tree),
        Err(TextRefusal::Found(faults)) => mending_actions(alloc, target, faults.as_slice()),
        Err(TextRefusal::TooDeep(_)) => Ok(Vec::new(alloc)),
    }
}

/// Makes the actions for a filterset, which has this position, if it is in what is asked about.
fn entry_actions(
    alloc: Global,
    subject: &Subject<'_>,
    at: usize,
    entry: &TextEntry<'_>,
) -> Result<Vec<Value>, AllocError>
    requires { at < length subject.now.content.entries.now }
    ensures { IfOk result (λ values. RowActions (subject_row subject.now) at (text_row entry.now) (map view values.items)) }
{
    let Some(place) = entry.place else {
        return Ok(Vec::new(alloc));
    };
    let text = entry.text;
    let target = Target {
        subject,
        at,
        place,
        text,
    };
    if meets(subject, stretch_span(stretch_at(place.spot))) {
        text_actions(alloc, &target)
    } else {
        Ok(Vec::new(alloc))
    }
}

/// Makes the actions for the filtersets of a document, one after the other.
fn actions_of(alloc: Global, subject: &Subject<'_>) -> Result<Vec<Value>, AllocError>
    ensures { IfOk result (λ values. AreActions (subject_row subject.now) (map view values.items)) }
{
    let entries = subject.content.entries;
    let mut values = Vec::new(alloc);
    for at in 0..entries.len() {
        let mut more = entry_actions(alloc, subject, at, &entries[at])?;
        values.append(&mut more)?;
    }
    Ok(values)
}

/// Makes the actions for a range of a document, which has this address and content. The only error is out of memory.
pub fn act_on(
    alloc: Global,
    shown: &Shown<'_>,
    uri: &str,
    range: Range,
    content: Content<'_, '_>,
) -> Result<Value, AllocError>
    ensures { IfOk result (λ value. ActsOn shown.now.encoding uri.now shown.now.lines.text.now range
        (content_row content.entry) (view value)) }
{
    let subject = Subject {
        shown,
        uri,
        from: shown.lines.offset(shown.encoding, range.start),
        to: shown.lines.offset(shown.encoding, range.end),
        content,
    };
    let actions = actions_of(alloc, &subject)?;
    Ok(Value::Array(actions))
}
