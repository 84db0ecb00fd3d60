//! The values of actions.
ghost use Rattle.std.specs.Prelude.{◌≡◌, IfOk, map};
ghost use Rattle.serde_json.specs.View.{view};
ghost use Rattle.filterset_documents.specs.Ranges.{edit_data, range_data};
ghost use Rattle.filterset_server.specs.Actions as spec;
ghost use Rattle.filterset_server.specs.Actions.{AreMended, action_data, changes_data};
ghost use Rattle.filterset_server.specs.Subjects.{proposal_row, target_row};

use crate::subject::Proposal;
use crate::target::Target;
use filterset_display::{Range, Remark};
use filterset_documents::{fault_span, range_value, remark_value};
use filterset_faults::ParseSingleError;
use serde_json::{Map, Value, json, put};
use std::alloc::{AllocError, Global};

/// Makes the value of the changes of a document: one edit.
fn changes_value(alloc: Global, uri: &str, range: Range, text: &str) -> Result<Value, AllocError>
    ensures { IfOk result (λ value. view value ≡ changes_data uri.now (edit_data text.now (range_data range))) }
{
    let range = range_value(alloc, range)?;
    let edits = json!(in alloc; [{ "newText": text, "range": range }])?;
    let mut members = Map::new(alloc);
    put(&mut members, alloc, uri, edits)?;
    Ok(Value::Object(members))
}

/// Makes the diagnostics that an action mends: that of its fault.
pub fn mended(
    alloc: Global,
    target: &Target<'_>,
    fault: Option<ParseSingleError>,
) -> Result<Vec<Value>, AllocError>
    ensures { IfOk result (λ values. AreMended (target_row target.now) fault (map view values.items)) }
{
    let mut values = Vec::new(alloc);
    match fault {
        Some(fault) => {
            let remark = Remark::of_fault(alloc, &fault)?;
            let span = fault_span(Some(target.place), remark.span);
            values.push(remark_value(alloc, target.subject.shown, span, &remark)?)?;
            Ok(values)
        }
        None => Ok(values),
    }
}

/// Returns what kind of action this is.
fn kind_of(fault: Option<ParseSingleError>) -> &'static str
    ensures { result.now ≡ spec.kind_of fault }
{
    match fault {
        Some(_) => "quickfix",
        None => "refactor.rewrite",
    }
}

/// Makes the value of the action of a proposal, whose edit puts a text in place of a range.
pub fn action_value(
    alloc: Global,
    target: &Target<'_>,
    proposal: &Proposal,
    diagnostics: Vec<Value>,
    range: Range,
    text: &str,
) -> Result<Value, AllocError>
    ensures { IfOk result (λ value. view value ≡ action_data (target_row target.now).subject.uri (proposal_row proposal.now)
        (map view diagnostics.items) (edit_data text.now (range_data range))) }
{
    let title = proposal.repair.title;
    let kind = kind_of(proposal.fault);
    let changes = changes_value(alloc, target.subject.uri, range, text)?;
    let diagnostics = Value::Array(diagnostics);
    json!(in alloc; {
        "diagnostics": diagnostics,
        "edit": { "changes": changes },
        "kind": kind,
        "title": title
    })
}
