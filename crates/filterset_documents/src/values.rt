//! The warnings of wrong values of nextest's configuration, and of what nextest does not read of it.
ghost use Rattle.std.specs.Prelude.{◌≡◌, IfOk, map};
ghost use Rattle.serde_json.specs.View.{view};
ghost use Rattle.filterset_entries.specs.Checked.{text_row};
ghost use Rattle.filterset_documents.specs.Diagnostics.{AreUnreadWarnings, AreValueWarnings, IsValueWarning, value_span};

use crate::diagnostics::{diagnostic_at, remark_value};
use crate::message::wrong_message;
use crate::ranges::Shown;
use filterset_configuration::{WrongValue, find_wrong_values};
use filterset_display::Severity;
use filterset_entries::{TextEntry, unread_remarks};
use filterset_faults::SourceSpan;
use filterset_sources::ParsedText;
use serde_json::Value;
use std::alloc::{AllocError, Global};

/// Returns where the text of a wrong value is in the file, or the start of the file if it was not found.
fn value_span(wrong: &WrongValue) -> SourceSpan
    ensures { result ≡ value_span wrong.now }
{
    match &wrong.place {
        Some(place) => place.file_span(SourceSpan::new(0, wrong.text.len())),
        None => SourceSpan::new(0, 0),
    }
}

/// Makes the warning of a wrong value.
fn value_warning(alloc: Global, shown: &Shown<'_>, wrong: &WrongValue) -> Result<Value, AllocError>
    ensures { IfOk result (λ value.
        IsValueWarning shown.now.encoding shown.now.lines.text.now wrong.now (view value)) }
{
    let message = wrong_message(alloc, wrong.path.as_str(), wrong.expected)?;
    diagnostic_at(
        alloc,
        shown,
        Severity::Warning,
        value_span(wrong),
        "InvalidValue",
        message.as_str(),
    )
}

/// Makes the warnings of the wrong values of a configuration, other than its filtersets, in their order.
pub(crate) fn diagnose_values(
    alloc: Global,
    shown: &Shown<'_>,
    parsed: ParsedText<'_>,
) -> Result<Vec<Value>, AllocError>
    requires { parsed.text.now ≡ shown.now.lines.text.now }
    ensures { IfOk result (λ values.
        AreValueWarnings shown.now.encoding shown.now.lines.text.now (map view values.items)) }
{
    let found = find_wrong_values(alloc, parsed)?;
    let mut values = Vec::with_capacity(alloc, found.len())?;
    for wrong in &found {
        values.push(value_warning(alloc, shown, wrong)?)?;
    }
    Ok(values)
}

/// Makes the warnings of what nextest does not read of a configuration, whose filtersets these are.
pub(crate) fn diagnose_unread(
    alloc: Global,
    shown: &Shown<'_>,
    parsed: ParsedText<'_>,
    entries: &[TextEntry<'_>],
) -> Result<Vec<Value>, AllocError>
    requires { parsed.text.now ≡ shown.now.lines.text.now }
    ensures { IfOk result (λ values. AreUnreadWarnings shown.now.encoding shown.now.lines.text.now
        (map text_row entries.now) (map view values.items)) }
{
    let remarks = unread_remarks(alloc, parsed, entries)?;
    let mut values = Vec::with_capacity(alloc, remarks.len())?;
    for remark in &remarks {
        let span = remark.span.unwrap_or(SourceSpan::new(0, 0));
        values.push(remark_value(alloc, shown, span, remark)?)?;
    }
    Ok(values)
}
