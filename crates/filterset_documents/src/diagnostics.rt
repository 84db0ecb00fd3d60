//! Diagnostics.
ghost use Rattle.std.specs.Prelude.{◌≡◌, IfOk};
ghost use Rattle.serde_json.specs.View.{view};
ghost use Rattle.filterset_documents.specs.Diagnostics as spec;
ghost use Rattle.filterset_documents.specs.Diagnostics.{IsDiagnostic, IsRemarkAt, diagnostic_data};
ghost use Rattle.filterset_display.specs.Remarks.{remark_row};

use crate::message::remark_message;
use crate::ranges::{Shown, span_value};
use filterset_display::{Remark, Severity};
use filterset_faults::SourceSpan;
use serde_json::{Value, json};
use std::alloc::{AllocError, Global};

/// Returns the protocol's number of a severity.
fn severity_number(severity: Severity) -> u8
    ensures { result ≡ spec.severity_number severity }
{
    match severity {
        Severity::Error => 1,
        Severity::Warning => 2,
    }
}

/// Makes the value of an error or a warning in a range.
fn diagnostic_value(
    alloc: Global,
    severity: Severity,
    code: &str,
    message: &str,
    range: Value,
) -> Result<Value, AllocError>
    ensures { IfOk result (λ value. view value ≡ diagnostic_data severity code.now message.now (view range)) }
{
    let severity = severity_number(severity);
    json!(in alloc; {
        "code": code,
        "message": message,
        "range": range,
        "severity": severity,
        "source": "filterset"
    })
}

/// Makes the diagnostic with this code and message, at a span.
pub fn diagnostic_at(
    alloc: Global,
    shown: &Shown<'_>,
    severity: Severity,
    span: SourceSpan,
    code: &str,
    message: &str,
) -> Result<Value, AllocError>
    ensures { IfOk result (λ value.
        IsDiagnostic shown.now.encoding shown.now.lines.text.now severity span code.now message.now
        (view value)) }
{
    let range = span_value(alloc, shown, span)?;
    diagnostic_value(alloc, severity, code, message, range)
}

/// Makes the diagnostic of a remark, at a span.
pub fn remark_value(
    alloc: Global,
    shown: &Shown<'_>,
    span: SourceSpan,
    remark: &Remark,
) -> Result<Value, AllocError>
    ensures { IfOk result (λ value.
        IsRemarkAt shown.now.encoding shown.now.lines.text.now span (remark_row remark.now) (view value)) }
{
    let message = remark_message(alloc, remark)?;
    let message = message.as_str();
    diagnostic_at(alloc, shown, remark.severity, span, remark.code, message)
}
