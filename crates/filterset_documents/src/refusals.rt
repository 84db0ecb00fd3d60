//! The diagnostics of texts that are no configuration.
ghost use Rattle.std.specs.Prelude.{◌≡◌, ◌-◌, ◌∷◌, [], IfOk, codes, map, string_bytes};
ghost use Rattle.serde_json.specs.{Data.Data, View.view};
ghost use Rattle.filterset_display.specs.Positions.{Text};
ghost use Rattle.toml.specs.Errors.{span_end, span_start};
ghost use Rattle.filterset_faults.specs.Span.{span};
ghost use Rattle.filterset_sources.specs.Configurations.{RefusesConfiguration};
ghost use Rattle.filterset_documents.specs.Diagnostics.{IsDiagnostic, IsRefusalAt, wrong_text};

use crate::diagnostics::diagnostic_at;
use crate::message::wrong_message;
use crate::ranges::Shown;
use filterset_display::Severity;
use filterset_faults::SourceSpan;
use filterset_sources::{SourceRefusal, WrongValue};
use serde_json::Value;
use std::alloc::{AllocError, Global};

/// Makes the diagnostic of a text that is no TOML.
fn toml_value(
    alloc: Global,
    shown: &Shown<'_>,
    error: &toml::de::Error,
) -> Result<Value, AllocError>
    ensures { IfOk result (λ value. (message : Text) × IsDiagnostic shown.now.encoding shown.now.lines.text.now
        Severity.Error (span (span_start error.now) (span_end error.now - span_start error.now)) (codes "toml") message (view value)) }
{
    // Only an error of memory has no span.
    let Some(range) = error.span() else {
        return Err(AllocError);
    };
    let span = SourceSpan::new(range.start, range.end.saturating_sub(range.start));
    diagnostic_at(alloc, shown, Severity::Error, span, "toml", error.message())
}

/// Makes the diagnostic of a wrong value.
fn wrong_value(alloc: Global, shown: &Shown<'_>, wrong: &WrongValue) -> Result<Value, AllocError>
    ensures { IfOk result (λ value. IsDiagnostic shown.now.encoding shown.now.lines.text.now Severity.Error (span 0 0)
        (codes "configuration") (wrong_text (string_bytes wrong.now.path) wrong.now.expected.now) (view value)) }
{
    let message = wrong_message(alloc, wrong.path.as_str(), wrong.expected)?;
    diagnostic_at(
        alloc,
        shown,
        Severity::Error,
        SourceSpan::new(0, 0),
        "configuration",
        message.as_str(),
    )
}

/// Makes the diagnostic of a text that is no configuration.
fn refusal_value(
    alloc: Global,
    shown: &Shown<'_>,
    refusal: &SourceRefusal,
) -> Result<Value, AllocError>
    requires { RefusesConfiguration shown.now.lines.text.now refusal.now }
    ensures { IfOk result (λ value.
        IsRefusalAt shown.now.encoding shown.now.lines.text.now refusal.now (view value)) }
{
    match refusal {
        SourceRefusal::NotToml { error, .. } => toml_value(alloc, shown, error),
        SourceRefusal::WrongValue(wrong) => wrong_value(alloc, shown, wrong),
        SourceRefusal::OutOfMemory(refused) => Err(*refused),
        SourceRefusal::NotJson(_) => unreachable!(),
    }
}

/// Makes the diagnostics of a text that is no configuration: one.
pub fn diagnose_refusal(
    alloc: Global,
    shown: &Shown<'_>,
    refusal: &SourceRefusal,
) -> Result<Vec<Value>, AllocError>
    requires { RefusesConfiguration shown.now.lines.text.now refusal.now }
    ensures { IfOk result (λ values. (d : Data) × IsRefusalAt shown.now.encoding shown.now.lines.text.now refusal.now d
        × (map view values.items ≡ d ∷ [])) }
{
    let mut values = Vec::with_capacity(alloc, 1)?;
    values.push(refusal_value(alloc, shown, refusal)?)?;
    Ok(values)
}
