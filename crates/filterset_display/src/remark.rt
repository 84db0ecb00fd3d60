//! Remarks: what is said of a text, or of a part of it.
ghost use Rattle.std.specs.Prelude.{◌≡◌, IfOk};
ghost use Rattle.filterset_display.specs.Remarks.{fault_remark, remark_row, word_of};

use crate::color::Color;
use filterset_faults::{ParseSingleError, SourceSpan};
use std::alloc::{AllocError, Global};

/// How remarks are written.
#[derive(Clone, Copy, Debug, PartialEq, Eq)]
pub enum Form {
    /// Drawn under their text, for people.
    Drawn(Color),
    /// As JSON, one object a line.
    Json,
    /// As commands of a GitHub workflow, one a line.
    Github,
}

/// How bad it is what a remark says.
#[derive(Clone, Copy)]
pub enum Severity {
    Error,
    Warning,
}

impl Severity {
    /// Returns the word for it.
    pub fn word(self) -> &'static str
        ensures { result.now ≡ word_of self }
    {
        match self {
            Severity::Error => "error",
            Severity::Warning => "warning",
        }
    }
}

/// What is said of a text, or of a part of it.
#[derive(Drop)]
pub struct Remark {
    pub severity: Severity,
    /// By which programs tell remarks apart.
    pub code: &'static str,
    pub message: String,
    /// What is written beside the part.
    pub label: Option<String>,
    /// What to write in its place.
    pub help: Option<String>,
    /// The part of the text.
    pub span: Option<SourceSpan>,
}

impl Remark {
    /// Returns what there is to say of a fault. Returns an error only if out of memory.
    pub fn of_fault(alloc: Global, fault: &ParseSingleError) -> Result<Remark, AllocError>
        ensures { IfOk result (λ remark. remark_row remark ≡ fault_remark fault.now) }
    {
        let label = match fault.label() {
            Some(label) => Some(format!(in alloc; "{label}")?),
            None => None,
        };
        let help = match fault.help() {
            Some(help) => Some(format!(in alloc; "{help}")?),
            None => None,
        };
        Ok(Remark {
            severity: Severity::Error,
            code: fault.code(),
            message: format!(in alloc; "{fault}")?,
            label,
            help,
            span: fault.span(),
        })
    }
}
