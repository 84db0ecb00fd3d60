//! The document whose filtersets may be changed, and what may be done with one.
ghost use Rattle.std.specs.Prelude.{◌≡◌};
ghost use Rattle.filterset_server.specs.Subjects.{meets, subject_row};

use crate::repairs::Repair;
use filterset_documents::{Content, Shown};
use filterset_faults::{ParseSingleError, SourceSpan};

/// A document, and the offsets between which it is asked about.
#[derive(Clone, Copy, Debug)]
pub struct Subject<'d> {
    pub shown: &'d Shown<'d>,
    pub uri: &'d str,
    pub from: usize,
    pub to: usize,
    pub content: Content<'d, 'd>,
}

/// An edit of a filterset's text, and the fault that it mends. Without one it writes the whole filterset anew.
#[derive(Debug, Drop)]
pub struct Proposal {
    pub fault: Option<ParseSingleError>,
    pub repair: Repair,
}

/// Returns whether a span of the file is in what is asked about, or touches that.
pub fn meets(subject: &Subject<'_>, span: SourceSpan) -> bool
    ensures { result ≡ meets (subject_row subject.now) span }
{
    span.offset() <= subject.to
        && (subject.from <= span.offset() || subject.from - span.offset() <= span.len())
}
