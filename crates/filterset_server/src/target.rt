//! The filterset that may be changed.
ghost use Rattle.std.specs.Prelude.{◌<◌, length};

use crate::subject::Subject;
use filterset_entries::FilePlace;

/// A filterset of a document: its position there, its place in the file, and its text.
#[derive(Debug, Drop)]
pub struct Target<'d> {
    pub subject: &'d Subject<'d>,
    pub at: usize,
    pub place: FilePlace<'d>,
    pub text: &'d str,
    ghost within: { at < length subject.now.content.entries.now },
}
