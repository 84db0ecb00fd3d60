//! Filterset texts, and what commands answer about them.
ghost use Rattle.std.specs.Prelude.{◌≡◌, ◌+◌, IfOk, string_bytes};
ghost use Rattle.filterset_entries.specs.Endings.{AnswersUnknown, differing_ending, ending_of, unknown_ending};

use crate::place::FilePlace;
use nextest_filtering::FiltersetKind;
use std::alloc::{AllocError, Global};

/// A filterset's text, the kind of filterset that it has to be, and where it comes from, for people.
#[derive(Debug, Drop)]
pub struct TextEntry<'t> {
    pub origin: String,
    pub kind: FiltersetKind,
    pub text: &'t str,
    /// Where the text is in a file, if that is known.
    pub place: Option<FilePlace<'t>>,
}

/// How a command ends.
#[derive(Clone, Copy, Debug, PartialEq, Eq)]
pub enum Ending {
    /// No filterset has faults.
    Fine,
    /// Some filtersets have faults.
    Faulty,
    /// The two filtersets that were compared differ, or may differ on a binary that nextest skipped.
    Differing,
    /// Some of the answer depends on a platform that is not known.
    Unknown,
}

/// How warnings end a command.
#[derive(Clone, Copy, Debug)]
pub struct WarningEnd {
    /// Whether the command fails if there are warnings.
    pub denies: bool,
    /// How many warnings come before.
    pub before: usize,
}

impl WarningEnd {
    /// Returns how many warnings there are with so many more.
    pub fn total(self, count: usize) -> Result<usize, AllocError>
        ensures { IfOk result (λ total. total ≡ self.before + count) }
    {
        self.before.checked_add(count).ok_or(AllocError)
    }
}

/// What a command writes, and how it ends.
#[derive(Debug)]
pub struct Answer {
    pub text: String,
    pub ending: Ending,
}

// By hand, so that a function that drops an answer proves one call.
impl Drop for Answer {
    fn drop(self) {
        let Answer {
            text: _text,
            ending: _,
        } = self;
    }
}

/// Returns how a command ends where this many filtersets have faults.
pub fn ending_of(faulty: usize) -> Ending
    ensures { result ≡ ending_of faulty }
{
    if faulty == 0 {
        Ending::Fine
    } else {
        Ending::Faulty
    }
}

/// Returns how an answer ends, by whether some of it is unknown.
pub fn unknown_ending(is_unknown: bool) -> Ending
    ensures { result ≡ unknown_ending is_unknown }
{
    if is_unknown {
        Ending::Unknown
    } else {
        Ending::Fine
    }
}

/// Returns how a comparison ends, by whether the filtersets differ, and whether some of it is unknown.
pub fn differing_ending(differ: bool, is_unknown: bool) -> Ending
    ensures { result ≡ differing_ending differ is_unknown }
{
    if differ {
        Ending::Differing
    } else {
        unknown_ending(is_unknown)
    }
}

/// Answers that the default filter is unknown, because it depends on the platform of the override at this path.
///
/// Returns an error only if out of memory.
pub fn answer_unknown(alloc: Global, path: &str) -> Result<Answer, AllocError>
    ensures { IfOk result (λ answer. AnswersUnknown path.now answer.ending (string_bytes answer.text)) }
{
    Ok(Answer {
        text: format!(in alloc; "unknown: platform of {path}\n")?,
        ending: Ending::Unknown,
    })
}
