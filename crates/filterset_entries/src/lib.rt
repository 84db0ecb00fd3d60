//! The texts of filtersets that commands and editors are about: each with where it comes from, its faults by known names, and
//! how remarks on it are written. A configuration, a list or arguments go in; entries, rows and written remarks come out.
//! For the commands, and for what a language server says of documents.
#![tactic(auto)]

mod entries;
mod faults;
mod form;
mod names;
mod place;
mod profile;
mod question;
mod setting;
mod text;
mod unread;

pub use entries::{
    ConfiguredTexts, configured_entries, configured_texts, default_entry, entry_of, given_entries,
    line_entries, question_entries,
};
pub use faults::{fault_remarks, faults_of, parse_entry};
pub use form::{RemarkWriter, push_faults};
pub use names::Names;
pub use place::{FilePlace, Spot, file_part, leaf_span};
pub use profile::{ChosenFilter, asked_profiles, choose, entry_at, override_entries};
pub use question::Question;
pub use setting::{OverrideEntry, Setting};
pub use text::{
    Answer, Ending, TextEntry, WarningEnd, answer_unknown, differing_ending, ending_of,
    unknown_ending,
};
pub use unread::unread_remarks;
