//! Documents with filtersets: nextest's configuration, or lists. A text goes in; its filtersets with their places, what is at
//! an offset, and diagnostics come out. For what a language server shows, offers and does.
#![tactic(auto)]

mod content;
mod diagnostics;
mod message;
mod offsets;
mod places;
mod ranges;
mod refusals;
mod rows;
mod trees;
mod values;

pub use content::{Content, Filtersets, OpenDocument, Rest};
pub use diagnostics::{diagnostic_at, remark_value};
pub use filterset_entries::leaf_span;
pub use offsets::{entry_at, is_in};
pub use places::{place_span, span_in, stretch_at, stretch_span};
pub use ranges::{Shown, range_of, range_value, span_value};
pub use refusals::diagnose_refusal;
pub use rows::{diagnose_entries, fault_span};
pub use trees::{is_same, parse_text};
