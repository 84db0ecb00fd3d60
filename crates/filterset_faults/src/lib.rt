//! Faults of filterset texts. What is wrong and where goes in; a code, a span, a label and help come out. For the parser and
//! the compiler, which make them, and for all that shows faults to people and in editors.
#![tactic(auto)]

mod error;
mod kind;
mod parse_errors;
mod span;
mod text;

pub use error::ParseSingleError;
pub use filterset_glob::GlobConstructError;
pub use kind::{BannedPredicateReason, FiltersetKind};
pub use parse_errors::FiltersetParseErrors;
pub use span::SourceSpan;
pub use text::{Help, Label};
