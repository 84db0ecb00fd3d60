//! Answers `list`, `compare`, `explain`, `overrides` and `check` about a workspace, under the profile of a configuration, and
//! with the warnings that a list of tests gives; and `format` and `simplify`. A request and files go in; a text and how the
//! command ends come out. For the program `filterset`.
#![tactic(auto)]

mod asking;
mod checking;
mod configured;
mod explaining;
mod formatting;
mod hints;
mod profiled;
mod setting;
mod span;
mod texts;
mod values;
mod warning;

pub use asking::ask;
pub use checking::check_texts;
pub use formatting::{format_texts, simplify_texts};
