//! Answers about filtersets. Texts, a setting and test binaries go in; a text and how the command ends come out: faults, the
//! tests that are picked, how two differ, why, and how overrides apply. For `filterset_asking` and `filterset_verdicts`.
#![tactic(auto)]

mod binaries;
mod checking;
mod compiling;
mod explaining;
mod grouping;
mod overriding;
mod picking;
mod picks;

pub use binaries::asked_binaries;
pub use checking::check;
pub use compiling::{CompiledTexts, QuestionFiltersets, SettingFiltersets, compile_texts};
pub use explaining::explain_filterset;
pub use grouping::group_overrides;
pub use overriding::explain_test_overrides;
pub use picking::ask_workspace;
