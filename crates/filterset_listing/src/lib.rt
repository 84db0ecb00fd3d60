//! Filtersets and lists of tests. Compiled filtersets and test binaries go in; the tests that they pick, how two differ, why
//! one picks a test, predicates that match no test and operands that change nothing come out. For the commands and for
//! editors.
#![tactic(auto)]

mod binary;
mod columns;
mod comparing;
mod counting;
mod explaining;
mod groups;
mod hints;
pub mod laws;
mod listing;
mod lookup;
mod needless;
mod operands;
mod selection;
mod subjects;
mod unmatched;

pub use binary::AskedBinary;
pub use comparing::text::{any_unknown, comparison_text, differ};
pub use comparing::{BinaryDifference, compare};
pub use counting::push_some;
pub use explaining::candidate::Candidate;
pub use explaining::packages::NamedPackages;
pub use explaining::text::explain_text;
pub use explaining::{CompiledTree, ExplainedNode, Explanation, explain};
pub use groups::{GroupOverride, TestAnswer};
pub use hints::{Hints, find_hints};
pub use listing::json::list_json;
pub use listing::text::{list_text, uncounted_count, unknown_count};
pub use listing::{BinaryPicks, UnknownTest, list, lists_unknown};
pub use needless::NeedlessOperand;
pub use selection::selection_of;
pub use subjects::{Subject, subjects_of};
pub use unmatched::UnmatchedPredicate;
