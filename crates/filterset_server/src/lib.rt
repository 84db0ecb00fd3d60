//! What a language server says of a document with filtersets, which is nextest's configuration or a list of filtersets,
//! without a workspace: symbols, tokens, folds, edits that format, and actions, each read again before it is offered.
//! An open document goes in; the values of its answers come out. For the program `filterset`.
#![tactic(auto)]

mod actions;
mod becoming;
mod changes;
mod edits;
mod folding;
mod formatting;
mod highlighting;
mod mending;
mod quoting;
mod repairs;
mod subject;
mod symbols;
mod target;
mod values;

pub use actions::act_on;
pub use folding::folds_value;
pub use formatting::format_content;
pub use highlighting::highlight_entries;
pub use symbols::symbols_value;
