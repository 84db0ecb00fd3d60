//! Inspects and rewrites filtersets without asking what they match. A text or a tree goes in; its tokens (`tokens`), how
//! deeply it nests (`nesting`), and texts that mean the same come out: with operators between operands, with parentheses
//! that show how it is read, or without the operator `^`. For commands, editors and the library for C.
#![tactic(auto)]

mod calls;
mod fronts;
mod links;
pub mod nesting;
mod operands;
mod reading;
mod showing;
mod spelling;
pub mod tokens;

pub use calls::read_call;
pub use fronts::Front;
pub use reading::{TextRefusal, read_text};
pub use showing::show_reading;
pub use spelling::{caret_count, spell_out};
