//! Reads typed entries from JSON values, and says where a value is wrong and what it must be. Runs programs that read
//! standard input to its end and write one text: their readers and writers, their faults and their exit statuses. For all
//! that reads JSON.
#![tactic(auto)]

mod entry;
mod fault;
mod ids;
mod object;
mod path;
mod program;
mod refusal;
mod sink;
mod source;

pub use entry::{Entry, text_of};
pub use fault::RunFault;
pub use object::{check_keys, given, optional, optional_text, required};
pub use path::{Step, step_text};
pub use program::{Program, execute, run, status};
pub use refusal::{EntryRefusal, WrongValue};
pub use sink::{Sink, ToWriter, write_all};
pub use source::{FromReader, Source, read_all};
