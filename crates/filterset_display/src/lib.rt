//! What people and editors are shown, and how. Remarks on texts are drawn under them, or written as JSON or as annotations of
//! GitHub. A language server reads messages, and keeps documents, their lines and positions; what it says is a `Language`,
//! as in the program `filterset`. For all that shows a fault, a warning or a wrong value, and for the server.
#![tactic(auto)]

mod annotation;
mod color;
mod column;
mod documents;
mod drawing;
mod edits;
mod ending;
mod escaping;
mod frames;
mod head;
mod inquiry;
mod json;
mod language;
mod line;
mod lines;
mod message;
mod opening;
mod phase;
mod positions;
mod refusals;
mod remark;
mod replies;
mod server;
mod serving;
mod source;
mod values;

pub use annotation::push_annotation;
pub use color::Color;
pub use documents::Document;
pub use drawing::{Canvas, draw_remark};
pub use edits::{Change, change_text};
pub use ending::Ending;
pub use inquiry::Inquiry;
pub use json::remark_json;
pub use language::Language;
pub use lines::Lines;
pub use opening::{Opening, read_opening, show_error};
pub use positions::{Encoding, Position, Range};
pub use remark::{Form, Remark, Severity};
pub use serving::serve;
pub use source::{FileSpan, Location, Source};
