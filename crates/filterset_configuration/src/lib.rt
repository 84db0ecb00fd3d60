//! Reads nextest's configuration. Its text goes in; where its filtersets and other strings are, unknown keys, wrong values,
//! and what each profile and override sets come out. For the commands and for what a language server says of documents.
//!
//! A profile falls back on the profile that it inherits from, or on `default`. What is set is decided by the first
//! override, of the profile and then of those that it falls back on, which applies and sets it. An override applies to a
//! test if its platforms apply and its filter picks the test; a part that is missing asks for nothing.
#![tactic(auto)]

mod checking;
mod circles;
mod content;
mod defaults;
mod edits;
mod fault;
mod inheritance;
mod keys;
mod names;
mod numbering;
mod overrides;
mod paths;
mod place;
mod places;
mod placing;
mod platforms;
mod profiles;
mod ranking;
mod refusal;
mod scanning;
mod stretch;
mod string;
mod unknown;
mod values;
mod walking;
mod wrong;

pub use checking::find_wrong_values;
pub use defaults::{DefaultFilter, default_filter};
pub use fault::LineageFault;
pub use inheritance::lineage;
pub use numbering::Numbering;
pub use overrides::Override;
pub use place::Place;
pub use places::Places;
pub use platforms::{Cfg, CfgRefusal, PlatformFacts, read_cfg};
pub use profiles::{Profile, read_profiles};
pub use ranking::{RankedOverride, rank_overrides};
pub use refusal::ProfileRefusal;
pub use stretch::Stretch;
pub use unknown::{UnknownKey, find_unknown_keys};
pub use wrong::WrongValue;
