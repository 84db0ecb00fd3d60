//! Reads what `cargo metadata` and `cargo nextest list` write, and nextest's configuration. JSON and TOML go in; packages,
//! suites of tests and filtersets come out, or where a value is wrong. For commands, editors and the library for C.
#![tactic(auto)]

mod configuration;
mod json;
mod list;
mod members;
mod metadata;
mod platforms;
mod refusal;
mod sections;

pub use configuration::{
    Configuration, ConfiguredFilterset, FilterKey, ParsedText, file_of, read_configuration,
};
pub use filterset_json::WrongValue;
pub use json::read_json;
pub use list::{RunIgnored, Suite, SuiteStatus, TestList, check_packages, read_test_list};
pub use metadata::read_metadata;
pub use platforms::{BuildPlatforms, read_platforms};
pub use refusal::SourceRefusal;
pub use sections::{Section, SectionKind, sections_of, table_under};
