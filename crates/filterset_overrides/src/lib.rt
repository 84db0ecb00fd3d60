//! Which overrides of a configuration apply to tests, and which of them gives a test each of its settings. A profile and
//! listed binaries go in; tables and their texts come out. For `filterset_entries`, `filterset_answers` and
//! `filterset_asking`.
#![tactic(auto)]

mod applying;
mod asked;
mod counting;
mod explaining;
mod keys;

pub use applying::{Application, ExplainedOverride};
pub use asked::{AskedOverride, AskedProfile, ListedBinary};
pub use counting::text::override_table_text;
pub use counting::{
    OverrideRow, OverrideTable, SettingColumn, TestCount, any_unknown_test, count_overrides,
};
pub use explaining::text::test_overrides_text;
pub use explaining::{ExplainedSetting, Giver, TestOverrides, any_unknown, explain_overrides};
