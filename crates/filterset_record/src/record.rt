//! Reads a record and its parts.

use filterset_graph::PackageMetadata;
use filterset_json::{Entry, EntryRefusal, check_keys, optional, optional_text, required};
use packages::packages_of;
use serde_json::Value;
use std::alloc::Global;

mod binaries;
mod commands;
mod filtersets;
mod packages;

pub use binaries::{BinaryEntry, TestEntry};
pub use commands::Command;
pub use filtersets::FiltersetEntry;

/// A record: filtersets, and what they are parsed against and asked about.
#[derive(Debug, Drop)]
pub struct Record {
    pub filtersets: Vec<FiltersetEntry>,
    pub packages: Vec<PackageMetadata>,
    /// The names of the custom groups.
    pub groups: Vec<String>,
    /// The text of the default filter.
    pub default_filter: String,
    pub binaries: Vec<BinaryEntry>,
    pub command: Command,
}

impl Entry for Record {
    ghost use Rattle.filterset_record.specs.{Record.IsRecord, Record.RecordRow, Rows.record_row};

    ghost Row = { RecordRow };

    ghost row_of = { record_row };

    ghost stands_for = { IsRecord };

    const EXPECTED: &'static str = "an object";

    fn read(alloc: Global, value: &Value) -> Result<Record, EntryRefusal> {
        let names = [
            "filtersets",
            "packages",
            "groups",
            "default",
            "binaries",
            "command",
        ];
        check_keys(alloc, value, &names)?;
        let packages = optional(alloc, value, "packages", Vec::new(alloc))?;
        Ok(Record {
            filtersets: required(alloc, value, "filtersets")?,
            packages: packages_of(alloc, packages)?,
            groups: optional(alloc, value, "groups", Vec::new(alloc))?,
            default_filter: optional_text(alloc, value, "default", "all()")?,
            binaries: optional(alloc, value, "binaries", Vec::new(alloc))?,
            command: optional(alloc, value, "command", Command::Report)?,
        })
    }
}
