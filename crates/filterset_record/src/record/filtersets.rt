//! Reads the filtersets of a record.

use filterset_faults::FiltersetKind;
use filterset_json::{Entry, EntryRefusal, check_keys, required, text_of};
use serde_json::Value;
use std::alloc::Global;

/// The kind of a filterset.
#[derive(Drop)]
struct KindEntry(FiltersetKind);

impl Entry for KindEntry {
    ghost use Rattle.filterset_faults.specs.declared.kind.FiltersetKind.{FiltersetKind};
    ghost use Rattle.filterset_record.specs.Record.{IsFiltersetKind};

    ghost Row = { FiltersetKind };

    ghost row_of = { λ kind. kind.0 };

    ghost stands_for = { IsFiltersetKind };

    const EXPECTED: &'static str =
        "`test`, `archive-filter`, `override-filter` or `default-filter`";

    fn read(alloc: Global, value: &Value) -> Result<KindEntry, EntryRefusal> {
        let kind = match text_of(alloc, value)? {
            "test" => FiltersetKind::Test,
            "archive-filter" => FiltersetKind::TestArchive,
            "override-filter" => FiltersetKind::OverrideFilter,
            "default-filter" => FiltersetKind::DefaultFilter,
            _ => return Err(EntryRefusal::wrong(alloc, Self::EXPECTED)),
        };
        Ok(KindEntry(kind))
    }
}

/// The text and the kind of a filterset.
#[derive(Debug, Drop)]
pub struct FiltersetEntry {
    pub text: String,
    pub kind: FiltersetKind,
}

/// A text alone is a filterset of kind `test`.
impl Entry for FiltersetEntry {
    ghost use Rattle.filterset_record.specs.{Record.FiltersetRow, Record.IsFilterset, Rows.filterset_row};

    ghost Row = { FiltersetRow };

    ghost row_of = { filterset_row };

    ghost stands_for = { IsFilterset };

    const EXPECTED: &'static str = "a text or an object";

    fn read(alloc: Global, value: &Value) -> Result<FiltersetEntry, EntryRefusal> {
        if let Some(text) = value.as_str() {
            return Ok(FiltersetEntry {
                text: String::from_str(alloc, text)?,
                kind: FiltersetKind::Test,
            });
        }
        check_keys(alloc, value, &["text", "kind"])?;
        Ok(FiltersetEntry {
            text: required(alloc, value, "text")?,
            kind: required::<KindEntry>(alloc, value, "kind")?.0,
        })
    }
}
