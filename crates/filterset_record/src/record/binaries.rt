//! Reads the test binaries of a record, and their tests.

use filterset_graph::{
    BuildPlatform, GLOBAL_TEST_GROUP, PackageId, RustBinaryId, RustTestBinaryKind, TestCaseName,
};
use filterset_json::{Entry, EntryRefusal, check_keys, optional, optional_text, required};
use serde_json::Value;
use std::alloc::Global;

/// A test of a binary.
#[derive(Debug, Drop)]
pub struct TestEntry {
    pub name: TestCaseName,
    pub group: String,
}

impl Entry for TestEntry {
    ghost use Rattle.filterset_record.specs.{Record.IsTest, Record.TestRow, Rows.test_row};

    ghost Row = { TestRow };

    ghost row_of = { test_row };

    ghost stands_for = { IsTest };

    const EXPECTED: &'static str = "an object";

    fn read(alloc: Global, value: &Value) -> Result<TestEntry, EntryRefusal> {
        check_keys(alloc, value, &["name", "group"])?;
        Ok(TestEntry {
            name: required(alloc, value, "name")?,
            group: optional_text(alloc, value, "group", GLOBAL_TEST_GROUP)?,
        })
    }
}

/// A test binary.
#[derive(Debug, Drop)]
pub struct BinaryEntry {
    pub package_id: PackageId,
    pub id: RustBinaryId,
    pub name: String,
    pub kind: RustTestBinaryKind,
    pub platform: BuildPlatform,
    pub tests: Vec<TestEntry>,
}

impl Entry for BinaryEntry {
    ghost use Rattle.filterset_record.specs.{Record.IsBinary, Record.BinaryRow, Rows.binary_row};

    ghost Row = { BinaryRow };

    ghost row_of = { binary_row };

    ghost stands_for = { IsBinary };

    const EXPECTED: &'static str = "an object";

    fn read(alloc: Global, value: &Value) -> Result<BinaryEntry, EntryRefusal> {
        let names = ["package", "id", "name", "kind", "platform", "tests"];
        check_keys(alloc, value, &names)?;
        Ok(BinaryEntry {
            package_id: required(alloc, value, "package")?,
            id: required(alloc, value, "id")?,
            name: required(alloc, value, "name")?,
            kind: required(alloc, value, "kind")?,
            platform: required(alloc, value, "platform")?,
            tests: optional(alloc, value, "tests", Vec::new(alloc))?,
        })
    }
}
