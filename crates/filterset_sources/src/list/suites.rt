//! The suites of a list.
ghost use Rattle.std.specs.{Prelude.IfOk, Prelude.map, List.AllZip};
ghost use Rattle.filterset_sources.specs.Suites.{IsCounted, counts};

use crate::list::{RunIgnored, Suite, SuiteStatus};
use crate::members::{Member, Members};
use filterset_graph::TestCaseName;
use filterset_json::{Entry, EntryRefusal, Step, optional, required};
use serde_json::Value;
use std::alloc::{AllocError, Global};

impl Entry for SuiteStatus {
    ghost use Rattle.filterset_sources.specs.Suites.{IsStatus, WrongStatus};
    ghost use Rattle.filterset_sources.specs.declared.list.SuiteStatus as statuses;

    ghost Row = { statuses.SuiteStatus };

    ghost row_of = { λ status. status };

    ghost stands_for = { IsStatus };

    ghost is_wrong = { WrongStatus };

    const EXPECTED: &'static str = "`listed`, `skipped` or `skipped-default-filter`";

    fn read(alloc: Global, value: &Value) -> Result<SuiteStatus, EntryRefusal> {
        match value.as_str() {
            Some("listed") => Ok(SuiteStatus::Listed),
            Some("skipped" | "skipped-default-filter") => Ok(SuiteStatus::Skipped),
            _ => Err(EntryRefusal::wrong(alloc, Self::EXPECTED)),
        }
    }
}

/// A test of a suite, as the list has it.
#[derive(Drop)]
pub struct ListedTest {
    name: TestCaseName,
    is_ignored: bool,
}

impl Member for ListedTest {
    ghost use Rattle.std.specs.Prelude.{Bool};
    ghost use Rattle.filterset_json.specs.Shape.{Text};
    ghost use Rattle.filterset_sources.specs.Suites.{IsTest, WrongTest};

    ghost Row = { Text × Bool };

    ghost row_of = { λ test. (test.name, test.is_ignored) };

    ghost stands_for = { IsTest };

    ghost is_wrong = { λ key. WrongTest };

    fn read_under(alloc: Global, key: &str, value: &Value) -> Result<ListedTest, EntryRefusal> {
        Ok(ListedTest {
            name: TestCaseName::new(alloc, key)?,
            is_ignored: optional(alloc, value, "ignored", false)?,
        })
    }
}

/// A suite, whose tests are not in it yet, and all of its tests.
#[derive(Drop)]
pub struct ListedSuite {
    suite: Suite,
    tests: Vec<ListedTest>,
}

impl Entry for ListedSuite {
    ghost use Rattle.std.specs.Prelude.{map};
    ghost use Rattle.filterset_sources.specs.Suites.{IsListed, ListedRow, WrongSuite};

    ghost Row = { ListedRow };

    ghost row_of = { λ listed. (listed.suite, map (λ test. (test.name, test.is_ignored)) listed.tests.items) };

    ghost stands_for = { IsListed };

    ghost is_wrong = { WrongSuite };

    const EXPECTED: &'static str = "an object";

    fn read(alloc: Global, value: &Value) -> Result<ListedSuite, EntryRefusal> {
        let suite = Suite {
            package_id: required(alloc, value, "package-id")?,
            binary_id: required(alloc, value, "binary-id")?,
            binary_name: required(alloc, value, "binary-name")?,
            kind: required(alloc, value, "kind")?,
            platform: required(alloc, value, "build-platform")?,
            status: optional(alloc, value, "status", SuiteStatus::Listed)?,
            tests: Vec::new(alloc),
            uncounted: Vec::new(alloc),
        };
        let Members(tests) = required(alloc, value, "testcases")?;
        Ok(ListedSuite { suite, tests })
    }
}

/// A suite under a key, which is the id of its binary.
impl Member for ListedSuite {
    ghost use Rattle.std.specs.Prelude.{map};
    ghost use Rattle.filterset_sources.specs.Suites.{IsListedUnder, ListedRow, WrongSuiteUnder};

    ghost Row = { ListedRow };

    ghost row_of = { λ listed. (listed.suite, map (λ test. (test.name, test.is_ignored)) listed.tests.items) };

    ghost stands_for = { IsListedUnder };

    ghost is_wrong = { WrongSuiteUnder };

    fn read_under(alloc: Global, key: &str, value: &Value) -> Result<ListedSuite, EntryRefusal> {
        let listed = ListedSuite::read(alloc, value)?;
        if listed.suite.binary_id.as_str() == key {
            Ok(listed)
        } else {
            Err(EntryRefusal::wrong(alloc, "the key of its suite").after(
                alloc,
                Step::Key("binary-id"),
            ))
        }
    }
}

/// Returns the suite with its tests: those that count, and the others.
fn count_tests(
    alloc: Global,
    listed: ListedSuite,
    run_ignored: RunIgnored,
) -> Result<Suite, AllocError>
    ensures { IfOk result (IsCounted run_ignored
        (listed.suite, map (λ test. (test.name, test.is_ignored)) listed.tests.items)) }
{
    let ListedSuite { suite, tests } = listed;
    let (mut counted, mut uncounted) = (Vec::new(alloc), Vec::new(alloc));
    for test in tests {
        let ListedTest { name, is_ignored } = test;
        if run_ignored.counts(is_ignored) {
            counted.push(name)?;
        } else {
            uncounted.push(name)?;
        }
    }
    Ok(Suite {
        tests: counted,
        uncounted,
        ..suite
    })
}

/// Returns the suites with their tests.
pub fn count_all_tests(
    alloc: Global,
    all: Vec<ListedSuite>,
    run_ignored: RunIgnored,
) -> Result<Vec<Suite>, AllocError>
    ensures { IfOk result (λ suites. AllZip (λ listed. IsCounted run_ignored
        (listed.suite, map (λ test. (test.name, test.is_ignored)) listed.tests.items)) all.items suites.items) }
{
    let mut suites = Vec::with_capacity(alloc, all.len())?;
    for listed in all {
        suites.push(count_tests(alloc, listed, run_ignored)?)?;
    }
    Ok(suites)
}
