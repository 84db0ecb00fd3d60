//! Reads what `cargo nextest list --message-format json` writes.
ghost use Rattle.std.specs.Prelude.{◌≡◌, All, IfErr, IfOk, OnOk, codes};
ghost use Rattle.serde_json.specs.View.{view};
ghost use Rattle.filterset_graph.specs.Packages.{ids};
ghost use Rattle.filterset_json.specs.Paths.{joined, key_text};
ghost use Rattle.filterset_sources.specs.Refusals.{Refuses};
ghost use Rattle.filterset_sources.specs.Suites.{IsOfPackage, IsTestList, WrongPackages, WrongTestList, counts};

use crate::members::Members;
use crate::refusal::SourceRefusal;
use filterset_graph::{
    BuildPlatform, PackageGraph, PackageId, RustBinaryId, RustTestBinaryKind, TestCaseName,
};
use filterset_json::{EntryRefusal, Step, required};
use serde_json::Value;
use std::alloc::Global;

mod suites;

use suites::{ListedSuite, count_all_tests};

/// Which listed tests count, by whether they are `#[ignore]`d: nextest's option `--run-ignored`.
#[derive(Clone, Copy, Debug, PartialEq, Eq)]
pub enum RunIgnored {
    /// Those that are not ignored.
    Default,
    /// Those that are ignored.
    Only,
    All,
}

impl RunIgnored {
    /// Returns whether a test counts.
    pub fn counts(self, is_ignored: bool) -> bool
        ensures { result ≡ counts self is_ignored }
    {
        match self {
            RunIgnored::Default => !is_ignored,
            RunIgnored::Only => is_ignored,
            RunIgnored::All => true,
        }
    }
}

/// Whether nextest listed the tests of a binary.
#[derive(Clone, Copy, Debug, PartialEq, Eq)]
pub enum SuiteStatus {
    Listed,
    /// The list has no tests of the binary, whatever tests it has.
    Skipped,
}

/// A test binary.
#[derive(Debug, Drop)]
pub struct Suite {
    pub package_id: PackageId,
    pub binary_id: RustBinaryId,
    pub binary_name: String,
    pub kind: RustTestBinaryKind,
    pub platform: BuildPlatform,
    pub status: SuiteStatus,
    /// The names of its tests that count, in the order of the file, which nextest sorts.
    pub tests: Vec<TestCaseName>,
    /// The names of its other tests, in that order.
    pub uncounted: Vec<TestCaseName>,
}

/// The test binaries that nextest listed.
#[derive(Debug, Drop)]
pub struct TestList {
    /// In the order of the keys of `rust-suites`, which are the ids of the binaries.
    pub suites: Vec<Suite>,
}

/// Reads the test binaries of what `cargo nextest list --message-format json` writes, with the tests that count. Ignores keys
/// that it has no use for. Refuses a suite whose key is not the id of its binary.
pub fn read_test_list(
    alloc: Global,
    value: &Value,
    run_ignored: RunIgnored,
) -> Result<TestList, SourceRefusal>
    ensures read { IfOk result (λ list. IsTestList run_ignored (view value.now) list.suites.items) }
    ensures refused { IfErr result (Refuses (WrongTestList (view value.now))) }
{
    let Members::<ListedSuite>(all) = required(alloc, value, "rust-suites")?;
    let suites = count_all_tests(alloc, all, run_ignored)?;
    Ok(TestList { suites })
}

/// Refuses a suite whose package is not known.
fn unknown_package(alloc: Global, suite: &Suite) -> SourceRefusal
    ensures { Refuses (λ place. place ≡ (
      joined (codes "rust-suites") (joined (key_text suite.now.binary_id) (codes "package-id")),
      codes "the id of a package of cargo's metadata",
    )) result }
{
    let wrong = EntryRefusal::wrong(alloc, "the id of a package of cargo's metadata")
        .after(alloc, Step::Key("package-id"))
        .after(alloc, Step::Key(suite.binary_id.as_str()))
        .after(alloc, Step::Key("rust-suites"));
    SourceRefusal::from(wrong)
}

/// Refuses a list with a suite whose package is not in the graph. Names the first such suite by the id of its binary, which
/// is its key in the file.
pub fn check_packages(
    alloc: Global,
    list: &TestList,
    graph: &PackageGraph,
) -> Result<(), SourceRefusal>
    ensures ok { OnOk result (All (IsOfPackage (ids graph.now)) list.now.suites.items) }
    ensures refused { IfErr result (Refuses (WrongPackages (ids graph.now) list.now.suites.items)) }
{
    for suite in &list.suites {
        if graph.metadata(&suite.package_id).is_none() {
            return Err(unknown_package(alloc, suite));
        }
    }
    Ok(())
}
