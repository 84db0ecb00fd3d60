//! The tests of nextest's list, and the groups that they count in.
ghost use Rattle.std.specs.Prelude.{◌≡◌, ◌↔◌, ◌++◌, Contains, IfOk, OnOk, map, string_bytes};
ghost use Rattle.std.specs.{HashSet.keys, List.flat_map};
ghost use Rattle.filterset_display.specs.Columns.{Text};
ghost use Rattle.nextest_filtering.specs.Groups.{IsGroupName};
ghost use Rattle.filterset_verdicts.specs.ListedTests.{listed_test, suite_tests, test_in};

use filterset_graph::GLOBAL_TEST_GROUP;
use filterset_sources::{Suite, SuiteStatus};
use nextest_filtering::{BinaryQuery, KnownGroups, TestQuery};
use std::alloc::{AllocError, Global};
use std::collections::HashSet;

/// Appends the tests of a suite.
fn push_tests<'s>(tests: &mut Vec<TestQuery<'s>>, suite: &'s Suite) -> Result<(), AllocError>
    ensures { OnOk result (map listed_test tests.new.items
        ≡ map listed_test tests.old.items ++ map (test_in suite.now) suite.now.tests.items) }
{
    let binary_query = BinaryQuery {
        package_id: &suite.package_id,
        binary_id: &suite.binary_id,
        binary_name: suite.binary_name.as_str(),
        kind: &suite.kind,
        platform: suite.platform,
    };
    for test_name in &suite.tests {
        tests.push(TestQuery {
            binary_query,
            test_name,
        })?;
    }
    Ok(())
}

/// Returns the tests of suites, in their order.
pub(crate) fn listed_tests(
    alloc: Global,
    suites: &[Suite],
) -> Result<Vec<TestQuery<'_>>, AllocError>
    ensures { IfOk result (λ tests. map listed_test tests.items ≡ flat_map suite_tests suites.now) }
{
    let mut tests = Vec::new(alloc);
    for suite in suites {
        if suite.status == SuiteStatus::Listed {
            push_tests(&mut tests, suite)?;
        }
    }
    Ok(tests)
}

/// Returns the names of custom groups.
fn custom_names(alloc: Global, groups: &HashSet<String>) -> Result<Vec<&str>, AllocError>
    ensures { IfOk result (λ names. map (λ g. g.now) names.items ≡ map (λ s. string_bytes s) (keys groups.now)) }
{
    let mut names = Vec::with_capacity(alloc, groups.len())?;
    for name in groups {
        names.push(name.as_str())?;
    }
    Ok(names)
}

/// Returns the names of known groups: `@global`, and then the custom ones in the order of their bytes.
pub(crate) fn group_names(alloc: Global, groups: &KnownGroups) -> Result<Vec<&str>, AllocError>
    ensures { IfOk result (λ names. (name : Text)
        → Contains (map (λ g. g.now) names.items) name ↔ IsGroupName groups.now name) }
{
    match groups {
        KnownGroups::Known { custom_groups } => {
            let mut names = custom_names(alloc, custom_groups)?;
            names.sort()?;
            names.insert(0, GLOBAL_TEST_GROUP)?;
            Ok(names)
        }
        KnownGroups::Unavailable => Ok(Vec::new(alloc)),
    }
}
