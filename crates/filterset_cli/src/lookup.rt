//! Looks up the groups of a record's tests.
ghost use Rattle.std.specs.{Prelude.◌≡◌, Prelude.IfOk, Prelude.map, Prelude.option_map, List.find, Str.bytes_eq};
ghost use Rattle.filterset_cli.specs.Index.{group_with, HasFirsts, HaveGroups, IsIndexOf};
ghost use Rattle.filterset_cli.specs.Lookup.{matches_recorded_group, recorded_group};
ghost use Rattle.filterset_record.specs.Rows.{binary_row};

use crate::listed::{ListedBinary, list_binaries};
use filterset_record::{BinaryEntry, GroupedTest, PlacedLookup, TestEntry};
use nextest_filtering::{BinaryQuery, NameMatcher, RustBinaryId, TestCaseName, TestQuery};
use std::alloc::{AllocError, Global};
use std::collections::BTreeMap;

/// A binary with an index of its tests.
#[derive(Debug, Drop)]
struct IndexedBinary<'a> {
    binary: &'a BinaryEntry,
    /// The first test with each name; empty if there is no index.
    by_name: BTreeMap<&'a str, &'a TestEntry>,
    /// Each test with the group of the first test with its name; empty if there is no index.
    grouped: Vec<GroupedTest<'a>>,
    ghost firsts: { HasFirsts binary.now.tests.items by_name },
    ghost placed: { HaveGroups binary.now.tests.items grouped.items },
}

/// Indexes tests by their names: the first test with each name.
fn tests_by_name<'a>(
    alloc: Global,
    tests: &'a [TestEntry],
) -> Result<BTreeMap<&'a str, &'a TestEntry>, AllocError>
    ensures { IfOk result (λ index. IsIndexOf (λ t. t.name) (λ t. t.now) tests.now index) }
{
    let mut index = BTreeMap::new(alloc);
    for test in tests {
        let name = test.name.as_str();
        if !index.contains_key(name) {
            index.insert(name, test)?;
        }
    }
    Ok(index)
}

/// Indexes tests by their names if an index is wanted. Returns an empty index otherwise.
fn index_if_wanted<'a>(
    alloc: Global,
    tests: &'a [TestEntry],
    is_wanted: bool,
) -> Result<BTreeMap<&'a str, &'a TestEntry>, AllocError>
    ensures { IfOk result (λ index. HasFirsts tests.now index) }
{
    if is_wanted {
        tests_by_name(alloc, tests)
    } else {
        Ok(BTreeMap::new(alloc))
    }
}

/// Lists the tests with the groups of the first tests with their names. Stops at a test that the index does not have.
fn group_tests<'a>(
    alloc: Global,
    tests: &'a [TestEntry],
    by_name: &BTreeMap<&'a str, &'a TestEntry>,
) -> Result<Vec<GroupedTest<'a>>, AllocError>
    requires { HasFirsts tests.now by_name.now }
    ensures { IfOk result (λ grouped. HaveGroups tests.now grouped.items) }
{
    let mut grouped = Vec::new(alloc);
    for test in tests {
        match by_name.get(test.name.as_str()) {
            Some(first) => grouped.push(GroupedTest {
                name: &test.name,
                group: first.group.as_str(),
            })?,
            None => return Ok(grouped),
        }
    }
    Ok(grouped)
}

impl IndexedBinary<'_> {
    /// Looks up the group of the first test with a name.
    fn group_with(&self, name: &TestCaseName) -> Option<&str>
        ensures { option_map (λ group. group.now) result ≡ group_with name.now self.now.binary.now.tests.items }
    {
        if let Some(test) = self.by_name.get(name.as_str()) {
            return Some(test.group.as_str());
        }
        let test = self.binary.tests.iter().find(|test| test.name == *name)?;
        Some(test.group.as_str())
    }
}

/// The groups of a record's tests: a test is in the group of the first test with its name in the first binary with its
/// binary's id.
#[derive(Debug, Drop)]
pub struct RecordLookup<'a> {
    pub binaries: &'a [BinaryEntry],
    /// The binaries, with the names and lines of their tests.
    pub listed: Vec<ListedBinary<'a>>,
    /// The first binary with each id.
    by_id: BTreeMap<&'a str, IndexedBinary<'a>>,
    ghost all_listed: { map (λ l. l.binary.now) listed.items ≡ binaries.now },
    ghost indexed: { IsIndexOf (λ b. b.id) (λ b. b.binary.now) binaries.now by_id },
}

/// Indexes binaries by their ids: the first binary with each id, with an index of its tests if that is wanted.
fn binaries_by_id<'a>(
    alloc: Global,
    binaries: &'a [BinaryEntry],
    is_wanted: bool,
) -> Result<BTreeMap<&'a str, IndexedBinary<'a>>, AllocError>
    ensures { IfOk result (λ index. IsIndexOf (λ b. b.id) (λ b. b.binary.now) binaries.now index) }
{
    let mut index = BTreeMap::new(alloc);
    for binary in binaries {
        let id = binary.id.as_str();
        if !index.contains_key(id) {
            let by_name = index_if_wanted(alloc, &binary.tests, is_wanted)?;
            let grouped = group_tests(alloc, &binary.tests, &by_name)?;
            index.insert(
                id,
                IndexedBinary {
                    binary,
                    by_name,
                    grouped,
                },
            )?;
        }
    }
    Ok(index)
}

impl<'a> RecordLookup<'a> {
    /// Lists and indexes these binaries, and indexes their tests too if that is wanted: it takes longer, and groups are
    /// found faster. The only error is out of memory.
    pub fn new(
        alloc: Global,
        binaries: &'a [BinaryEntry],
        is_wanted: bool,
    ) -> Result<RecordLookup<'a>, AllocError>
        ensures { IfOk result (λ lookup. lookup.binaries.now ≡ binaries.now) }
    {
        let listed = list_binaries(alloc, binaries)?;
        let by_id = binaries_by_id(alloc, binaries, is_wanted)?;
        Ok(RecordLookup {
            binaries,
            listed,
            by_id,
        })
    }

    /// Looks up the first binary with an id.
    fn binary_with(&self, id: &RustBinaryId) -> Option<&IndexedBinary<'a>>
        ensures { option_map (λ b. b.now.binary.now) result
            ≡ find (λ b. bytes_eq b.id id.now) self.now.binaries.now }
    {
        self.by_id.get(id.as_str())
    }

    /// Looks up the group of a test. Returns `None` if the record does not have the test.
    fn group_of(&self, test: &TestQuery<'_>) -> Option<&str>
        ensures { option_map (λ group. group.now) result ≡ recorded_group self.now.binaries.now test.now }
    {
        let binary = self.binary_with(test.binary_query.binary_id)?;
        binary.group_with(test.test_name)
    }
}

impl PlacedLookup for RecordLookup<'_> {
    ghost matches_group = { λ lookup. matches_recorded_group (map binary_row lookup.binaries.now) };

    fn grouped_tests(&self, query: &BinaryQuery<'_>) -> &[GroupedTest<'_>] {
        let Some(binary) = self.binary_with(query.binary_id) else {
            return &[];
        };
        &binary.grouped
    }

    fn is_member_test(
        &self,
        alloc: Global,
        test: &TestQuery<'_>,
        matcher: &NameMatcher,
    ) -> Result<bool, AllocError> {
        match self.group_of(test) {
            Some(group) => matcher.is_match(alloc, group),
            None => Ok(false),
        }
    }
}
