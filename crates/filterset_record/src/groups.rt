//! Lookups of the groups of a binary's tests.
ghost use Rattle.std.specs.Prelude.{◌≡◌, ◌↔◌, All, IfOk, IsTrue};
ghost use Rattle.filterset_matchers.specs.{Matcher.MatchesName, Matchers.matcher_of};
ghost use Rattle.filterset_record.specs.Grouped.{IsGrouped};

use filterset_expression::{BinaryQuery, TestQuery};
use filterset_graph::TestCaseName;
use filterset_matchers::NameMatcher;
use std::alloc::{AllocError, Global};
use std::fmt::Debug;

/// The name of a test, and its group.
#[derive(Clone, Copy, Debug)]
pub struct GroupedTest<'a> {
    pub name: &'a TestCaseName,
    pub group: &'a str,
}

/// A lookup of the groups of tests, which may list those of a binary at once.
pub trait PlacedLookup: Debug {
    ghost use Rattle.filterset_expression.specs.Expression.{Lookup};

    /// Whether a matcher matches the group of a test.
    ghost matches_group: { Self → Lookup };

    /// Returns tests of the binary with their groups. It may leave out any; it is faster to use if a test stands at its
    /// position among those that are asked about.
    fn grouped_tests(&self, query: &BinaryQuery<'_>) -> &[GroupedTest<'_>]
        ensures { All (IsGrouped (matches_group self.now) query.now) result.now };

    /// Returns whether the matcher matches the test's group. The only error is out of memory.
    fn is_member_test(
        &self,
        alloc: Global,
        test: &TestQuery<'_>,
        matcher: &NameMatcher,
    ) -> Result<bool, AllocError>
        ensures { IfOk result (λ answer.
            IsTrue answer ↔ matches_group self.now test.now (matcher_of matcher.now)) };
}

/// A matcher of groups, which keeps its last answer: most tests in a row are in one group.
#[derive(Drop)]
pub(crate) struct GroupMatcher<'a> {
    pub(crate) matcher: &'a NameMatcher,
    group: &'a str,
    answer: bool,
}

impl<'a> GroupMatcher<'a> {
    ghost use Rattle.filterset_record.specs.Grouped.{Knows};

    /// Asks the matcher about a group. The only error is out of memory.
    pub(crate) fn new(
        alloc: Global,
        matcher: &'a NameMatcher,
        group: &'a str,
    ) -> Result<GroupMatcher<'a>, AllocError>
        ensures asked { IfOk result (λ made. (made.matcher.now ≡ matcher.now) × (made.group.now ≡ group.now)) }
        ensures known { IfOk result Knows }
    {
        Ok(GroupMatcher {
            matcher,
            group,
            answer: matcher.is_match(alloc, group)?,
        })
    }

    /// Returns whether the matcher matches the group. The only error is out of memory.
    pub(crate) fn is_match(&mut self, alloc: Global, group: &'a str) -> Result<bool, AllocError>
        requires { Knows self.old }
        ensures matches { IfOk result (λ answer.
            IsTrue answer ↔ MatchesName (matcher_of self.old.matcher.now) group.now) }
        ensures same { self.new.matcher.now ≡ self.old.matcher.now }
        ensures known { Knows self.new }
    {
        if group == self.group {
            return Ok(self.answer);
        }
        *self = GroupMatcher::new(alloc, self.matcher, group)?;
        Ok(self.answer)
    }
}
