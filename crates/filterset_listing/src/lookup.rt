//! The lookup of groups for a test whose group is known.
ghost use Rattle.filterset_listing.specs.Asking.{in_group};

use filterset_expression::{GroupLookup, TestQuery};
use filterset_graph::GLOBAL_TEST_GROUP;
use filterset_matchers::NameMatcher;
use std::alloc::{AllocError, Global};

/// A lookup in which every test is in one group.
#[derive(Clone, Copy, Debug)]
pub struct OneGroup<'g> {
    pub group: &'g str,
}

impl OneGroup<'_> {
    /// The lookup in which every test is in the group `@global`.
    pub const GLOBAL: OneGroup<'static> = OneGroup {
        group: GLOBAL_TEST_GROUP,
    };
}

impl GroupLookup for OneGroup<'_> {
    ghost matches_group = { λ lookup. in_group lookup.group.now };

    fn is_member_test(
        &self,
        alloc: Global,
        _test: &TestQuery<'_>,
        matcher: &NameMatcher,
    ) -> Result<bool, AllocError> {
        matcher.is_match(alloc, self.group)
    }
}
