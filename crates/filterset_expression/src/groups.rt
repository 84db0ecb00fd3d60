//! Lookups of the groups of tests.
ghost use Rattle.std.specs.Prelude.{◌↔◌, IfOk, IsTrue};
ghost use Rattle.filterset_matchers.specs.Matchers.{matcher_of};

use crate::TestQuery;
use filterset_matchers::NameMatcher;
use std::alloc::{AllocError, Global};
use std::fmt::Debug;

/// A lookup of the groups of tests.
pub trait GroupLookup: Debug {
    ghost use Rattle.filterset_expression.specs.Expression.{Lookup};

    /// Whether a matcher matches the group of a test.
    ghost matches_group: { Self → Lookup };

    /// Returns whether the matcher matches the test's group. The only error is out of memory.
    fn is_member_test(
        &self,
        alloc: Global,
        test: &TestQuery<'_>,
        matcher: &NameMatcher,
    ) -> Result<bool, AllocError>
        ensures { IfOk result (λ answer.
            IsTrue answer ↔ matches_group self.now test.now (matcher_of matcher.now)) };
}
