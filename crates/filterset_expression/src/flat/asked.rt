//! The evaluation of leaves.
ghost use Rattle.std.specs.Prelude.{◌≡◌, ◌↔◌, IfOk, IsTrue};
ghost use Rattle.filterset_matchers.specs.{Matcher.MatchesName, Matchers.matcher_of};
ghost use Rattle.filterset_expression.specs.Expression.{compiled_leaf, is_of_test, no_groups, HoldsOfBinary, HoldsOfTest};
ghost use Rattle.filterset_expression.specs.Folds.{Settles};

use crate::flat::kept::KeptMatcher;
use crate::{BinaryQuery, FiltersetLeaf, GroupLookup, TestQuery};
use filterset_matchers::NameMatcher;
use std::alloc::{AllocError, Global};

/// A leaf to evaluate, with its kept matcher. The caller replaces `default` leaves: here they match nothing.
#[derive(Clone, Copy)]
pub struct AskedLeaf<'s, 'a> {
    pub leaf: &'a FiltersetLeaf,
    pub kept: Option<&'s KeptMatcher<'a>>,
}

impl<'s, 'a> AskedLeaf<'s, 'a> {
    /// Returns whether the leaf's matcher matches the name.
    #[inline(always)]
    fn matches(
        &self,
        alloc: Global,
        matcher: &'a NameMatcher,
        name: &str,
    ) -> Result<bool, AllocError>
        ensures { IfOk result (λ matched. IsTrue matched ↔ MatchesName (matcher_of matcher.now) name.now) }
    {
        match self.kept {
            Some(kept) => kept.is_match(alloc, matcher, name),
            None => matcher.is_match(alloc, name),
        }
    }

    /// Evaluates the leaf for a binary: `None` if that depends on the test's name or group.
    pub fn matches_binary(
        &self,
        alloc: Global,
        query: &BinaryQuery<'_>,
    ) -> Result<Option<bool>, AllocError>
        ensures { IfOk result (λ value.
            Settles is_of_test (HoldsOfBinary query.now) (compiled_leaf self.now.leaf.now) value) }
    {
        Ok(match self.leaf {
            FiltersetLeaf::Packages(ids) => Some(ids.contains(query.package_id)),
            FiltersetLeaf::Kind(matcher, _) => {
                Some(self.matches(alloc, matcher, query.kind.as_str())?)
            }
            FiltersetLeaf::Platform(platform, _) => Some(query.platform == *platform),
            FiltersetLeaf::Binary(matcher, _) => {
                Some(self.matches(alloc, matcher, query.binary_name)?)
            }
            FiltersetLeaf::BinaryId(matcher, _) => {
                Some(self.matches(alloc, matcher, query.binary_id.as_str())?)
            }
            FiltersetLeaf::Test(..) | FiltersetLeaf::Group(..) => None,
            FiltersetLeaf::All => Some(true),
            FiltersetLeaf::Default | FiltersetLeaf::None => Some(false),
        })
    }

    /// Returns whether the leaf matches a test that is in no group.
    pub fn matches_test(&self, alloc: Global, query: &TestQuery<'_>) -> Result<bool, AllocError>
        ensures { IfOk result (λ answer.
            IsTrue answer ↔ HoldsOfTest query.now no_groups (compiled_leaf self.now.leaf.now)) }
    {
        match self.leaf {
            FiltersetLeaf::Test(matcher, _) => self.matches(
                alloc,
                matcher,
                query.test_name.as_str(),
            ),
            _ => Ok(
                self.matches_binary(alloc, &query.binary_query)?
                    .unwrap_or(false),
            ),
        }
    }

    /// Returns whether the leaf matches a test; the lookup answers `group` leaves. A whole name is compared without
    /// another call, since a union may have a thousand of them.
    pub fn matches_test_with_groups(
        &self,
        alloc: Global,
        query: &TestQuery<'_>,
        groups: &dyn GroupLookup,
    ) -> Result<bool, AllocError>
        ensures { IfOk result (λ answer.
            IsTrue answer ↔ HoldsOfTest query.now (matches_group groups.now) (compiled_leaf self.now.leaf.now)) }
    {
        match self.leaf {
            FiltersetLeaf::Test(NameMatcher::Equal { value, .. }, _) => {
                Ok(query.test_name.as_str() == value.as_str())
            }
            _ => self.matches_otherwise(alloc, query, groups),
        }
    }

    /// Does the same for any leaf.
    #[inline(never)]
    fn matches_otherwise(
        &self,
        alloc: Global,
        query: &TestQuery<'_>,
        groups: &dyn GroupLookup,
    ) -> Result<bool, AllocError>
        ensures { IfOk result (λ answer.
            IsTrue answer ↔ HoldsOfTest query.now (matches_group groups.now) (compiled_leaf self.now.leaf.now)) }
    {
        match self.leaf {
            FiltersetLeaf::Group(matcher, _) => groups.is_member_test(alloc, query, matcher),
            _ => self.matches_test(alloc, query),
        }
    }
}
