//! The leaves of compiled expressions.
ghost use Rattle.std.specs.Prelude.{◌≡◌, IfOk, option_map};
ghost use Rattle.filterset_expression.specs.Expression.{compiled_leaf, is_runtime_only, leaf_matcher};
ghost use Rattle.filterset_matchers.specs.Matchers.{matcher_of};

use filterset_faults::SourceSpan;
use filterset_graph::{BuildPlatform, PackageId};
use filterset_matchers::NameMatcher;
use std::alloc::{AllocError, Global};
use std::collections::BTreeSet;

/// A leaf of a compiled expression: a set of tests. A span is that of the matcher or the platform in the input.
///
/// It implements `Drop`, so no field can be moved out of it.
#[derive(Debug)]
pub enum FiltersetLeaf {
    /// The tests of these packages.
    Packages(BTreeSet<PackageId>),
    /// The tests of binaries whose kind matches.
    Kind(NameMatcher, SourceSpan),
    /// The tests of binaries that are built for the platform.
    Platform(BuildPlatform, SourceSpan),
    /// The tests of binaries whose name matches.
    Binary(NameMatcher, SourceSpan),
    /// The tests of binaries whose id matches.
    BinaryId(NameMatcher, SourceSpan),
    /// The tests whose name matches.
    Test(NameMatcher, SourceSpan),
    /// The tests whose group matches.
    Group(NameMatcher, SourceSpan),
    /// The tests of the default filter.
    Default,
    /// All tests.
    All,
    /// No tests.
    None,
}

// Implemented by hand: a derived `Drop` is proved again, with a branch for each variant, in each function that drops a
// leaf.
impl Drop for FiltersetLeaf {
    fn drop(self) {
        match self {
            FiltersetLeaf::Packages(_ids) => {}
            FiltersetLeaf::Kind(_matcher, _)
            | FiltersetLeaf::Binary(_matcher, _)
            | FiltersetLeaf::BinaryId(_matcher, _)
            | FiltersetLeaf::Test(_matcher, _)
            | FiltersetLeaf::Group(_matcher, _) => {}
            FiltersetLeaf::Platform(_, _)
            | FiltersetLeaf::Default
            | FiltersetLeaf::All
            | FiltersetLeaf::None => {}
        }
    }
}

impl FiltersetLeaf {
    /// Returns whether the leaf may have different values for tests of one binary: true for `Test`, `Group` and
    /// `Default`.
    pub fn is_runtime_only(&self) -> bool
        ensures { result ≡ is_runtime_only (compiled_leaf self.now) }
    {
        matches!(
            self,
            FiltersetLeaf::Test(..) | FiltersetLeaf::Group(..) | FiltersetLeaf::Default
        )
    }

    /// Returns the leaf's matcher; `Packages`, `Platform`, `Default`, `All` and `None` have none.
    pub fn matcher(&self) -> Option<&NameMatcher>
        ensures { option_map (λ matcher. matcher_of matcher.now) result ≡ leaf_matcher (compiled_leaf self.now) }
    {
        match self {
            FiltersetLeaf::Kind(matcher, _)
            | FiltersetLeaf::Binary(matcher, _)
            | FiltersetLeaf::BinaryId(matcher, _)
            | FiltersetLeaf::Test(matcher, _)
            | FiltersetLeaf::Group(matcher, _) => Some(matcher),
            FiltersetLeaf::Packages(..)
            | FiltersetLeaf::Platform(..)
            | FiltersetLeaf::Default
            | FiltersetLeaf::All
            | FiltersetLeaf::None => None,
        }
    }

    /// Copies the leaf. The only error is out of memory.
    pub fn try_clone(&self, alloc: Global) -> Result<FiltersetLeaf, AllocError>
        ensures { IfOk result (λ copy. compiled_leaf copy ≡ compiled_leaf self.now) }
    {
        Ok(match self {
            FiltersetLeaf::Packages(ids) => FiltersetLeaf::Packages(copy_ids(alloc, ids)?),
            FiltersetLeaf::Kind(matcher, span) => {
                FiltersetLeaf::Kind(matcher.try_clone(alloc)?, *span)
            }
            FiltersetLeaf::Platform(platform, span) => FiltersetLeaf::Platform(*platform, *span),
            FiltersetLeaf::Binary(matcher, span) => {
                FiltersetLeaf::Binary(matcher.try_clone(alloc)?, *span)
            }
            FiltersetLeaf::BinaryId(matcher, span) => {
                FiltersetLeaf::BinaryId(matcher.try_clone(alloc)?, *span)
            }
            FiltersetLeaf::Test(matcher, span) => {
                FiltersetLeaf::Test(matcher.try_clone(alloc)?, *span)
            }
            FiltersetLeaf::Group(matcher, span) => {
                FiltersetLeaf::Group(matcher.try_clone(alloc)?, *span)
            }
            FiltersetLeaf::Default => FiltersetLeaf::Default,
            FiltersetLeaf::All => FiltersetLeaf::All,
            FiltersetLeaf::None => FiltersetLeaf::None,
        })
    }
}

/// Copies a set of ids.
fn copy_ids(alloc: Global, ids: &BTreeSet<PackageId>) -> Result<BTreeSet<PackageId>, AllocError>
    ensures { IfOk result (λ copy. copy.keys ≡ ids.now.keys) }
{
    let mut copy = BTreeSet::new(alloc);
    for id in ids {
        copy.insert(id.try_clone(alloc)?)?;
    }
    Ok(copy)
}
