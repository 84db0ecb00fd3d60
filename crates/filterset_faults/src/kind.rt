//! Kinds of filtersets, and the reasons for bans.
use std::fmt;

/// The purpose of a filterset. Displays as `test`, `archive-filter`, `override-filter` or `default-filter`.
#[derive(Clone, Copy, Debug, PartialEq, Eq)]
pub enum FiltersetKind {
    /// Selects the tests to run.
    Test,
    /// Selects the binaries to archive.
    TestArchive,
    /// Selects the tests that an override of the configuration applies to.
    OverrideFilter,
    /// The filterset that `default()` means.
    DefaultFilter,
}

impl fmt::Display for FiltersetKind {
    ghost use Rattle.std.specs.Prelude.{Some};
    ghost use Rattle.filterset_faults.specs.Texts.{kind_text};

    ghost output = { λ x. Some (kind_text x) };

    fn fmt<W: fmt::Write>(&self, f: &mut fmt::Formatter<W>) -> fmt::Result {
        f.write_str(match self {
            FiltersetKind::Test => "test",
            FiltersetKind::TestArchive => "archive-filter",
            FiltersetKind::OverrideFilter => "override-filter",
            FiltersetKind::DefaultFilter => "default-filter",
        })
    }
}

/// The reason why a predicate is banned from filtersets of a kind. Displays as a label.
#[derive(Clone, Copy, Debug, PartialEq, Eq)]
pub enum BannedPredicateReason {
    /// `default()` in the default filter.
    DefaultInfiniteRecursion,
    /// `group()` in a filter of an override.
    GroupCircularDependency,
    /// `group()` in the default filter.
    GroupNotAvailableInDefaultFilter,
    /// `group()` in a filter of an archive.
    GroupNotAvailableInArchive,
    /// `test()` in a filter of an archive.
    TestNotAvailableInArchive,
}

impl fmt::Display for BannedPredicateReason {
    ghost use Rattle.std.specs.Prelude.{Some};
    ghost use Rattle.filterset_faults.specs.Texts.{reason_text};

    ghost output = { λ x. Some (reason_text x) };

    fn fmt<W: fmt::Write>(&self, f: &mut fmt::Formatter<W>) -> fmt::Result {
        f.write_str(match self {
            BannedPredicateReason::DefaultInfiniteRecursion =>
                "default() causes infinite recursion",
            BannedPredicateReason::GroupCircularDependency =>
                "group() creates a circular dependency with overrides",
            BannedPredicateReason::GroupNotAvailableInDefaultFilter =>
                "group() is not available in default-filter expressions",
            BannedPredicateReason::GroupNotAvailableInArchive =>
                "group() predicates are not supported while archiving",
            BannedPredicateReason::TestNotAvailableInArchive =>
                "test() predicates are not supported while archiving",
        })
    }
}
