//! The names and the test binaries that a matcher matches.
ghost use Rattle.std.specs.Prelude.{◌≡◌, ◌↔◌, IfOk, IsTrue, map};
ghost use Rattle.filterset_matchers.specs.{Matcher.MatchesName, Matchers.matcher_of};
ghost use Rattle.filterset_offers.specs.Matched.{IsBuiltFor, PicksSuite, binary_id};
ghost use Rattle.filterset_offers.specs.Sieves.{Selects, SelectsAs};
ghost use Rattle.filterset_offers.specs.Matched as spec;

use crate::ready::ReadyMatcher;
use filterset_graph::BuildPlatform;
use filterset_matchers::NameMatcher;
use filterset_sources::Suite;
use std::alloc::{AllocError, Global};

/// Returns the names that match.
pub(crate) fn matching<'w>(
    alloc: Global,
    matcher: &NameMatcher,
    names: &[&'w str],
) -> Result<Vec<&'w str>, AllocError>
    ensures { IfOk result (λ found. Selects (MatchesName (matcher_of matcher.now)) (map (λ n. n.now) names.now)
        (map (λ n. n.now) found.items)) }
{
    let mut ready = ReadyMatcher::new(alloc, matcher)?;
    let mut found = Vec::new(alloc);
    for name in names {
        if ready.matches(alloc, name)? {
            found.push(*name)?;
        }
    }
    Ok(found)
}

/// What predicates compare of test binaries.
#[derive(Clone, Copy, Debug, PartialEq, Eq)]
pub(crate) enum Compared {
    Kind,
    Name,
    Id,
}

/// Returns what is compared of a test binary.
pub(crate) fn compared_text(compared: Compared, suite: &Suite) -> &str
    ensures { result.now ≡ spec.compared_text compared suite.now }
{
    match compared {
        Compared::Kind => suite.kind.as_str(),
        Compared::Name => suite.binary_name.as_str(),
        Compared::Id => suite.binary_id.as_str(),
    }
}

/// Returns the ids of the test binaries that match.
pub(crate) fn matching_suites<'w>(
    alloc: Global,
    compared: Compared,
    matcher: &NameMatcher,
    suites: &'w [Suite],
) -> Result<Vec<&'w str>, AllocError>
    ensures { IfOk result (λ found. SelectsAs (PicksSuite compared (matcher_of matcher.now)) binary_id suites.entry.now
        (map (λ n. n.now) found.items)) }
{
    let mut ready = ReadyMatcher::new(alloc, matcher)?;
    let mut found = Vec::new(alloc);
    for suite in suites {
        if ready.matches(alloc, compared_text(compared, suite))? {
            found.push(suite.binary_id.as_str())?;
        }
    }
    Ok(found)
}

/// Returns whether a test binary is built for a platform.
pub(crate) fn is_built_for(platform: BuildPlatform, suite: &Suite) -> bool
    ensures { IsTrue result ↔ IsBuiltFor platform suite.now }
{
    suite.platform == platform
}

/// Returns the ids of the test binaries that are built for a platform.
pub(crate) fn suites_built_for<'w>(
    alloc: Global,
    platform: BuildPlatform,
    suites: &'w [Suite],
) -> Result<Vec<&'w str>, AllocError>
    ensures { IfOk result (λ found. SelectsAs (IsBuiltFor platform) binary_id suites.entry.now
        (map (λ n. n.now) found.items)) }
{
    let mut found = Vec::new(alloc);
    for suite in suites {
        if is_built_for(platform, suite) {
            found.push(suite.binary_id.as_str())?;
        }
    }
    Ok(found)
}
