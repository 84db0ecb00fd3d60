//! Whether a matcher matches any name, package or test binary.
ghost use Rattle.std.specs.Prelude.{◌↔◌, Any, IfOk, IsTrue, map};
ghost use Rattle.filterset_matchers.specs.{Matcher.MatchesName, Matchers.matcher_of};
ghost use Rattle.filterset_offers.specs.Matched.{IsBuiltFor, PicksPackage, PicksSuite};

use crate::matching::{Compared, compared_text, is_built_for};
use crate::packages::Reach;
use crate::ready::ReadyMatcher;
use filterset_graph::{BuildPlatform, PackageGraph};
use filterset_matchers::NameMatcher;
use filterset_sources::Suite;
use std::alloc::{AllocError, Global};

/// Returns whether a name matches.
pub(crate) fn any_name(
    alloc: Global,
    matcher: &NameMatcher,
    names: &[&str],
) -> Result<bool, AllocError>
    ensures { IfOk result (λ any. IsTrue any ↔ Any (MatchesName (matcher_of matcher.now)) (map (λ n. n.now) names.now)) }
{
    let mut ready = ReadyMatcher::new(alloc, matcher)?;
    for name in names {
        if ready.matches(alloc, name)? {
            return Ok(true);
        }
    }
    Ok(false)
}

/// Returns whether a test binary matches.
pub(crate) fn any_suite(
    alloc: Global,
    compared: Compared,
    matcher: &NameMatcher,
    suites: &[Suite],
) -> Result<bool, AllocError>
    ensures { IfOk result (λ any. IsTrue any ↔ Any (PicksSuite compared (matcher_of matcher.now)) suites.now) }
{
    let mut ready = ReadyMatcher::new(alloc, matcher)?;
    for suite in suites {
        if ready.matches(alloc, compared_text(compared, suite))? {
            return Ok(true);
        }
    }
    Ok(false)
}

/// Returns whether a test binary is built for a platform.
pub(crate) fn any_built_for(platform: BuildPlatform, suites: &[Suite]) -> bool
    ensures { IsTrue result ↔ Any (IsBuiltFor platform) suites.now }
{
    for suite in suites {
        if is_built_for(platform, suite) {
            return true;
        }
    }
    false
}

/// Returns whether a package is meant. A package that is named is among those that it reaches and that reach it, so that only
/// names are compared.
pub(crate) fn any_picked(
    alloc: Global,
    graph: &PackageGraph,
    matcher: &NameMatcher,
) -> Result<bool, AllocError>
    ensures { IfOk result (λ any. (reach : Reach)
        → IsTrue any ↔ Any (PicksPackage graph.now reach (matcher_of matcher.now)) graph.now) }
{
    let mut ready = ReadyMatcher::new(alloc, matcher)?;
    for package in graph.packages() {
        if !package.in_workspace {
            continue;
        }
        if ready.matches(alloc, package.name())? {
            return Ok(true);
        }
    }
    Ok(false)
}
