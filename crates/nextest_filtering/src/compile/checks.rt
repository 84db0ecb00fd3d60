//! Checks that predicates match something: a name or an id of a test binary, or a group.
ghost use Rattle.std.specs.Prelude.{◌≡◌, ◌↔◌, Any, IfOk, IsTrue, string_bytes};
ghost use Rattle.std.specs.HashSet.{keys};
ghost use Rattle.filterset_graph.specs.Binaries.{IsBinaryId, IsBinaryName};
ghost use Rattle.filterset_matchers.specs.{Matcher.MatchesName, Matchers.matcher_of};
ghost use Rattle.nextest_filtering.specs.{ReadyMatchers.ready_matcher, Checks.MatchesSomeName, Compiling.packages_of};
ghost use Rattle.nextest_filtering.specs.Groups.{IsGroupName};

use crate::compile::context::{KnownGroups, ParseContext};
use crate::compile::ready::ReadyMatcher;
use filterset_graph::GLOBAL_TEST_GROUP;
use filterset_matchers::NameMatcher;
use std::alloc::{AllocError, Global};
use std::collections::HashSet;

/// Returns whether the matcher matches the name of a test binary of the workspace.
pub(super) fn matches_binary_name(
    alloc: Global,
    cx: &ParseContext<'_>,
    matcher: &NameMatcher,
) -> Result<bool, AllocError>
    ensures { IfOk result (λ matched.
        IsTrue matched ↔ MatchesSomeName (matcher_of matcher.now) (IsBinaryName (packages_of cx.now))) }
{
    let mut ready = ReadyMatcher::new(alloc, matcher)?;
    let binaries = cx.binaries();
    for binary in binaries {
        if ready.matches(alloc, binary.name)? {
            return Ok(true);
        }
    }
    Ok(false)
}

/// Returns whether the matcher matches the id of a test binary of the workspace.
pub(super) fn matches_binary_id(
    alloc: Global,
    cx: &ParseContext<'_>,
    matcher: &NameMatcher,
) -> Result<bool, AllocError>
    ensures { IfOk result (λ matched.
        IsTrue matched ↔ MatchesSomeName (matcher_of matcher.now) (IsBinaryId (packages_of cx.now))) }
{
    let mut ready = ReadyMatcher::new(alloc, matcher)?;
    let binaries = cx.binaries();
    for binary in binaries {
        if ready.matches(alloc, binary.id.as_str())? {
            return Ok(true);
        }
    }
    Ok(false)
}

/// Returns whether the matcher matches the name of a known group.
pub(super) fn matches_group(
    alloc: Global,
    known_groups: &KnownGroups,
    matcher: &NameMatcher,
) -> Result<bool, AllocError>
    ensures { IfOk result (λ matched. IsTrue matched ↔ MatchesSomeName (matcher_of matcher.now) (IsGroupName known_groups.now)) }
{
    let KnownGroups::Known { custom_groups } = known_groups else {
        return Ok(false);
    };
    let mut ready = ReadyMatcher::new(alloc, matcher)?;
    if ready.matches(alloc, GLOBAL_TEST_GROUP)? {
        return Ok(true);
    }
    matches_custom_group(alloc, custom_groups, &mut ready)
}

/// Returns whether the matcher matches the name of a custom group.
fn matches_custom_group(
    alloc: Global,
    custom_groups: &HashSet<String>,
    ready: &mut ReadyMatcher<'_>,
) -> Result<bool, AllocError>
    ensures { IfOk result (λ matched.
        IsTrue matched ↔ Any (λ name. MatchesName (ready_matcher ready.old) (string_bytes name)) (keys custom_groups.now)) }
{
    for name in custom_groups {
        if ready.matches(alloc, name.as_str())? {
            return Ok(true);
        }
    }
    Ok(false)
}
