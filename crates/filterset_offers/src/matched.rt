//! What predicates match in a workspace.
ghost use Rattle.std.specs.Prelude.{◌≡◌, IfOk, map};
ghost use Rattle.filterset_language.specs.Views.{leaf_of};
ghost use Rattle.filterset_matchers.specs.Matchers.{matcher_of};
ghost use Rattle.filterset_offers.specs.Matched.{IsShortlist, MatchesLeaf, MatchesPackages, MatchesSuites, MeansTheSame, PicksSuite};
ghost use Rattle.filterset_offers.specs.Workspaces.{workspace_row};

use crate::matching::{Compared, matching, matching_suites, suites_built_for};
use crate::named::test_names;
use crate::packages::{Reach, picked_packages};
use crate::workspace::Workspace;
use filterset_language::ParsedLeaf;
use filterset_matchers::NameMatcher;
use std::alloc::{AllocError, Global};

/// How many names a shortlist has at most.
const LISTED: usize = 10;

/// The first ten names of a list, and how many names it has.
#[derive(Debug, Drop)]
pub struct Shortlist<'w> {
    pub names: Vec<&'w str>,
    pub count: usize,
}

/// What a predicate matches.
#[derive(Debug, Drop)]
pub enum Matched<'w> {
    /// Packages of the workspace, by their names.
    Packages(Shortlist<'w>),
    /// Test binaries, by their ids.
    Binaries(Shortlist<'w>),
    /// Tests, by their names.
    Tests(Shortlist<'w>),
}

/// Returns the first of these names, and how many there are.
fn shortlist_of(mut names: Vec<&str>) -> Shortlist<'_>
    ensures { IsShortlist (map (λ n. n.now) names.entry.items) result }
{
    let count = names.len();
    names.truncate(LISTED);
    Shortlist { names, count }
}

/// Returns the packages that a predicate with this matcher means.
fn match_packages<'w>(
    alloc: Global,
    workspace: &Workspace<'w>,
    reach: Reach,
    matcher: &NameMatcher,
) -> Result<Option<Matched<'w>>, AllocError>
    ensures { IfOk result (MatchesPackages (workspace_row workspace.now) reach (matcher_of matcher.now)) }
{
    let found = picked_packages(alloc, workspace.graph, reach, matcher)?;
    Ok(Some(Matched::Packages(shortlist_of(found))))
}

/// Returns the test binaries of which a matcher matches this.
fn match_suites<'w>(
    alloc: Global,
    workspace: &Workspace<'w>,
    compared: Compared,
    matcher: &NameMatcher,
) -> Result<Option<Matched<'w>>, AllocError>
    ensures { IfOk result (MatchesSuites (workspace_row workspace.now) (PicksSuite compared (matcher_of matcher.now))) }
{
    let found = matching_suites(alloc, compared, matcher, workspace.suites)?;
    Ok(Some(Matched::Binaries(shortlist_of(found))))
}

/// Returns what a predicate matches.
fn match_predicate<'w>(
    alloc: Global,
    workspace: &Workspace<'w>,
    leaf: &ParsedLeaf,
) -> Result<Option<Matched<'w>>, AllocError>
    ensures { IfOk result (MatchesLeaf (workspace_row workspace.now) (leaf_of leaf.now)) }
{
    match leaf {
        ParsedLeaf::Package(matcher, _) => match_packages(alloc, workspace, Reach::Alone, matcher),
        ParsedLeaf::Deps(matcher, _) => {
            match_packages(alloc, workspace, Reach::Dependencies, matcher)
        }
        ParsedLeaf::Rdeps(matcher, _) => {
            match_packages(alloc, workspace, Reach::Dependents, matcher)
        }
        ParsedLeaf::Kind(matcher, _) => match_suites(alloc, workspace, Compared::Kind, matcher),
        ParsedLeaf::Binary(matcher, _) => match_suites(alloc, workspace, Compared::Name, matcher),
        ParsedLeaf::BinaryId(matcher, _) => match_suites(alloc, workspace, Compared::Id, matcher),
        ParsedLeaf::Platform(platform, _) => {
            let found = suites_built_for(alloc, *platform, workspace.suites)?;
            Ok(Some(Matched::Binaries(shortlist_of(found))))
        }
        ParsedLeaf::Test(matcher, _) => {
            let names = test_names(alloc, workspace.suites)?;
            let found = matching(alloc, matcher, names.as_slice())?;
            Ok(Some(Matched::Tests(shortlist_of(found))))
        }
        ParsedLeaf::Group(..) | ParsedLeaf::Default(_) | ParsedLeaf::All | ParsedLeaf::None => {
            Ok(None)
        }
    }
}

/// Returns what a predicate matches, or `None` for groups, for the default filter, and for a predicate without an argument. The
/// only error is out of memory.
pub fn match_leaf<'w>(
    alloc: Global,
    workspace: &Workspace<'w>,
    leaf: &ParsedLeaf,
) -> Result<Option<Matched<'w>>, AllocError>
    ensures matched { IfOk result (MatchesLeaf (workspace_row workspace.now) (leaf_of leaf.now)) }
    // What is matched of packages and test binaries is what filtersets mean by the predicate.
    ensures meaning { MeansTheSame workspace.now.graph.now (leaf_of leaf.now) }
{
    match_predicate(alloc, workspace, leaf)
}
