//! Workspaces that are asked about many predicates.
ghost use Rattle.std.specs.Prelude.{◌≡◌, ◌↔◌, Any, IfOk, IsTrue, false, map, string_bytes};
ghost use Rattle.std.specs.Str.Iter.{HasSubslice};
ghost use Rattle.filterset_language.specs.Views.{leaf_of};
ghost use Rattle.filterset_matchers.specs.{Matcher.MatchesName, Matchers.matcher_of};
ghost use Rattle.filterset_offers.specs.Something.{CountsTheSame, MatchesSomething, has_line_break, lines_of, tests_of};
ghost use Rattle.filterset_offers.specs.Workspaces.{workspace_row};

use crate::matching::Compared;
use crate::named::test_names;
use crate::searching::{any_built_for, any_name, any_picked, any_suite};
use crate::workspace::Workspace;
use filterset_language::ParsedLeaf;
use filterset_matchers::NameMatcher;
use memchr::memmem::Finder;
use std::alloc::{AllocError, Global};

/// A workspace that is asked about many predicates, and the names of its tests as one text, in which one search finds out
/// whether any name contains a text.
#[derive(Debug, Drop)]
pub struct WorkspaceIndex<'w> {
    pub workspace: Workspace<'w>,
    /// The names of the tests.
    names: Vec<&'w str>,
    /// The names of the tests, each with a line break after it.
    lines: String,
    ghost named: { map (λ n. n.now) names.items ≡ tests_of (workspace_row workspace) },
    ghost written: { string_bytes lines ≡ lines_of (tests_of (workspace_row workspace)) },
}

/// Writes texts with a line break after each.
fn lines_of(alloc: Global, texts: &[&str]) -> Result<String, AllocError>
    ensures { IfOk result (λ lines. string_bytes lines ≡ lines_of (map (λ t. t.now) texts.now)) }
{
    let mut lines = String::new(alloc);
    for text in texts {
        lines.push_str(text)?;
        lines.push('\n')?;
    }
    Ok(lines)
}

/// Returns whether a text has a line break.
fn has_line_break(text: &str) -> bool
    ensures { result ≡ has_line_break text.now }
{
    text.as_bytes().contains(&b'\n')
}

impl<'w> WorkspaceIndex<'w> {
    /// Prepares a workspace. The only error is out of memory.
    pub fn new(alloc: Global, workspace: Workspace<'w>) -> Result<WorkspaceIndex<'w>, AllocError>
        ensures { IfOk result (λ index. index.workspace ≡ workspace.entry) }
    {
        let names = test_names(alloc, workspace.suites)?;
        let lines = lines_of(alloc, names.as_slice())?;
        Ok(WorkspaceIndex {
            workspace,
            names,
            lines,
        })
    }

    /// Returns whether the name of a test contains a text, which has no line break.
    fn any_contains(&self, text: &str) -> bool
        requires { has_line_break text.now ≡ false }
        ensures { IsTrue result ↔ Any (λ name. HasSubslice name text.now)
            (tests_of (workspace_row self.now.workspace)) }
    {
        !self.lines.is_empty()
            && Finder::new(text.as_bytes())
                .find(self.lines.as_bytes())
                .is_some()
    }

    /// Returns whether the name of a test matches.
    fn any_test(&self, alloc: Global, matcher: &NameMatcher) -> Result<bool, AllocError>
        ensures { IfOk result (λ any. IsTrue any ↔ Any (MatchesName (matcher_of matcher.now))
            (tests_of (workspace_row self.now.workspace))) }
    {
        match matcher {
            NameMatcher::Contains { value, implicit: _ } if !has_line_break(value.as_str()) => {
                Ok(self.any_contains(value.as_str()))
            }
            _ => any_name(alloc, matcher, self.names.as_slice()),
        }
    }

    /// Returns whether a predicate matches something.
    fn has_match(&self, alloc: Global, leaf: &ParsedLeaf) -> Result<bool, AllocError>
        ensures { IfOk result (λ some. IsTrue some
            ↔ MatchesSomething (workspace_row self.now.workspace) (leaf_of leaf.now)) }
    {
        let Workspace { graph, suites } = self.workspace;
        match leaf {
            ParsedLeaf::Package(matcher, _) => any_picked(alloc, graph, matcher),
            ParsedLeaf::Deps(matcher, _) => any_picked(alloc, graph, matcher),
            ParsedLeaf::Rdeps(matcher, _) => any_picked(alloc, graph, matcher),
            ParsedLeaf::Kind(matcher, _) => any_suite(alloc, Compared::Kind, matcher, suites),
            ParsedLeaf::Binary(matcher, _) => any_suite(alloc, Compared::Name, matcher, suites),
            ParsedLeaf::BinaryId(matcher, _) => any_suite(alloc, Compared::Id, matcher, suites),
            ParsedLeaf::Platform(platform, _) => Ok(any_built_for(*platform, suites)),
            ParsedLeaf::Test(matcher, _) => self.any_test(alloc, matcher),
            ParsedLeaf::Group(..) | ParsedLeaf::Default(_) | ParsedLeaf::All | ParsedLeaf::None => {
                Ok(true)
            }
        }
    }

    /// Returns whether a predicate matches something. The answer is `true` for groups and for the default filter, of which the
    /// workspace says nothing, and for a predicate without an argument. The only error is out of memory.
    pub fn matches_something(&self, alloc: Global, leaf: &ParsedLeaf) -> Result<bool, AllocError>
        ensures some { IfOk result (λ some. IsTrue some
            ↔ MatchesSomething (workspace_row self.now.workspace) (leaf_of leaf.now)) }
        // It is so exactly if `match_leaf` counts some.
        ensures counted { CountsTheSame (workspace_row self.now.workspace) (leaf_of leaf.now) }
    {
        self.has_match(alloc, leaf)
    }
}
