//! What predicates match in a workspace, as Markdown.
ghost use Rattle.std.specs.Prelude.{◌≡◌, IfOk, string_bytes};
ghost use Rattle.filterset_language.specs.Views.{leaf_of};
ghost use Rattle.filterset_offers.specs.{Matches.SaysMatched, Matches.shortlist_text, Workspaces.known_of};

use crate::matched::{Matched, Shortlist, match_leaf};
use crate::words::code_span;
use crate::workspace::Workspace;
use filterset_language::ParsedLeaf;
use std::alloc::{AllocError, Global};
use std::fmt::Write;

/// Writes how many of what there are, the first of them by name, and how many are not listed.
fn shortlist_text(alloc: Global, what: &str, short: &Shortlist<'_>) -> Result<String, AllocError>
    ensures { IfOk result (λ text. string_bytes text ≡ shortlist_text what.now short.now) }
{
    let count = short.count;
    let names = short.names.as_slice();
    let mut text = format!(in alloc; "\n\n{what}: {count}\n")?;
    for name in names {
        let code = code_span(alloc, name)?;
        write!(text, "\n- {code}")?;
    }
    let others = count.saturating_sub(names.len());
    if others == 0 {
        return Ok(text);
    }
    write!(text, "\n- and {others} more")?;
    Ok(text)
}

/// Writes what a predicate matches in the workspace, if there is one.
pub(crate) fn leaf_matches(
    alloc: Global,
    workspace: Option<Workspace<'_>>,
    leaf: &ParsedLeaf,
) -> Result<String, AllocError>
    ensures { IfOk result (λ text. SaysMatched (known_of workspace.entry) (leaf_of leaf.now)
        (string_bytes text)) }
{
    let Some(workspace) = workspace else {
        return Ok(String::new(alloc));
    };
    match match_leaf(alloc, &workspace, leaf)? {
        Some(Matched::Packages(short)) => {
            shortlist_text(alloc, "Packages of the workspace", &short)
        }
        Some(Matched::Binaries(short)) => shortlist_text(alloc, "Test binaries", &short),
        Some(Matched::Tests(short)) => shortlist_text(alloc, "Tests", &short),
        None => Ok(String::new(alloc)),
    }
}
