//! The names that filtersets are checked against.
ghost use Rattle.std.specs.Prelude.{◌≡◌, IfOk, map, string_bytes};
ghost use Rattle.nextest_filtering.specs.Groups.{IsKnown};
ghost use Rattle.filterset_entries.specs.Names.{KnowsNames, is_judged};

use nextest_filtering::{KnownGroups, PackageGraph, ParseContext, ParseSingleError};
use std::alloc::{AllocError, Global};

/// The packages and the groups that filtersets may name, and whether each are those of a workspace. If they are not, no
/// name counts as unknown.
#[derive(Debug, Drop)]
pub struct Names<'g> {
    pub parse_context: ParseContext<'g>,
    pub known_groups: KnownGroups,
    /// Whether the packages are those of a workspace. If not, names of packages and test binaries are not checked.
    pub has_packages: bool,
    /// Whether the groups are those of a workspace. If not, names of groups are not checked.
    pub has_groups: bool,
}

impl<'g> Names<'g> {
    /// Returns the names of these packages and custom groups.
    pub fn new(
        alloc: Global,
        graph: &'g PackageGraph,
        has_packages: bool,
        groups: Vec<String>,
        has_groups: bool,
    ) -> Result<Names<'g>, AllocError>
        ensures names { IfOk result
            (KnowsNames has_packages graph.now has_groups (map (λ s. string_bytes s) groups.items)) }
        ensures known { IfOk result (λ names. IsKnown names.known_groups) }
    {
        Ok(Names {
            parse_context: ParseContext::new(alloc, graph)?,
            known_groups: KnownGroups::of(alloc, groups)?,
            has_packages,
            has_groups,
        })
    }
}

impl Names<'_> {
    /// Returns whether a fault counts: it is about no name, or the names that it is about are checked.
    pub fn judges(&self, fault: &ParseSingleError) -> bool
        ensures { result ≡ is_judged self.now fault.now }
    {
        match fault {
            ParseSingleError::NoPackageMatch(_)
            | ParseSingleError::NoBinaryIdMatch(_)
            | ParseSingleError::NoBinaryNameMatch(_) => self.has_packages,
            ParseSingleError::NoGroupMatch(_) => self.has_groups,
            _ => true,
        }
    }
}
