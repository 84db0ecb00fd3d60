//! The packages of the workspace, and one search over all of their names.
ghost use Rattle.std.specs.Prelude.{◌≡◌, ◌<◌, ◌≤◌, ◌+◌, IfOk, MatchOption, length, string_bytes};
ghost use Rattle.nextest_filtering.specs.Joined.{ends_of, joined, offset};

use filterset_graph::PackageMetadata;
use memchr::memmem::Finder;
use std::alloc::{AllocError, Global};

/// The packages of the workspace, in the graph's order, and their names as one text.
#[derive(Debug, Drop)]
pub(super) struct Members<'g> {
    packages: Vec<&'g PackageMetadata>,
    /// The names, one after the other.
    names: String,
    /// Where each name ends.
    ends: Vec<usize>,
    ghost named: { string_bytes names ≡ joined packages.items },
    ghost ended: { ends.items ≡ ends_of packages.items (length packages.items) },
}

/// A name in which a search found a text.
#[derive(Clone, Copy, Debug)]
struct Hit {
    /// The name's position.
    position: usize,
    /// Whether the text ends within the name too.
    is_within: bool,
}

impl<'g> Members<'g> {
    ghost use Rattle.nextest_filtering.specs.{Candidates.AreContaining, Hits.IsNextHit, Hits.NoneHas};

    /// Joins the names of these packages. The only error is out of memory.
    pub fn new(alloc: Global, packages: Vec<&'g PackageMetadata>) -> Result<Members<'g>, AllocError>
        ensures { IfOk result (λ members. members.packages.items ≡ packages.entry.items) }
    {
        let mut names = String::new(alloc);
        let mut ends = Vec::with_capacity(alloc, packages.len())?;
        for package in &packages {
            names.push_str(package.name())?;
            ends.push(names.len())?;
        }
        Ok(Members {
            packages,
            names,
            ends,
        })
    }

    /// Returns the packages.
    pub fn packages(&self) -> &[&'g PackageMetadata]
        ensures { result.now ≡ self.now.packages.items }
    {
        &self.packages
    }

    /// Returns the packages whose names contain the text, by one search over all names. The only error is out of memory.
    pub fn list_containing(
        &self,
        alloc: Global,
        text: &[u8],
    ) -> Result<Vec<&'g PackageMetadata>, AllocError>
        requires { 0 < length text.now }
        ensures { IfOk result (λ found. AreContaining self.now.packages.items text.now found.items) }
    {
        let finder = Finder::new(text);
        let mut found = Vec::new(alloc);
        let mut next = 0;
        while let Some(hit) = self.next_hit(&finder, next) {
            if hit.is_within {
                found.push(self.packages[hit.position])?;
            }
            next = hit.position + 1;
        }
        Ok(found)
    }

    /// Finds the next name, from a position on, in which the needle begins. No name before it contains the needle.
    fn next_hit(&self, finder: &Finder<'_>, next: usize) -> Option<Hit>
        requires some { 0 < length finder.now }
        requires place { next ≤ length self.now.packages.items }
        ensures { MatchOption result (NoneHas finder.now self.now.packages.items next (length self.now.packages.items))
            (λ hit. IsNextHit finder.now self.now.packages.items next hit) }
    {
        let start = self.start_of(next);
        let found = finder.find(&self.names.as_bytes()[start..])?;
        let at = start + found;
        let position = self.position_of(next, at);
        Some(Hit {
            position,
            is_within: at + finder.needle().len() <= self.ends[position],
        })
    }

    /// Returns where the name at a position begins, or the end of the names if there is none.
    fn start_of(&self, position: usize) -> usize
        requires { position ≤ length self.now.packages.items }
        ensures { result ≡ offset self.now.packages.items position }
    {
        if position == 0 {
            0
        } else {
            self.ends[position - 1]
        }
    }

    /// Finds the position of the name that has the byte at `at`, from a position on.
    fn position_of(&self, from: usize, at: usize) -> usize
        requires after { offset self.now.packages.items from ≤ at }
        requires within { at < length (string_bytes self.now.names) }
        ensures within { result < length self.now.packages.items }
        ensures later { from ≤ result }
        ensures start { offset self.now.packages.items result ≤ at }
        ensures end { at < offset self.now.packages.items (result + 1) }
    {
        let mut position = from;
        while self.ends[position] <= at {
            position += 1;
        }
        position
    }
}
