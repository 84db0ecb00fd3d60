//! The graph of packages and their dependencies.
ghost use Rattle.std.specs.Prelude.{◌≡◌, ◌↔◌, ℕ, [], Some, IsTrue, IsErrOf, IfOk, IfErr, OnOk, MatchOption, Contains, length, slice_get, vec_len};
ghost use Rattle.filterset_graph.specs.declared.refusal.DependsRefusal.TheVariants as unanswered;
ghost use Rattle.filterset_graph.specs.Packages.{Path, AllDiffer, LinksKnown, ids};
ghost use Rattle.filterset_graph.specs.{Marked.MarksReached, Marked.MarksReaching, Refusals.IsRefusalOf};

use crate::index::{positions_of, resolve_links, reverse};
use crate::package::{PackageId, PackageMetadata};
use crate::refusal::{DependsRefusal, GraphRefusal};
use crate::search::{mark_alone, mark_reached};
use std::alloc::{AllocError, Global};
use std::collections::BTreeMap;
use std::marker::Model;

/// Packages with distinct ids, where every link names one of the packages. Contracts see the list of the packages.
#[derive(Debug)]
pub struct PackageGraph {
    packages: Vec<PackageMetadata>,
    /// The position of each id in `packages`.
    positions: BTreeMap<PackageId, usize>,
    /// For each package the positions of its direct dependencies.
    links: Vec<Vec<usize>>,
    /// For each package the positions of the packages that depend on it directly.
    linked_by: Vec<Vec<usize>>,
}

impl Model for PackageGraph {
    ghost use Rattle.std.specs.Prelude.{List};
    ghost use Rattle.filterset_graph.specs.{declared.package.PackageMetadata.PackageMetadata, Index.IsIndexed};

    ghost Value = { List PackageMetadata };

    ghost view = { λ g. g.packages.items };

    ghost invariant = { λ g. IsIndexed g.packages.items g.positions g.links.items g.linked_by.items };
}

// Implemented by hand: a derived `Drop` is proved again in each function that drops a graph.
impl Drop for PackageGraph {
    fn drop(self) {
        let PackageGraph {
            packages: _packages,
            positions: _positions,
            links: _links,
            linked_by: _linked_by,
        } = self;
    }
}

impl PackageGraph {
    /// Returns the graph without packages.
    pub fn empty(alloc: Global) -> PackageGraph
        ensures { result ≡ [] }
    {
        PackageGraph {
            packages: Vec::new(alloc),
            positions: BTreeMap::new(alloc),
            links: Vec::new(alloc),
            linked_by: Vec::new(alloc),
        }
    }

    /// Returns the graph of these packages, in time O((packages + links) · log packages). An error drops the packages.
    ///
    /// Errors, with positions counted from 0:
    /// - `RepeatedId`: the first position whose id is also at an earlier position.
    /// - `UnknownLink`: all ids differ, but a link names no package. It gives the first package with such a link, and
    ///   the first such link in it.
    /// - `OutOfMemory`.
    pub fn new(alloc: Global, packages: Vec<PackageMetadata>) -> Result<PackageGraph, GraphRefusal>
        ensures ok { IfOk result (λ graph. graph ≡ packages.items) }
        ensures sound { OnOk result (AllDiffer (ids packages.items) × LinksKnown packages.items) }
        ensures refused { IfErr result (IsRefusalOf packages.items) }
    {
        let positions = positions_of(alloc, packages.as_slice())?;
        let links = resolve_links(alloc, &positions, packages.as_slice())?;
        let linked_by = reverse(alloc, links.as_slice())?;
        Ok(PackageGraph {
            packages,
            positions,
            links,
            linked_by,
        })
    }

    /// Returns the position of the package with this id, in `packages`.
    fn position(&self, id: &PackageId) -> Option<usize>
        ensures { (k : ℕ) → (result ≡ Some k) ↔ (slice_get (ids self.now) k ≡ Some id.now) }
    {
        self.positions.get(id).copied()
    }

    /// Returns the packages, in the order that the caller gave to `new`. Their ids differ, and every link names one of
    /// them.
    pub fn packages(&self) -> &[PackageMetadata]
        ensures list { result.now ≡ self.now }
        ensures distinct { AllDiffer (ids self.now) }
        ensures known { LinksKnown self.now }
    {
        self.packages.as_slice()
    }

    /// Returns the package with this id, if there is one.
    pub fn metadata(&self, id: &PackageId) -> Option<&PackageMetadata>
        ensures { MatchOption result (¬ Contains (ids self.now) id.now)
            (λ p. Contains self.now p.now × (p.now.id ≡ id.now)) }
    {
        let position = self.position(id)?;
        Some(&self.packages[position])
    }

    /// Returns whether `a` depends on `b`, directly or through other packages, inside or outside of the workspace. Each
    /// package depends on itself.
    ///
    /// Returns `UnknownPackage` if and only if `a` or `b` is no package of the graph; the only other error is out of
    /// memory. The search is linear in the packages plus the links that it reaches.
    pub fn depends_on(
        &self,
        alloc: Global,
        a: &PackageId,
        b: &PackageId,
    ) -> Result<bool, DependsRefusal>
        ensures answer { IfOk result (λ answer. IsTrue answer ↔ Path self.now a.now b.now) }
        ensures known { OnOk result (Contains (ids self.now) a.now × Contains (ids self.now) b.now) }
        ensures unknown { IsErrOf result unanswered.UnknownPackage
            ↔ ¬ (Contains (ids self.now) a.now × Contains (ids self.now) b.now) }
    {
        let (Some(from), Some(to)) = (self.position(a), self.position(b)) else {
            return Err(DependsRefusal::UnknownPackage);
        };
        let starts = mark_alone(alloc, self.packages.len(), from)?;
        let marks = self.mark_reached(alloc, starts.as_slice())?;
        Ok(marks[to])
    }

    /// Marks the starts and all packages that they depend on, directly or not. A mark belongs to the package at the
    /// same position of `packages`. The only error is out of memory. One linear search serves all starts.
    pub fn mark_reached(&self, alloc: Global, starts: &[bool]) -> Result<Vec<bool>, AllocError>
        requires { length starts.now ≡ length self.now }
        ensures len { IfOk result (λ marks. vec_len marks ≡ length self.now) }
        ensures exact { IfOk result (MarksReached self.now starts.now) }
    {
        mark_reached(alloc, self.links.as_slice(), starts)
    }

    /// Marks the ends and all packages that depend on them, directly or not. A mark belongs to the package at the same
    /// position of `packages`. The only error is out of memory. One linear search serves all ends.
    pub fn mark_reaching(&self, alloc: Global, ends: &[bool]) -> Result<Vec<bool>, AllocError>
        requires { length ends.now ≡ length self.now }
        ensures len { IfOk result (λ marks. vec_len marks ≡ length self.now) }
        ensures exact { IfOk result (MarksReaching self.now ends.now) }
    {
        mark_reached(alloc, self.linked_by.as_slice(), ends)
    }
}
