//! The packages that a predicate matches, by name.
ghost use Rattle.std.specs.Prelude.{IfOk};
ghost use Rattle.filterset_faults.specs.declared.span.SourceSpan.{SourceSpan};
ghost use Rattle.filterset_grammar.specs.Tree.{Leaf, Set};
ghost use Rattle.filterset_listing.specs.Columns.{Keeps};
ghost use Rattle.filterset_listing.specs.NamedPackages.{Names, NamesPackages, members};

use crate::columns::Columns;
use crate::counting::add_count;
use filterset_expression::{CompiledExpr, FiltersetLeaf};
use filterset_graph::{PackageGraph, PackageId};
use std::alloc::{AllocError, Global};
use std::collections::BTreeSet;

/// How many packages an explanation names.
const NAMED: usize = 10;

/// The packages that a predicate matches.
#[derive(Debug, Drop)]
pub struct NamedPackages<'g> {
    /// The names of the first ten, in the order of the graph.
    pub names: Vec<&'g str>,
    /// How many others there are.
    pub others: usize,
}

/// Names the packages of the graph whose ids are in the set, in the order of the graph.
fn name_members<'g>(
    alloc: Global,
    graph: &'g PackageGraph,
    ids: &BTreeSet<PackageId>,
) -> Result<NamedPackages<'g>, AllocError>
    ensures { IfOk result (Names (members ids.now.keys graph.now)) }
{
    let mut named = NamedPackages {
        names: Vec::new(alloc),
        others: 0,
    };
    for package in graph.packages() {
        if !ids.contains(&package.id) {
            continue;
        }
        if named.names.len() < NAMED {
            named.names.push(package.name())?;
            continue;
        }
        named.others = add_count(named.others, 1)?;
    }
    Ok(named)
}

impl Columns<'_> {
    /// Returns the packages that the predicate is compiled to, or `None` if it is compiled to something else.
    pub fn packages<'g>(
        &self,
        alloc: Global,
        graph: &'g PackageGraph,
    ) -> Result<Option<NamedPackages<'g>>, AllocError>
        ensures { IfOk result (λ named. (leaf : Leaf SourceSpan) → Keeps graph.now (Set leaf) self.now
            → NamesPackages graph.now (Set leaf) named) }
    {
        match self {
            Columns::Leaf(_, CompiledExpr::Set(FiltersetLeaf::Packages(ids))) => {
                Ok(Some(name_members(alloc, graph, ids)?))
            }
            _ => Ok(None),
        }
    }
}
