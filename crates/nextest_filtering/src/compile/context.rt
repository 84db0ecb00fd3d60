//! The packages, test binaries and groups that filtersets are parsed against.
ghost use Rattle.std.specs.Prelude.{◌≡◌, ◌++◌, IfOk, OnOk, map, string_bytes};
ghost use Rattle.std.specs.List.{flat_map};
ghost use Rattle.nextest_filtering.specs.Binaries.{binaries_of, name_and_id, members_of, test_binaries};

use crate::compile::members::Members;
use filterset_graph::{PackageGraph, PackageMetadata, RustBinaryId};
use std::alloc::{AllocError, Global};
use std::collections::HashSet;

/// The name and the id of a test binary of the workspace.
#[derive(Debug, Drop)]
pub(super) struct TestBinary<'g> {
    pub name: &'g str,
    pub id: RustBinaryId,
}

/// The packages and test binaries that a filterset may name.
#[derive(Debug)]
pub struct ParseContext<'g> {
    graph: &'g PackageGraph,
    /// The packages of the workspace.
    members: Members<'g>,
    /// Their test binaries.
    binaries: Vec<TestBinary<'g>>,
    ghost members_are: { map (λ p. p.now) members.packages.items ≡ members_of graph.now },
    ghost binaries_are: { map name_and_id binaries.items ≡ test_binaries graph.now },
}

// Implemented by hand: a derived `Drop` is proved again, field by field, in each function that drops a context.
impl Drop for ParseContext<'_> {
    fn drop(self) {
        let ParseContext {
            graph: _,
            members: _members,
            binaries: _binaries,
        } = self;
    }
}

impl<'g> ParseContext<'g> {
    ghost use Rattle.nextest_filtering.specs.Compiling.{packages_of};

    /// Returns the context over these packages. It lists the packages of the workspace, their names and their test
    /// binaries, once for all filtersets. The only error is out of memory.
    pub fn new(alloc: Global, graph: &'g PackageGraph) -> Result<ParseContext<'g>, AllocError>
        ensures { IfOk result (λ cx. packages_of cx ≡ graph.now) }
    {
        let packages = list_members(alloc, graph.packages())?;
        let members = Members::new(alloc, packages)?;
        let binaries = list_binaries(alloc, members.packages())?;
        Ok(ParseContext {
            graph,
            members,
            binaries,
        })
    }

    /// Returns the packages.
    pub fn graph(&self) -> &'g PackageGraph
        ensures { result.now ≡ packages_of self.now }
    {
        self.graph
    }

    /// Returns the packages of the workspace, in the graph's order.
    pub(super) fn members(&self) -> &Members<'g>
        ensures { map (λ p. p.now) result.now.packages.items ≡ members_of (packages_of self.now) }
    {
        &self.members
    }

    /// Returns the test binaries of the workspace.
    pub(super) fn binaries(&self) -> &[TestBinary<'g>]
        ensures { map name_and_id result.now ≡ test_binaries (packages_of self.now) }
    {
        &self.binaries
    }
}

/// Returns the packages of the workspace, in their order.
fn list_members(
    alloc: Global,
    packages: &[PackageMetadata],
) -> Result<Vec<&PackageMetadata>, AllocError>
    ensures { IfOk result (λ members. map (λ p. p.now) members.items ≡ members_of packages.now) }
{
    let mut members = Vec::new(alloc);
    for package in packages {
        if package.in_workspace {
            members.push(package)?;
        }
    }
    Ok(members)
}

/// Returns the test binaries of these packages, in their order.
fn list_binaries<'g>(
    alloc: Global,
    packages: &[&'g PackageMetadata],
) -> Result<Vec<TestBinary<'g>>, AllocError>
    ensures { IfOk result (λ binaries.
        map name_and_id binaries.items ≡ flat_map binaries_of (map (λ p. p.now) packages.now)) }
{
    let mut binaries = Vec::new(alloc);
    for package in packages {
        push_binaries(alloc, package, &mut binaries)?;
    }
    Ok(binaries)
}

/// Appends the test binaries of a package.
fn push_binaries<'g>(
    alloc: Global,
    owner: &'g PackageMetadata,
    binaries: &mut Vec<TestBinary<'g>>,
) -> Result<(), AllocError>
    ensures { OnOk result
        (map name_and_id binaries.new.items ≡ map name_and_id binaries.old.items ++ binaries_of owner.now) }
{
    for target in &owner.build_targets {
        if let Some(kind) = target.id.binary_kind() {
            let name = target.name.as_str();
            let id = RustBinaryId::from_parts(alloc, owner.name(), &kind, name)?;
            binaries.push(TestBinary { name, id })?;
        }
    }
    Ok(())
}

/// The groups that a filterset may name.
#[derive(Debug)]
pub enum KnownGroups {
    /// These groups and `@global`, which need not be listed.
    Known { custom_groups: HashSet<String> },
    /// The groups are not known. A filterset of kind `Test` cannot be parsed; all other kinds ban `group`.
    Unavailable,
}

// Implemented by hand, as for `ParseContext`.
impl Drop for KnownGroups {
    fn drop(self) {
        match self {
            KnownGroups::Known {
                custom_groups: _custom_groups,
            } => {}
            KnownGroups::Unavailable => {}
        }
    }
}

impl KnownGroups {
    ghost use Rattle.nextest_filtering.specs.Groups.{AreGroups, IsGlobalOnly, IsKnown};

    /// Returns the known groups with these custom groups, where a name may be repeated. The only error is out of memory.
    pub fn of(alloc: Global, names: Vec<String>) -> Result<KnownGroups, AllocError>
        ensures groups { IfOk result (AreGroups (map (λ s. string_bytes s) names.items)) }
        ensures known { IfOk result IsKnown }
    {
        Ok(KnownGroups::Known {
            custom_groups: names.into_iter().collect(alloc)?,
        })
    }

    /// Returns the known groups without custom groups: only `@global` is known.
    pub fn global_only(alloc: Global) -> KnownGroups
        ensures global { IsGlobalOnly result }
        ensures known { IsKnown result }
    {
        KnownGroups::Known {
            custom_groups: HashSet::new(alloc),
        }
    }
}
