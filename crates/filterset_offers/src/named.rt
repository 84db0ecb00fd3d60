//! The names of a workspace.
ghost use Rattle.std.specs.Prelude.{◌≡◌, IfOk, filter, map, string_bytes};
ghost use Rattle.std.specs.List.{flat_map};
ghost use Rattle.filterset_offers.specs.{Named.names_in, Workspaces.workspace_row};

use crate::packages::push_member;
use crate::workspace::Workspace;
use filterset_graph::PackageMetadata;
use filterset_sources::Suite;
use std::alloc::{AllocError, Global};

/// What has a name that filtersets may match.
#[derive(Clone, Copy, Debug, PartialEq, Eq)]
pub enum Named {
    /// A package of the workspace, by its name.
    Package,
    /// A test binary, by its name.
    Binary,
    /// A test binary, by its id.
    BinaryId,
    /// A test, by its name.
    Test,
}

/// Returns the names of the packages that are of the workspace.
fn package_names<'w>(
    alloc: Global,
    packages: &'w [PackageMetadata],
) -> Result<Vec<&'w str>, AllocError>
    ensures { IfOk result (λ names. map (λ n. n.now) names.items
        ≡ map (λ p. string_bytes p.name) (filter (λ p. p.in_workspace) packages.entry.now)) }
{
    let mut names = Vec::new(alloc);
    for package in packages {
        push_member(&mut names, true, package)?;
    }
    Ok(names)
}

/// Returns the names of test binaries.
fn binary_names<'w>(alloc: Global, suites: &'w [Suite]) -> Result<Vec<&'w str>, AllocError>
    ensures { IfOk result (λ names. map (λ n. n.now) names.items
        ≡ map (λ s. string_bytes s.binary_name) suites.entry.now) }
{
    let mut names = Vec::with_capacity(alloc, suites.len())?;
    for suite in suites {
        names.push(suite.binary_name.as_str())?;
    }
    Ok(names)
}

/// Returns the ids of test binaries.
fn binary_ids<'w>(alloc: Global, suites: &'w [Suite]) -> Result<Vec<&'w str>, AllocError>
    ensures { IfOk result (λ names. map (λ n. n.now) names.items ≡ map (λ s. s.binary_id) suites.entry.now) }
{
    let mut names = Vec::with_capacity(alloc, suites.len())?;
    for suite in suites {
        names.push(suite.binary_id.as_str())?;
    }
    Ok(names)
}

/// Returns the names of the tests of test binaries.
pub(crate) fn test_names<'w>(alloc: Global, suites: &'w [Suite]) -> Result<Vec<&'w str>, AllocError>
    ensures { IfOk result (λ names. map (λ n. n.now) names.items
        ≡ flat_map (λ s. s.tests.items) suites.entry.now) }
{
    let mut names = Vec::new(alloc);
    for suite in suites {
        for test in &suite.tests {
            names.push(test.as_str())?;
        }
    }
    Ok(names)
}

/// Returns the names of what is named so in a workspace, in its order; one for each, so that a name may be there twice.
pub fn names_of<'w>(
    alloc: Global,
    workspace: &Workspace<'w>,
    named: Named,
) -> Result<Vec<&'w str>, AllocError>
    ensures { IfOk result (λ names. map (λ n. n.now) names.items ≡ names_in (workspace_row workspace.now) named) }
{
    match named {
        Named::Package => package_names(alloc, workspace.graph.packages()),
        Named::Binary => binary_names(alloc, workspace.suites),
        Named::BinaryId => binary_ids(alloc, workspace.suites),
        Named::Test => test_names(alloc, workspace.suites),
    }
}
