//! Workspaces.
use filterset_graph::PackageGraph;
use filterset_sources::Suite;

/// A workspace: its packages, with those that they depend on, and the test binaries that nextest listed.
#[derive(Clone, Copy, Debug)]
pub struct Workspace<'w> {
    pub graph: &'w PackageGraph,
    pub suites: &'w [Suite],
}
