//! Questions to filtersets about a workspace.

/// What filtersets are asked about a workspace.
#[derive(Clone, Copy, Debug)]
pub enum Question<'t> {
    /// Which tests a runner runs, given these filtersets, and the default filter unless that is ignored.
    List {
        filters: &'t [&'t str],
        ignores_default: bool,
    },
    /// How two filtersets differ, with the names of tests and the ids of skipped binaries or without.
    Compare {
        first: &'t str,
        second: &'t str,
        has_names: bool,
    },
    /// Which overrides apply to the tests that at least one of these filtersets picks, or to all tests if there is no
    /// filterset, and which of their settings they give. The default filter is ignored.
    Overrides {
        filters: &'t [&'t str],
    },
}
