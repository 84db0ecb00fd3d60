//! What questions about a workspace are asked under.
ghost use Rattle.std.specs.Prelude.{◌≡◌};
ghost use Rattle.filterset_faults.specs.declared.kind.FiltersetKind.TheVariants as kinds;
ghost use Rattle.nextest_filtering.specs.Groups.{IsKnown};
ghost use Rattle.filterset_entries.specs.Names.{is_known_prop};

use crate::text::TextEntry;
use filterset_overrides::AskedProfile;
use nextest_filtering::{KnownGroups, PackageGraph};

/// An override of a configuration.
#[derive(Debug, Drop)]
pub struct OverrideEntry<'t> {
    /// Its path in the configuration.
    pub path: &'t str,
    /// The filterset that picks its tests. Without one it is about all tests.
    pub filter: Option<TextEntry<'t>>,
    /// Whether its platforms apply to tests that are built for the target, if that is known.
    pub for_target: Option<bool>,
    /// Whether its platforms apply to tests that are built for the host, if that is known.
    pub for_host: Option<bool>,
    /// The group that it puts its tests in, if it sets one.
    pub group: Option<&'t str>,
    /// The keys that it sets.
    pub settings: &'t [String],
}

/// What a question is asked under.
#[derive(Clone, Copy, Debug)]
pub struct Setting<'t> {
    /// The packages that filtersets may name.
    pub graph: &'t PackageGraph,
    /// The groups that filtersets may name.
    pub groups: &'t KnownGroups,
    /// The value of `default()`.
    pub default: &'t TextEntry<'t>,
    /// The overrides. Of those that set something, the first that applies to a test decides.
    pub overrides: &'t [OverrideEntry<'t>],
    /// The profile, and those that it falls back on, in order.
    pub profiles: &'t [AskedProfile<'t>],
    ghost default_kind: { default.now.kind ≡ kinds.DefaultFilter },
    ghost known: { IsKnown groups.now } by { is_known_prop groups.now },
}
