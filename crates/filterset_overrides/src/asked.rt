//! Overrides and profiles as they are asked about tests.
ghost use Rattle.std.specs.Prelude.{◌≡◌};
ghost use Rattle.filterset_overrides.specs.Applying.{platforms_of, sets};

use filterset_expression::{BinaryQuery, CompiledExpr};
use filterset_graph::{BuildPlatform, TestCaseName};

/// An override of a profile.
#[derive(Clone, Copy, Debug)]
pub struct AskedOverride<'o> {
    /// As `profile.ci.overrides[2]`.
    pub path: &'o str,
    /// The filterset of the tests that it is for. A missing one picks every test.
    pub filter: Option<&'o CompiledExpr>,
    /// Whether its platforms apply to tests that are built for the target. `None` is unknown.
    pub for_target: Option<bool>,
    /// Whether its platforms apply to tests that are built for the host. `None` is unknown.
    pub for_host: Option<bool>,
    /// The keys that it sets.
    pub settings: &'o [String],
}

/// A profile.
#[derive(Clone, Copy, Debug)]
pub struct AskedProfile<'o> {
    pub name: &'o str,
    /// The keys that it sets.
    pub settings: &'o [String],
}

/// A test binary, and those of its tests that overrides are asked about.
#[derive(Clone, Copy, Debug)]
pub struct ListedBinary<'s> {
    pub query: BinaryQuery<'s>,
    pub tests: &'s [&'s TestCaseName],
}

impl AskedOverride<'_> {
    /// Returns whether its platforms apply to tests that are built for this one.
    pub fn platforms_of(&self, platform: BuildPlatform) -> Option<bool>
        ensures { result ≡ platforms_of self.now platform }
    {
        match platform {
            BuildPlatform::Target => self.for_target,
            BuildPlatform::Host => self.for_host,
        }
    }
}

/// Returns whether a key is among those that are set.
pub fn sets(settings: &[String], key: &str) -> bool
    ensures { result ≡ sets settings.now key.now }
{
    settings.iter().any(|setting| setting.as_str() == key)
}
