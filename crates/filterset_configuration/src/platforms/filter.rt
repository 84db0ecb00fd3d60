//! The platforms of an override.
ghost use Rattle.std.specs.Prelude.{◌≡◌, IfSome, Some};
ghost use Rattle.filterset_configuration.specs.PlatformTrees.{Facts, facts_of};
ghost use Rattle.filterset_configuration.specs.PlatformValues.{Extends, applies, part_value};

use crate::platforms::evaluating::both;
use crate::platforms::facts::PlatformFacts;
use crate::platforms::specification::PlatformSpec;

/// The platforms for which an override is. A part that is missing is any platform.
#[derive(Debug, Drop)]
pub struct PlatformFilter {
    /// The platform that runs the build.
    pub host: Option<PlatformSpec>,
    /// The platform that tests are built for.
    pub target: Option<PlatformSpec>,
}

impl PlatformFilter {
    /// Returns whether both parts apply to platforms of which these facts are known, or `None` if they do not decide it.
    pub fn applies(&self, host: &PlatformFacts, target: &PlatformFacts) -> Option<bool>
        ensures value { result ≡ applies (facts_of host.now) (facts_of target.now) self.now }
        ensures sound { IfSome result (λ b. (of_host of_target : Facts)
            → Extends (facts_of host.now) of_host → Extends (facts_of target.now) of_target
            → applies of_host of_target self.now ≡ Some b) }
    {
        both(
            part_value(&self.host, host),
            part_value(&self.target, target),
        )
    }
}

/// Returns whether a part applies.
fn part_value(part: &Option<PlatformSpec>, facts: &PlatformFacts) -> Option<bool>
    ensures { result ≡ part_value (facts_of facts.now) part.now }
{
    match part {
        Some(spec) => spec.applies(facts),
        None => Some(true),
    }
}
