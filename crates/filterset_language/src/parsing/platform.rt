//! Names of platforms.
ghost use Rattle.std.specs.Prelude.{◌≡◌, MatchOption};
ghost use Rattle.filterset_grammar.specs.Platforms.{Names};
ghost use Rattle.filterset_language.specs.Parsing.PlatformNames.{platform_in};
ghost use Rattle.filterset_graph.specs.declared.package.BuildPlatform.{BuildPlatform};

use filterset_graph::BuildPlatform;

/// Returns the platform that the value names, without white space round it.
pub fn platform_of(value: &str) -> Option<BuildPlatform>
    ensures value { result ≡ platform_in value.now }
    ensures named { MatchOption result ((p : BuildPlatform) → Names value.now p → ⊥) (Names value.now) }
{
    match value.trim() {
        "host" => Some(BuildPlatform::Host),
        "target" => Some(BuildPlatform::Target),
        _ => None,
    }
}
