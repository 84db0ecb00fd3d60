//! Paths to profiles and overrides.
ghost use Rattle.std.specs.Prelude.{◌≡◌, IfOk, string_bytes};
ghost use Rattle.filterset_configuration.specs.Paths.{override_path, profile_path};

use filterset_json::{Step, step_text};
use std::alloc::{AllocError, Global};

/// Returns the path to the profile of a name, as `profile.ci`.
pub(crate) fn profile_path(alloc: Global, name: &str) -> Result<String, AllocError>
    ensures { IfOk result (λ text. string_bytes text ≡ profile_path name.now) }
{
    let key = step_text(alloc, Step::Key(name))?;
    format!(in alloc; "profile.{key}")
}

/// Returns the path to the override at a position of the profile at `path`.
pub(crate) fn override_path(alloc: Global, path: &str, at: usize) -> Result<String, AllocError>
    ensures { IfOk result (λ text. string_bytes text ≡ override_path path.now at) }
{
    format!(in alloc; "{path}.overrides[{at}]")
}
