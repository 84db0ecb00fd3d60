//! Names of profiles and of groups of tests that nextest has or reserves.
ghost use Rattle.std.specs.Prelude.{◌≡◌};
ghost use Rattle.filterset_configuration.specs.Names.{is_built_in, is_reserved};

use crate::wrong::ValueRole;

/// Returns whether nextest itself has a profile of this name.
pub(crate) fn is_built_in(name: &str) -> bool
    ensures { result ≡ is_built_in name.now }
{
    name == "default" || name == "default-miri"
}

/// Returns whether no file may have a profile, or a group of tests, of this name: tools have groups such as
/// `@tool:NAME:GROUP`.
pub(crate) fn is_reserved(role: ValueRole, name: &str) -> bool
    ensures { result ≡ is_reserved role name.now }
{
    let bytes = name.as_bytes();
    match (role, bytes.strip_prefix(b"@tool:")) {
        (ValueRole::ReservedProfile, _) => bytes.starts_with(b"default-") && !is_built_in(name),
        (_, Some(rest)) => !rest.contains(&b':'),
        (_, None) => bytes.starts_with(b"@"),
    }
}
