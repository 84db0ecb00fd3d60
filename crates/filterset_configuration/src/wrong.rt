//! Values of a configuration that are wrong.
ghost use Rattle.std.specs.Prelude.{◌≡◌};
ghost use Rattle.filterset_configuration.specs.Wrong.{expected};

use crate::place::Place;

/// What a value of a profile is to be.
#[derive(Clone, Copy, Debug, PartialEq, Eq)]
pub enum ValueRole {
    /// The profile that a profile falls back on.
    Parent,
    /// The same, of the profile at this position: it must not lead back there.
    NoCircle(usize),
    /// The group that an override puts its tests in.
    Group,
    /// A platform that an override is for.
    Platform,
    /// One of these, and it is no text.
    NoText,
    /// An override that has neither `filter` nor `platform`.
    ForNothing,
    /// An override that has both `filter` and `default-filter`.
    ForBoth,
    /// A profile whose name is reserved.
    ReservedProfile,
    /// A group whose name is reserved.
    ReservedGroup,
}

impl ValueRole {
    /// Returns what such a value must be, as it goes after "must be".
    pub(crate) fn expected(self) -> &'static str
        ensures { result.now ≡ expected self }
    {
        match self {
            ValueRole::Parent => "`default`, `default-miri` or a key of `[profile]`",
            ValueRole::NoCircle(_) => "a profile that does not fall back on this one",
            ValueRole::Group => "`@global` or a key of `[test-groups]`",
            ValueRole::Platform => "a triple, or `cfg(..)`",
            ValueRole::NoText => "a text",
            ValueRole::ForNothing => "an override with `filter` or `platform`",
            ValueRole::ForBoth => "an override without `filter` or without `default-filter`",
            ValueRole::ReservedProfile => "a name that does not begin with `default-`",
            ValueRole::ReservedGroup => "a name that does not begin with `@`",
        }
    }
}

/// A value of a profile.
#[derive(Debug, Drop)]
pub(crate) struct ProfileValue {
    /// The path to it, as `profile.ci.overrides[2].test-group`.
    pub path: String,
    pub role: ValueRole,
    /// Empty if the value is no text.
    pub text: String,
}

/// A value of a configuration that is wrong.
#[derive(Debug, Drop)]
pub struct WrongValue {
    /// The path to it, as `profile.ci.overrides[2].test-group`.
    pub path: String,
    /// What it must be, as it goes after "must be".
    pub expected: &'static str,
    /// Empty if the value is no text.
    pub text: String,
    /// Where the text is in the file, if it was found.
    pub place: Option<Place>,
}
