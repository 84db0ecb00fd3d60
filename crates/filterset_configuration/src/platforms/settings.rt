//! What `rustc` sets for a platform.
ghost use Rattle.std.specs.Prelude.{◌≡◌};
ghost use Rattle.filterset_configuration.specs.PlatformTrees.{setting_of};
ghost use Rattle.filterset_configuration.specs.PlatformValues.{same_setting, word_of};

/// Something that `rustc --print cfg` writes of a platform, and that an expression asks for.
#[derive(Debug, Drop)]
pub enum Cfg {
    /// A name, as `unix`.
    Name(String),
    /// A key and one of its values, as `target_os="linux"`.
    KeyValue(String, String),
}

impl Cfg {
    /// Returns whether the two are the same.
    pub(crate) fn is_same(&self, other: &Cfg) -> bool
        ensures { result ≡ same_setting (setting_of self.now) (setting_of other.now) }
    {
        match (self, other) {
            (Cfg::Name(name), Cfg::Name(other)) => name.as_str() == other.as_str(),
            (Cfg::KeyValue(key, value), Cfg::KeyValue(other_key, other_value)) => {
                key.as_str() == other_key.as_str() && value.as_str() == other_value.as_str()
            }
            _ => false,
        }
    }

    /// Returns its name or its key.
    pub(crate) fn word(&self) -> &str
        ensures { result.now ≡ word_of (setting_of self.now) }
    {
        match self {
            Cfg::Name(name) => name.as_str(),
            Cfg::KeyValue(key, _) => key.as_str(),
        }
    }
}
