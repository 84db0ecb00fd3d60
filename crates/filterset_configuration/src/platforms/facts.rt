//! What is known of a platform.
ghost use Rattle.std.specs.Prelude.{◌≡◌, ◌≢◌, ◌++◌, IfErr, IfOk, MatchOption, codes, map};
ghost use Rattle.std.specs.{List.AllZip, Str.bytes_eq, Option.option_map, Str.Lines.lines};
ghost use Rattle.filterset_configuration.specs.PlatformGrammar.{IsLine};
ghost use Rattle.filterset_configuration.specs.PlatformReading.{AreSettings, Refuses};
ghost use Rattle.filterset_configuration.specs.PlatformTrees.{Setting, facts_of, setting_of};
ghost use Rattle.filterset_configuration.specs.PlatformValues.{is_set, sets};
ghost use Rattle.filterset_json.specs.Shape.{Text};

use crate::platforms::fault::CfgRefusal;
use crate::platforms::parsing::words::split_word;
use crate::platforms::settings::Cfg;
use std::alloc::{AllocError, Global};

/// What is known of a platform.
#[derive(Debug, Drop)]
pub struct PlatformFacts {
    /// Its triple, as `x86_64-unknown-linux-gnu`.
    pub triple: Option<String>,
    /// All that `rustc --print cfg` writes of it.
    pub cfg: Option<Vec<Cfg>>,
}

impl PlatformFacts {
    /// Returns whether `rustc` sets this for the platform, if that is known.
    pub(crate) fn is_set(&self, setting: &Cfg) -> Option<bool>
        ensures { result ≡ option_map (λ ts. is_set ts (setting_of setting.now)) (facts_of self.now).settings }
    {
        self.cfg
            .as_ref()
            .map(|settings| is_among(settings, setting))
    }
}

/// Returns whether a setting is one of these.
fn is_among(settings: &[Cfg], setting: &Cfg) -> bool
    ensures { result ≡ is_set (map setting_of settings.now) (setting_of setting.now) }
{
    for other in settings {
        if other.is_same(setting) {
            return true;
        }
    }
    false
}

/// Returns whether one of the settings is of this name or key.
fn sets(settings: &[Cfg], word: &str) -> bool
    ensures { result ≡ sets (map setting_of settings.now) word.now }
{
    for setting in settings {
        if setting.word() == word {
            return true;
        }
    }
    false
}

/// Reads what `rustc --print cfg` writes, a line for each setting.
///
/// Refuses a line that is neither a name nor a key with a value in quotes, and then a text without `target_arch` or
/// `target_os`, which `rustc` sets for each platform.
pub fn read_cfg(alloc: Global, text: &str) -> Result<Vec<Cfg>, CfgRefusal>
    ensures read { IfOk result (λ settings. AreSettings text.now (map setting_of settings.items)) }
    ensures refused { IfErr result (Refuses text.now) }
{
    let settings = read_lines(alloc, text)?;
    if !sets(settings.as_slice(), "target_arch") {
        return Err(CfgRefusal::Lacks("target_arch"));
    }
    if !sets(settings.as_slice(), "target_os") {
        return Err(CfgRefusal::Lacks("target_os"));
    }
    Ok(settings)
}

/// Reads a line for each setting.
fn read_lines(alloc: Global, text: &str) -> Result<Vec<Cfg>, CfgRefusal>
    ensures read { IfOk result (λ settings. AllZip IsLine (lines text.now) (map setting_of settings.items)) }
    ensures refused { IfErr result (Refuses text.now) }
{
    let mut settings = Vec::new(alloc);
    for line in text.lines() {
        let Some(setting) = read_line(alloc, line)? else {
            return Err(CfgRefusal::Line(settings.len() + 1));
        };
        settings.push(setting)?;
    }
    Ok(settings)
}

/// Reads the setting of a line, if it is one.
fn read_line(alloc: Global, line: &str) -> Result<Option<Cfg>, AllocError>
    ensures { IfOk result (λ setting. MatchOption setting ((s : Setting) → IsLine line.now s → ⊥)
        (λ s. IsLine line.now (setting_of s))) }
{
    let Some((word, rest)) = split_word(line) else {
        return Ok(None);
    };
    if rest.is_empty() {
        return Ok(Some(Cfg::Name(String::from_str(alloc, word)?)));
    }
    let Some(value) = value_behind(rest) else {
        return Ok(None);
    };
    let key = String::from_str(alloc, word)?;
    let value = String::from_str(alloc, value)?;
    Ok(Some(Cfg::KeyValue(key, value)))
}

/// Returns the value in quotes after an equals sign, if the text is that.
fn value_behind(text: &str) -> Option<&str>
    ensures { MatchOption result ((v : Text) → text.now ≢ codes "=\"" ++ (v ++ codes "\""))
        (λ v. text.now ≡ codes "=\"" ++ (v.now ++ codes "\"")) }
{
    text.strip_prefix("=\"")?.strip_suffix('"')
}
