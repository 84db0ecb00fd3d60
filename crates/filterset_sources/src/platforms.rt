//! Reads for which platforms `cargo nextest list --message-format json` built its tests.
ghost use Rattle.std.specs.Prelude.{◌≡◌, Option, IfErr, IfOk, map, option_map, string_bytes};
ghost use Rattle.serde_json.specs.View.{view};
ghost use Rattle.filterset_json.specs.{Places.Names, Refusals.Refuses as RefusesEntry};
ghost use Rattle.filterset_sources.specs.Platforms.{ArePlatforms, AreListed, GivenAt, WrongAt, WrongPlatforms};
ghost use Rattle.filterset_sources.specs.Refusals.{Refuses};

use crate::refusal::SourceRefusal;
use filterset_json::{Entry, EntryRefusal, Step, required};
use serde_json::Value;
use std::alloc::{AllocError, Global};

/// The platforms of a build by their triples, as far as the list has them.
#[derive(Debug, Drop)]
pub struct BuildPlatforms {
    /// The platform that ran the build.
    pub host: Option<String>,
    /// The platform that tests were built for.
    pub target: Option<String>,
}

/// The triple of a platform.
#[derive(Drop)]
struct Triple(String);

impl Entry for Triple {
    ghost use Rattle.std.specs.Prelude.{string_bytes};
    ghost use Rattle.filterset_json.specs.Shape.{Text};
    ghost use Rattle.filterset_sources.specs.Platforms.{HasTriple, WrongTriple};

    ghost Row = { Text };

    ghost row_of = { λ triple. string_bytes triple.0 };

    ghost stands_for = { HasTriple };

    ghost is_wrong = { WrongTriple };

    const EXPECTED: &'static str = "an object";

    fn read(alloc: Global, value: &Value) -> Result<Triple, EntryRefusal> {
        Ok(Triple(required(alloc, value, "triple")?))
    }
}

/// The triple of the platform of a host or a target.
#[derive(Drop)]
struct PlatformTriple(String);

impl Entry for PlatformTriple {
    ghost use Rattle.std.specs.Prelude.{string_bytes};
    ghost use Rattle.filterset_json.specs.Shape.{Text};
    ghost use Rattle.filterset_sources.specs.Platforms.{HasPlatform, WrongPlatform};

    ghost Row = { Text };

    ghost row_of = { λ triple. string_bytes triple.0 };

    ghost stands_for = { HasPlatform };

    ghost is_wrong = { WrongPlatform };

    const EXPECTED: &'static str = "an object";

    fn read(alloc: Global, value: &Value) -> Result<PlatformTriple, EntryRefusal> {
        Ok(PlatformTriple(required::<Triple>(alloc, value, "platform")?.0))
    }
}

/// Reads the entry at the end of `keys`, each of which is one of the value before. There is none if a key is missing, or if
/// the value is null.
fn given_at<T: Entry>(
    alloc: Global,
    value: &Value,
    keys: &[&str],
) -> Result<Option<T>, EntryRefusal>
    ensures read { IfOk result
        (λ found. GivenAt (map (λ k. k.now) keys.now) T.stands_for (view value.now) (option_map T.row_of found)) }
    ensures refused { IfErr result (RefusesEntry ((found : Option T.Row)
        × GivenAt (map (λ k. k.now) keys.now) T.stands_for (view value.now) found)) }
    ensures place { IfErr result (Names (WrongAt (map (λ k. k.now) keys.now) T.is_wrong (view value.now))) }
{
    let [key, rest @ ..] = keys else {
        return Entry::read(alloc, value);
    };
    let Some(found) = value.get(*key) else {
        return Ok(None);
    };
    match given_at(alloc, found, rest) {
        Ok(entry) => Ok(entry),
        Err(refusal) => Err(refusal.after(alloc, Step::Key(*key))),
    }
}

/// What a list has of platforms.
#[derive(Drop)]
struct ListedPlatforms {
    host: Option<PlatformTriple>,
    targets: Option<Vec<PlatformTriple>>,
    /// The targets, as older lists have them.
    older: Option<Vec<Triple>>,
    /// The target, as still older lists have it.
    oldest: Option<String>,
}

impl ListedPlatforms {
    ghost use Rattle.std.specs.Prelude.{◌≡◌, option_map, string_bytes};
    ghost use Rattle.filterset_sources.specs.Platforms.{host_row, older_target, target_row};

    /// Returns the triple of the host.
    fn host(&self) -> Option<&str>
        ensures { option_map (λ t. t.now) result ≡ host_row self.now }
    {
        match &self.host {
            Some(PlatformTriple(triple)) => Some(triple.as_str()),
            None => None,
        }
    }

    /// Returns the triple of the only target, which is the host if the list has no targets.
    fn target(&self) -> Option<&str>
        ensures { option_map (λ t. t.now) result ≡ target_row self.now }
    {
        let Some(targets) = &self.targets else {
            return self.older_target();
        };
        match targets.as_slice() {
            [] => self.host(),
            [PlatformTriple(triple)] => Some(triple.as_str()),
            [..] => None,
        }
    }

    /// Returns the triple of the only target of an older list.
    fn older_target(&self) -> Option<&str>
        ensures { option_map (λ t. t.now) result ≡ older_target self.now }
    {
        let oldest = match &self.oldest {
            Some(triple) => Some(triple.as_str()),
            None => None,
        };
        let Some(targets) = &self.older else {
            return oldest;
        };
        match targets.as_slice() {
            [] => oldest,
            [Triple(triple)] => Some(triple.as_str()),
            [..] => None,
        }
    }
}

/// Reads what a list has of platforms.
fn read_listed(alloc: Global, list: &Value) -> Result<ListedPlatforms, EntryRefusal>
    ensures read { IfOk result (AreListed (view list.now)) }
    ensures place { IfErr result (Names (WrongPlatforms (view list.now))) }
{
    Ok(ListedPlatforms {
        host: given_at(alloc, list, &["rust-build-meta", "platforms", "host"])?,
        targets: given_at(alloc, list, &["rust-build-meta", "platforms", "targets"])?,
        older: given_at(alloc, list, &["rust-build-meta", "target-platforms"])?,
        oldest: given_at(alloc, list, &["rust-build-meta", "target-platform"])?,
    })
}

/// Copies a text, if there is one.
fn copy(alloc: Global, text: Option<&str>) -> Result<Option<String>, AllocError>
    ensures { IfOk result (λ copied. option_map (λ s. string_bytes s) copied ≡ option_map (λ t. t.now) text.entry) }
{
    match text {
        Some(text) => Ok(Some(String::from_str(alloc, text)?)),
        None => Ok(None),
    }
}

/// Reads for which platforms `cargo nextest list --message-format json` built its tests. If it names no target, the target
/// is the host; if it names several, or is too old to name the host, that is not known.
pub fn read_platforms(alloc: Global, list: &Value) -> Result<BuildPlatforms, SourceRefusal>
    ensures read { IfOk result (ArePlatforms (view list.now)) }
    ensures refused { IfErr result (Refuses (WrongPlatforms (view list.now))) }
{
    let listed = read_listed(alloc, list)?;
    Ok(BuildPlatforms {
        host: copy(alloc, listed.host())?,
        target: copy(alloc, listed.target())?,
    })
}
