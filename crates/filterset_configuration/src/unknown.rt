//! Finds keys of a configuration that are not read, and are near one that is.
ghost use Rattle.std.specs.Prelude.{◌≡◌, ◌++◌, IfOk, IfSome, IsTrue, List, OnOk, Some, codes, length};
ghost use Rattle.std.specs.Bool.{OnTrue};
ghost use Rattle.toml.specs.Data.{Data};
ghost use Rattle.filterset_sources.specs.Configurations.{IsFile};
ghost use Rattle.filterset_configuration.specs.Keys.{AreUnknownKeys, Finds, IsKeyPlace, Judged, found_keys, is_renamed, key_row, key_rows};
ghost use Rattle.filterset_configuration.specs.declared.unknown.UnknownKey.{UnknownKey};

use crate::edits::meant_among;
use crate::keys::{FoundKey, found_keys, names_of};
use crate::string::is_same;
use filterset_faults::SourceSpan;
use filterset_json::{Step, step_text};
use filterset_sources::{ParsedText, SourceRefusal, file_of};
use std::alloc::{AllocError, Global};

/// A key of a configuration that is not read, and is near one that is.
#[derive(Debug, Drop)]
pub struct UnknownKey {
    /// The path to it, as `profile.ci.overrides[2].fliter`.
    pub path: String,
    pub key: String,
    /// The key that is read.
    pub meant: &'static str,
    /// Where the key is in the file, if it was found.
    pub span: Option<SourceSpan>,
}

/// How many unknown keys of a file are looked for in it.
const PLACED_KEYS: usize = 32;

/// How many bytes may be parsed to find each of them: no file that is longer is searched.
const PARSED_BYTES: usize = 1 << 20;

/// Returns whether a byte may be in a key without quotes.
fn is_bare(byte: &u8) -> bool {
    byte.is_ascii_alphanumeric() || matches!(*byte, b'-' | b'_')
}

/// Returns what is before and after a key at an offset of a text, if the key is there and is no part of a longer one.
fn split_around<'t>(text: &'t str, at: usize, key: &str) -> Option<(&'t str, &'t str)>
    ensures text { IfSome result (λ parts. text.now ≡ parts.0.now ++ (key.now ++ parts.1.now)) }
    ensures offset { IfSome result (λ parts. length parts.0.now ≡ at) }
{
    let (before, rest) = text.split_at_checked(at)?;
    let (found, after) = rest.split_at_checked(key.len())?;
    if !is_same(found, key)
        || before.as_bytes().last().is_some_and(is_bare)
        || after.as_bytes().first().is_some_and(is_bare)
    {
        return None;
    }
    Some((before, after))
}

/// Returns whether one of these keys is in the table of `found`, and is its key with a letter after it.
fn is_renamed(keys: &[FoundKey<'_>], found: &FoundKey<'_>, renamed: &str) -> bool
    requires { renamed.now ≡ found.now.key.now ++ codes "_" }
    ensures { result ≡ is_renamed (key_rows keys.now) (key_row found.now) }
{
    keys.iter().any(|other| other.prefix == found.prefix && other.key == renamed)
}

/// Returns whether a text is a file that has the key with a letter after it.
fn reads_renamed(
    alloc: Global,
    text: &str,
    found: &FoundKey<'_>,
    renamed: &str,
) -> Result<bool, AllocError>
    requires { renamed.now ≡ found.now.key.now ++ codes "_" }
    ensures { IfOk result (λ is. OnTrue is ((file : Data) × IsFile text.now file
        × IsTrue (is_renamed (found_keys file) (key_row found.now)))) }
{
    match file_of(alloc, text) {
        Ok(file) => {
            let keys = found_keys(alloc, &file)?;
            Ok(is_renamed(keys.as_slice(), found, renamed))
        }
        Err(SourceRefusal::OutOfMemory(refused)) => Err(refused),
        Err(_) => Ok(false),
    }
}

/// Looks for the place of a key, at which a letter after it makes a file with the other key. The key is the unknown one of
/// this number, from 0.
fn place_of(
    alloc: Global,
    text: &str,
    keys: &[FoundKey<'_>],
    found: &FoundKey<'_>,
    number: usize,
) -> Result<Option<SourceSpan>, AllocError>
    ensures { IfOk result (λ o. IfSome o (IsKeyPlace text.now (key_rows keys.now) (key_row found.now))) }
{
    let renamed = format!(in alloc; "{}_", found.key)?;
    let mut left = PARSED_BYTES;
    if number >= PLACED_KEYS || left < text.len() || is_renamed(keys, found, renamed.as_str()) {
        return Ok(None);
    }
    for at in 0..text.len() {
        let Some((before, after)) = split_around(text, at, found.key) else {
            continue;
        };
        if left < text.len() {
            return Ok(None);
        }
        left -= text.len();
        let made = format!(in alloc; "{before}{renamed}{after}")?;
        if reads_renamed(alloc, made.as_str(), found, renamed.as_str())? {
            return Ok(Some(SourceSpan::new(at, found.key.len())));
        }
    }
    Ok(None)
}

/// Adds a key of a file, if it is meant for a name that is read in its table.
fn push_unknown(
    output: &mut Vec<UnknownKey>,
    alloc: Global,
    text: &str,
    keys: &[FoundKey<'_>],
    found: &FoundKey<'_>,
) -> Result<(), AllocError>
    ensures { OnOk result ((front : List UnknownKey) × (output.new.items ≡ output.old.items ++ front)
        × Judged text.now (key_rows keys.now) 0 (key_row found.now) front) }
{
    let Some(meant) = meant_among(names_of(found.kind), found.key) else {
        return Ok(());
    };
    let key = step_text(alloc, Step::Key(found.key))?;
    let unknown = UnknownKey {
        path: format!(in alloc; "{}{key}", found.prefix)?,
        key: String::from_str(alloc, found.key)?,
        meant,
        span: place_of(alloc, text, keys, found, output.len())?,
    };
    output.push(unknown)?;
    Ok(())
}

/// Finds the keys of a configuration that are not read, and are within two edits of one that is read in the same table: of the
/// file, of a profile, and of the items of its lists `overrides` and `scripts`.
///
/// Each place is right. That each key has one is tested only. Returns an error only if out of memory.
pub fn find_unknown_keys(
    alloc: Global,
    parsed: ParsedText<'_>,
) -> Result<Vec<UnknownKey>, AllocError>
    ensures { IfOk result (λ unknown. AreUnknownKeys parsed.entry.text.now unknown.items) }
{
    let text = parsed.text;
    let all = found_keys(alloc, parsed.file)?;
    let keys = all.as_slice();
    let mut unknown = Vec::new(alloc);
    for found in keys {
        push_unknown(&mut unknown, alloc, text, keys, found)?;
    }
    Ok(unknown)
}
