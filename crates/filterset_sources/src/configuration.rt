//! Reads the filtersets and test groups of nextest's configuration.
ghost use Rattle.std.specs.Prelude.{◌≡◌, Err, IfErr, IfOk, Ok, OnOk, codes, map, string_bytes};
ghost use Rattle.toml.specs.View.{table_view, view};
ghost use Rattle.filterset_sources.specs.Configurations.{IsConfiguration, IsFile, RefusesConfiguration, RefusesToml, all_filters, configured_rows, filter_under, followed_by, key_name, keys_of, line_at, section_filters};
ghost use Rattle.filterset_sources.specs.Refusals.{Refuses};
ghost use Rattle.filterset_sources.specs.Sections.{members_under, section_row, section_rows};

use crate::refusal::SourceRefusal;
use crate::sections::{Section, SectionKind, sections_of, table_under};
use std::alloc::{AllocError, Global};
use toml::{Table, Value};

/// The key of a filterset.
#[derive(Clone, Copy, Debug)]
pub enum FilterKey {
    /// `default-filter`: the default filter of a profile.
    DefaultFilter,
    /// `filter`: which tests an override or a script is for.
    Filter,
}

impl FilterKey {
    fn as_str(self) -> &'static str
        ensures { result.now ≡ key_name self }
    {
        match self {
            FilterKey::DefaultFilter => "default-filter",
            FilterKey::Filter => "filter",
        }
    }
}

/// A filterset of a configuration.
#[derive(Debug, Drop)]
pub struct ConfiguredFilterset {
    /// The path to it, as `profile.ci.overrides[2].filter`.
    pub path: String,
    pub key: FilterKey,
    pub text: String,
}

/// The filtersets and test groups of a configuration.
#[derive(Debug, Drop)]
pub struct Configuration {
    /// The filtersets of each profile, in the order of the profiles' names: its default filter, then those of its overrides
    /// and scripts.
    pub filtersets: Vec<ConfiguredFilterset>,
    /// The names of the test groups.
    pub groups: Vec<String>,
    /// What the text was parsed as.
    pub file: Value,
}

/// The text of a configuration, and what it was parsed as.
#[derive(Clone, Copy)]
pub struct ParsedText<'t> {
    pub text: &'t str,
    pub file: &'t Value,
    ghost is_file: { IsFile text.now (view file.now) },
}

/// Adds the filterset under a key of the value at `path`, if there is one.
fn push_filter(
    output: &mut Vec<ConfiguredFilterset>,
    alloc: Global,
    path: &str,
    value: &Value,
    key: FilterKey,
) -> Result<(), SourceRefusal>
    ensures read { OnOk result (followed_by (Ok (configured_rows output.old.items)) (filter_under path.now key (view value.now))
        ≡ Ok (configured_rows output.new.items)) }
    ensures refused { IfErr result (Refuses (λ place. filter_under path.now key (view value.now) ≡ Err place)) }
{
    let name = key.as_str();
    let Some(found) = value.get(name) else {
        return Ok(());
    };
    let path = format!(in alloc; "{path}.{name}")?;
    let Some(text) = found.as_str() else {
        return Err(SourceRefusal::at(path, "a text"));
    };
    let text = String::from_str(alloc, text)?;
    output.push(ConfiguredFilterset { path, key, text })?;
    Ok(())
}

/// Adds the filtersets of a section.
fn push_section(
    output: &mut Vec<ConfiguredFilterset>,
    alloc: Global,
    section: &Section<'_>,
) -> Result<(), SourceRefusal>
    ensures read { OnOk result (followed_by (Ok (configured_rows output.old.items)) (section_filters (section_row section.now))
        ≡ Ok (configured_rows output.new.items)) }
    ensures refused { IfErr result (Refuses (λ place. section_filters (section_row section.now) ≡ Err place)) }
{
    if let Some(expected) = section.wrong_shape() {
        let path = String::from_str(alloc, section.path.as_str())?;
        return Err(SourceRefusal::at(path, expected));
    }
    let (path, value) = (section.path.as_str(), section.value);
    match section.kind {
        SectionKind::Profile(_) => {
            push_filter(output, alloc, path, value, FilterKey::DefaultFilter)
        }
        SectionKind::Override => {
            push_filter(output, alloc, path, value, FilterKey::DefaultFilter)?;
            push_filter(output, alloc, path, value, FilterKey::Filter)
        }
        SectionKind::Script => push_filter(output, alloc, path, value, FilterKey::Filter),
        _ => Ok(()),
    }
}

/// Reads the filtersets of sections.
fn filtersets_of(
    alloc: Global,
    sections: &[Section<'_>],
) -> Result<Vec<ConfiguredFilterset>, SourceRefusal>
    ensures read { IfOk result (λ read. all_filters (section_rows sections.now) ≡ Ok (configured_rows read.items)) }
    ensures refused { IfErr result (Refuses (λ place. all_filters (section_rows sections.now) ≡ Err place)) }
{
    let mut filtersets = Vec::new(alloc);
    for section in sections {
        push_section(&mut filtersets, alloc, section)?;
    }
    Ok(filtersets)
}

/// Copies the keys of a table.
fn keys_of(alloc: Global, entries: &Table) -> Result<Vec<String>, AllocError>
    ensures { IfOk result (λ keys. map (λ s. string_bytes s) keys.items ≡ keys_of (table_view entries.now)) }
{
    let mut keys = Vec::with_capacity(alloc, entries.len())?;
    for key in entries.keys() {
        keys.push(String::from_str(alloc, key.as_str())?)?;
    }
    Ok(keys)
}

/// Reads the names of the test groups of a file.
fn groups_of(alloc: Global, file: &Value) -> Result<Vec<String>, AllocError>
    ensures { IfOk result (λ names. map (λ s. string_bytes s) names.items
        ≡ keys_of (members_under (codes "test-groups") (view file.now))) }
{
    match table_under(file, "test-groups") {
        Some(groups) => keys_of(alloc, groups),
        None => Ok(Vec::new(alloc)),
    }
}

/// Returns the line of `text` that has the byte offset `at`, counted from 1.
fn line_of(text: &str, at: usize) -> usize
    ensures { result ≡ line_at text.now at }
{
    let bytes = text.as_bytes();
    let (before, _) = bytes.split_at(at.min(bytes.len()));
    before.iter().filter(|b| **b == b'\n').count() + 1
}

/// Parses a text as TOML.
pub fn file_of(alloc: Global, text: &str) -> Result<Value, SourceRefusal>
    ensures read { IfOk result (λ file. IsFile text.now (view file)) }
    ensures refused { IfErr result (RefusesToml text.now) }
{
    match toml::table_from_str(alloc, text) {
        Ok(file) => Ok(Value::Table(file)),
        Err(error) => match error.span() {
            Some(span) => Err(SourceRefusal::NotToml {
                error,
                line: line_of(text, span.start),
            }),
            None => Err(SourceRefusal::OutOfMemory(AllocError)),
        },
    }
}

/// Reads the filtersets and test groups of a configuration, as `.config/nextest.toml` has them. Ignores all other keys.
pub fn read_configuration(alloc: Global, text: &str) -> Result<Configuration, SourceRefusal>
    ensures read { IfOk result (IsConfiguration text.now) }
    ensures refused { IfErr result (RefusesConfiguration text.now) }
{
    let file = file_of(alloc, text)?;
    let filtersets = {
        let sections = sections_of(alloc, &file)?;
        filtersets_of(alloc, sections.as_slice())?
    };
    Ok(Configuration {
        filtersets,
        groups: groups_of(alloc, &file)?,
        file,
    })
}
