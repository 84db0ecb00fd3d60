//! Lists the keys of a configuration.
ghost use Rattle.std.specs.Prelude.{◌≡◌, ◌++◌, IfOk, OnOk, map, string_bytes};
ghost use Rattle.toml.specs.View.{view};
ghost use Rattle.filterset_configuration.specs.Keys.{found_keys, key_rows, names_of, prefix_of, section_keys};
ghost use Rattle.filterset_sources.specs.Sections.{section_row};

use filterset_sources::{Section, SectionKind, sections_of};
use std::alloc::{AllocError, Global};
use toml::Value;

/// Returns the keys that are read by their names. No other key that nextest knows in such a section is within three edits of
/// one of them.
pub(crate) fn names_of(kind: SectionKind) -> &'static [&'static str]
    ensures { map (λ n. n.now) result.now ≡ names_of kind }
{
    match kind {
        SectionKind::File => &["profile", "test-groups"],
        SectionKind::Profile(_) => &["default-filter", "inherits", "overrides", "scripts"],
        SectionKind::Override => &["filter", "platform", "default-filter", "test-group"],
        SectionKind::Script => &["filter", "platform"],
        _ => &[],
    }
}

/// A key of a section.
#[derive(Drop)]
pub(crate) struct FoundKey<'f> {
    pub kind: SectionKind,
    /// What is before the key in its path, as `profile.ci.overrides[2].`.
    pub prefix: String,
    pub key: &'f str,
}

/// Returns what is before a key of a section in the key's path.
fn prefix_of(alloc: Global, section: &Section<'_>) -> Result<String, AllocError>
    ensures { IfOk result (λ prefix. string_bytes prefix
        ≡ prefix_of section.now.kind (string_bytes section.now.path)) }
{
    match section.kind {
        SectionKind::File => Ok(String::new(alloc)),
        _ => format!(in alloc; "{}.", section.path),
    }
}

/// Adds the keys of a section, if it is a table.
fn push_keys<'f>(
    output: &mut Vec<FoundKey<'f>>,
    alloc: Global,
    section: &Section<'f>,
) -> Result<(), AllocError>
    ensures { OnOk result (key_rows output.new.items
        ≡ key_rows output.old.items ++ section_keys (section_row section.now)) }
{
    let (kind, value) = (section.kind, section.value);
    let Some(members) = value.as_table() else {
        return Ok(());
    };
    for (key, _value) in members.iter() {
        let (prefix, key) = (prefix_of(alloc, section)?, key.as_str());
        output.push(FoundKey { kind, prefix, key })?;
    }
    Ok(())
}

/// Returns the keys of the tables of a file that are read.
pub(crate) fn found_keys<'f>(
    alloc: Global,
    file: &'f Value,
) -> Result<Vec<FoundKey<'f>>, AllocError>
    ensures { IfOk result (λ keys. key_rows keys.items ≡ found_keys (view file.now)) }
{
    let sections = sections_of(alloc, file)?;
    let mut output = Vec::new(alloc);
    for section in &sections {
        push_keys(&mut output, alloc, section)?;
    }
    Ok(output)
}
