//! Finds the sections of nextest's configuration.
ghost use Rattle.std.specs.Prelude.{◌≡◌, ◌++◌, IfOk, OnOk, codes, option_and_then, option_map};
ghost use Rattle.toml.specs.{Data.as_table, Data.get, View.table_view, View.view};
ghost use Rattle.filterset_json.specs.Paths.{key_text};
ghost use Rattle.filterset_sources.specs.Sections.{below, list_sections, member_sections, members_under, profile_sections, section_rows, sections_of, sections_under, wrong_shape};

use filterset_json::{Step, step_text};
use std::alloc::{AllocError, Global};
use toml::{Table, Value};

/// A kind of sections.
#[derive(Clone, Copy)]
pub enum SectionKind {
    File,
    /// The table of the profiles.
    Profiles,
    /// The profile at this position.
    Profile(usize),
    /// The overrides or the scripts of a profile.
    List,
    /// Settings of a profile, which may include a default filter.
    Override,
    /// Scripts of a profile that run before the tests.
    Script,
    /// The table of the test groups.
    Groups,
}

/// A section of a configuration: a value that must be a table or a list, and whose keys or items are read.
#[derive(Drop)]
pub struct Section<'f> {
    pub kind: SectionKind,
    /// The path to it, as `profile.ci.overrides[2]`; empty for the file.
    pub path: String,
    pub value: &'f Value,
}

impl Section<'_> {
    /// Returns what the section must be, as it goes after "must be", if it is not.
    pub fn wrong_shape(&self) -> Option<&'static str>
        ensures { option_map (λ t. t.now) result ≡ wrong_shape self.now.kind (view self.now.value.now) }
    {
        match self.kind {
            SectionKind::List if self.value.is_array() => None,
            SectionKind::List => Some("a list"),
            _ if self.value.is_table() => None,
            _ => Some("a table"),
        }
    }
}

/// Returns the table under a key, if there is one.
pub fn table_under<'f>(value: &'f Value, key: &str) -> Option<&'f Table>
    ensures { option_map (λ t. table_view t.now) result ≡ option_and_then as_table (get key.now (view value.now)) }
{
    match value.get(key) {
        Some(found) => found.as_table(),
        None => None,
    }
}

/// Adds the section at `path` that is under a key of a value, if there is one.
fn push_under<'f>(
    output: &mut Vec<Section<'f>>,
    alloc: Global,
    kind: SectionKind,
    path: &str,
    key: &str,
    value: &'f Value,
) -> Result<(), AllocError>
    ensures { OnOk result (section_rows output.new.items
        ≡ section_rows output.old.items ++ sections_under kind path.now key.now (view value.now)) }
{
    let Some(value) = value.get(key) else {
        return Ok(());
    };
    let path = String::from_str(alloc, path)?;
    output.push(Section { kind, path, value })?;
    Ok(())
}

/// Adds the list under a key of the profile at `prefix`, and its items, which are of this kind.
fn push_list<'f>(
    output: &mut Vec<Section<'f>>,
    alloc: Global,
    kind: SectionKind,
    prefix: &str,
    key: &str,
    profile: &'f Value,
) -> Result<(), AllocError>
    ensures { OnOk result (section_rows output.new.items
        ≡ section_rows output.old.items ++ list_sections kind (below prefix.now key.now) key.now (view profile.now)) }
{
    let path = format!(in alloc; "{prefix}.{key}")?;
    let list = path.as_str();
    push_under(output, alloc, SectionKind::List, list, key, profile)?;
    let Some(found) = profile.get(key) else {
        return Ok(());
    };
    let Some(values) = found.as_array() else {
        return Ok(());
    };
    for (at, value) in values.iter().enumerate() {
        let path = format!(in alloc; "{list}[{at}]")?;
        output.push(Section { kind, path, value })?;
    }
    Ok(())
}

/// Adds the profile of a name and position, and its lists.
fn push_profile<'f>(
    output: &mut Vec<Section<'f>>,
    alloc: Global,
    name: &str,
    at: usize,
    value: &'f Value,
) -> Result<(), AllocError>
    ensures { OnOk result (section_rows output.new.items ≡ section_rows output.old.items
        ++ profile_sections (below (codes "profile") (key_text name.now)) at (view value.now)) }
{
    let name = step_text(alloc, Step::Key(name))?;
    let path = format!(in alloc; "profile.{name}")?;
    let (kind, own_path) = (
        SectionKind::Profile(at),
        String::from_str(alloc, path.as_str())?,
    );
    output.push(Section {
        kind,
        path: own_path,
        value,
    })?;
    let path = path.as_str();
    push_list(
        output,
        alloc,
        SectionKind::Override,
        path,
        "overrides",
        value,
    )?;
    push_list(output, alloc, SectionKind::Script, path, "scripts", value)
}

/// Adds the sections of each profile of a file.
fn push_profiles<'f>(
    output: &mut Vec<Section<'f>>,
    alloc: Global,
    file: &'f Value,
) -> Result<(), AllocError>
    ensures { OnOk result (section_rows output.new.items ≡ section_rows output.old.items
        ++ member_sections 0 (members_under (codes "profile") (view file.now))) }
{
    let Some(members) = table_under(file, "profile") else {
        return Ok(());
    };
    for (at, (name, value)) in members.iter().enumerate() {
        push_profile(output, alloc, name.as_str(), at, value)?;
    }
    Ok(())
}

/// Returns the sections of a file, each before those inside it.
pub fn sections_of<'f>(alloc: Global, file: &'f Value) -> Result<Vec<Section<'f>>, AllocError>
    ensures { IfOk result (λ found. section_rows found.items ≡ sections_of (view file.now)) }
{
    let mut output = Vec::new(alloc);
    let (kind, path) = (SectionKind::File, String::new(alloc));
    output.push(Section {
        kind,
        path,
        value: file,
    })?;
    push_under(
        &mut output,
        alloc,
        SectionKind::Profiles,
        "profile",
        "profile",
        file,
    )?;
    push_profiles(&mut output, alloc, file)?;
    push_under(
        &mut output,
        alloc,
        SectionKind::Groups,
        "test-groups",
        "test-groups",
        file,
    )?;
    Ok(output)
}
