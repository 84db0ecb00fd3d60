//! Finds the values of profiles that are checked.
ghost use Rattle.std.specs.Prelude.{◌≡◌, ◌∷◌, [], IfOk, OnOk, string_bytes};
ghost use Rattle.toml.specs.View.{view};
ghost use Rattle.filterset_configuration.specs.Wrong.{Adds, circle_values, name_values, override_values, own_values, platform_values, row, text_row, value_rows, value_under, values_of};
ghost use Rattle.filterset_sources.specs.Sections.{members_under};

use crate::names::is_reserved;
use crate::overrides::shape_of;
use crate::wrong::{ProfileValue, ValueRole};
use filterset_json::{Step, step_text};
use filterset_sources::{Section, SectionKind, sections_of, table_under};
use std::alloc::{AllocError, Global};
use toml::Value;

/// The values that were found so far.
#[derive(Drop)]
struct Walk {
    alloc: Global,
    values: Vec<ProfileValue>,
}

impl Walk {
    /// Adds a value.
    fn push(&mut self, path: String, role: ValueRole, text: &str) -> Result<(), AllocError>
        ensures { OnOk result (Adds (row (string_bytes path) role text.now ∷ []) self.old self.new) }
    {
        let text = String::from_str(self.alloc, text)?;
        self.values.push(ProfileValue { path, role, text })?;
        Ok(())
    }

    /// Adds the value at `path`, which is to be a text.
    fn push_text(&mut self, path: String, role: ValueRole, value: &Value) -> Result<(), AllocError>
        ensures { OnOk result (Adds (text_row (string_bytes path) role (view value.now) ∷ []) self.old self.new) }
    {
        match value.as_str() {
            Some(text) => self.push(path, role, text),
            None => self.push(path, ValueRole::NoText, ""),
        }
    }

    /// Adds the value under a key of the value at `path`, if there is one.
    fn push_under(
        &mut self,
        path: &str,
        key: &str,
        role: ValueRole,
        value: &Value,
    ) -> Result<(), AllocError>
        ensures { OnOk result (Adds (value_under path.now key.now role (view value.now)) self.old self.new) }
    {
        match value.get(key) {
            Some(found) => self.push_text(format!(in self.alloc; "{path}.{key}")?, role, found),
            None => Ok(()),
        }
    }

    /// Adds the platforms of the override at `path`, which are a text, or the parts of a table.
    fn push_platforms(&mut self, path: &str, value: &Value) -> Result<(), AllocError>
        ensures { OnOk result (Adds (platform_values path.now (view value.now)) self.old self.new) }
    {
        let Some(found) = value.get("platform") else {
            return Ok(());
        };
        let path = format!(in self.alloc; "{path}.platform")?;
        if !found.is_table() {
            return self.push_text(path, ValueRole::Platform, found);
        }
        self.push_under(path.as_str(), "host", ValueRole::Platform, found)?;
        self.push_under(path.as_str(), "target", ValueRole::Platform, found)
    }

    /// Adds the values of the override at `path`, and itself, if its keys are wrong.
    fn push_override(&mut self, path: &str, value: &Value) -> Result<(), AllocError>
        ensures { OnOk result (Adds (override_values path.now (view value.now)) self.old self.new) }
    {
        self.push_under(path, "test-group", ValueRole::Group, value)?;
        self.push_platforms(path, value)?;
        match shape_of(value) {
            Some(role) => self.push(String::from_str(self.alloc, path)?, role, ""),
            None => Ok(()),
        }
    }

    /// Adds the name that the profile at `path`, which has this position, inherits from.
    fn push_circle(&mut self, path: &str, at: usize, value: &Value) -> Result<(), AllocError>
        ensures { OnOk result (Adds (circle_values path.now at (view value.now)) self.old self.new) }
    {
        let Some(found) = value.get("inherits") else {
            return Ok(());
        };
        match found.as_str() {
            Some(name) => {
                let path = format!(in self.alloc; "{path}.inherits")?;
                self.push(path, ValueRole::NoCircle(at), name)
            }
            None => Ok(()),
        }
    }

    /// Adds the values of a section.
    fn push_section(&mut self, section: &Section<'_>) -> Result<(), AllocError>
        ensures { OnOk result (Adds (own_values section.now.kind (string_bytes section.now.path) (view section.now.value.now))
            self.old self.new) }
    {
        let (path, value) = (section.path.as_str(), section.value);
        match section.kind {
            SectionKind::Profile(at) => {
                self.push_under(path, "inherits", ValueRole::Parent, value)?;
                self.push_circle(path, at, value)
            }
            SectionKind::Override => self.push_override(path, value),
            _ => Ok(()),
        }
    }

    /// Adds the members of the table under a key of a file whose names are reserved.
    fn push_reserved(&mut self, file: &Value, key: &str, role: ValueRole) -> Result<(), AllocError>
        ensures { OnOk result (Adds (name_values key.now role (members_under key.now (view file.now)))
            self.old self.new) }
    {
        let Some(members) = table_under(file, key) else {
            return Ok(());
        };
        for (name, _value) in members.iter() {
            if !is_reserved(role, name.as_str()) {
                continue;
            }
            let name = step_text(self.alloc, Step::Key(name.as_str()))?;
            self.push(format!(in self.alloc; "{key}.{name}")?, role, "")?;
        }
        Ok(())
    }
}

/// Returns the values of a file's profiles that are checked, and its reserved names.
pub(crate) fn values_of(alloc: Global, file: &Value) -> Result<Vec<ProfileValue>, AllocError>
    ensures { IfOk result (λ values. value_rows values.items ≡ values_of (view file.now)) }
{
    let values = Vec::new(alloc);
    let mut walk = Walk { alloc, values };
    let sections = sections_of(alloc, file)?;
    for section in &sections {
        walk.push_section(section)?;
    }
    walk.push_reserved(file, "profile", ValueRole::ReservedProfile)?;
    walk.push_reserved(file, "test-groups", ValueRole::ReservedGroup)?;
    Ok(walk.values)
}
