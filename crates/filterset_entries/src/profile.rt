//! The texts of a profile, which are its default filter and the filters of its overrides, and the keys that it sets.
ghost use Rattle.std.specs.Prelude.{◌≡◌, ◌++◌, IfOk, codes, map, option_map, position, string_bytes};
ghost use Rattle.std.specs.{List.AllZip, Str.bytes_eq};
ghost use Rattle.filterset_entries.specs.{Checked.text_row, Entries.given_row, Profile.IsChosen, Profile.IsEntryOf, Profile.IsProfileOf, Profile.row_at};

use crate::entries::{ConfiguredTexts, default_entry, place_at};
use crate::setting::OverrideEntry;
use crate::text::TextEntry;
use filterset_configuration::{DefaultFilter, Profile, RankedOverride};
use filterset_overrides::AskedProfile;
use filterset_sources::ConfiguredFilterset;
use nextest_filtering::FiltersetKind;
use std::alloc::{AllocError, Global};

/// Returns the position of the filterset at a path.
fn position_of(filtersets: &[ConfiguredFilterset], path: &str) -> Option<usize>
    ensures { result ≡ position (λ f. bytes_eq (string_bytes f.path) path.now) filtersets.now }
{
    filtersets
        .iter()
        .position(|filterset| filterset.path.as_str() == path)
}

/// Makes the entry of a text that a configuration has at a path, with its place in the file, if that was found.
pub fn entry_at<'t>(
    configured: ConfiguredTexts<'t>,
    path: String,
    kind: FiltersetKind,
    text: &'t str,
) -> TextEntry<'t>
    ensures { text_row result ≡ row_at configured.entry (string_bytes path) kind text.entry.now }
{
    let place = match position_of(configured.filtersets, path.as_str()) {
        Some(at) => place_at(configured, at),
        None => None,
    };
    TextEntry {
        place,
        origin: path,
        kind,
        text,
    }
}

/// Makes the entry of an override's filter, if it has one.
fn filter_entry<'t>(
    alloc: Global,
    configured: ConfiguredTexts<'t>,
    ranked: &'t RankedOverride<'t>,
) -> Result<Option<TextEntry<'t>>, AllocError>
    ensures { IfOk result (λ entry. option_map text_row entry ≡ option_map (λ f.
        row_at configured.entry (string_bytes ranked.entry.now.path ++ codes ".filter") FiltersetKind.OverrideFilter (string_bytes f))
        ranked.entry.now.read.now.filter) }
{
    let Some(text) = &ranked.read.filter else {
        return Ok(None);
    };
    let path = ranked.path.as_str();
    let path = format!(in alloc; "{path}.filter")?;
    let kind = FiltersetKind::OverrideFilter;
    Ok(Some(entry_at(configured, path, kind, text.as_str())))
}

/// Makes the entry of an override.
fn override_entry<'t>(
    alloc: Global,
    configured: ConfiguredTexts<'t>,
    ranked: &'t RankedOverride<'t>,
) -> Result<OverrideEntry<'t>, AllocError>
    ensures { IfOk result (IsEntryOf configured.entry ranked.entry.now) }
{
    let filter = filter_entry(alloc, configured, ranked)?;
    let read = ranked.read;
    Ok(OverrideEntry {
        path: ranked.path.as_str(),
        filter,
        for_target: ranked.for_target,
        for_host: ranked.for_host,
        group: read.test_group.as_deref(),
        settings: read.settings.as_slice(),
    })
}

/// Makes an entry of each override, whatever it sets: nextest compiles the filter of each.
pub fn override_entries<'t>(
    alloc: Global,
    configured: ConfiguredTexts<'t>,
    ranked: &'t [RankedOverride<'t>],
) -> Result<Vec<OverrideEntry<'t>>, AllocError>
    ensures { IfOk result (λ entries. AllZip (IsEntryOf configured.entry) ranked.entry.now entries.items) }
{
    let mut entries = Vec::with_capacity(alloc, ranked.len())?;
    for one in ranked {
        entries.push(override_entry(alloc, configured, one)?)?;
    }
    Ok(entries)
}

/// Returns each profile with the keys that it sets.
pub fn asked_profiles<'t>(
    alloc: Global,
    profiles: &[&'t Profile],
) -> Result<Vec<AskedProfile<'t>>, AllocError>
    ensures { IfOk result (λ asked. AllZip IsProfileOf (map (λ p. p.now) profiles.now) asked.items) }
{
    let mut asked = Vec::with_capacity(alloc, profiles.len())?;
    for profile in profiles {
        asked.push(AskedProfile {
            name: profile.name.as_str(),
            settings: profile.settings.as_slice(),
        })?;
    }
    Ok(asked)
}

/// What is known of a default filter.
#[derive(Drop)]
pub enum ChosenFilter<'t> {
    Entry(TextEntry<'t>),
    /// It depends on the platform of the override at this path.
    Unknown(String),
}

/// Makes the entry of the default filter that is given, or else of the profile's.
pub fn choose<'t>(
    alloc: Global,
    texts: ConfiguredTexts<'t>,
    given: Option<&'t str>,
    filter: DefaultFilter<'t>,
) -> Result<ChosenFilter<'t>, AllocError>
    ensures { IfOk result (IsChosen texts.entry (given_row given.entry) filter.entry) }
{
    if let Some(text) = given {
        return Ok(ChosenFilter::Entry(default_entry(alloc, text)?));
    }
    match filter {
        DefaultFilter::Set { path, text } => {
            let entry = entry_at(texts, path, FiltersetKind::DefaultFilter, text);
            Ok(ChosenFilter::Entry(entry))
        }
        DefaultFilter::Unknown { path } => Ok(ChosenFilter::Unknown(path)),
        DefaultFilter::All => Ok(ChosenFilter::Entry(default_entry(alloc, "all()")?)),
    }
}
