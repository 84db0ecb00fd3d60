//! Profiles by name: `@ci` stands for the default filter of the profile `ci`.
ghost use Rattle.std.specs.Prelude.{◌≡◌, ◌≢◌, ◌++◌, ◌∷◌, [], IfErr, IfOk, MatchOption, OnOk, codes, map};
ghost use Rattle.filterset_entries.specs.Checked.{text_row};
ghost use Rattle.filterset_display.specs.Columns.{Text};
ghost use Rattle.filterset_faults.specs.declared.kind.FiltersetKind.TheVariants as kinds;
ghost use Rattle.filterset_verdicts.specs.Deciding.{AreResolved, IsDefaultKind, IsFilterOf, LacksAny, LacksOwn, ResolvesTo, outcome_of};
ghost use Rattle.filterset_loading.specs.{Configurations.LacksProfile, Files.OrMemory};

use filterset_configuration::{default_filter, rank_overrides};
use filterset_entries::{ChosenFilter, ConfiguredTexts, TextEntry, choose};
use filterset_loading::{CommandFault, KnownProfiles, lineage_of};
use std::alloc::{AllocError, Global};

/// What texts stand for.
#[derive(Drop)]
pub enum ResolvedEntries<'t> {
    Entries(Vec<TextEntry<'t>>),
    /// One is a default filter that depends on the platform of the override at this path.
    Unknown(String),
}

/// Returns the name of the profile that a text names.
fn profile_name(text: &str) -> Option<&str>
    ensures { MatchOption result ((name : Text) → text.entry.now ≢ codes "@" ++ name)
        (λ name. text.entry.now ≡ codes "@" ++ name.now) }
{
    text.strip_prefix('@')
}

/// Returns the default filter of the profile with this name.
#[tactic(auto, using(crate::proofs::NamingLemmas::chosen_outcome, crate::proofs::NamingLemmas::chosen_kind))]
pub fn filter_of<'p>(
    alloc: Global,
    known: &'p KnownProfiles<'_>,
    texts: ConfiguredTexts<'p>,
    name: &str,
) -> Result<ChosenFilter<'p>, CommandFault>
    ensures found { IfOk result (λ filter.
        IsFilterOf known.entry.now texts.entry name.now (outcome_of filter)) }
    ensures kind { IfOk result IsDefaultKind }
    ensures missing { IfErr result (OrMemory (LacksProfile known.entry.now.request.configuration.now
        name.now known.entry.now.profiles.items)) }
{
    let (path, profiles) = (known.request.configuration, known.profiles.as_slice());
    let lineage = lineage_of(alloc, path, name, profiles)?;
    let lineage = lineage.as_slice();
    let platforms = &known.platforms;
    let ranked = rank_overrides(alloc, lineage, &platforms.host, &platforms.target)?;
    let filter = default_filter(alloc, lineage, ranked.as_slice())?;
    Ok(choose(alloc, texts, None, filter)?)
}

/// Returns what a text stands for: the default filter of the profile that it names, or itself.
pub fn resolve<'p>(
    alloc: Global,
    known: &'p KnownProfiles<'_>,
    texts: ConfiguredTexts<'p>,
    entry: TextEntry<'p>,
) -> Result<ChosenFilter<'p>, CommandFault>
    ensures found { IfOk result (λ filter.
        ResolvesTo known.entry.now texts.entry (text_row entry.entry) (outcome_of filter)) }
    ensures kind { entry.entry.kind ≡ kinds.DefaultFilter → IfOk result IsDefaultKind }
    ensures missing { IfErr result (OrMemory (LacksOwn known.entry.now.request.configuration.now
        known.entry.now.profiles.items (text_row entry.entry))) }
{
    match profile_name(entry.text) {
        Some(name) => filter_of(alloc, known, texts, name),
        None => Ok(ChosenFilter::Entry(entry)),
    }
}

/// Adds an entry.
fn push_entry<'p>(entries: &mut Vec<TextEntry<'p>>, entry: TextEntry<'p>) -> Result<(), AllocError>
    ensures { OnOk result (entries.new.items ≡ entries.old.items ++ entry.entry ∷ []) }
{
    entries.push(entry)?;
    Ok(())
}

/// Returns what texts stand for.
pub fn resolve_entries<'p>(
    alloc: Global,
    known: &'p KnownProfiles<'_>,
    texts: ConfiguredTexts<'p>,
    entries: Vec<TextEntry<'p>>,
) -> Result<ResolvedEntries<'p>, CommandFault>
    ensures found { IfOk result (λ resolved.
        AreResolved known.entry.now texts.entry (map text_row entries.entry.items) resolved) }
    ensures missing { IfErr result (OrMemory (LacksAny known.entry.now.request.configuration.now
        known.entry.now.profiles.items (map text_row entries.entry.items))) }
{
    let mut resolved = Vec::with_capacity(alloc, entries.len())?;
    for entry in entries {
        match resolve(alloc, known, texts, entry)? {
            ChosenFilter::Entry(entry) => push_entry(&mut resolved, entry)?,
            ChosenFilter::Unknown(path) => return Ok(ResolvedEntries::Unknown(path)),
        }
    }
    Ok(ResolvedEntries::Entries(resolved))
}
