//! Answers under the profile of a configuration.
ghost use Rattle.std.specs.Prelude.{◌≡◌, ◌⊎◌, IfErr, IfOk, option_map, string_bytes};
ghost use Rattle.serde_json.specs.View.{view};
ghost use Rattle.filterset_entries.specs.Entries.{given_row};
ghost use Rattle.nextest_filtering.specs.Groups.{IsKnown};
ghost use Rattle.filterset_asking.specs.Asking.{AnswersConfigured, AnswersIn, AnswersProfile, Lacks, given_text};
ghost use Rattle.filterset_loading.specs.{Configurations.IsProfileFault, Configurations.LacksProfile, Files.OrMemory};

use crate::asking::{AskedWorkspace, ProfileSetting, ask_under};
use filterset_configuration::{default_filter, rank_overrides};
use filterset_display::Source;
use filterset_entries::{
    Answer, ChosenFilter, ConfiguredTexts, TextEntry, answer_unknown, asked_profiles, choose,
    configured_texts, override_entries,
};
use filterset_loading::{
    CommandFault, FileSource, KnownProfiles, ProfileRequest, ProfilesFile, lineage_of, name_of,
    read_profiles_file,
};
use filterset_sources::BuildPlatforms;
use nextest_filtering::KnownGroups;
use serde_json::Value;
use std::alloc::Global;

/// What is given beside a profile.
#[derive(Drop)]
pub struct Given<'g> {
    /// The default filter, in place of that of the profile.
    pub default: Option<TextEntry<'g>>,
    /// Nextest's list, if the answer has its shape.
    pub kept: Option<Value>,
}

/// Returns the text of the default filter that is given, if one is.
fn given_text<'g>(given: Option<TextEntry<'g>>) -> Option<&'g str>
    ensures { result ≡ given_text given.entry }
{
    match given {
        Some(entry) => Some(entry.text),
        None => None,
    }
}

/// Answers under the profile that is asked for.
pub fn ask_profile<'p>(
    alloc: Global,
    asked: &AskedWorkspace<'_>,
    known: &'p KnownProfiles<'_>,
    groups: &KnownGroups,
    texts: ConfiguredTexts<'p>,
    given: Given<'p>,
) -> Result<Answer, CommandFault>
    requires { IsKnown groups.now }
    ensures answered { IfOk result (λ answer. AnswersProfile (AnswersIn asked.now (option_map view given.entry.kept)) asked.now.graph.now
        (given_row (given_text given.entry.default)) known.entry.now groups.now texts.entry
        answer.ending (string_bytes answer.text)) }
    ensures missing { IfErr result (OrMemory (λ fault. Lacks asked.now fault
        ⊎ LacksProfile known.entry.now.request.configuration.now known.entry.now.request.name.now
        known.entry.now.profiles.items fault)) }
{
    let (request, profiles) = (known.request, known.profiles.as_slice());
    let lineage = lineage_of(alloc, request.configuration, request.name, profiles)?;
    let lineage = lineage.as_slice();
    let platforms = &known.platforms;
    let ranked = rank_overrides(alloc, lineage, &platforms.host, &platforms.target)?;
    let ranked = ranked.as_slice();
    let filter = default_filter(alloc, lineage, ranked)?;
    let Given { default, kept } = given;
    let text = given_text(default);
    let default = match choose(alloc, texts, text, filter)? {
        ChosenFilter::Entry(default) => default,
        ChosenFilter::Unknown(path) => return Ok(answer_unknown(alloc, path.as_str())?),
    };
    let overrides = override_entries(alloc, texts, ranked)?;
    let profiles = asked_profiles(alloc, lineage)?;
    let own = ProfileSetting {
        default,
        overrides,
        profiles,
    };
    ask_under(alloc, asked, groups, &own, kept)
}

/// Answers under the profile of the files that describe it, where the build has these platforms.
pub fn ask_configured<F: FileSource>(
    alloc: Global,
    files: &F,
    asked: &AskedWorkspace<'_>,
    profile: &ProfileRequest<'_>,
    built: BuildPlatforms,
    given: Given<'_>,
) -> Result<Answer, CommandFault>
    ensures answered { IfOk result (λ answer. AnswersConfigured (F.content files.now)
        (AnswersIn asked.now (option_map view given.entry.kept)) asked.now.graph.now (given_row (given_text given.entry.default)) profile.now built
        answer.ending (string_bytes answer.text)) }
    ensures refused { IfErr result (OrMemory (λ fault. Lacks asked.now fault
        ⊎ IsProfileFault (F.content files.now) (F.fails files.now) profile.now fault)) }
{
    let ProfilesFile {
        text,
        filtersets,
        places,
        groups,
        known,
    } = read_profiles_file(alloc, files, profile, built)?;
    let groups = KnownGroups::of(alloc, groups)?;
    let source = Source::new(alloc, name_of(profile.configuration), text.as_str())?;
    let texts = configured_texts(&source, filtersets.as_slice(), &places);
    ask_profile(alloc, asked, &known, &groups, texts, given)
}
