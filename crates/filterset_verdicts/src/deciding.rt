//! The commands `same`, `cover`, `disjoint` and `partition`: questions about filtersets and every possible test.
ghost use Rattle.std.specs.Prelude.{◌≡◌, ◌<◌, [], IfErr, IfOk, IfSome, IsSomeAnd, codes, length, map, string_bytes, unwrap_or};
ghost use Rattle.serde_json.specs.View.{view};
ghost use Rattle.filterset_entries.specs.{Checked.text_row, Entries.default_row, Entries.given_row};
ghost use Rattle.filterset_faults.specs.declared.kind.FiltersetKind.TheVariants as kinds;
ghost use Rattle.filterset_sources.specs.Platforms.{ArePlatforms};
ghost use Rattle.nextest_filtering.specs.Groups.{IsGlobalOnly, IsKnown};
ghost use Rattle.nextest_filtering.specs.declared.compile.context.KnownGroups as contexts;
ghost use Rattle.filterset_loading.specs.{Files.OrMemory, Workspaces.IsPlatformsFault};
ghost use Rattle.filterset_verdicts.specs.Deciding.{AnswersDecision, AnswersKnown, AnswersListed, AnswersNamed, AnswersProfiles, AnswersRows, IsDecisionFault, IsDefaultKind, IsDefaultRow, IsListedFault, IsNamedFault, LacksNamed, nowhere, outcome_of, question_of, request_rows, within_of};

use crate::answering::{TextQuestion, answer_texts};
use crate::naming::{ResolvedEntries, filter_of, resolve, resolve_entries};
use filterset_deciding::Question;
use filterset_display::Source;
use filterset_entries::{
    Answer, ChosenFilter, ConfiguredTexts, Setting, TextEntry, answer_unknown, configured_texts,
    default_entry, entry_of, given_entries,
};
use filterset_graph::PackageGraph;
use filterset_loading::{
    CommandFault, Decision, DecisionRequest, FileSource, KnownProfiles, ProfileRequest,
    ProfilesFile, known_packages, name_of, platforms_of, read_list, read_profiles_file,
};
use filterset_sources::{BuildPlatforms, Suite};
use nextest_filtering::{FiltersetKind, KnownGroups};
use serde_json::Value;
use std::alloc::{AllocError, Global};

/// What is known of a workspace: its packages, and the test binaries of nextest's list.
#[derive(Clone, Copy)]
struct KnownWorkspace<'k> {
    graph: &'k PackageGraph,
    suites: &'k [Suite],
}

/// A request, with the entries of its texts: that of the tests that the question is about, and then the filtersets.
#[derive(Drop)]
struct AskedDecision<'p> {
    request: DecisionRequest<'p>,
    entries: Vec<TextEntry<'p>>,
}

/// Returns the filterset of the tests in question: the given one, or else all tests, of the workspace if there is one.
fn within_text<'w>(request: &DecisionRequest<'w>) -> &'w str
    ensures { result.now ≡ within_of request.now.within request.now.metadata }
{
    match (request.within, request.metadata) {
        (Some(text), _) => text,
        (None, Some(_)) => "package(#*)",
        (None, None) => "all()",
    }
}

/// Makes the entries of a request: that of the tests that the question is about, and then the filtersets.
fn request_entries<'w>(
    alloc: Global,
    request: &DecisionRequest<'w>,
) -> Result<Vec<TextEntry<'w>>, AllocError>
    ensures { IfOk result (λ entries. map text_row entries.items ≡ request_rows request.now) }
{
    let within = entry_of(alloc, "--within", FiltersetKind::Test, within_text(request))?;
    let mut entries = given_entries(alloc, "argument", FiltersetKind::Test, request.texts)?;
    entries.insert(0, within)?;
    Ok(entries)
}

/// Returns the question that a command asks.
fn question_of(decision: Decision) -> Question
    ensures { result ≡ question_of decision }
{
    match decision {
        Decision::Same => Question::AllAlike,
        Decision::Cover => Question::AtLeastOne,
        Decision::Disjoint => Question::AtMostOne,
        Decision::Partition => Question::ExactlyOne,
    }
}

/// Answers the question of a request about these entries, for this workspace and these groups and under this default filter.
fn decide_entries(
    alloc: Global,
    request: &DecisionRequest<'_>,
    workspace: KnownWorkspace<'_>,
    groups: &KnownGroups,
    default: &TextEntry<'_>,
    entries: &[TextEntry<'_>],
) -> Result<Answer, AllocError>
    requires some { 0 < length entries.now }
    requires kind { default.now.kind ≡ kinds.DefaultFilter }
    requires groups { IsKnown groups.now }
    ensures { IfOk result (λ answer. AnswersRows request.now workspace.entry.graph.now workspace.entry.suites.now groups.now (text_row default.now)
        (map text_row entries.now) answer.ending (string_bytes answer.text)) }
{
    let setting = Setting {
        graph: workspace.graph,
        groups,
        default,
        overrides: &[],
        profiles: &[],
    };
    let asked = TextQuestion {
        question: question_of(request.question),
        entries,
        suites: workspace.suites,
        budget: request.budget,
    };
    answer_texts(alloc, request.form, &setting, &asked)
}

/// Returns the default filter under profiles: the given one, or else that of the profile.
fn default_of<'p>(
    alloc: Global,
    request: &DecisionRequest<'p>,
    known: &'p KnownProfiles<'_>,
    texts: ConfiguredTexts<'p>,
) -> Result<ChosenFilter<'p>, CommandFault>
    ensures found { IfOk result (λ filter. IsDefaultRow known.entry.now texts.entry
        (given_row request.now.default_filter) (outcome_of filter)) }
    ensures kind { IfOk result IsDefaultKind }
    ensures missing { IfErr result (OrMemory
        (LacksNamed request.now known.entry.now.request known.entry.now.profiles.items)) }
{
    match request.default_filter {
        Some(text) => {
            let entry = default_entry(alloc, text)?;
            resolve(alloc, known, texts, entry)
        }
        None => filter_of(alloc, known, texts, known.request.name),
    }
}

/// Answers under the default filters of profiles.
fn decide_named<'p>(
    alloc: Global,
    asked: AskedDecision<'p>,
    workspace: KnownWorkspace<'_>,
    known: &'p KnownProfiles<'_>,
    groups: &KnownGroups,
    texts: ConfiguredTexts<'p>,
) -> Result<Answer, CommandFault>
    requires groups { IsKnown groups.now }
    requires rows { map text_row asked.entries.items ≡ request_rows asked.request }
    ensures answered { IfOk result (λ answer. AnswersNamed asked.entry.request workspace.entry.graph.now workspace.entry.suites.now
        groups.now known.entry.now texts.entry answer.ending (string_bytes answer.text)) }
    ensures missing { IfErr result (OrMemory
        (LacksNamed asked.entry.request known.entry.now.request known.entry.now.profiles.items)) }
{
    let AskedDecision { request, entries } = asked;
    let default = match default_of(alloc, &request, known, texts)? {
        ChosenFilter::Entry(default) => default,
        ChosenFilter::Unknown(path) => return Ok(answer_unknown(alloc, path.as_str())?),
    };
    match resolve_entries(alloc, known, texts, entries)? {
        ResolvedEntries::Entries(entries) => {
            let entries = entries.as_slice();
            Ok(decide_entries(alloc, &request, workspace, groups, &default, entries)?)
        }
        ResolvedEntries::Unknown(path) => Ok(answer_unknown(alloc, path.as_str())?),
    }
}

/// The platforms of a build of which nothing is known.
fn nowhere() -> BuildPlatforms
    ensures { result ≡ nowhere }
{
    BuildPlatforms {
        host: None,
        target: None,
    }
}

/// Answers under the profiles of a configuration, on these platforms.
fn decide_configured<F: FileSource>(
    alloc: Global,
    files: &F,
    asked: AskedDecision<'_>,
    workspace: KnownWorkspace<'_>,
    profile: &ProfileRequest<'_>,
    built: BuildPlatforms,
) -> Result<Answer, CommandFault>
    requires { map text_row asked.entries.items ≡ request_rows asked.request }
    ensures answered { IfOk result (λ answer. AnswersProfiles (F.content files.now) asked.entry.request
        workspace.entry.graph.now workspace.entry.suites.now profile.now built answer.ending (string_bytes answer.text)) }
    ensures refused { IfErr result (OrMemory
        (IsNamedFault (F.content files.now) (F.fails files.now) asked.entry.request profile.now)) }
{
    let ProfilesFile {
        text,
        filtersets,
        places,
        groups,
        known,
    } = read_profiles_file(alloc, files, profile, built)?;
    let groups = KnownGroups::of(alloc, groups)?;
    let source = Source::new(alloc, name_of(profile.configuration), text.as_str())?;
    let texts = configured_texts(&source, filtersets.as_slice(), &places);
    decide_named(alloc, asked, workspace, &known, &groups, texts)
}

/// Answers for a workspace: under profiles on these platforms, or else under the default filter, given or of all tests.
fn decide_known<F: FileSource>(
    alloc: Global,
    files: &F,
    request: &DecisionRequest<'_>,
    workspace: KnownWorkspace<'_>,
    built: BuildPlatforms,
) -> Result<Answer, CommandFault>
    ensures answered { IfOk result (λ answer. AnswersKnown (F.content files.now) request.now
        workspace.entry.graph.now workspace.entry.suites.now built answer.ending (string_bytes answer.text)) }
    ensures refused { IfErr result (OrMemory (λ fault. IsSomeAnd request.now.profile
        (λ profile. IsNamedFault (F.content files.now) (F.fails files.now) request.now profile fault))) }
{
    let entries = request_entries(alloc, request)?;
    match &request.profile {
        None => {
            let groups = KnownGroups::global_only(alloc);
            let default = default_entry(alloc, request.default_filter.unwrap_or("all()"))?;
            let entries = entries.as_slice();
            Ok(decide_entries(alloc, request, workspace, &groups, &default, entries)?)
        }
        Some(profile) => {
            let asked = AskedDecision {
                request: *request,
                entries,
            };
            decide_configured(alloc, files, asked, workspace, profile, built)
        }
    }
}

/// Reads the platforms of the build in nextest's list, the file at this path with this JSON value, if there is a profile.
fn platforms_for(
    alloc: Global,
    request: &DecisionRequest<'_>,
    path: &str,
    list: &Value,
) -> Result<BuildPlatforms, CommandFault>
    ensures read { IfOk result (λ built. IfSome request.now.profile (λ _. ArePlatforms (view list.now) built)) }
    ensures refused { IfErr result (OrMemory (λ fault. IsSomeAnd request.now.profile
        (λ _. IsPlatformsFault path.now (view list.now) fault))) }
{
    match request.profile {
        Some(_) => platforms_of(alloc, path, list),
        None => Ok(nowhere()),
    }
}

/// Answers for the packages of a workspace, and nextest's list at this path.
fn decide_listed<F: FileSource>(
    alloc: Global,
    files: &F,
    request: &DecisionRequest<'_>,
    graph: &PackageGraph,
    path: &str,
) -> Result<Answer, CommandFault>
    ensures answered { IfOk result (λ answer. AnswersListed (F.content files.now) request.now graph.now path.now
        answer.ending (string_bytes answer.text)) }
    ensures refused { IfErr result (OrMemory
        (IsListedFault (F.content files.now) (F.fails files.now) request.now graph.now path.now)) }
{
    let (list, value) = read_list(alloc, files, path, graph, request.run_ignored)?;
    let built = platforms_for(alloc, request, path, &value)?;
    let workspace = KnownWorkspace {
        graph,
        suites: list.suites.as_slice(),
    };
    decide_known(alloc, files, request, workspace, built)
}

/// Answers a question about filtersets and every possible test.
pub fn decide_given<F: FileSource>(
    alloc: Global,
    files: &F,
    request: &DecisionRequest<'_>,
) -> Result<Answer, CommandFault>
    ensures answered { IfOk result (λ answer. AnswersDecision (F.content files.now) request.now
        answer.ending (string_bytes answer.text)) }
    ensures refused { IfErr result (OrMemory
        (IsDecisionFault (F.content files.now) (F.fails files.now) request.now)) }
{
    let graph = known_packages(alloc, files, request.metadata)?;
    match request.list {
        Some(path) => decide_listed(alloc, files, request, &graph, path),
        None => {
            let workspace = KnownWorkspace {
                graph: &graph,
                suites: &[],
            };
            decide_known(alloc, files, request, workspace, nowhere())
        }
    }
}
