//! The commands `list`, `compare`, `explain` and `overrides`: what filtersets pick of the workspace that files describe, and
//! why, and how overrides apply to its tests.
ghost use Rattle.std.specs.Prelude.{◌≡◌, IfErr, IfOk, option_map, string_bytes};
ghost use Rattle.serde_json.specs.View.{view};
ghost use Rattle.filterset_entries.specs.Entries.{given_row};
ghost use Rattle.filterset_entries.specs.declared.setting.Setting as settings;
ghost use Rattle.filterset_faults.specs.declared.kind.FiltersetKind.TheVariants as kinds;
ghost use Rattle.nextest_filtering.specs.Groups.{IsKnown};
ghost use Rattle.filterset_asking.specs.Asking.{AnswersAsked, AnswersIn, AnswersOf, HasParts, IsAskedFault, IsPlain, Lacks, LacksOf, given_text, kept_of};
ghost use Rattle.filterset_loading.specs.Files.{OrMemory, name_of};

use crate::explaining::{candidate_of, find_binary, find_test, is_uncounted};
use crate::profiled::{Given, ask_configured};
use crate::setting::{WarnedTexts, warn_setting};
use filterset_answers::{ask_workspace, asked_binaries, explain_filterset, explain_test_overrides};
use filterset_display::Form;
use filterset_entries::{
    Answer, OverrideEntry, Question, Setting, TextEntry, WarningEnd, default_entry,
};
use filterset_graph::PackageGraph;
use filterset_listing::AskedBinary;
use filterset_loading::{
    Asked, CommandFault, FileSource, Workspace, WorkspaceRequest, name_of, platforms_of,
    read_workspace,
};
use filterset_overrides::AskedProfile;
use filterset_sources::Suite;
use nextest_filtering::KnownGroups;
use serde_json::Value;
use std::alloc::{AllocError, Global};
use std::slice;

/// Keeps nextest's list if the answer has its shape.
pub fn kept_of(form: Form, list: Value) -> Option<Value>
    ensures { option_map view result ≡ kept_of form (view list) }
{
    match form {
        Form::Json => Some(list),
        Form::Drawn(_) | Form::Github => None,
    }
}

/// What is wanted of a workspace.
#[derive(Clone, Copy)]
pub enum Wanted<'a> {
    /// The answer to what the command line asks.
    Answer(Asked<'a>),
    /// What the tests say of texts that are checked.
    Warnings {
        entries: &'a [TextEntry<'a>],
        end: WarningEnd,
    },
}

/// What is asked of a workspace, its packages and its test binaries.
#[derive(Clone, Copy)]
pub struct AskedWorkspace<'a> {
    pub form: Form,
    /// The path of nextest's list.
    pub list: &'a str,
    /// The default filter that is given, in place of that of the profile.
    pub default_filter: Option<&'a str>,
    pub wanted: Wanted<'a>,
    pub graph: &'a PackageGraph,
    pub suites: &'a [Suite],
}

/// Answers what is asked of the binaries of a workspace under a setting. `kept` is nextest's list, if the answer has its shape.
fn answer_asked(
    alloc: Global,
    workspace: &AskedWorkspace<'_>,
    asked: Asked<'_>,
    setting: &Setting<'_>,
    kept: Option<Value>,
    binaries: &[AskedBinary<'_>],
) -> Result<Answer, CommandFault>
    ensures answered { IfOk result (λ answer. AnswersOf workspace.now.form asked.entry setting.now binaries.now
        (option_map view kept) answer.ending (string_bytes answer.text)) }
    ensures missing { IfErr result (OrMemory (LacksOf (name_of workspace.now.list.now) asked.entry binaries.now)) }
{
    let (form, list) = (workspace.form, name_of(workspace.list));
    match asked {
        Asked::List {
            filters,
            ignores_default,
        } => {
            let question = Question::List {
                filters,
                ignores_default,
            };
            Ok(ask_workspace(alloc, form, setting, &question, kept, binaries)?)
        }
        Asked::Compare {
            first,
            second,
            has_names,
        } => {
            let question = Question::Compare {
                first,
                second,
                has_names,
            };
            Ok(ask_workspace(alloc, form, setting, &question, kept, binaries)?)
        }
        Asked::Explanation {
            filter,
            binary,
            test,
        } => {
            let candidate = candidate_of(alloc, list, binary, test, binaries)?;
            let is_ignored = is_uncounted(binaries, binary, test);
            Ok(explain_filterset(alloc, form, setting, filter, candidate, is_ignored)?)
        }
        Asked::Overrides {
            filters,
            binary,
            test,
        } => {
            let question = Question::Overrides { filters };
            let Some(id) = binary else {
                return Ok(ask_workspace(alloc, form, setting, &question, None, binaries)?);
            };
            let Some(test) = test else {
                let binary = find_binary(alloc, list, id, binaries)?;
                let own = slice::from_ref(binary);
                return Ok(ask_workspace(alloc, form, setting, &question, None, own)?);
            };
            let query = find_test(alloc, list, id, test, binaries)?;
            Ok(explain_test_overrides(alloc, form, setting, &query)?)
        }
    }
}

/// What a profile sets, with those that it falls back on.
#[derive(Drop)]
pub struct ProfileSetting<'t> {
    pub default: TextEntry<'t>,
    pub overrides: Vec<OverrideEntry<'t>>,
    pub profiles: Vec<AskedProfile<'t>>,
}

/// Answers under what a profile sets. `kept` is nextest's list, if the answer has its shape.
pub fn ask_under(
    alloc: Global,
    asked: &AskedWorkspace<'_>,
    groups: &KnownGroups,
    own: &ProfileSetting<'_>,
    kept: Option<Value>,
) -> Result<Answer, CommandFault>
    requires kind { own.now.default.kind ≡ kinds.DefaultFilter }
    requires groups { IsKnown groups.now }
    ensures answered { IfOk result (λ answer. (setting : settings.Setting)
        × HasParts asked.now.graph.now groups.now own.now setting
        × AnswersIn asked.now (option_map view kept) setting answer.ending (string_bytes answer.text)) }
    ensures missing { IfErr result (OrMemory (Lacks asked.now)) }
{
    let binaries = asked_binaries(alloc, asked.suites)?;
    let binaries = binaries.as_slice();
    let (overrides, profiles) = (own.overrides.as_slice(), own.profiles.as_slice());
    let setting = Setting {
        graph: asked.graph,
        groups,
        default: &own.default,
        overrides,
        profiles,
    };
    match asked.wanted {
        Wanted::Answer(own) => answer_asked(alloc, asked, own, &setting, kept, binaries),
        Wanted::Warnings { entries, end } => {
            let form = asked.form;
            let warned = WarnedTexts { form, end, entries };
            Ok(warn_setting(alloc, warned, &setting, binaries)?)
        }
    }
}

/// Answers without a profile: under the default filter that is given, or else all tests.
pub fn ask_plainly(
    alloc: Global,
    asked: &AskedWorkspace<'_>,
    kept: Option<Value>,
) -> Result<Answer, CommandFault>
    ensures answered { IfOk result (λ answer. (setting : settings.Setting)
        × IsPlain asked.now.graph.now (given_row asked.now.default_filter) setting
        × AnswersIn asked.now (option_map view kept) setting answer.ending (string_bytes answer.text)) }
    ensures missing { IfErr result (OrMemory (Lacks asked.now)) }
{
    let groups = KnownGroups::global_only(alloc);
    let default = default_entry(alloc, asked.default_filter.unwrap_or("all()"))?;
    let (overrides, profiles) = (Vec::new(alloc), Vec::new(alloc));
    let own = ProfileSetting {
        default,
        overrides,
        profiles,
    };
    ask_under(alloc, asked, &groups, &own, kept)
}

/// Makes the entry of the default filter that is given, if one is.
fn given_default<'w>(
    alloc: Global,
    request: &WorkspaceRequest<'w>,
) -> Result<Option<TextEntry<'w>>, AllocError>
    ensures { IfOk result (λ given. given_row (given_text given) ≡ given_row request.now.default_filter) }
{
    match request.default_filter {
        Some(text) => Ok(Some(default_entry(alloc, text)?)),
        None => Ok(None),
    }
}

/// Answers what is asked of the workspace that files describe.
pub fn ask<F: FileSource>(
    alloc: Global,
    files: &F,
    request: &WorkspaceRequest<'_>,
) -> Result<Answer, CommandFault>
    ensures answered { IfOk result (λ answer. AnswersAsked (F.content files.now) request.now
        answer.ending (string_bytes answer.text)) }
    ensures refused { IfErr result (OrMemory
        (IsAskedFault (F.content files.now) (F.fails files.now) request.now)) }
{
    let Workspace { graph, list, value } = read_workspace(alloc, files, &request.paths)?;
    let asked = AskedWorkspace {
        form: request.form,
        list: request.paths.list,
        default_filter: request.default_filter,
        wanted: Wanted::Answer(request.asked),
        graph: &graph,
        suites: list.suites.as_slice(),
    };
    match request.profile {
        None => ask_plainly(alloc, &asked, kept_of(request.form, value)),
        Some(profile) => {
            let built = platforms_of(alloc, request.paths.list, &value)?;
            let default = given_default(alloc, request)?;
            let kept = kept_of(request.form, value);
            let given = Given { default, kept };
            ask_configured(alloc, files, &asked, &profile, built, given)
        }
    }
}
