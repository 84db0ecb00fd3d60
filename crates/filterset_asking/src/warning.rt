//! The warnings of `check`: what a list of tests says of the texts that are checked.
ghost use Rattle.std.specs.Prelude.{◌≡◌, ◌⊎◌, ◌++◌, IfErr, IfOk, IsSomeAnd, None, map, string_bytes};
ghost use Rattle.serde_json.specs.View.{view};
ghost use Rattle.filterset_entries.specs.Checked.{text_row};
ghost use Rattle.nextest_filtering.specs.Groups.{IsKnown};
ghost use Rattle.filterset_asking.specs.Asking.{AnswersIn, Lacks};
ghost use Rattle.filterset_asking.specs.Warned.{AnswersListed, AnswersWarned, IsListedFault, IsProfileUnused, WarnsBy, either_ending};
ghost use Rattle.filterset_loading.specs.{Files.OrMemory, Configurations.profile_at};

use crate::asking::{AskedWorkspace, Wanted, ask_plainly};
use crate::configured::CheckedFile;
use crate::profiled::{Given, ask_profile};
use crate::setting::count_warnings;
use filterset_display::Form;
use filterset_entries::{Answer, Ending, TextEntry, WarningEnd};
use filterset_graph::PackageGraph;
use filterset_loading::{
    CommandFault, FileSource, KnownProfiles, ProfileRequest, WarningRequest, platforms_of,
    profiles_in, read_facts, read_list,
};
use filterset_sources::ParsedText;
use nextest_filtering::KnownGroups;
use serde_json::Value;
use std::alloc::{AllocError, Global};

/// The texts that are checked, and what they are checked against.
#[derive(Clone, Copy)]
pub struct CheckedTexts<'c> {
    pub form: Form,
    pub graph: &'c PackageGraph,
    pub groups: &'c KnownGroups,
    /// The path of the configuration, if there is one.
    pub path: Option<&'c str>,
    pub configured: CheckedFile<'c>,
    /// The texts: those of the configuration, and after them the others.
    pub entries: &'c [TextEntry<'c>],
    /// How many warnings come before those of the list, and whether any are denied.
    pub end: WarningEnd,
}

/// Answers under a profile of the configuration. `value` is nextest's list.
fn warn_configured<F: FileSource>(
    alloc: Global,
    files: &F,
    asked: &AskedWorkspace<'_>,
    texts: &CheckedTexts<'_>,
    profile: &ProfileRequest<'_>,
    value: &Value,
) -> Result<Answer, CommandFault>
    requires { IsKnown texts.now.groups.now }
    ensures answered { IfOk result (λ answer. WarnsBy (F.content files.now) (AnswersIn asked.now None) asked.now.graph.now
        texts.now.groups.now texts.now.configured.texts profile.now (view value.now)
        answer.ending (string_bytes answer.text)) }
    ensures refused { IfErr result (OrMemory (λ fault. Lacks asked.now fault
        ⊎ IsProfileUnused (F.content files.now) (F.fails files.now) texts.now.configured.texts.file.now.text.now
        asked.now.list.now (view value.now) profile.now fault)) }
{
    let built = platforms_of(alloc, asked.list, value)?;
    let CheckedFile { texts: own, file } = texts.configured;
    let text = own.file.text;
    let known = KnownProfiles {
        request: *profile,
        profiles: profiles_in(alloc, profile.configuration, ParsedText { text, file })?,
        platforms: read_facts(alloc, files, profile, built)?,
    };
    let given = Given {
        default: None,
        kept: None,
    };
    ask_profile(alloc, asked, &known, texts.groups, own, given)
}

/// Answers by the list that is requested: under the profile of the configuration, if there is one.
fn warn_listed<'x, F: FileSource>(
    alloc: Global,
    files: &F,
    request: &WarningRequest<'x>,
    texts: &CheckedTexts<'x>,
) -> Result<Answer, CommandFault>
    requires { IsKnown texts.now.groups.now }
    ensures answered { IfOk result (λ answer. AnswersListed (F.content files.now) texts.now.form texts.now.end
        texts.now.graph.now texts.now.groups.now texts.now.path texts.now.configured.texts (map text_row texts.now.entries.now)
        request.now answer.ending (string_bytes answer.text)) }
    ensures refused { IfErr result (OrMemory (IsListedFault (F.content files.now) (F.fails files.now) texts.now.graph.now
        texts.now.path texts.now.configured.texts.file.now.text.now request.now)) }
{
    let (path, run_ignored) = (request.paths.list, request.paths.run_ignored);
    let (list, value) = read_list(alloc, files, path, texts.graph, run_ignored)?;
    let asked = AskedWorkspace {
        form: texts.form,
        list: path,
        default_filter: None,
        wanted: Wanted::Warnings {
            entries: texts.entries,
            end: texts.end,
        },
        graph: texts.graph,
        suites: list.suites.as_slice(),
    };
    match texts.path {
        None => ask_plainly(alloc, &asked, None),
        Some(path) => {
            let profile = request.profile_at(path);
            warn_configured(alloc, files, &asked, texts, &profile, &value)
        }
    }
}

/// Answers by the list that is requested. If none is, it answers how many warnings there are, if there are any.
pub fn warn_checked<'x, F: FileSource>(
    alloc: Global,
    files: &F,
    request: Option<WarningRequest<'x>>,
    texts: &CheckedTexts<'x>,
) -> Result<Answer, CommandFault>
    requires { IsKnown texts.now.groups.now }
    ensures answered { IfOk result (λ answer. AnswersWarned (F.content files.now) texts.now.form texts.now.end
        texts.now.graph.now texts.now.groups.now texts.now.path texts.now.configured.texts (map text_row texts.now.entries.now)
        request.entry answer.ending (string_bytes answer.text)) }
    ensures refused { IfErr result (OrMemory (λ fault. IsSomeAnd request.entry (λ asked. IsListedFault (F.content files.now)
        (F.fails files.now) texts.now.graph.now texts.now.path texts.now.configured.texts.file.now.text.now asked fault))) }
{
    match request {
        Some(request) => warn_listed(alloc, files, &request, texts),
        None => Ok(count_warnings(alloc, texts.form, texts.end)?),
    }
}

/// Puts a text and an answer after another answer.
pub fn join_answers(
    alloc: Global,
    first: Answer,
    middle: &str,
    second: Answer,
) -> Result<Answer, AllocError>
    ensures text { IfOk result (λ whole. string_bytes whole.text
        ≡ string_bytes first.text ++ (middle.now ++ string_bytes second.text)) }
    ensures ending { IfOk result (λ whole. whole.ending ≡ either_ending first.ending second.ending) }
{
    let mut text = String::from_str(alloc, first.text.as_str())?;
    text.push_str(middle)?;
    text.push_str(second.text.as_str())?;
    let ending = match first.ending {
        Ending::Fine => second.ending,
        Ending::Faulty | Ending::Differing | Ending::Unknown => first.ending,
    };
    Ok(Answer { text, ending })
}
