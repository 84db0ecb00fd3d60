//! What the words of the command line ask for.
ghost use Rattle.std.specs.Prelude.{◌≡◌, ◌⊎◌, IfErr, IfOk, codes, map};
ghost use Rattle.clap.specs.{Words.found_of, declared.parser.matches.Found.Found};
ghost use Rattle.filterset_display.specs.Columns.{Text};
ghost use Rattle.filterset_loading.specs.Words.{input_count, ArePathsAsked, AreTextsAsked, AreWarningsAsked, IsAsked, IsAskedBy, IsColorAsked, IsFaultOf, IsFormAsked, IsGivenFault, IsKindAsked, IsProfileAsked, IsQuestionAsked, IsRunIgnoredAsked, IsTask, IsTextAsked, IsUnasked, IsWordsFault, IsWorkspaceAsked, NamesNoShell, decision_name, given_texts, has_input};
ghost use Rattle.filterset_loading.specs.Scripts.{name_of};

use crate::fault::CommandFault;
use crate::files::is_input;
use crate::profile::ProfileRequest;
use crate::request::{
    Asked, CheckPaths, Decision, DecisionRequest, Request, Task, Texts, WarningRequest,
    WorkspaceRequest,
};
use crate::shell::Shell;
use crate::workspace::WorkspacePaths;
use clap::ArgMatches;
use filterset_display::{Color, Form};
use filterset_faults::FiltersetKind;
use filterset_sources::RunIgnored;

/// Returns what matched words ask for.
pub fn task_of<'m>(matches: &'m ArgMatches<'_>) -> Result<Task<'m>, CommandFault>
    ensures asked { IfOk result (IsTask matches.now) }
    ensures refused { IfErr result (IsWordsFault matches.now) }
{
    if let Some(own) = matches.subcommand_matches("completions") {
        return Ok(Task::Complete(shell_of(own)?));
    }
    if let Some(own) = matches.subcommand_matches("lsp") {
        return Ok(Task::Serve(workspace_of(own)?));
    }
    let request = request_of(matches)?;
    if request.input_count() > 1 {
        return Err(CommandFault::TwoInputs);
    }
    Ok(Task::Answer(request))
}

/// Returns the shell that `completions` is asked for.
fn shell_of(matches: &ArgMatches<'_>) -> Result<Shell, CommandFault>
    ensures asked { IfOk result (λ shell. IsTextAsked (found_of matches.now) (codes "shell") (name_of shell)) }
    ensures refused { IfErr result (NamesNoShell (found_of matches.now)) }
{
    match matches.get_str("shell") {
        Some(name) => Shell::named(name).ok_or(CommandFault::Missing("shell")),
        None => Err(CommandFault::Missing("shell")),
    }
}

/// Returns the request of matched words.
fn request_of<'m>(matches: &'m ArgMatches<'_>) -> Result<Request<'m>, CommandFault>
    ensures asked { IfOk result (IsAsked matches.now) }
    ensures refused { IfErr result (λ fault. IsGivenFault matches.now fault ⊎ IsUnasked (IsAsked matches.now) fault) }
{
    match matches.subcommand() {
        Some((name, own)) => request_named(name, own),
        None => Err(CommandFault::Missing("COMMAND")),
    }
}

/// Returns the request of a command of this name.
fn request_named<'m>(name: &str, own: &'m ArgMatches<'_>) -> Result<Request<'m>, CommandFault>
    ensures asked { IfOk result (IsAskedBy name.now (found_of own.now)) }
    ensures refused { IfErr result (λ fault.
        IsFaultOf (found_of own.now) fault ⊎ IsUnasked (λ request. (found : Found) × IsAskedBy name.now found request) fault) }
{
    match name {
        "check" => check_of(own),
        "format" => Ok(Request::Format {
            form: Form::Drawn(color_of(own)),
            texts: texts_of(own)?,
        }),
        "simplify" => Ok(Request::Simplify {
            form: Form::Drawn(color_of(own)),
            texts: texts_of(own)?,
        }),
        "list" => {
            let asked = Asked::List {
                filters: own.get_strs("filterset").unwrap_or(&[]),
                ignores_default: own.get_flag("ignore"),
            };
            ask_of(own, form_of(own), asked)
        }
        "compare" => {
            let asked = Asked::Compare {
                first: text_of(own, "first")?,
                second: text_of(own, "second")?,
                has_names: own.get_flag("tests"),
            };
            ask_of(own, Form::Drawn(color_of(own)), asked)
        }
        "explain" => {
            let asked = Asked::Explanation {
                filter: text_of(own, "filterset")?,
                binary: text_of(own, "binary")?,
                test: own.get_str("test"),
            };
            ask_of(own, Form::Drawn(color_of(own)), asked)
        }
        "overrides" => {
            let asked = Asked::Overrides {
                filters: own.get_strs("filterset").unwrap_or(&[]),
                binary: own.get_str("binary"),
                test: own.get_str("test"),
            };
            ask_of(own, Form::Drawn(color_of(own)), asked)
        }
        "same" => decision_of(own, Decision::Same),
        "cover" => decision_of(own, Decision::Cover),
        "disjoint" => decision_of(own, Decision::Disjoint),
        "partition" => decision_of(own, Decision::Partition),
        _ => Err(CommandFault::Missing("COMMAND")),
    }
}

/// Returns what `check` asks for.
fn check_of<'m>(matches: &'m ArgMatches<'_>) -> Result<Request<'m>, CommandFault>
    ensures asked { IfOk result (IsAskedBy (codes "check") (found_of matches.now)) }
    ensures refused { IfErr result (IsFaultOf (found_of matches.now)) }
{
    Ok(Request::Check {
        kind: kind_of(matches),
        form: form_of(matches),
        texts: texts_of(matches)?,
        paths: CheckPaths {
            metadata: matches.get_str("metadata"),
            configuration: matches.get_str("config"),
            profile: text_of(matches, "profile")?,
            warnings: warnings_of(matches)?,
            denies: matches.get_flag("deny"),
        },
    })
}

/// Returns the list of tests by which `check` warns, if there is one.
fn warnings_of<'m>(matches: &'m ArgMatches<'_>) -> Result<Option<WarningRequest<'m>>, CommandFault>
    ensures asked { IfOk result (AreWarningsAsked (found_of matches.now)) }
    ensures refused { IfErr result (IsFaultOf (found_of matches.now)) }
{
    let Some(_) = matches.get_str("list") else {
        return Ok(None);
    };
    Ok(Some(WarningRequest {
        paths: paths_of(matches)?,
        profile: text_of(matches, "profile")?,
        target_cfg: matches.get_str("target-cfg"),
        host_cfg: matches.get_str("host-cfg"),
    }))
}

/// Returns a request that asks this of the workspace of the arguments.
fn ask_of<'m>(
    matches: &'m ArgMatches<'_>,
    form: Form,
    asked: Asked<'m>,
) -> Result<Request<'m>, CommandFault>
    ensures asked { IfOk result (λ request. (name : Text)
        → IsQuestionAsked name (found_of matches.now) form asked.entry → IsAskedBy name (found_of matches.now) request) }
    ensures refused { IfErr result (IsFaultOf (found_of matches.now)) }
{
    Ok(Request::Ask(WorkspaceRequest {
        paths: paths_of(matches)?,
        form,
        default_filter: matches.get_str("default"),
        profile: profile_of(matches)?,
        asked,
    }))
}

/// Returns what the command that asks this question asks for.
fn decision_of<'m>(
    matches: &'m ArgMatches<'_>,
    question: Decision,
) -> Result<Request<'m>, CommandFault>
    ensures asked { IfOk result (IsAskedBy (decision_name question) (found_of matches.now)) }
    ensures refused { IfErr result (IsFaultOf (found_of matches.now)) }
{
    let profile = profile_of(matches)?;
    let Ok(budget) = text_of(matches, "budget")?.parse::<u64>() else {
        return Err(CommandFault::WrongBudget);
    };
    Ok(Request::Decide(DecisionRequest {
        question,
        form: form_of(matches),
        texts: matches.get_strs("filterset").unwrap_or(&[]),
        within: matches.get_str("within"),
        metadata: matches.get_str("metadata"),
        list: matches.get_str("list"),
        run_ignored: run_ignored_of(matches),
        default_filter: matches.get_str("default"),
        profile,
        budget,
    }))
}

/// Returns the profile, if there is a configuration.
fn profile_of<'w>(matches: &ArgMatches<'w>) -> Result<Option<ProfileRequest<'w>>, CommandFault>
    ensures asked { IfOk result (IsProfileAsked (found_of matches.now)) }
    ensures refused { IfErr result (IsFaultOf (found_of matches.now)) }
{
    let Some(configuration) = matches.get_str("config") else {
        return Ok(None);
    };
    Ok(Some(ProfileRequest {
        configuration,
        name: text_of(matches, "profile")?,
        target_cfg: matches.get_str("target-cfg"),
        host_cfg: matches.get_str("host-cfg"),
    }))
}

/// Returns the text of a required argument.
fn text_of<'w>(matches: &ArgMatches<'w>, id: &'static str) -> Result<&'w str, CommandFault>
    ensures asked { IfOk result (λ text. IsTextAsked (found_of matches.now) id.now text.now) }
    ensures refused { IfErr result (IsFaultOf (found_of matches.now)) }
{
    matches.get_str(id).ok_or(CommandFault::Missing(id))
}

/// Returns the paths of the files that describe the workspace.
fn paths_of<'w>(matches: &ArgMatches<'w>) -> Result<WorkspacePaths<'w>, CommandFault>
    ensures asked { IfOk result (ArePathsAsked (found_of matches.now)) }
    ensures refused { IfErr result (IsFaultOf (found_of matches.now)) }
{
    Ok(WorkspacePaths {
        metadata: text_of(matches, "metadata")?,
        list: text_of(matches, "list")?,
        run_ignored: run_ignored_of(matches),
    })
}

/// Returns the paths of the files that describe the workspace, if there is one.
fn workspace_of<'w>(matches: &ArgMatches<'w>) -> Result<Option<WorkspacePaths<'w>>, CommandFault>
    ensures asked { IfOk result (IsWorkspaceAsked (found_of matches.now)) }
    ensures refused { IfErr result (IsFaultOf (found_of matches.now)) }
{
    match matches.get_str("metadata") {
        Some(_) => Ok(Some(WorkspacePaths {
            run_ignored: RunIgnored::All,
            ..paths_of(matches)?
        })),
        None => Ok(None),
    }
}

/// Returns the form of the answer: for people, as JSON or as commands of a workflow.
fn form_of(matches: &ArgMatches<'_>) -> Form
    ensures { IsFormAsked (found_of matches.now) result }
{
    match matches.get_str("format") {
        Some("json") => Form::Json,
        Some("github") => Form::Github,
        _ => Form::Drawn(color_of(matches)),
    }
}

/// Returns whether the answer has colours.
fn color_of(matches: &ArgMatches<'_>) -> Color
    ensures { IsColorAsked (found_of matches.now) result }
{
    match matches.get_str("color") {
        Some("always") => Color::Always,
        _ => Color::Never,
    }
}

/// Returns which listed tests count.
fn run_ignored_of(matches: &ArgMatches<'_>) -> RunIgnored
    ensures { IsRunIgnoredAsked (found_of matches.now) result }
{
    match matches.get_str("run-ignored") {
        Some("only") => RunIgnored::Only,
        Some("all") => RunIgnored::All,
        _ => RunIgnored::Default,
    }
}

/// Returns the kind that the filtersets have to be.
fn kind_of(matches: &ArgMatches<'_>) -> FiltersetKind
    ensures { IsKindAsked (found_of matches.now) result }
{
    match matches.get_str("kind") {
        Some("default") => FiltersetKind::DefaultFilter,
        Some("override") => FiltersetKind::OverrideFilter,
        Some("archive") => FiltersetKind::TestArchive,
        _ => FiltersetKind::Test,
    }
}

/// Returns the filtersets of the arguments, or else those of `-E`.
fn given_texts<'m>(matches: &'m ArgMatches<'_>) -> &'m [&'m str]
    ensures { map (λ t. t.now) result.now ≡ given_texts (found_of matches.now) }
{
    match matches.get_strs("text").unwrap_or(&[]) {
        [] => matches.get_strs("filterset").unwrap_or(&[]),
        given => given,
    }
}

/// Returns the filtersets, or the lines of standard input if the only one is `-`.
fn texts_of<'m>(matches: &'m ArgMatches<'_>) -> Result<Texts<'m>, CommandFault>
    ensures asked { IfOk result (AreTextsAsked (found_of matches.now)) }
    ensures refused { IfErr result (IsFaultOf (found_of matches.now)) }
{
    match given_texts(matches) {
        ["-"] => Ok(Texts::StandardInput),
        given if has_input(given) => Err(CommandFault::MixedInput),
        given => Ok(Texts::Given(given)),
    }
}

/// Returns whether one of these filtersets stands for standard input.
fn has_input(texts: &[&str]) -> bool
    ensures { result ≡ has_input texts.now }
{
    texts.iter().any(|text| is_input(text))
}
