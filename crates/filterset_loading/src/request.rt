//! What the command line asks for.
ghost use Rattle.std.specs.Prelude.{◌≡◌, ◌≤◌, length};
ghost use Rattle.filterset_loading.specs.Configurations.{profile_at};
ghost use Rattle.filterset_loading.specs.Words.{input_count, inputs_of, profile_inputs, text_inputs};

use crate::files::is_input;
use crate::profile::ProfileRequest;
use crate::shell::Shell;
use crate::workspace::WorkspacePaths;
use filterset_display::Form;
use filterset_faults::FiltersetKind;
use filterset_sources::RunIgnored;

/// The filtersets to check, to format or to simplify.
#[derive(Clone, Copy)]
pub enum Texts<'w> {
    /// The arguments.
    Given(&'w [&'w str]),
    /// The lines of standard input.
    StandardInput,
}

/// The list of tests by which `check` warns, and the profile under which it does.
#[derive(Clone, Copy)]
pub struct WarningRequest<'w> {
    pub paths: WorkspacePaths<'w>,
    /// The name of the profile. It counts if there is a configuration.
    pub profile: &'w str,
    /// What `rustc --print cfg` wrote of the platform that tests are built for.
    pub target_cfg: Option<&'w str>,
    /// What it wrote of the platform that runs the build.
    pub host_cfg: Option<&'w str>,
}

impl<'w> WarningRequest<'w> {
    /// Returns the profile of the configuration at a path.
    pub fn profile_at(&self, path: &'w str) -> ProfileRequest<'w>
        ensures { result ≡ profile_at path.entry self.now }
    {
        ProfileRequest {
            configuration: path,
            name: self.profile,
            target_cfg: self.target_cfg,
            host_cfg: self.host_cfg,
        }
    }
}

/// The paths of the files that give the names that filtersets may use, and of the list by which there are warnings.
#[derive(Clone, Copy)]
pub struct CheckPaths<'w> {
    /// What `cargo metadata` wrote.
    pub metadata: Option<&'w str>,
    /// Nextest's configuration, whose filtersets are checked too.
    pub configuration: Option<&'w str>,
    /// The name of its profile that is used.
    pub profile: &'w str,
    /// The list of tests by which there are warnings.
    pub warnings: Option<WarningRequest<'w>>,
    /// Whether the command fails if there are warnings.
    pub denies: bool,
}

/// What a workspace is asked.
#[derive(Clone, Copy)]
pub enum Asked<'w> {
    /// Which tests a runner runs, given these filtersets, and the default filter unless that is ignored.
    List {
        filters: &'w [&'w str],
        ignores_default: bool,
    },
    /// How two filtersets differ, with the names of tests and the ids of skipped binaries or without.
    Compare {
        first: &'w str,
        second: &'w str,
        has_names: bool,
    },
    /// Why a filterset picks a binary or a test.
    Explanation {
        filter: &'w str,
        /// The id of the binary.
        binary: &'w str,
        /// The name of a test of the binary, if the filterset is explained for that.
        test: Option<&'w str>,
    },
    /// How overrides apply to tests, and what gives these their settings.
    Overrides {
        /// The filtersets that pick the tests to count.
        filters: &'w [&'w str],
        /// The id of the binary of the tests, if not all are counted.
        binary: Option<&'w str>,
        /// The name of a test of the binary, if the overrides are explained for that.
        test: Option<&'w str>,
    },
}

/// What is asked of the workspace that files describe.
#[derive(Clone, Copy)]
pub struct WorkspaceRequest<'w> {
    pub paths: WorkspacePaths<'w>,
    pub form: Form,
    /// The filterset that is the value of `default()`, in place of that of the profile.
    pub default_filter: Option<&'w str>,
    pub profile: Option<ProfileRequest<'w>>,
    pub asked: Asked<'w>,
}

/// What is asked of filtersets and every possible test, named as the command that asks it.
#[derive(Clone, Copy)]
pub enum Decision {
    /// Whether all of them pick the test, or none does.
    Same,
    /// Whether at least one of them picks the test.
    Cover,
    /// Whether at most one of them picks the test.
    Disjoint,
    /// Whether exactly one of them picks the test.
    Partition,
}

/// A question about filtersets and every possible test.
#[derive(Clone, Copy)]
pub struct DecisionRequest<'w> {
    pub question: Decision,
    pub form: Form,
    /// The filtersets.
    pub texts: &'w [&'w str],
    /// The filterset of the tests that the question is about.
    pub within: Option<&'w str>,
    /// What `cargo metadata` wrote.
    pub metadata: Option<&'w str>,
    /// What `cargo nextest list` wrote. If the answer is no for one of its tests, that is shown.
    pub list: Option<&'w str>,
    /// Which of its tests count.
    pub run_ignored: RunIgnored,
    /// The filterset that is the value of `default()`, in place of that of the profile.
    pub default_filter: Option<&'w str>,
    /// The configuration whose profiles texts such as `@ci` name, and the profile for `default()`.
    pub profile: Option<ProfileRequest<'w>>,
    /// How many steps the search may take.
    pub budget: u64,
}

/// What the command line asks for.
#[derive(Clone, Copy)]
pub enum Request<'w> {
    Check {
        kind: FiltersetKind,
        form: Form,
        texts: Texts<'w>,
        paths: CheckPaths<'w>,
    },
    Format {
        form: Form,
        texts: Texts<'w>,
    },
    Simplify {
        form: Form,
        texts: Texts<'w>,
    },
    /// `list`, `compare`, `explain` or `overrides`.
    Ask(WorkspaceRequest<'w>),
    /// `same`, `cover`, `disjoint` or `partition`.
    Decide(DecisionRequest<'w>),
    /// To write this text: the help, the version, or the script of a shell.
    Show(&'w str),
}

/// What the command line asks for.
#[derive(Clone, Copy)]
pub enum Task<'w> {
    Answer(Request<'w>),
    /// To write the script by which a shell completes command lines.
    Complete(Shell),
    /// To serve an editor, with the names of the workspace at these paths, if it is given.
    Serve(Option<WorkspacePaths<'w>>),
}

/// Returns how many of these paths stand for standard input.
fn inputs_of(paths: &[Option<&str>]) -> usize
    ensures value { result ≡ inputs_of paths.now }
    ensures bound { result ≤ length paths.now }
{
    paths
        .iter()
        .filter(|path| path.is_some_and(is_input))
        .count()
}

/// Returns how many paths of a profile stand for standard input.
fn profile_inputs(profile: &Option<ProfileRequest<'_>>) -> usize
    ensures value { result ≡ profile_inputs profile.now }
    ensures bound { result ≤ 3 }
{
    match profile {
        Some(own) => inputs_of(&[Some(own.configuration), own.target_cfg, own.host_cfg]),
        None => 0,
    }
}

/// Returns how many filtersets standard input stands for: its lines, or none.
fn text_inputs(texts: &Texts<'_>) -> usize
    ensures value { result ≡ text_inputs texts.now }
    ensures bound { result ≤ 1 }
{
    match texts {
        Texts::Given(_) => 0,
        Texts::StandardInput => 1,
    }
}

impl Request<'_> {
    /// Returns for how many things of the request standard input stands.
    pub fn input_count(&self) -> usize
        ensures { result ≡ input_count self.now }
    {
        match self {
            Request::Check { texts, paths, .. } => {
                let own = inputs_of(&[paths.metadata, paths.configuration]);
                let warned = match &paths.warnings {
                    Some(own) => inputs_of(&[Some(own.paths.list), own.target_cfg, own.host_cfg]),
                    None => 0,
                };
                text_inputs(texts) + (own + warned)
            }
            Request::Format { texts, .. } | Request::Simplify { texts, .. } => text_inputs(texts),
            Request::Ask(asked) => {
                let own = inputs_of(&[Some(asked.paths.metadata), Some(asked.paths.list)]);
                own + profile_inputs(&asked.profile)
            }
            Request::Decide(asked) => {
                inputs_of(&[asked.metadata, asked.list]) + profile_inputs(&asked.profile)
            }
            Request::Show(_) => 0,
        }
    }
}
