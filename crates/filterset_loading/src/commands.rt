//! The commands and their arguments, as `clap` takes them.
use clap::{Arg, ArgAction, Command};
use std::alloc::{AllocError, Global};

/// The version of the program, which `--version` prints.
const VERSION: &str = "0.1.0";

/// The values of `--kind`.
const KINDS: [&str; 4] = ["test", "default", "override", "archive"];

/// The values of `--message-format`.
const FORMATS: [&str; 2] = ["human", "json"];

/// The values of `--message-format` of `check`.
const CHECK_FORMATS: [&str; 3] = ["human", "json", "github"];

/// The values of `--color`.
const COLORS: [&str; 2] = ["never", "always"];

/// The values of `--run-ignored`.
const RUN_IGNORED: [&str; 3] = ["default", "only", "all"];

/// The shells that complete command lines.
const SHELLS: [&str; 3] = ["bash", "zsh", "fish"];

/// Makes the argument of the filtersets.
fn texts<'a>(alloc: Global) -> Arg<'a> {
    Arg::new(alloc, "text")
        .value_name("TEXT")
        .num_args(1..)
        .action(ArgAction::Append)
        .help("filtersets, or `-` for the lines of standard input")
}

/// Makes the option of the colours.
fn color<'a>(alloc: Global) -> Arg<'a> {
    Arg::new(alloc, "color")
        .long("color")
        .value_name("WHEN")
        .value_parser(COLORS.as_slice())
        .default_value("never")
        .help("whether the output has colours")
}

/// Makes the option of the output's form, one of these.
fn message_format<'a>(alloc: Global, formats: &'a [&'a str]) -> Arg<'a> {
    Arg::new(alloc, "format")
        .long("message-format")
        .value_name("FORMAT")
        .value_parser(formats)
        .default_value("human")
}

/// Makes the option of the file with the packages.
fn metadata<'a>(alloc: Global) -> Arg<'a> {
    Arg::new(alloc, "metadata")
        .long("cargo-metadata")
        .value_name("FILE")
        .help(
            "the output of `cargo metadata --format-version=1 --all-features --filter-platform TRIPLE`",
        )
}

/// Makes the option of the file with the configuration.
fn config<'a>(alloc: Global, help: &'a str) -> Result<Arg<'a>, AllocError> {
    Arg::new(alloc, "config")
        .long("config")
        .value_name("FILE")
        .help(help)
        .alias("config-file")
}

/// Makes the command `check`.
fn check<'a>(alloc: Global) -> Result<Command<'a>, AllocError> {
    let command = Command::new(alloc, "check")
        .about("Finds errors in filtersets and shows where they are")
        .after_help("Example: filterset check 'package(parser) and not test(~slow)'");
    let config = config(
        alloc,
        "nextest's configuration, or `-` for standard input; its filtersets are checked too",
    );
    let command = with_argument(command, config)?
        .arg(metadata(alloc))?
        .arg(
            Arg::new(alloc, "kind")
                .long("kind")
                .value_name("KIND")
                .value_parser(KINDS.as_slice())
                .default_value("test")
                .help("what the filtersets are for"),
        )?
        .arg(message_format(alloc, CHECK_FORMATS.as_slice()).help(
            "the output format; `github` shows errors in a pull request",
        ))?
        .arg(color(alloc))?;
    let command = with_argument(command, nextest_list(alloc).requires_arg("metadata"))?;
    let command = with_profile(alloc, command)?;
    let command = with_argument(command, run_ignored(alloc).requires_arg("list"))?;
    let command = command.arg(
        Arg::new(alloc, "deny")
            .long("deny-warnings")
            .action(ArgAction::SetTrue)
            .help("exit with status 1 if there are warnings"),
    )?;
    with_argument(command, more_texts(alloc))?.arg(texts(alloc))
}

/// Makes a command that prints each of its filtersets in another way.
fn printing<'a>(
    alloc: Global,
    name: &'a str,
    about: &'a str,
    example: &'a str,
) -> Result<Command<'a>, AllocError> {
    let command = Command::new(alloc, name)
        .about(about)
        .after_help(example)
        .arg(color(alloc))?;
    let command = with_argument(command, more_texts(alloc))?;
    with_argument(command, texts(alloc).required_unless_present("filterset"))
}

/// Makes the option of the file with the tests.
fn nextest_list<'a>(alloc: Global) -> Arg<'a> {
    Arg::new(alloc, "list")
        .long("nextest-list")
        .value_name("FILE")
        .help("the output of `cargo nextest list --message-format json --ignore-default-filter`")
}

/// Makes the option of the tests that count, by whether they are ignored.
fn run_ignored<'a>(alloc: Global) -> Arg<'a> {
    Arg::new(alloc, "run-ignored")
        .long("run-ignored")
        .value_name("WHICH")
        .value_parser(RUN_IGNORED.as_slice())
        .default_value("default")
        .help("which tests count: those that are not ignored, only ignored ones, or all")
}

/// Makes the option of the default filter.
fn default_filter<'a>(alloc: Global) -> Arg<'a> {
    Arg::new(alloc, "default")
        .long("default-filter")
        .value_name("TEXT")
        .help("the default filter, instead of the profile's or `all()`")
}

/// Makes the option of the profile of the configuration.
fn profile<'a>(alloc: Global) -> Result<Arg<'a>, AllocError> {
    Arg::new(alloc, "profile")
        .long("profile")
        .value_name("NAME")
        .default_value("default")
        .help("the profile to use")
        .requires_arg("config")?
        .short_alias('P')
}

/// Makes the option of a file with what `rustc` sets for a platform.
fn cfg<'a>(alloc: Global, name: &'a str, help: &'a str) -> Result<Arg<'a>, AllocError> {
    Arg::new(alloc, name)
        .long(name)
        .value_name("FILE")
        .help(help)
        .requires_arg("config")
}

/// Adds the options of the profile, and of the platforms that its overrides ask about.
fn with_profile<'a>(alloc: Global, command: Command<'a>) -> Result<Command<'a>, AllocError> {
    let command = with_argument(command, profile(alloc))?;
    let target = cfg(
        alloc,
        "target-cfg",
        "the output of `rustc --print cfg --target TRIPLE` for the platform that tests are built for",
    );
    let command = with_argument(command, target)?;
    let host = cfg(
        alloc,
        "host-cfg",
        "the output of `rustc --print cfg` for the platform that builds them",
    );
    with_argument(command, host)
}

/// Adds the options of the workspace and its default filter.
fn with_workspace<'a>(alloc: Global, command: Command<'a>) -> Result<Command<'a>, AllocError> {
    command
        .arg(metadata(alloc).required(true))?
        .arg(nextest_list(alloc).required(true))?
        .arg(default_filter(alloc))
}

/// Adds the options of the workspace, its default filter and the profile.
fn with_setting<'a>(alloc: Global, command: Command<'a>) -> Result<Command<'a>, AllocError> {
    let config = config(
        alloc,
        "nextest's configuration, or `-` for standard input, for the default filter and groups of a profile",
    );
    let command = with_argument(with_workspace(alloc, command)?, config)?;
    with_profile(alloc, command)
}

/// Makes the option of a filterset.
fn filterset<'a>(alloc: Global) -> Arg<'a> {
    Arg::new(alloc, "filterset")
        .short('E')
        .long("filterset")
        .value_name("TEXT")
}

/// Makes the option by which filtersets are given as to nextest.
fn more_texts<'a>(alloc: Global) -> Result<Arg<'a>, AllocError> {
    filterset(alloc)
        .action(ArgAction::Append)
        .hide(true)
        .conflicts_with("text")
}

/// Makes the command `list`.
fn list<'a>(alloc: Global) -> Result<Command<'a>, AllocError> {
    let command = Command::new(alloc, "list")
        .about("Lists the tests that filtersets pick")
        .after_help(
            "Example: filterset list --cargo-metadata metadata.json --nextest-list list.json -E 'test(~slow)'",
        )
        .arg(
            filterset(alloc).action(ArgAction::Append).help(
                "a filterset; repeat for a union; defaults to the default filter",
            ),
        )?;
    with_setting(alloc, command)?
        .arg(run_ignored(alloc))?
        .arg(
            Arg::new(alloc, "ignore")
                .long("ignore-default-filter")
                .action(ArgAction::SetTrue)
                .help("list tests that the default filter does not pick too"),
        )?
        .arg(message_format(alloc, FORMATS.as_slice()).help(
            "the output format; `json` is nextest's own",
        ))?
        .arg(color(alloc))
}

/// Makes an argument that is given by its place.
fn placed<'a>(alloc: Global, id: &'a str, name: &'a str, help: &'a str) -> Arg<'a> {
    Arg::new(alloc, id).value_name(name).help(help)
}

/// Makes the command `compare`.
fn compare<'a>(alloc: Global) -> Result<Command<'a>, AllocError> {
    let command = Command::new(alloc, "compare")
        .about("Counts the tests that one of two filtersets picks, or both")
        .after_help(
            "Example: filterset compare --cargo-metadata metadata.json --nextest-list list.json --tests 'all()' 'not test(~slow)'",
        );
    with_setting(alloc, command)?
        .arg(run_ignored(alloc))?
        .arg(
            Arg::new(alloc, "tests")
                .long("tests")
                .action(ArgAction::SetTrue)
                .help("list the tests, and the ids of skipped binaries"),
        )?
        .arg(color(alloc))?
        .arg(placed(alloc, "first", "A", "a filterset").required(true))?
        .arg(placed(alloc, "second", "B", "another filterset").required(true))
}

/// Makes the command `explain`.
fn explain<'a>(alloc: Global) -> Result<Command<'a>, AllocError> {
    let command = Command::new(alloc, "explain")
        .about("Shows why a filterset picks a test or not")
        .after_help(
            "Example: filterset explain --cargo-metadata metadata.json --nextest-list list.json -E 'test(~slow)' parser tests::deep",
        )
        .arg(filterset(alloc).required(true).help("a filterset"))?;
    with_setting(alloc, command)?
        .arg(color(alloc))?
        .arg(placed(alloc, "binary", "BINARY_ID", "the id of a test binary").required(true))?
        .arg(placed(alloc, "test", "TEST", "the name of a test of the binary"))
}

/// Makes the command `overrides`.
fn overrides<'a>(alloc: Global) -> Result<Command<'a>, AllocError> {
    let command = Command::new(alloc, "overrides")
        .about("Shows which tests overrides apply to, and where a test gets its settings from")
        .after_help(
            "Example: filterset overrides --config .config/nextest.toml --cargo-metadata metadata.json --nextest-list list.json",
        )
        .arg(
            filterset(alloc).action(ArgAction::Append).help(
                "a filterset of the tests to count; repeat for a union; defaults to all tests",
            ),
        )?;
    let config = config(alloc, "nextest's configuration, or `-` for standard input");
    let config = config.map(|config| config.required(true));
    let command = with_argument(with_workspace(alloc, command)?, config)?;
    let command = with_profile(alloc, command)?
        .arg(run_ignored(alloc))?
        .arg(color(alloc))?
        .arg(placed(alloc, "binary", "BINARY_ID", "the id of a test binary"))?;
    let test = placed(alloc, "test", "TEST", "the name of a test of the binary");
    with_argument(command, test.conflicts_with("filterset"))
}

/// Makes a command that asks a question about filtersets and every possible test.
fn question<'a>(
    alloc: Global,
    name: &'a str,
    about: &'a str,
    example: &'a str,
) -> Result<Command<'a>, AllocError> {
    let command = Command::new(alloc, name)
        .about(about)
        .after_help(example)
        .arg(metadata(alloc))?;
    let config = config(
        alloc,
        "nextest's configuration, or `-` for standard input; `@ci` is the default filter of its profile `ci`",
    );
    let command = with_argument(command, config)?;
    let command = with_argument(command, nextest_list(alloc).requires_arg("metadata"))?;
    let command = with_argument(command, run_ignored(alloc).requires_arg("list"))?;
    with_profile(alloc, command)?
        .arg(default_filter(alloc))?
        .arg(
            Arg::new(alloc, "within")
                .long("within")
                .value_name("TEXT")
                .help(
                    "a filterset of the tests that count; defaults to all tests of the workspace",
                ),
        )?
        .arg(
            Arg::new(alloc, "budget")
                .long("budget")
                .value_name("STEPS")
                .default_value("50000000")
                .help("how many steps the search may take before the answer is `unknown`"),
        )?
        .arg(message_format(alloc, FORMATS.as_slice()).help("the output format"))?
        .arg(color(alloc))?
        .arg(
            Arg::new(alloc, "filterset")
                .value_name("TEXT")
                .num_args(1..)
                .required(true)
                .action(ArgAction::Append)
                .help("the filtersets, or names of profiles such as `@ci`"),
        )
}

/// Makes the command `lsp`.
fn lsp<'a>(alloc: Global) -> Result<Command<'a>, AllocError> {
    let command = Command::new(alloc, "lsp")
        .about("Runs a language server for editors")
        .after_help(
            "Example: filterset lsp --cargo-metadata metadata.json --nextest-list list.json",
        );
    let command = with_argument(command, metadata(alloc).requires_arg("list"))?;
    with_argument(command, nextest_list(alloc).requires_arg("metadata"))
}

/// Adds an argument, if it could be made.
fn with_argument<'a>(
    command: Command<'a>,
    argument: Result<Arg<'a>, AllocError>,
) -> Result<Command<'a>, AllocError> {
    command.arg(argument?)
}

/// Adds a command below a command, if it could be made.
fn with_command<'a>(
    command: Command<'a>,
    below: Result<Command<'a>, AllocError>,
) -> Result<Command<'a>, AllocError> {
    command.subcommand(below?)
}

/// Makes the program's command.
///
/// Only `with_argument` and `with_command` hold a command across a `?` on another value, once each: the proof of each such
/// exit drops the command, and commands have many parts.
pub fn arguments<'a>(alloc: Global) -> Result<Command<'a>, AllocError> {
    let command = Command::new(alloc, "filterset")
        .version(VERSION)
        .about("Checks cargo-nextest filtersets, and shows which tests they pick and why")
        .after_help("Example: filterset check --config .config/nextest.toml")
        .subcommand_required(true);
    let command = with_command(command, check(alloc))?;
    let format = printing(
        alloc,
        "format",
        "Prints filtersets in standard form",
        "Example: filterset format 'not!all()'",
    );
    let command = with_command(command, format)?;
    let simplify = printing(
        alloc,
        "simplify",
        "Prints filtersets without the parts that change nothing",
        "Example: filterset simplify 'test(a) or (test(a) and test(b))'",
    );
    let command = with_command(command, simplify)?;
    let command = with_command(command, list(alloc))?;
    let command = with_command(command, compare(alloc))?;
    let command = with_command(command, explain(alloc))?;
    let command = with_command(command, overrides(alloc))?;
    let same = question(
        alloc,
        "same",
        "Decides whether filtersets pick the same tests, for every possible test",
        "Example: filterset same 'not (test(a) or test(b))' 'not test(a) and not test(b)'",
    );
    let command = with_command(command, same)?;
    let cover = question(
        alloc,
        "cover",
        "Decides whether at least one filterset picks each possible test",
        "Example: filterset cover --cargo-metadata metadata.json 'package(parser)' 'rdeps(lexer)'",
    );
    let command = with_command(command, cover)?;
    let disjoint = question(
        alloc,
        "disjoint",
        "Decides whether at most one filterset picks each possible test",
        "Example: filterset disjoint 'kind(lib)' 'kind(test)'",
    );
    let command = with_command(command, disjoint)?;
    let partition = question(
        alloc,
        "partition",
        "Decides whether exactly one filterset picks each possible test",
        "Example: filterset partition 'test(~slow)' 'not test(~slow)'",
    );
    let command = with_command(command, partition)?;
    let command = with_command(command, lsp(alloc))?;
    let shell = placed(alloc, "shell", "SHELL", "the shell");
    let completions = Command::new(alloc, "completions")
        .about("Prints a completion script for a shell")
        .after_help("Example: filterset completions bash")
        .arg(shell.required(true).value_parser(SHELLS.as_slice()));
    with_command(command, completions)
}
