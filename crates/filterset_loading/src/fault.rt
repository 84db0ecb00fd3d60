//! The faults that end a command without an answer, and what they tell people to do next.
ghost use Rattle.std.specs.Prelude.{◌≡◌, ◌≢◌, alloc_error};
ghost use Rattle.filterset_loading.specs.Files.{IsFaultAt, OrMemory};

use crate::files::{INPUT_NAME, name_of};
use clap::Error;
use filterset_configuration::{CfgRefusal, LineageFault};
use filterset_json::RunFault;
use filterset_sources::SourceRefusal;
use std::alloc::{AllocError, Global};
use std::{fmt, io};

/// What a file is read for.
#[derive(Clone, Copy, Debug, PartialEq, Eq)]
pub enum FileRole {
    /// It has the packages: what `cargo metadata` wrote.
    Metadata,
    /// It has the tests: what `cargo nextest list` wrote.
    List,
    /// It is nextest's configuration.
    Configuration,
    /// It has what `rustc` sets for the platform that tests are built for.
    TargetCfg,
    /// It has what `rustc` sets for the platform that runs the build.
    HostCfg,
}

impl FileRole {
    /// Returns which file the option takes.
    fn help(self) -> &'static str {
        match self {
            FileRole::Metadata => {
                "`--cargo-metadata` takes the output of `cargo metadata --format-version=1 --all-features --filter-platform TRIPLE`"
            }
            FileRole::List => {
                "`--nextest-list` takes the output of `cargo nextest list --message-format json --ignore-default-filter`"
            }
            FileRole::Configuration => {
                "`--config` takes nextest's configuration, such as `.config/nextest.toml`"
            }
            FileRole::TargetCfg => {
                "`--target-cfg` takes the output of `rustc --print cfg --target TRIPLE`"
            }
            FileRole::HostCfg => "`--host-cfg` takes the output of `rustc --print cfg`",
        }
    }
}

/// Why a file is not used.
#[derive(Drop)]
pub enum FileFault {
    /// Reading it failed.
    Unread(io::Error),
    /// It is not UTF-8.
    NotText,
    /// Its content is not what it has to be.
    Refused(SourceRefusal),
    /// It is not what `rustc` sets for a platform.
    WrongCfg(CfgRefusal),
}

/// Why a command gives no answer.
pub enum CommandFault {
    /// `clap` rejects the words of the command line.
    Words(Error),
    /// A word of the command line is not UTF-8.
    NoWords,
    /// Standard input is not UTF-8.
    NotText,
    /// The command line lacks this argument.
    Missing(&'static str),
    /// There is nothing to check: no filterset, and no configuration in this folder or above.
    NoConfiguration,
    /// `-` stands for two things.
    TwoInputs,
    /// `-` is given beside other filtersets.
    MixedInput,
    /// The value of `--budget` is no number of steps.
    WrongBudget,
    /// The file at this path is not used.
    File {
        role: FileRole,
        path: String,
        fault: FileFault,
    },
    /// The file of this name has no such profile, or one that falls back on none.
    Profile {
        file: String,
        fault: LineageFault,
        /// The names of its profiles.
        known: Vec<String>,
    },
    /// The list at this path has no test binary with this id.
    NoBinary {
        list: String,
        binary: String,
    },
    /// The binary with this id has no test with this name in the list at this path.
    NoTest {
        list: String,
        binary: String,
        test: String,
    },
    /// Standard output does not take the answer.
    Unwritten(io::Error),
    /// Out of memory, or a read or a write failed.
    Run(RunFault),
}

// By hand, so that a function that drops a fault proves one call.
impl Drop for CommandFault {
    fn drop(self) {
        match self {
            CommandFault::Words(_error) => {}
            CommandFault::NoWords | CommandFault::NotText | CommandFault::NoConfiguration => {}
            CommandFault::TwoInputs | CommandFault::MixedInput | CommandFault::WrongBudget => {}
            CommandFault::Missing(_) | CommandFault::Run(_) => {}
            CommandFault::Unwritten(_error) => {}
            CommandFault::File {
                role: _role,
                path: _path,
                fault: _fault,
            } => {}
            CommandFault::Profile {
                file: _file,
                fault: _fault,
                known: _known,
            } => {}
            CommandFault::NoBinary {
                list: _list,
                binary: _binary,
            } => {}
            CommandFault::NoTest {
                list: _list,
                binary: _binary,
                test: _test,
            } => {}
        }
    }
}

impl CommandFault {
    /// Makes the fault of the file at a path.
    pub fn in_file(alloc: Global, role: FileRole, path: &str, fault: FileFault) -> CommandFault
        ensures { OrMemory (IsFaultAt role path.now fault) result }
    {
        match String::from_str(alloc, name_of(path)) {
            Ok(path) => CommandFault::File { role, path, fault },
            Err(refused) => CommandFault::Run(RunFault::Memory(refused)),
        }
    }

    /// Makes the fault of the file at a path whose content is rejected.
    pub fn from_refusal(
        alloc: Global,
        role: FileRole,
        path: &str,
        refusal: SourceRefusal,
    ) -> CommandFault
        ensures { OrMemory (λ fault. IsFaultAt role path.now (FileFault.Refused refusal) fault
            × (refusal ≢ SourceRefusal.OutOfMemory alloc_error)) result }
    {
        match refusal {
            SourceRefusal::OutOfMemory(refused) => CommandFault::Run(RunFault::Memory(refused)),
            other => CommandFault::in_file(alloc, role, path, FileFault::Refused(other)),
        }
    }
}

/// Writes the names of profiles but `default`.
fn write_others<W: fmt::Write>(f: &mut fmt::Formatter<W>, names: &[String]) -> fmt::Result {
    for name in names {
        if name.as_str() != "default" {
            write!(f, ", `{name}`")?;
        }
    }
    Ok(())
}

impl fmt::Display for CommandFault {
    fn fmt<W: fmt::Write>(&self, f: &mut fmt::Formatter<W>) -> fmt::Result {
        match self {
            CommandFault::Words(error) => error.fmt(f),
            CommandFault::NoWords => f.write_str(
                "error: the command line is not UTF-8\nhelp: write filtersets, paths and names in UTF-8",
            ),
            CommandFault::NotText => write!(
                f,
                "error: {INPUT_NAME} is not UTF-8\nhelp: `-` takes filtersets, one a line, or a configuration, in UTF-8",
            ),
            CommandFault::NoConfiguration => f.write_str(
                "error: there is nothing to check: no filterset, and no `.config/nextest.toml` in this folder or above\nhelp: give filtersets, or a configuration by `--config`",
            ),
            CommandFault::TwoInputs => f.write_str(
                "error: `-` stands for two things, and there is one standard input\nhelp: give one of them as an argument or a file",
            ),
            CommandFault::MixedInput => f.write_str(
                "error: `-` is given beside other filtersets\nhelp: give it alone: each line of standard input is a filterset",
            ),
            CommandFault::WrongBudget => f.write_str(
                "error: the value of `--budget` is no number of steps\nhelp: give a number such as 50000000",
            ),
            CommandFault::Missing(argument) => write!(
                f,
                "error: the command line has no {argument}\nhelp: `filterset --help` lists the commands",
            ),
            CommandFault::File { role, path, fault } => {
                match fault {
                    FileFault::Unread(error) => write!(f, "error: cannot read {path}: {error}")?,
                    FileFault::NotText => write!(f, "error: {path} is not UTF-8")?,
                    FileFault::Refused(refusal) => write!(f, "error: {path}: {refusal}")?,
                    FileFault::WrongCfg(refusal) => write!(f, "error: {path}: {refusal}")?,
                }
                let help = role.help();
                write!(f, "\nhelp: {help}")
            }
            CommandFault::Profile { file, fault, known } => {
                write!(f, "error: {file}: {fault}\nhelp: profiles: `default`")?;
                write_others(f, known)
            }
            CommandFault::NoBinary { list, binary } => write!(
                f,
                "error: {list} has no test binary `{binary}`\nhelp: `filterset list` with the same files prints the binaries and their tests",
            ),
            CommandFault::NoTest { list, binary, test } => write!(
                f,
                "error: {list} has no test `{test}` of the binary `{binary}`\nhelp: `filterset list` with the same files and -E 'binary_id(={binary})' prints its tests",
            ),
            CommandFault::Unwritten(error) => {
                write!(f, "error: cannot write standard output: {error}")
            }
            CommandFault::Run(fault) => fault.fmt(f),
        }
    }
}

impl From<AllocError> for CommandFault {
    ghost use Rattle.std.specs.Prelude.{◌≡◌};
    ghost use Rattle.filterset_loading.specs.declared.fault.CommandFault.TheVariants.{Run};
    ghost use Rattle.filterset_json.specs.declared.fault.RunFault.TheVariants.{Memory};

    ghost from_gives = { λ refused fault. fault ≡ Run (Memory refused) };

    fn from(refused: AllocError) -> CommandFault {
        CommandFault::Run(RunFault::Memory(refused))
    }
}

impl From<RunFault> for CommandFault {
    ghost use Rattle.std.specs.Prelude.{◌≡◌};
    ghost use Rattle.filterset_loading.specs.declared.fault.CommandFault.TheVariants.{Run};

    ghost from_gives = { λ own fault. fault ≡ Run own };

    fn from(fault: RunFault) -> CommandFault {
        CommandFault::Run(fault)
    }
}
