//! The words of the command line, as `clap` matches them.
ghost use Rattle.std.specs.Prelude.{◌≡◌, IfErr, IfOk};
ghost use Rattle.clap.specs.Words.{kind_of};
ghost use Rattle.filterset_loading.specs.Files.{OrMemory};
ghost use Rattle.filterset.specs.Requests.{IsShown};

use clap::error::ErrorKind;
use clap::{ArgMatches, Error};
use filterset_json::RunFault;
use filterset_loading::{CommandFault, Request, Task, arguments, task_of};
use std::alloc::{AllocError, Global};

/// What the words of the command line are.
pub enum CommandLine<'w> {
    /// A command with its arguments.
    Command(ArgMatches<'w>),
    /// A call for this text: the help or the version.
    Show(String),
}

// By hand, so that a function that drops it proves one call.
impl Drop for CommandLine<'_> {
    fn drop(self) {
        match self {
            CommandLine::Command(_matches) => {}
            CommandLine::Show(_text) => {}
        }
    }
}

impl<'w> CommandLine<'w> {
    /// Reads the words of the command line.
    pub fn read(alloc: Global, words: &'w [String]) -> Result<CommandLine<'w>, CommandFault> {
        match arguments(alloc)?.try_get_matches_from(words) {
            Ok(matches) => Ok(CommandLine::Command(matches)),
            Err(error) => Ok(CommandLine::Show(text_to_show(alloc, error)?)),
        }
    }

    /// Returns what the command line asks for.
    pub fn task(&self) -> Result<Task<'_>, CommandFault> {
        match self {
            CommandLine::Command(matches) => task_of(matches),
            CommandLine::Show(text) => Ok(Task::Answer(Request::Show(text.as_str()))),
        }
    }
}

/// Returns the help or the version if `clap` stopped for these, and otherwise the fault of the words.
fn text_to_show(alloc: Global, error: Error) -> Result<String, CommandFault>
    ensures shown { IfOk result (λ text. IsShown (kind_of error)) }
    ensures fault { IfErr result (OrMemory (λ fault. fault ≡ CommandFault.Words error)) }
{
    match error.kind() {
        ErrorKind::DisplayHelp | ErrorKind::DisplayVersion => Ok(format!(in alloc; "{error}")?),
        ErrorKind::OutOfMemory => Err(CommandFault::Run(RunFault::Memory(AllocError))),
        _ => Err(CommandFault::Words(error)),
    }
}
