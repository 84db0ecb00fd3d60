//! The program for people. Words, files and standard input go in; answers come out: the faults of filtersets, how they print,
//! the tests that they pick and why, how overrides apply, verdicts on every possible test, and what a language server says.
//! For people, editors and shells.
#![tactic(auto)]

mod answering;
mod command_line;
mod ending;
mod finding;
mod greeting;
mod language;
mod output;
mod run;
mod serving;

use command_line::CommandLine;
use ending::{Ended, status};
use filterset_display::Ending as SessionEnding;
use filterset_entries::Ending;
use filterset_json::{FromReader, RunFault, ToWriter};
use filterset_loading::{CommandFault, HostFiles, Request, Task, arguments, completion_script};
use finding::{find_configuration, path_in, with_configuration};
use output::HostOutput;
use run::run;
use serving::serve_editor;
use std::alloc::AllocError;
use std::process::ExitCode;
use std::{env, io};

/// Returns the words of the command line.
fn words_of(rt: &HostRuntime) -> Result<Vec<String>, CommandFault> {
    match env::args(rt) {
        Ok(words) => Ok(words.collect(rt.alloc())?),
        Err(error) if error.kind() == io::ErrorKind::OutOfMemory => {
            Err(CommandFault::Run(RunFault::Memory(AllocError)))
        }
        Err(_) => Err(CommandFault::NoWords),
    }
}

/// Answers a request on standard output, or writes on standard error what keeps it from that.
fn answer_request(rt: &HostRuntime, request: &Request<'_>) -> Result<Ended, CommandFault> {
    let files = HostFiles { runtime: rt };
    let mut input = FromReader::new(rt.stdin());
    let mut output = HostOutput::new(rt.stdout());
    let mut errors = HostOutput::new(rt.stderr());
    let alloc = rt.alloc();
    let run = run(alloc, request, &files, &mut input, &mut output, &mut errors)?;
    match output.into_failure() {
        Some(error) => Err(CommandFault::Unwritten(error)),
        None => Ok(Ended::Answered(run.ending)),
    }
}

/// Answers a request, which may be to check the nearest configuration, at this path, and says on standard error which file that
/// is, or that a filterset with faults is the path of a file. Without a configuration the path is empty.
fn answer_found<'w>(
    rt: &HostRuntime,
    request: &Request<'w>,
    nearest: &'w str,
) -> Result<Ended, CommandFault> {
    if let Some(request) = with_configuration(request, nearest) {
        if nearest.is_empty() {
            return Err(CommandFault::NoConfiguration);
        }
        let _ = eprintln!(rt; "checks {nearest}");
        return answer_request(rt, &request);
    }
    let ended = answer_request(rt, request)?;
    if let Ended::Answered(Ending::Faulty) = ended
        && let Some(path) = path_in(rt, request)
    {
        let _ = eprintln!(rt; "help: `{path}` is a file: did you mean `--config {path}`?");
    }
    Ok(ended)
}

/// Does what the command line asks for: answers a request, or serves an editor on standard input and output. The nearest
/// configuration is at this path, which is empty if there is none.
fn perform<'w>(rt: &HostRuntime, task: &Task<'w>, nearest: &'w str) -> Result<Ended, CommandFault> {
    match task {
        Task::Answer(request) => answer_found(rt, request, nearest),
        Task::Complete(shell) => {
            let command = arguments(rt.alloc())?;
            let script = completion_script(rt.alloc(), *shell, &command)?;
            answer_request(rt, &Request::Show(script.as_str()))
        }
        Task::Serve(paths) => {
            let files = HostFiles { runtime: rt };
            let mut input = FromReader::new(rt.stdin());
            let mut output = ToWriter::new(rt.stdout());
            let ending = serve_editor(rt.alloc(), &files, *paths, &mut input, &mut output)?;
            Ok(Ended::Served(ending))
        }
    }
}

/// Runs the command of these words. The nearest configuration is at this path, which is empty if there is none.
fn run_words(rt: &HostRuntime, words: &[String], nearest: &str) -> Result<Ended, CommandFault> {
    let line = CommandLine::read(rt.alloc(), words)?;
    let task = line.task()?;
    perform(rt, &task, nearest)
}

/// Runs the command of the command line. Only `check` looks for the nearest configuration.
fn run_command(rt: &HostRuntime) -> Result<Ended, CommandFault> {
    let words = words_of(rt)?;
    let nearest = match words.get(1) {
        Some(word) if word.as_str() == "check" => find_configuration(rt)?,
        _ => String::new(rt.alloc()),
    };
    run_words(rt, words.as_slice(), nearest.as_str())
}

/// Writes on standard error why a command failed, if it did. A failed write is ignored.
fn report(rt: &HostRuntime, ended: &Result<Ended, CommandFault>) {
    let _ = match ended {
        Err(CommandFault::Words(error)) => error.print(rt),
        Err(fault) => eprintln!(rt; "{fault}"),
        Ok(Ended::Served(SessionEnding::Malformed)) => eprintln!(rt;
            "error: standard input has no message of the Language Server Protocol\nhelp: `filterset lsp` is for editors, which start it",
        ),
        Ok(_) => Ok(()),
    };
}

fn main(rt: HostRuntime) -> ExitCode {
    let ended = run_command(&rt);
    report(&rt, &ended);
    ExitCode::from(status(&ended))
}
