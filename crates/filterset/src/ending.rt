//! The exit status of the program.
ghost use Rattle.std.specs.Prelude.{◌≡◌};
ghost use Rattle.filterset.specs.Ending.{answer_status, file_status, session_status, status_of};

use filterset_display::Ending as SessionEnding;
use filterset_entries::Ending;
use filterset_loading::{CommandFault, FileFault};

/// How what the command line asks for ended.
#[derive(Clone, Copy, Debug)]
pub enum Ended {
    Answered(Ending),
    Served(SessionEnding),
}

/// Returns the exit status after a fault of a file: 3 if reading it failed, and 2 if its content is rejected.
fn file_status(fault: &FileFault) -> u8
    ensures { result ≡ file_status fault.now }
{
    match fault {
        FileFault::Unread(_) => 3,
        FileFault::NotText | FileFault::Refused(_) | FileFault::WrongCfg(_) => 2,
    }
}

/// Returns the exit status after an answer.
fn answer_status(ending: Ending) -> u8
    ensures { result ≡ answer_status ending }
{
    match ending {
        Ending::Fine => 0,
        Ending::Faulty | Ending::Differing => 1,
        Ending::Unknown => 4,
    }
}

/// Returns the exit status after the session of an editor.
fn session_status(ending: SessionEnding) -> u8
    ensures { result ≡ session_status ending }
{
    match ending {
        SessionEnding::Exit { in_order: true } => 0,
        SessionEnding::Exit { in_order: false } | SessionEnding::InputEnded => 1,
        SessionEnding::Malformed => 2,
    }
}

/// Returns the exit status of a command.
pub fn status(ended: &Result<Ended, CommandFault>) -> u8
    ensures { result ≡ status_of ended.now }
{
    match ended {
        Ok(Ended::Answered(ending)) => answer_status(*ending),
        Ok(Ended::Served(ending)) => session_status(*ending),
        Err(CommandFault::File { fault, .. }) => file_status(fault),
        Err(CommandFault::Run(_) | CommandFault::Unwritten(_)) => 3,
        Err(_) => 2,
    }
}
