//! Reads the command of a record.

use filterset_json::{Entry, EntryRefusal, text_of};
use serde_json::Value;
use std::alloc::Global;

/// What to write about each accepted filterset.
#[derive(Clone, Copy, Debug, PartialEq, Eq)]
pub enum Command {
    /// The filterset as it prints, and its answers about the binaries and tests.
    Report,
    /// The filterset as it prints, and nothing else.
    Format,
}

impl Entry for Command {
    ghost use Rattle.filterset_record.specs.Record.{IsCommand};
    ghost use Rattle.filterset_record.specs.declared.record.commands.Command as commands;

    ghost Row = { commands.Command };

    ghost row_of = { λ command. command };

    ghost stands_for = { IsCommand };

    const EXPECTED: &'static str = "`report` or `format`";

    fn read(alloc: Global, value: &Value) -> Result<Command, EntryRefusal> {
        match text_of(alloc, value)? {
            "report" => Ok(Command::Report),
            "format" => Ok(Command::Format),
            _ => Err(EntryRefusal::wrong(alloc, Self::EXPECTED)),
        }
    }
}
