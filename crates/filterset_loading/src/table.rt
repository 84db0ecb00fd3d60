//! The table of commands and arguments, which each script has.
ghost use Rattle.std.specs.Prelude.{◌≡◌, ◌++◌, IfOk, OnOk, string_bytes};
ghost use Rattle.filterset_loading.specs.Table.{arguments_text, table, taken};

use crate::engines::ADDED;
use clap::builder::ValueParser;
use clap::{Arg, ArgAction, Command};
use std::alloc::{AllocError, Global};
use std::fmt::Write;

/// Writes which values an argument takes: nothing for a flag, its names, or `-` for any.
fn push_taken(output: &mut String, argument: &Arg<'_>) -> Result<(), AllocError>
    ensures { OnOk result (string_bytes output.new ≡ string_bytes output.old ++ taken argument.now) }
{
    match argument.get_action() {
        ArgAction::Set | ArgAction::Append => {
            let ValueParser::Names(names) = argument.get_value_parser() else {
                return output.push_str("-");
            };
            for name in names {
                let name: &str = name;
                write!(output, "{name} ")?;
            }
            Ok(())
        }
        _ => Ok(()),
    }
}

/// Writes the lines of a command's arguments.
fn push_arguments(
    output: &mut String,
    command: &str,
    arguments: &[Arg<'_>],
) -> Result<(), AllocError>
    ensures { OnOk result (string_bytes output.new
        ≡ string_bytes output.old ++ arguments_text command.now arguments.now) }
{
    for argument in arguments {
        write!(output, "{command}|")?;
        if let Some(name) = argument.get_long() {
            write!(output, "--{name}")?;
        }
        output.push_str("|")?;
        if let Some(c) = argument.get_short() {
            write!(output, "-{c}")?;
        }
        output.push_str("|")?;
        push_taken(output, argument)?;
        let help = argument.get_help().unwrap_or("");
        writeln!(output, "|{help}")?;
    }
    Ok(())
}

/// Returns the table of a program's commands and arguments.
pub(crate) fn table_of(alloc: Global, command: &Command<'_>) -> Result<String, AllocError>
    ensures { IfOk result (λ text. string_bytes text ≡ table command.now) }
{
    let mut text = String::from_str(alloc, ADDED)?;
    push_arguments(&mut text, "", command.get_arguments())?;
    let commands = command.get_subcommands();
    for below in commands {
        let name = below.get_name();
        let about = below.get_about().unwrap_or("");
        writeln!(text, "|{name}|||{about}")?;
        push_arguments(&mut text, name, below.get_arguments())?;
    }
    Ok(text)
}
