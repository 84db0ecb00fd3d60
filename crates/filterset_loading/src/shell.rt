//! The shells, and the scripts by which they complete command lines.
ghost use Rattle.std.specs.Prelude.{◌≡◌, ◌≢◌, ◌++◌, IfNone, IfOk, IfSome, OnOk, string_bytes};
ghost use Rattle.filterset_loading.specs.Scripts.{name_of, quoted, quoted_char, script_between, script_of};

use crate::engines::{BASH_END, BASH_START, FISH_END, FISH_START, ZSH_END, ZSH_START};
use crate::table::table_of;
use clap::Command;
use std::alloc::{AllocError, Global};

/// A shell that completes command lines.
#[derive(Clone, Copy, Debug, PartialEq, Eq)]
pub enum Shell {
    Bash,
    Zsh,
    Fish,
}

impl Shell {
    /// Returns the shell with this name: `bash`, `zsh` or `fish`.
    pub fn named(name: &str) -> Option<Shell>
        ensures found { IfSome result (λ shell. name_of shell ≡ name.now) }
        ensures unknown { IfNone result ((shell : Shell) → name_of shell ≢ name.now) }
    {
        match name {
            "bash" => Some(Shell::Bash),
            "zsh" => Some(Shell::Zsh),
            "fish" => Some(Shell::Fish),
            _ => None,
        }
    }
}

/// Writes a character between apostrophes: an apostrophe and a backslash go outside of them, after a backslash.
fn push_char(output: &mut String, c: char) -> Result<(), AllocError>
    ensures { OnOk result (string_bytes output.new ≡ string_bytes output.old ++ quoted_char c) }
{
    match c {
        '\'' => output.push_str("'\\''"),
        '\\' => output.push_str("'\\\\'"),
        _ => output.push(c),
    }
}

/// Writes a text between apostrophes, which all three shells read alike.
fn push_quoted(output: &mut String, text: &str) -> Result<(), AllocError>
    ensures { OnOk result (string_bytes output.new ≡ string_bytes output.old ++ quoted text.now) }
{
    for c in text.chars() {
        push_char(output, c)?;
    }
    Ok(())
}

/// Makes a script of these parts, with the table of a command between them.
fn script_between(
    alloc: Global,
    start: &str,
    command: &Command<'_>,
    end: &str,
) -> Result<String, AllocError>
    ensures { IfOk result (λ script. string_bytes script ≡ script_between start.now command.now end.now) }
{
    let table = table_of(alloc, command)?;
    let mut script = String::from_str(alloc, start)?;
    push_quoted(&mut script, table.as_str())?;
    script.push_str(end)?;
    Ok(script)
}

/// Returns the script by which a shell completes the command lines of a program: its commands, their options, and the
/// values of options that take one of several names. The command must not have been built yet: `clap` then adds `--help`,
/// which the script has anyway.
///
/// Returns an error only if out of memory.
pub fn completion_script(
    alloc: Global,
    shell: Shell,
    command: &Command<'_>,
) -> Result<String, AllocError>
    ensures { IfOk result (λ script. string_bytes script ≡ script_of shell command.now) }
{
    match shell {
        Shell::Bash => script_between(alloc, BASH_START, command, BASH_END),
        Shell::Zsh => script_between(alloc, ZSH_START, command, ZSH_END),
        Shell::Fish => script_between(alloc, FISH_START, command, FISH_END),
    }
}
