//! Rows of globs: tokens or fault, copies, equality, and the texts that a glob matches.
use crate::reading::{list_or_none, read_text, value_under};
use crate::report::Report;
use filterset_glob::{GenericGlob, GlobBranch, GlobConstructError, GlobRefusal, GlobToken, Steps};
use filterset_json::{EntryRefusal, check_keys, given, optional};
use serde_json::Value;
use std::alloc::{AllocError, Global};
use std::fmt::Write;

/// Puts a row to the library with each of its numbers for `n`.
pub fn try_glob(report: &mut Report, row: &Value) -> Result<(), EntryRefusal> {
    let alloc = report.alloc;
    report.begin("glob");
    let names = [
        "glob", "n", "tokens", "fault", "message", "matches", "misses", "equal", "unequal",
    ];
    check_keys(alloc, row, &names)?;
    let numbers = optional(alloc, row, "n", vec![in alloc; 0usize]?)?;
    report.note(!numbers.is_empty(), "n", "", "no number")?;
    for n in &numbers {
        try_with(report, row, *n)?;
    }
    Ok(())
}

/// Puts a row to the library with this number for `n`.
fn try_with(report: &mut Report, row: &Value, n: usize) -> Result<(), EntryRefusal> {
    let alloc = report.alloc;
    let text = read_text(alloc, value_under(alloc, row, "glob")?, n)?;
    let fault = given::<String>(alloc, row, "fault")?;
    let message = given(alloc, row, "message")?;
    let tokens = given(alloc, row, "tokens")?;
    match GenericGlob::new(alloc, text.clone()?) {
        Ok(glob) => {
            let text = text.as_str();
            report.note(fault.is_none(), "fault", text, "none")?;
            report.compare("tokens", text, &show_tokens(alloc, glob.tokens())?, &tokens)?;
            let copy = glob.try_clone(alloc)?;
            let same = copy == glob && copy.as_str() == text && glob.as_str() == text;
            report.note(same, "copy", text, "another glob")?;
            compare_globs(report, &glob, row, n)?;
            match_texts(report, &glob, row, n)
        }
        Err(GlobRefusal::Fault(error)) => {
            let found = String::from_str(alloc, name_of(&error))?;
            report.note(
                fault.as_ref() == Some(&found),
                "fault",
                text.as_str(),
                found.as_str(),
            )?;
            let found = format!(in alloc; "{error}")?;
            Ok(report.compare("message", text.as_str(), &found, &message)?)
        }
        Err(GlobRefusal::OutOfMemory(refused)) => Err(EntryRefusal::from(refused)),
    }
}

/// Notes for which globs of the row the glob is equal to them, or is not, otherwise than wanted.
fn compare_globs(
    report: &mut Report,
    glob: &GenericGlob,
    row: &Value,
    n: usize,
) -> Result<(), EntryRefusal> {
    let alloc = report.alloc;
    for (key, what, wanted) in [
        ("equal", "equality", true),
        ("unequal", "difference", false),
    ] {
        for value in list_or_none(alloc, row, key)? {
            let text = read_text(alloc, value, n)?;
            let same = match GenericGlob::new(alloc, text.clone()?) {
                Ok(other) => (*glob == other) == wanted,
                Err(GlobRefusal::Fault(_)) => false,
                Err(GlobRefusal::OutOfMemory(refused)) => return Err(EntryRefusal::from(refused)),
            };
            report.note(same, what, glob.as_str(), text.as_str())?;
        }
    }
    Ok(())
}

/// Notes for which texts of the row a call does not give the wanted answer.
fn match_texts(
    report: &mut Report,
    glob: &GenericGlob,
    row: &Value,
    n: usize,
) -> Result<(), EntryRefusal> {
    let alloc = report.alloc;
    for (key, what, wanted) in [("matches", "match", true), ("misses", "miss", false)] {
        for value in list_or_none(alloc, row, key)? {
            let text = read_text(alloc, value, n)?;
            let answer = glob.is_match(alloc, text.as_str())?;
            let counted = glob.is_match_counted(alloc, text.as_str(), &mut Steps::new())?;
            let same = answer == wanted && counted == wanted;
            report.note(same, what, glob.as_str(), text.as_str())?;
        }
    }
    Ok(())
}

/// Returns the name of the fault's variant.
fn name_of(fault: &GlobConstructError) -> &'static str {
    match fault {
        GlobConstructError::UnclosedClass => "UnclosedClass",
        GlobConstructError::InvalidRange(_, _) => "InvalidRange",
        GlobConstructError::UnopenedAlternates => "UnopenedAlternates",
        GlobConstructError::UnclosedAlternates => "UnclosedAlternates",
    }
}

/// Returns tokens as rows write them.
fn show_tokens(alloc: Global, tokens: &[GlobToken]) -> Result<String, AllocError> {
    let mut text = String::new(alloc);
    write_tokens(&mut text, tokens)?;
    Ok(text)
}

#[cycle(writing)]
fn write_tokens(text: &mut String, tokens: &[GlobToken]) -> Result<(), AllocError> {
    text.push('[')?;
    for (index, token) in tokens.iter().enumerate() {
        if index > 0 {
            text.push_str(", ")?;
        }
        match token {
            GlobToken::Literal(own) => write!(text, "Literal({own})")?,
            GlobToken::Class { negated, ranges } => write_class(text, *negated, ranges)?,
            GlobToken::Alternates(branches) => write_branches(text, branches)?,
            _ => write!(text, "{token:?}")?,
        }
    }
    text.push(']')
}

#[cycle(writing)]
fn write_branches(text: &mut String, branches: &[GlobBranch]) -> Result<(), AllocError> {
    text.push_str("Alternates(")?;
    for (index, branch) in branches.iter().enumerate() {
        if index > 0 {
            text.push_str(", ")?;
        }
        write_tokens(text, &branch.tokens)?;
    }
    text.push(')')
}

fn write_class(
    text: &mut String,
    negated: bool,
    ranges: &[(char, char)],
) -> Result<(), AllocError> {
    text.push_str(if negated { "NegatedClass(" } else { "Class(" })?;
    for (index, (low, high)) in ranges.iter().enumerate() {
        let blank = if index > 0 { " " } else { "" };
        write!(text, "{blank}{low}-{high}")?;
    }
    text.push(')')
}
