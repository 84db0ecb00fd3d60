//! Puts the rows of a suite to the library. Rows go in on standard input; a line for each difference and the number of rows
//! come out. For the gate.
#![tactic(auto)]

mod asked;
mod filtersets;
mod globs;
mod graphs;
mod matchers;
mod reading;
mod report;
#[cfg(test)]
mod tests;
mod texts;
mod trees;

use filterset_json::{EntryRefusal, Program, check_keys, execute};
use filtersets::{try_filtersets, try_workspace};
use globs::try_glob;
use graphs::try_graph;
use matchers::try_matcher;
use reading::list_under;
use report::Report;
use serde_json::Value;
use std::alloc::{AllocError, Global};
use std::process::ExitCode;
use texts::try_text;

/// The program that reports where the library differs from the rows of a suite.
struct Conformance;

impl Program for Conformance {
    type Outcome = u8;

    ghost reports = { λ rows report status. Unit {0} };

    ghost status_of = { λ status. status };

    fn report(alloc: Global, bytes: &[u8]) -> Result<(String, u8), AllocError> {
        let suite = match Value::from_slice(alloc, bytes) {
            Ok(suite) => suite,
            Err(error) if error.is_memory() => return Err(AllocError),
            Err(_) => return Ok((String::from_str(alloc, "rows refused: not JSON\n")?, 2)),
        };
        let mut report = Report::new(alloc);
        match try_suite(&mut report, &suite) {
            Ok(()) => report.finish(),
            Err(EntryRefusal::Wrong(_)) => {
                Ok((String::from_str(alloc, "rows refused: not a suite\n")?, 2))
            }
            Err(EntryRefusal::OutOfMemory(refused)) => Err(refused),
        }
    }

    fn status(status: u8) -> u8 {
        status
    }
}

/// Puts each row to the library.
fn try_suite(report: &mut Report, suite: &Value) -> Result<(), EntryRefusal> {
    let alloc = report.alloc;
    let kinds = [
        "texts",
        "globs",
        "matchers",
        "filtersets",
        "graphs",
        "workspaces",
    ];
    check_keys(alloc, suite, &kinds)?;
    for row in list_under(alloc, suite, "texts")? {
        try_text(report, row)?;
    }
    for row in list_under(alloc, suite, "globs")? {
        try_glob(report, row)?;
    }
    for row in list_under(alloc, suite, "matchers")? {
        try_matcher(report, row)?;
    }
    try_filtersets(report, Vec::new(alloc), Vec::new(alloc), suite)?;
    for row in list_under(alloc, suite, "graphs")? {
        try_graph(report, row)?;
    }
    for row in list_under(alloc, suite, "workspaces")? {
        try_workspace(report, row)?;
    }
    Ok(())
}

fn main(rt: HostRuntime) -> ExitCode {
    execute::<Conformance>(rt)
}
