//! The program for records. A record of filtersets goes in on standard input; its report comes out on standard output: what
//! the library says of each filterset, or why the record is refused. For programs and scripts.
#![tactic(auto)]

mod listed;
mod lookup;
mod report;

use filterset_json::{Program, execute};
use report::{ReportOutcome, report_of};
use std::alloc::{AllocError, Global};
use std::process::ExitCode;

/// Reports what the library says about each filterset of a record.
pub struct Filtersets;

impl Program for Filtersets {
    ghost use Rattle.filterset_cli.specs.Report.{Report, status_of};

    type Outcome = ReportOutcome;

    ghost reports = { Report };

    ghost status_of = { status_of };

    fn report(alloc: Global, bytes: &[u8]) -> Result<(String, ReportOutcome), AllocError> {
        report_of(alloc, bytes)
    }

    fn status(outcome: ReportOutcome) -> u8 {
        match outcome {
            ReportOutcome::AllAccepted => 0,
            ReportOutcome::SomeRefused => 1,
            ReportOutcome::RecordRefused => 2,
        }
    }
}

fn main(rt: HostRuntime) -> ExitCode {
    execute::<Filtersets>(rt)
}
