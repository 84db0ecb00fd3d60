//! Writes the report of a record.
ghost use Rattle.std.specs.Prelude.{◌≡◌, IfOk, List, map, string_bytes};
ghost use Rattle.filterset_graph.specs.Packages.{AllDiffer, LinksKnown, ids};
ghost use Rattle.filterset_graph.specs.{Refusals.IsRefusalOf, declared.package.PackageMetadata.PackageMetadata};
ghost use Rattle.nextest_filtering.specs.Groups.{AreGroups, IsKnown};
ghost use Rattle.filterset_json.specs.Shape.{Text};
ghost use Rattle.filterset_cli.specs.Report.{PackagesLine, RecordReport, Report};
ghost use Rattle.filterset_record.specs.Rows.{binary_row, filterset_row, record_row};

use crate::lookup::RecordLookup;
use faults::push_faults;
use filterset_json::{Entry, EntryRefusal};
use filterset_record::{BinaryEntry, Command, FiltersetEntry, Record};
use nextest_filtering::{
    EvalContext, Filterset, FiltersetKind, GraphRefusal, KnownGroups, PackageGraph, ParseContext,
};
use sections::report_sections;
use serde_json::Value;
use setting::Setting;
use std::alloc::{AllocError, Global};

mod faults;
mod sections;
mod setting;

/// What a report says about its record as a whole.
#[derive(Clone, Copy, Debug, PartialEq, Eq)]
pub enum ReportOutcome {
    AllAccepted,
    SomeRefused,
    RecordRefused,
}

/// Writes the report of a record's bytes, and returns how the record fared. The only error is out of memory.
pub fn report_of(alloc: Global, input: &[u8]) -> Result<(String, ReportOutcome), AllocError>
    ensures { IfOk result (λ made. Report input.now (string_bytes made.0) made.1) }
{
    let value = match Value::from_slice(alloc, input) {
        Ok(value) => value,
        Err(error) if error.is_memory() => return Err(AllocError),
        Err(_) => return refusal(alloc, "record refused: not JSON\n"),
    };
    match Record::read(alloc, &value) {
        Ok(record) => {
            drop(value);
            report_record(alloc, record)
        }
        Err(EntryRefusal::Wrong(_)) => refusal(alloc, "record refused: not a record\n"),
        Err(EntryRefusal::OutOfMemory(refused)) => Err(refused),
    }
}

/// Refuses the record by a report of one line.
fn refusal(alloc: Global, line: &str) -> Result<(String, ReportOutcome), AllocError>
    ensures { IfOk result (λ made. (string_bytes made.0 ≡ line.now) × (made.1 ≡ ReportOutcome.RecordRefused)) }
{
    Ok((String::from_str(alloc, line)?, ReportOutcome::RecordRefused))
}

/// What a record asks of its tests.
#[derive(Drop)]
struct Questions {
    filtersets: Vec<FiltersetEntry>,
    default_filter: String,
    command: Command,
}

/// Writes the report of a record.
fn report_record(alloc: Global, entries: Record) -> Result<(String, ReportOutcome), AllocError>
    ensures { IfOk result (λ made. RecordReport (record_row entries) (string_bytes made.0) made.1) }
{
    let Record {
        filtersets,
        packages,
        groups,
        default_filter,
        binaries,
        command,
    } = entries;
    let graph = match PackageGraph::new(alloc, packages) {
        Ok(graph) => graph,
        Err(refusal) => return Ok((packages_line(alloc, refusal)?, ReportOutcome::RecordRefused)),
    };
    let known_groups = KnownGroups::of(alloc, groups)?;
    let asked = Questions {
        filtersets,
        default_filter,
        command,
    };
    report_filtersets(alloc, &graph, known_groups, &binaries, asked)
}

/// Writes the line that says why packages make no graph.
fn packages_line(alloc: Global, refusal: GraphRefusal) -> Result<String, AllocError>
    ensures { IfOk result (λ line. (packages : List PackageMetadata) → IsRefusalOf packages refusal
        → PackagesLine packages (string_bytes line)) }
{
    match refusal {
        GraphRefusal::RepeatedId { at } => {
            format!(in alloc; "record refused: repeated package id at {at}\n")
        }
        GraphRefusal::UnknownLink { package, link } => {
            format!(in alloc; "record refused: unknown link {link} of package {package}\n")
        }
        GraphRefusal::OutOfMemory(refused) => Err(refused),
    }
}

/// Writes the report of filtersets, or the refusal of the default filter if it has faults.
fn report_filtersets(
    alloc: Global,
    graph: &PackageGraph,
    known_groups: KnownGroups,
    binaries: &[BinaryEntry],
    asked: Questions,
) -> Result<(String, ReportOutcome), AllocError>
    requires graph { AllDiffer (ids graph.now) × LinksKnown graph.now }
    requires known { IsKnown known_groups }
    ensures { IfOk result (λ made. (names : List Text) → AreGroups names known_groups → RecordReport (record {
      filtersets = map filterset_row asked.filtersets.items;
      packages = graph.now;
      groups = names;
      default_filter = string_bytes asked.default_filter;
      binaries = map binary_row binaries.now;
      command = asked.command;
    }) (string_bytes made.0) made.1) }
{
    let Questions {
        filtersets,
        default_filter,
        command,
    } = asked;
    let parse_context = ParseContext::new(alloc, graph)?;
    let kind = FiltersetKind::DefaultFilter;
    match Filterset::parse(alloc, default_filter, &parse_context, kind, &known_groups) {
        Ok(default_filter) => {
            // A filterset may ask for the groups of tests if there are binaries, and its text has the word.
            let may_ask = !binaries.is_empty()
                && filtersets
                    .iter()
                    .any(|filterset| filterset.text.contains("group"));
            let lookup = RecordLookup::new(alloc, binaries, may_ask)?;
            let setting = Setting {
                command,
                parse_context,
                known_groups,
                eval_context: EvalContext::new(&default_filter.compiled),
                lookup,
            };
            report_sections(alloc, &setting, filtersets)
        }
        Err(refusal) => {
            let refused = refusal.into_faults()?;
            let mut lines = String::from_str(alloc, "default refused: ")?;
            push_faults(&mut lines, refused.errors.as_slice())?;
            Ok((lines, ReportOutcome::RecordRefused))
        }
    }
}
