//! The diagnostics of filtersets.
ghost use Rattle.std.specs.Prelude.{◌≡◌, IfOk, IfSome, map, option_map};
ghost use Rattle.serde_json.specs.View.{view};
ghost use Rattle.toml.specs.View as tables;
ghost use Rattle.filterset_sources.specs.Configurations.{IsFile};
ghost use Rattle.filterset_entries.specs.{Checked.text_row, Placements.placement_of};
ghost use Rattle.nextest_filtering.specs.Groups.{IsKnown};
ghost use Rattle.filterset_documents.specs.Contents.{names_in};
ghost use Rattle.filterset_documents.specs.Diagnostics.{AreDiagnosed, DiagnosesContent, RowDiagnostics, fault_span};
ghost use Rattle.filterset_documents.specs.Joins.{Joins};
ghost use Rattle.filterset_display.specs.Remarks.{remark_row};

use crate::content::Rest;
use crate::diagnostics::remark_value;
use crate::ranges::Shown;
use crate::values::{diagnose_unread, diagnose_values};
use filterset_display::Remark;
use filterset_entries::{FilePlace, Names, TextEntry, faults_of, file_part};
use filterset_faults::SourceSpan;
use filterset_graph::PackageGraph;
use filterset_sources::ParsedText;
use serde_json::Value;
use std::alloc::{AllocError, Global};

/// Returns where a span of a filterset at this place is in the file, or its start if it is not known.
pub fn fault_span(place: Option<FilePlace<'_>>, span: Option<SourceSpan>) -> SourceSpan
    ensures { result ≡ fault_span (option_map placement_of place.entry) span }
{
    match file_part(place, span) {
        Some(part) => part.span,
        None => SourceSpan::new(0, 0),
    }
}

/// Makes the diagnostics of faults of a filterset that is at this place.
fn fault_values(
    alloc: Global,
    shown: &Shown<'_>,
    place: Option<FilePlace<'_>>,
    faults: &[Remark],
) -> Result<Vec<Value>, AllocError>
    ensures { IfOk result (λ values. AreDiagnosed shown.now.encoding shown.now.lines.text.now
        (option_map placement_of place.entry) (map remark_row faults.now) (map view values.items)) }
{
    let mut values = Vec::with_capacity(alloc, faults.len())?;
    for fault in faults {
        let span = fault_span(place, fault.span);
        values.push(remark_value(alloc, shown, span, fault)?)?;
    }
    Ok(values)
}

/// Makes the diagnostics of filtersets, one after the other.
fn diagnose_rows(
    alloc: Global,
    shown: &Shown<'_>,
    names: &Names<'_>,
    entries: &[TextEntry<'_>],
) -> Result<Vec<Value>, AllocError>
    requires { IsKnown names.now.known_groups }
    ensures { IfOk result (λ values. Joins (RowDiagnostics shown.now.encoding shown.now.lines.text.now names.now)
        (map text_row entries.now) (map view values.items)) }
{
    let mut values = Vec::new(alloc);
    for entry in entries {
        let faults = faults_of(alloc, names, entry)?;
        let mut more = fault_values(alloc, shown, entry.place, faults.as_slice())?;
        values.append(&mut more)?;
    }
    Ok(values)
}

/// Makes the diagnostics of the filtersets of a document, which is a configuration if there is a rest of one. Then the
/// warnings of its other values follow, and of what nextest does not read of it.
pub fn diagnose_entries(
    alloc: Global,
    shown: &Shown<'_>,
    rest: Option<Rest>,
    entries: &[TextEntry<'_>],
) -> Result<Vec<Value>, AllocError>
    requires { IfSome rest (λ r. IsFile shown.now.lines.text.now (tables.view r.file)) }
    ensures { IfOk result (λ values. DiagnosesContent shown.now.encoding shown.now.lines.text.now
        (record { groups = names_in rest; rows = map text_row entries.now }) (map view values.items)) }
{
    let graph = PackageGraph::empty(alloc);
    match rest {
        Some(Rest { groups, file }) => {
            let text = shown.lines.text;
            let parsed = ParsedText { text, file: &file };
            let known = Names::new(alloc, &graph, false, groups, true)?;
            let mut values = diagnose_rows(alloc, shown, &known, entries)?;
            let mut warnings = diagnose_values(alloc, shown, parsed)?;
            let mut unread = diagnose_unread(alloc, shown, parsed, entries)?;
            warnings.append(&mut unread)?;
            values.append(&mut warnings)?;
            Ok(values)
        }
        None => {
            let no_groups = Vec::new(alloc);
            let unknown = Names::new(alloc, &graph, false, no_groups, false)?;
            let diagnosed = diagnose_rows(alloc, shown, &unknown, entries)?;
            Ok(diagnosed)
        }
    }
}
