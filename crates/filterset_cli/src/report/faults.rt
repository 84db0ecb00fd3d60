//! Writes the lines of the faults of a filterset.
ghost use Rattle.std.specs.Prelude.{◌≡◌, ◌++◌, OnOk, string_bytes};
ghost use Rattle.filterset_cli.specs.Report.{fault_lines, faults_text};

use nextest_filtering::ParseSingleError;
use std::alloc::AllocError;
use std::fmt::Write;

/// Adds how many faults there are, and their lines.
pub fn push_faults(lines: &mut String, faults: &[ParseSingleError]) -> Result<(), AllocError>
    ensures { OnOk result (string_bytes lines.new ≡ string_bytes lines.old ++ faults_text faults.now) }
{
    let count = faults.len();
    writeln!(lines, "{count}")?;
    for fault in faults {
        push_fault(lines, fault)?;
    }
    Ok(())
}

/// Adds the lines of a fault.
fn push_fault(lines: &mut String, fault: &ParseSingleError) -> Result<(), AllocError>
    ensures { OnOk result (string_bytes lines.new ≡ string_bytes lines.old ++ fault_lines fault.now) }
{
    lines.push_str("  fault ")?;
    if let Some(span) = fault.span() {
        let offset = span.offset();
        let length = span.len();
        write!(lines, "{offset} {length} ")?;
    }
    lines.push_str(fault.code())?;
    if let Some(label) = fault.label() {
        write!(lines, ": {label}")?;
    }
    lines.push_str("\n")?;
    if let Some(help) = fault.help() {
        writeln!(lines, "  help: {help}")?;
    }
    Ok(())
}
