//! Annotations of a GitHub workflow.
ghost use Rattle.std.specs.Prelude.{◌≡◌, ◌++◌, OnOk, option_map, string_bytes};
ghost use Rattle.filterset_display.specs.Annotations.{Annotation, IsRegionOf, command, region_text};
ghost use Rattle.filterset_display.specs.{Columns.Text, Remarks.remark_row};

use crate::escaping::{Part, push_escaped};
use crate::remark::Remark;
use crate::source::{FileSpan, Location};
use std::alloc::{AllocError, Global};
use std::fmt::Write;

/// A region of a file.
#[derive(Clone, Copy)]
pub struct Region<'t> {
    /// The path of the file, from the top of the repository.
    pub file: &'t str,
    /// Where the region begins.
    pub start: Location,
    /// The location after its last character, in the same line.
    pub end: Location,
}

/// Writes the properties of a region, if there is one.
fn push_region(output: &mut String, region: Option<&Region<'_>>) -> Result<(), AllocError>
    ensures { OnOk result (string_bytes output.new
        ≡ string_bytes output.old ++ region_text (option_map (λ r. r.now) region.entry)) }
{
    let Some(region) = region else {
        return Ok(());
    };
    let (line, end_line) = (region.start.line, region.end.line);
    let (column, end_column) = (region.start.column, region.end.column);
    output.push_str("file=")?;
    push_escaped(output, Part::Property, region.file)?;
    write!(
        output,
        ",line={line},endLine={end_line},col={column},endColumn={end_column},"
    )
}

/// Returns the region of a part of a file.
fn region_of(part: FileSpan<'_>) -> Region<'_>
    ensures { IsRegionOf part.entry result }
{
    let FileSpan { file, span } = part;
    Region {
        file: file.origin,
        start: file.location(span),
        end: file.end_location(span),
    }
}

/// Writes a workflow command.
fn push_command(
    output: &mut String,
    region: Option<&Region<'_>>,
    remark: &Remark,
    message: &str,
) -> Result<(), AllocError>
    ensures { OnOk result (string_bytes output.new ≡ string_bytes output.old
        ++ command (option_map (λ r. r.now) region.entry) (remark_row remark.now) message.now) }
{
    let word = remark.severity.word();
    write!(output, "::{word} ")?;
    push_region(output, region)?;
    output.push_str("title=")?;
    push_escaped(output, Part::Property, remark.code)?;
    output.push_str("::")?;
    push_escaped(output, Part::Message, message)?;
    output.push_str("\n")
}

/// Writes a remark as a workflow command in a line of its own: with its region, or, if it is in no file, with the name
/// of its text, if that has one.
///
/// Returns an error only if out of memory.
pub fn push_annotation(
    output: &mut String,
    alloc: Global,
    part: Option<FileSpan<'_>>,
    name: Option<&str>,
    remark: &Remark,
) -> Result<(), AllocError>
    ensures { OnOk result ((line : Text) × (string_bytes output.new ≡ string_bytes output.old ++ line)
        × Annotation part.entry (option_map (λ n. n.now) name.entry) (remark_row remark.now) line) }
{
    let message = remark.message.as_str();
    match (part, name) {
        (Some(part), _) => push_command(output, Some(&region_of(part)), remark, message),
        (None, Some(name)) => {
            let named = format!(in alloc; "{name}: {message}")?;
            push_command(output, None, remark, named.as_str())
        }
        (None, None) => push_command(output, None, remark, message),
    }
}
