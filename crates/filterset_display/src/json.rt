//! Remarks as JSON, for editors.
ghost use Rattle.std.specs.Prelude.{◌≡◌, IfOk, OnOk, option_map};
ghost use Rattle.serde_json.specs.{Data.put, View.members_view, View.view};
ghost use Rattle.filterset_display.specs.Json.{BeginsAt, BeginsIn, IsSpotOf, RemarkData, number_data, text_data, with_file_spot, with_remark, with_spot};
ghost use Rattle.filterset_display.specs.Remarks.{remark_row};

use crate::remark::Remark;
use crate::source::{FileSpan, Source};
use filterset_faults::SourceSpan;
use serde_json::{Map, Value, put};
use std::alloc::{AllocError, Global};

/// Returns a remark on the text with this number, if it has one, as a JSON object. Offset and length are in bytes of
/// the text, line and column are those of a drawing, the same of the file that the text was read from, and what the
/// remark lacks is `null`.
///
/// Returns an error only if out of memory.
pub fn remark_json(
    alloc: Global,
    source: &Source<'_>,
    number: Option<usize>,
    remark: &Remark,
    file: Option<FileSpan<'_>>,
) -> Result<Value, AllocError>
    ensures { let source = source.now in IfOk result (λ value. RemarkData source.origin.now source.text.now
        file.entry number (remark_row remark.now) (view value)) }
{
    let mut members = Map::new(alloc);
    put_text(&mut members, alloc, "origin", Some(source.origin))?;
    put(&mut members, alloc, "text", number_value(number))?;
    put_remark(&mut members, alloc, remark)?;
    put_spot(&mut members, alloc, spot_of(source, remark.span))?;
    put_text(&mut members, alloc, "file", file_name(file))?;
    put_file_spot(&mut members, alloc, file_spot(file))?;
    Ok(Value::Object(members))
}

/// Adds a text, or `null` if there is none.
fn put_text(
    members: &mut Map<String, Value>,
    alloc: Global,
    key: &str,
    text: Option<&str>,
) -> Result<(), AllocError>
    ensures { OnOk result (members_view members.new.entries
        ≡ put key.now (text_data (option_map (λ t. t.now) text.entry)) (members_view members.old.entries)) }
{
    let value = match text {
        Some(text) => Value::String(String::from_str(alloc, text)?),
        None => Value::Null,
    };
    put(members, alloc, key, value)
}

/// Adds what a remark says.
fn put_remark(
    members: &mut Map<String, Value>,
    alloc: Global,
    remark: &Remark,
) -> Result<(), AllocError>
    ensures { OnOk result (members_view members.new.entries
        ≡ with_remark (remark_row remark.now) (members_view members.old.entries)) }
{
    put_text(members, alloc, "code", Some(remark.code))?;
    put_text(members, alloc, "help", remark.help.as_deref())?;
    put_text(members, alloc, "label", remark.label.as_deref())?;
    put_text(members, alloc, "message", Some(remark.message.as_str()))?;
    put_text(members, alloc, "severity", Some(remark.severity.word()))
}

/// Adds the position of a remark in its text.
fn put_spot(members: &mut Map<String, Value>, alloc: Global, spot: Spot) -> Result<(), AllocError>
    ensures { OnOk result (members_view members.new.entries ≡ with_spot spot (members_view members.old.entries)) }
{
    put(members, alloc, "column", number_value(spot.column))?;
    put(members, alloc, "length", number_value(spot.length))?;
    put(members, alloc, "line", number_value(spot.line))?;
    put(members, alloc, "offset", number_value(spot.offset))
}

/// Adds the position of a remark in a file.
fn put_file_spot(
    members: &mut Map<String, Value>,
    alloc: Global,
    spot: Spot,
) -> Result<(), AllocError>
    ensures { OnOk result (members_view members.new.entries ≡ with_file_spot spot (members_view members.old.entries)) }
{
    put(members, alloc, "file_column", number_value(spot.column))?;
    put(members, alloc, "file_length", number_value(spot.length))?;
    put(members, alloc, "file_line", number_value(spot.line))?;
    put(members, alloc, "file_offset", number_value(spot.offset))
}

/// Returns a number, or `null` if there is none.
fn number_value(number: Option<usize>) -> Value
    ensures { view result ≡ number_data number }
{
    match number {
        Some(number) => Value::from(number),
        None => Value::Null,
    }
}

/// The position of a remark, if it has a span.
#[derive(Clone, Copy)]
pub struct Spot {
    offset: Option<usize>,
    length: Option<usize>,
    line: Option<usize>,
    column: Option<usize>,
}

/// The position of nothing.
const NOWHERE: Spot = Spot {
    offset: None,
    length: None,
    line: None,
    column: None,
};

/// Returns the position of a span.
fn spot_of(source: &Source<'_>, span: Option<SourceSpan>) -> Spot
    ensures { IsSpotOf (BeginsAt source.now.text.now span) span result }
{
    match span {
        Some(span) => {
            let location = source.location(span);
            Spot {
                offset: Some(span.offset()),
                length: Some(span.len()),
                line: Some(location.line),
                column: Some(location.column),
            }
        }
        None => NOWHERE,
    }
}

/// Returns the position of a span of a file.
fn file_spot(file: Option<FileSpan<'_>>) -> Spot
    ensures { IsSpotOf (BeginsIn file.entry) (option_map (λ p. p.span) file.entry) result }
{
    match file {
        Some(part) => spot_of(part.file, Some(part.span)),
        None => NOWHERE,
    }
}

/// Returns the name of a file.
fn file_name<'s>(file: Option<FileSpan<'s>>) -> Option<&'s str>
    ensures { option_map (λ n. n.now) result ≡ option_map (λ p. p.file.now.origin.now) file.entry }
{
    match file {
        Some(part) => Some(part.file.origin),
        None => None,
    }
}
