//! What nextest does not read of a configuration: operators that it has not, and keys that are meant for others.
ghost use Rattle.std.specs.Prelude.{◌≡◌, ◌++◌, IfOk, List, OnOk, map, option_map};
ghost use Rattle.filterset_display.specs.Remarks.{RemarkRow, remark_row};
ghost use Rattle.filterset_entries.specs.{Checked.text_row, Placements.placement_of};
ghost use Rattle.filterset_entries.specs.Unread.{AreCaretRemarks, AreUnreadRemarks, caret_remark, key_remark, found_span};

use crate::place::{FilePlace, file_part};
use crate::text::TextEntry;
use filterset_configuration::{UnknownKey, find_unknown_keys};
use filterset_display::{Remark, Severity};
use filterset_faults::SourceSpan;
use filterset_rewriting::tokens::carets_in;
use filterset_sources::ParsedText;
use std::alloc::{AllocError, Global};

/// Returns where a span of a text is in its file, if the text was found there.
fn found_span(place: Option<FilePlace<'_>>, span: SourceSpan) -> Option<SourceSpan>
    ensures { result ≡ found_span (option_map placement_of place.entry) span }
{
    match file_part(place, Some(span)) {
        Some(part) => Some(part.span),
        None => None,
    }
}

/// Makes the remark on an operator `^` of the filterset at a path.
fn caret_remark(alloc: Global, path: &str, span: Option<SourceSpan>) -> Result<Remark, AllocError>
    ensures { IfOk result (λ remark. remark_row remark ≡ caret_remark path.now span) }
{
    Ok(Remark {
        severity: Severity::Warning,
        code: "NotInNextest",
        message: format!(in alloc; "the operator `^` of `{path}` is not in nextest")?,
        label: None,
        help: Some(String::from_str(alloc, "write `(a - b) or (b - a)`")?),
        span,
    })
}

/// Adds a remark on each operator `^` of a filterset.
fn push_carets(
    remarks: &mut Vec<Remark>,
    alloc: Global,
    entry: &TextEntry<'_>,
) -> Result<(), AllocError>
    ensures { OnOk result ((rows : List RemarkRow) × AreCaretRemarks (text_row entry.now) rows
        × (map remark_row remarks.new.items ≡ map remark_row remarks.old.items ++ rows)) }
{
    let spans = carets_in(alloc, entry.text)?;
    for span in spans.as_slice() {
        let span = found_span(entry.place, *span);
        remarks.push(caret_remark(alloc, entry.origin.as_str(), span)?)?;
    }
    Ok(())
}

/// Makes the remark on a key that is not read, and is near one that is.
fn key_remark(alloc: Global, key: &UnknownKey) -> Result<Remark, AllocError>
    ensures { IfOk result (λ remark. remark_row remark ≡ key_remark key.now) }
{
    let (path, meant) = (key.path.as_str(), key.meant);
    Ok(Remark {
        severity: Severity::Warning,
        code: "UnknownKey",
        message: format!(in alloc; "no key `{path}` is read")?,
        label: None,
        help: Some(format!(in alloc; "did you mean `{meant}`?")?),
        span: key.span,
    })
}

/// Makes the remarks on what nextest does not read of a configuration, whose filtersets these are: on each operator `^` of
/// them, in their order, and then on each key that is near one that is read. Their spans are those of the file.
///
/// Returns an error only if out of memory.
pub fn unread_remarks(
    alloc: Global,
    parsed: ParsedText<'_>,
    entries: &[TextEntry<'_>],
) -> Result<Vec<Remark>, AllocError>
    ensures { IfOk result (λ remarks.
        AreUnreadRemarks parsed.entry.text.now (map text_row entries.now) (map remark_row remarks.items)) }
{
    let keys = find_unknown_keys(alloc, parsed)?;
    let mut remarks = Vec::new(alloc);
    for entry in entries {
        push_carets(&mut remarks, alloc, entry)?;
    }
    for key in keys.as_slice() {
        remarks.push(key_remark(alloc, key)?)?;
    }
    Ok(remarks)
}
