//! The warnings of texts.
ghost use Rattle.std.specs.Prelude.{◌≡◌, ◌++◌, IfOk, map, string_bytes};
ghost use Rattle.filterset_entries.specs.Checked.{IsAccepted, text_row};
ghost use Rattle.filterset_display.specs.Columns.{Text};
ghost use Rattle.filterset_expression.specs.Meaning.{IsCompiled};
ghost use Rattle.filterset_language.specs.Views.{tree_of};
ghost use Rattle.nextest_filtering.specs.{Compiling.packages_of, Groups.IsKnown};
ghost use Rattle.filterset_asking.specs.{Contexts.basis_of, Warnings.TextWarnings, Warnings.WarningsOf};

use crate::hints::remarks_of;
use filterset_display::{Form, Source};
use filterset_entries::{RemarkWriter, TextEntry, parse_entry};
use filterset_listing::{Subject, find_hints};
use nextest_filtering::{EvalContext, Filterset, KnownGroups, ParseContext};
use std::alloc::{AllocError, Global};

/// What texts are parsed against, and what the filtersets are asked about.
#[derive(Drop)]
pub struct WarningContext<'c, 'e, 's> {
    /// How warnings are written.
    pub form: Form,
    pub parse_context: ParseContext<'c>,
    pub known_groups: &'c KnownGroups,
    pub eval_context: EvalContext<'e>,
    pub subjects: Vec<Subject<'s>>,
}

/// Writes the warnings of the text with this number, and returns how many. A text with faults has none.
fn push_text(
    output: &mut String,
    alloc: Global,
    cx: &WarningContext<'_, '_, '_>,
    number: usize,
    entry: &TextEntry<'_>,
) -> Result<usize, AllocError>
    requires { IsKnown cx.now.known_groups.now }
    ensures { IfOk result (λ count. (piece : Text) × (string_bytes output.new ≡ string_bytes output.old ++ piece)
        × TextWarnings cx.now.form cx.now.known_groups.now (basis_of cx.now) cx.now.subjects.items number
        (text_row entry.now) count piece) }
{
    let filterset = match parse_entry(alloc, &cx.parse_context, cx.known_groups, entry)? {
        Ok(filterset) => filterset,
        Err(_faults) => return Ok(0),
    };
    let (tree, compiled) = (&filterset.parsed, &filterset.compiled);
    let subjects = cx.subjects.as_slice();
    let hints = find_hints(alloc, tree, compiled, &cx.eval_context, subjects)?;
    let source = Source::new(alloc, entry.origin.as_str(), entry.text)?;
    let writer = RemarkWriter {
        form: cx.form,
        source: &source,
        place: entry.place,
        number: Some(number),
    };
    let remarks = remarks_of(alloc, &hints)?;
    writer.push_all(output, alloc, remarks.as_slice())?;
    Ok(remarks.len())
}

/// Writes the warnings of texts, which are numbered from 1, and returns how many: of each predicate that matches no test, and
/// of each operand in whose place `all()` or `none()` changes nothing. A text with faults has no warnings.
pub fn warn_texts(
    output: &mut String,
    alloc: Global,
    cx: &WarningContext<'_, '_, '_>,
    texts: &[TextEntry<'_>],
) -> Result<usize, AllocError>
    requires { IsKnown cx.now.known_groups.now }
    ensures { IfOk result (λ count. (piece : Text) × (string_bytes output.new ≡ string_bytes output.old ++ piece)
        × WarningsOf cx.now.form cx.now.known_groups.now (basis_of cx.now) cx.now.subjects.items 1
        (map text_row texts.now) count piece) }
{
    let mut count: usize = 0;
    for (i, entry) in texts.iter().enumerate() {
        let more = push_text(output, alloc, cx, i + 1, entry)?;
        count = count.checked_add(more).ok_or(AllocError)?;
    }
    Ok(count)
}
