//! The faults of a text.
ghost use Rattle.std.specs.Prelude.{◌≡◌, ◌∷◌, [], IfErr, IfOk, map};
ghost use Rattle.filterset_display.specs.Remarks.{fault_remark, remark_row};
ghost use Rattle.nextest_filtering.specs.{Compiling.packages_of, Groups.IsKnown};
ghost use Rattle.filterset_entries.specs.Checked.{HasFaults, IsFiltersetFor, IsRefusedFor, all_remarks, deep_remark, text_row};

use crate::names::Names;
use crate::text::TextEntry;
use filterset_display::{Remark, Severity};
use filterset_faults::SourceSpan;
use filterset_rewriting::TextRefusal;
use filterset_rewriting::nesting::{MOST_LEVELS, find_deep_place};
use nextest_filtering::{Filterset, KnownGroups, ParseContext, ParseSingleError};
use std::alloc::{AllocError, Global};

/// Parses a text as a filterset of its kind, or returns why it is none. The outer error is out of memory.
pub fn parse_entry(
    alloc: Global,
    context: &ParseContext<'_>,
    groups: &KnownGroups,
    entry: &TextEntry<'_>,
) -> Result<Result<Filterset, TextRefusal>, AllocError>
    requires { IsKnown groups.now }
    ensures made { IfOk result (λ made.
        IfOk made (IsFiltersetFor (packages_of context.now) groups.now (text_row entry.now))) }
    ensures refused { IfOk result (λ made.
        IfErr made (IsRefusedFor (packages_of context.now) groups.now (text_row entry.now))) }
{
    if let Some(place) = find_deep_place(alloc, entry.text, MOST_LEVELS)? {
        return Ok(Err(TextRefusal::TooDeep(place)));
    }
    let input = String::from_str(alloc, entry.text)?;
    match Filterset::parse(alloc, input, context, entry.kind, groups) {
        Ok(filterset) => Ok(Ok(filterset)),
        Err(refusal) => Ok(Err(TextRefusal::Found(refusal.into_faults()?.errors))),
    }
}

/// Makes a remark on each fault.
fn found_remarks(alloc: Global, faults: &[ParseSingleError]) -> Result<Vec<Remark>, AllocError>
    ensures { IfOk result (λ remarks. map remark_row remarks.items ≡ map fault_remark faults.now) }
{
    let mut remarks = Vec::with_capacity(alloc, faults.len())?;
    for fault in faults {
        remarks.push(Remark::of_fault(alloc, fault)?)?;
    }
    Ok(remarks)
}

/// Makes the remark that a text nests too deeply, from this offset on.
fn deep_remarks(alloc: Global, place: usize) -> Result<Vec<Remark>, AllocError>
    ensures { IfOk result (λ remarks. map remark_row remarks.items ≡ deep_remark place ∷ []) }
{
    let mut remarks = Vec::new(alloc);
    remarks.push(Remark {
        severity: Severity::Error,
        code: "TooDeep",
        message: String::from_str(alloc, "nested more than 512 levels deep")?,
        label: Some(String::from_str(alloc, "level 513 begins here")?),
        help: None,
        span: Some(SourceSpan::new(place, 1)),
    })?;
    Ok(remarks)
}

/// Makes the remarks on the faults of a text. The only error is out of memory.
pub fn fault_remarks(alloc: Global, faults: &TextRefusal) -> Result<Vec<Remark>, AllocError>
    ensures { IfOk result (λ remarks. map remark_row remarks.items ≡ all_remarks faults.now) }
{
    match faults {
        TextRefusal::Found(found) => found_remarks(alloc, found.as_slice()),
        TextRefusal::TooDeep(place) => deep_remarks(alloc, *place),
    }
}

/// Parses a text as a filterset of its kind, and returns a remark on each fault that counts.
pub fn faults_of(
    alloc: Global,
    names: &Names<'_>,
    entry: &TextEntry<'_>,
) -> Result<Vec<Remark>, AllocError>
    requires { IsKnown names.now.known_groups }
    ensures { IfOk result (λ remarks. HasFaults names.now (text_row entry.now) (map remark_row remarks.items)) }
{
    match parse_entry(alloc, &names.parse_context, &names.known_groups, entry)? {
        Ok(_filterset) => Ok(Vec::new(alloc)),
        Err(TextRefusal::Found(found)) => {
            let judged: Vec<ParseSingleError> = found
                .into_iter()
                .filter(|fault| names.judges(fault))
                .collect(alloc)?;
            found_remarks(alloc, judged.as_slice())
        }
        Err(TextRefusal::TooDeep(place)) => deep_remarks(alloc, place),
    }
}
