//! The faults of rejected texts.
ghost use Rattle.std.specs.Prelude.{◌≡◌, ◌<◌, ◌≤◌, Err, IfErr, IfOk, Some, length, slice_get, string_bytes};
ghost use Rattle.filterset_c.specs.Faulty.{count_of, deep_text, fault_count, fault_text, written, IsSpanAt, IsSpanOf, IsSpanOfFault, IsTextAt, IsTextOf, IsTextOfFault};
ghost use Rattle.filterset_c.specs.declared.failure.Failure.TheVariants.{InvalidArgument, OutOfMemory};

use crate::failure::Failure;
use crate::object::{Object, Refusal};
use nextest_filtering::ParseSingleError;
use std::alloc::Global;

/// Where a fault is, in bytes of the text.
#[repr(C)]
#[derive(Clone, Copy, Debug)]
pub struct Span {
    pub offset: usize,
    pub length: usize,
}

/// Returns the number of faults that a handle holds; 0 if it holds something else.
pub fn fault_count(object: &Object) -> usize
    ensures { result ≡ fault_count (Some object.now) }
{
    match object {
        Object::Refused(refusal) => count_of(refusal),
        _ => 0,
    }
}

/// Returns the number of faults: 1 if the text nests too deeply.
fn count_of(refusal: &Refusal) -> usize
    ensures { result ≡ count_of refusal.now }
{
    match refusal {
        Refusal::Faults(refused) => refused.errors.len(),
        Refusal::TooDeep(_) => 1,
    }
}

/// Returns the fault at a position.
fn fault_at(faults: &[ParseSingleError], index: usize) -> Result<&ParseSingleError, Failure>
    ensures fault { IfOk result (λ fault. slice_get faults.now index ≡ Some fault.now) }
    ensures well { index < length faults.now → IfErr result (λ failure. ⊥) }
    ensures no_fault { length faults.now ≤ index → result ≡ Err InvalidArgument }
{
    match faults.get(index) {
        Some(fault) => Ok(fault),
        None => Err(Failure::InvalidArgument),
    }
}

/// Returns where the fault at a position is.
pub fn span_at(object: &Object, index: usize) -> Result<Span, Failure>
    ensures span { IfOk result (IsSpanAt (Some object.now) index) }
    ensures well { index < fault_count (Some object.now) → IfErr result (λ failure. ⊥) }
    ensures no_fault { fault_count (Some object.now) ≤ index → result ≡ Err InvalidArgument }
{
    match object {
        Object::Refused(refusal) => span_of(refusal, index),
        _ => Err(Failure::InvalidArgument),
    }
}

/// Returns where the fault of a rejected text at a position is.
fn span_of(refusal: &Refusal, index: usize) -> Result<Span, Failure>
    ensures span { IfOk result (IsSpanOf refusal.now index) }
    ensures well { index < count_of refusal.now → IfErr result (λ failure. ⊥) }
    ensures no_fault { count_of refusal.now ≤ index → result ≡ Err InvalidArgument }
{
    match refusal {
        Refusal::Faults(refused) => span_of_fault(&refused.errors, index),
        Refusal::TooDeep(place) if index == 0 => Ok(*place),
        Refusal::TooDeep(_) => Err(Failure::InvalidArgument),
    }
}

/// Returns where the fault at a position is, of a text that was parsed.
fn span_of_fault(faults: &[ParseSingleError], index: usize) -> Result<Span, Failure>
    ensures span { IfOk result (IsSpanOfFault faults.now index) }
    ensures well { index < length faults.now → IfErr result (λ failure. ⊥) }
    ensures no_fault { length faults.now ≤ index → result ≡ Err InvalidArgument }
{
    let fault = fault_at(faults, index)?;
    match fault.span() {
        Some(span) => Ok(Span {
            offset: span.offset(),
            length: span.len(),
        }),
        None => Ok(Span {
            offset: 0,
            length: 0,
        }),
    }
}

/// Returns a text of the fault at a position: its code (0), its label (1) or its help (2). The text is empty if the fault
/// has none.
pub fn text_at(alloc: Global, object: &Object, index: usize, part: u8) -> Result<String, Failure>
    ensures text { IfOk result (λ text. IsTextAt (Some object.now) index part (string_bytes text)) }
    ensures well { index < fault_count (Some object.now) → part < 3 → IfErr result (λ failure. failure ≡ OutOfMemory) }
    ensures no_fault { fault_count (Some object.now) ≤ index → result ≡ Err InvalidArgument }
    ensures no_part { 3 ≤ part → result ≡ Err InvalidArgument }
{
    match object {
        Object::Refused(refusal) => text_of(alloc, refusal, index, part),
        _ => Err(Failure::InvalidArgument),
    }
}

/// Returns a text of the fault of a rejected text at a position.
fn text_of(alloc: Global, refusal: &Refusal, index: usize, part: u8) -> Result<String, Failure>
    ensures text { IfOk result (λ text. IsTextOf refusal.now index part (string_bytes text)) }
    ensures well { index < count_of refusal.now → part < 3 → IfErr result (λ failure. failure ≡ OutOfMemory) }
    ensures no_fault { count_of refusal.now ≤ index → result ≡ Err InvalidArgument }
    ensures no_part { 3 ≤ part → result ≡ Err InvalidArgument }
{
    match refusal {
        Refusal::Faults(refused) => text_of_fault(alloc, &refused.errors, index, part),
        Refusal::TooDeep(_) if index == 0 => deep_text(alloc, part),
        Refusal::TooDeep(_) => Err(Failure::InvalidArgument),
    }
}

/// Returns a text of the fault at a position, of a text that was parsed.
fn text_of_fault(
    alloc: Global,
    faults: &[ParseSingleError],
    index: usize,
    part: u8,
) -> Result<String, Failure>
    ensures text { IfOk result (λ text. IsTextOfFault faults.now index part (string_bytes text)) }
    ensures well { index < length faults.now → part < 3 → IfErr result (λ failure. failure ≡ OutOfMemory) }
    ensures no_fault { length faults.now ≤ index → result ≡ Err InvalidArgument }
    ensures no_part { 3 ≤ part → result ≡ Err InvalidArgument }
{
    let fault = fault_at(faults, index)?;
    match part {
        0 => Ok(String::from_str(alloc, fault.code())?),
        1 => match fault.label() {
            Some(label) => Ok(format!(in alloc; "{label}")?),
            None => Ok(String::new(alloc)),
        },
        2 => match fault.help() {
            Some(help) => Ok(format!(in alloc; "{help}")?),
            None => Ok(String::new(alloc)),
        },
        _ => Err(Failure::InvalidArgument),
    }
}

/// Returns a text of the fault that a text nests too deeply.
fn deep_text(alloc: Global, part: u8) -> Result<String, Failure>
    ensures text { IfOk result (λ text. deep_text part ≡ Some (string_bytes text)) }
    ensures well { part < 3 → IfErr result (λ failure. failure ≡ OutOfMemory) }
    ensures no_part { 3 ≤ part → result ≡ Err InvalidArgument }
{
    match part {
        0 => Ok(String::from_str(alloc, "NestedTooDeeply")?),
        1 => Ok(String::from_str(
            alloc,
            "more levels of parentheses and negations than the limit",
        )?),
        2 => Ok(String::new(alloc)),
        _ => Err(Failure::InvalidArgument),
    }
}

/// Copies as much of the text as there is room for.
pub fn copy_text(text: &str, room: &mut [u8])
    ensures { room.new ≡ written text.now room.old }
{
    let bytes = text.as_bytes();
    let count = bytes.len().min(room.len());
    room[..count].copy_from_slice(&bytes[..count]);
}
