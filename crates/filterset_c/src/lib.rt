//! The library of filtersets, for C.
//!
//! C holds handles. A handle is empty, or holds a workspace, a filterset, or the faults of a text. A call that makes
//! something stores it in a handle, and drops what the handle held. Texts are slices of bytes in UTF-8. A call returns a
//! status: 0 if it did not fail.
#![tactic(auto)]

ghost use Rattle.std.specs.Prelude.{◌≡◌, ◌≢◌, ◌<◌, ◌≤◌, All, Err, MatchOption, Some, None, IfErr, IfOk, IsSome, length, map, string_bytes};
ghost use Rattle.std.specs.{List.AllZip, Str.IsUtf8};
ghost use Rattle.filterset_expression.specs.Expression.{has_leaf, is_group};
ghost use Rattle.filterset_c.specs.Answers.{yes_or_no, HoldsFilterset, IsBinaryNumber, IsFilterset, IsNoFilterset, IsPrint, IsTestNumber};
ghost use Rattle.filterset_c.specs.Faulty.{IsSpanAt, IsTextAt, fault_count};
ghost use Rattle.filterset_c.specs.Parsing.{object_status, IsOutcome, IsStored, IsWorkspaceStored, ParsesIn};
ghost use Rattle.filterset_c.specs.Workspaces.{Changes, HasDepth, HasFilter, HasGroups, HoldsWorkspace, IsNoMetadata, IsNoRecord, IsNoWorkspace, IsOfMetadata, IsOfRecord, IsWorkspace};
ghost use Rattle.filterset_c.specs.declared.failure.Failure.TheVariants.{OutOfMemory, WrongHandle};
ghost use Rattle.filterset_c.specs.Queries.{AreAllTexts, AreTexts, HasTexts, IsText, IsWellBinary, IsWellTest};
ghost use Rattle.filterset_c.specs.Statuses.{IsDone, IsJudged};
ghost use Rattle.filterset_c.specs.Written.{AreWritten, IsTextWritten, IsWritten, IsWrittenText};

mod failure;
mod faults;
mod handle;
mod matching;
mod object;
mod parsing;
mod queries;
mod raw_box;
mod workspaces;

use failure::{Failure, status_of};
use faults::{Span, copy_text, fault_count, span_at, text_at};
use handle::Handle;
use matching::{number_of_binary, test_numbers, yes_or_no};
use object::{Object, Workspace};
use parsing::parse_in;
use queries::{Binary, Test, Text};
use std::alloc::Global;
use std::mem::replace;
use std::slice;
use workspaces::{
    set_default_filter, set_depth, set_groups, workspace_of_metadata, workspace_of_record,
};

/// The version of the library: 1,000,000 times its major number, plus 1,000 times its minor one, plus its patch.
const VERSION: u32 = 1_000;

/// Returns the version of the library, as `VERSION` says.
#[unsafe(no_mangle)]
pub extern "C" fn filterset_version() -> u32
    ensures { result ≡ 1000 }
{
    VERSION
}

/// Takes what a handle holds, and leaves the handle empty.
fn take(alloc: Global, handle: &mut Handle) -> Option<Box<Object>>
    ensures taken { MatchOption result (handle.old.held ≡ None) (λ object. handle.old.held ≡ Some object.value) }
    ensures empty { handle.new.held ≡ None }
{
    replace(handle, Handle::empty()).into_box(alloc)
}

/// Gives back to a handle what was taken from it.
fn give(alloc: Global, handle: &mut Handle, object: Box<Object>)
    ensures { handle.new.held ≡ Some object.value }
{
    let _empty = replace(handle, Handle::of_box(object)).into_box(alloc);
}

/// Stores an object in a handle, and drops what the handle held. Returns the status; a failure leaves the handle unchanged.
fn store(alloc: Global, handle: &mut Handle, made: Result<Object, Failure>) -> u8
    ensures { IsStored handle.old.held made result handle.new.held }
{
    match made {
        Ok(object) => {
            let status = object_status(&object);
            match Box::new(alloc, object) {
                Ok(object) => {
                    give(alloc, handle, object);
                    status
                }
                Err(_) => Failure::OutOfMemory.code(),
            }
        }
        Err(failure) => failure.code(),
    }
}

/// Returns the status of a call that made this object.
fn object_status(object: &Object) -> u8
    ensures { result ≡ object_status object.now }
{
    match object {
        Object::Refused(_) => Failure::Rejected.code(),
        _ => 0,
    }
}

/// Makes a workspace of what `cargo metadata --format-version 1` writes. It has no custom groups, and the default filter
/// `all()`.
#[unsafe(no_mangle)]
pub extern "C" fn filterset_workspace_from_cargo_metadata(
    alloc: Global,
    metadata: &[u8],
    workspace: &mut Handle,
) -> u8
    ensures made { result ≡ 0 → HoldsWorkspace (IsOfMetadata metadata.now) workspace.new.held }
    ensures failed { result ≢ 0 → workspace.new.held ≡ workspace.old.held }
    ensures rejected { result ≡ 4 → IsNoMetadata metadata.now }
    ensures well { IsUtf8 metadata.now → IsJudged result }
    ensures not_utf8 { (IsUtf8 metadata.now → ⊥) → result ≡ 3 }
{
    let made = workspace_of_metadata(alloc, metadata);
    store_workspace(alloc, workspace, made)
}

/// Makes a workspace of the packages and the groups of a record. Its default filter is `all()`.
#[unsafe(no_mangle)]
pub extern "C" fn filterset_workspace_from_record(
    alloc: Global,
    json: &[u8],
    workspace: &mut Handle,
) -> u8
    ensures made { result ≡ 0 → HoldsWorkspace (IsOfRecord json.now) workspace.new.held }
    ensures failed { result ≢ 0 → workspace.new.held ≡ workspace.old.held }
    ensures rejected { result ≡ 4 → IsNoRecord json.now }
    ensures well { IsUtf8 json.now → IsJudged result }
    ensures not_utf8 { (IsUtf8 json.now → ⊥) → result ≡ 3 }
{
    let made = workspace_of_record(alloc, json);
    store_workspace(alloc, workspace, made)
}

/// Stores a workspace in a handle, as `store` does.
fn store_workspace(alloc: Global, handle: &mut Handle, made: Result<Workspace, Failure>) -> u8
    ensures { IsWorkspaceStored handle.old.held made result handle.new.held }
{
    match made {
        Ok(workspace) => store(alloc, handle, Ok(Object::Workspace(workspace))),
        Err(failure) => store(alloc, handle, Err(failure)),
    }
}

/// Sets the custom groups of a workspace.
#[unsafe(no_mangle)]
pub extern "C" fn filterset_workspace_set_groups(
    alloc: Global,
    workspace: &mut Handle,
    names: &[Text<'_>],
) -> u8
    ensures set { result ≡ 0 →
        Changes (HasGroups (map (λ t. t.bytes.now) names.now)) workspace.old.held workspace.new.held }
    ensures failed { result ≢ 0 → workspace.new.held ≡ workspace.old.held }
    ensures well { IsWorkspace workspace.old.held → All IsText names.now → IsDone result }
    ensures wrong { IsNoWorkspace workspace.old.held → result ≡ 2 }
    ensures not_utf8 { IsWorkspace workspace.old.held → (All IsText names.now → ⊥) → result ≡ 3 }
{
    let Some(mut object) = take(alloc, workspace) else {
        return Failure::WrongHandle.code();
    };
    let ended = set_groups(alloc, &mut object, names);
    give(alloc, workspace, object);
    status_of(ended)
}

/// Sets how many levels of parentheses and negations a text may have that is parsed from then on; 0 if there is no limit.
#[unsafe(no_mangle)]
pub extern "C" fn filterset_workspace_set_depth(
    alloc: Global,
    workspace: &mut Handle,
    levels: usize,
) -> u8
    ensures set { result ≡ 0 → Changes (HasDepth levels) workspace.old.held workspace.new.held }
    ensures failed { result ≢ 0 → workspace.new.held ≡ workspace.old.held }
    ensures well { IsWorkspace workspace.old.held → result ≡ 0 }
    ensures wrong { IsNoWorkspace workspace.old.held → result ≡ 2 }
{
    let Some(mut object) = take(alloc, workspace) else {
        return Failure::WrongHandle.code();
    };
    let ended = set_depth(&mut object, levels);
    give(alloc, workspace, object);
    status_of(ended)
}

/// Sets the default filter of a workspace, or stores why the text is rejected in `faults`. Filtersets that are parsed from
/// then on have it in place of each `default()`.
#[unsafe(no_mangle)]
pub extern "C" fn filterset_workspace_set_default_filter(
    alloc: Global,
    workspace: &mut Handle,
    text: &[u8],
    faults: &mut Handle,
) -> u8
    ensures set { result ≡ 0 → Changes (HasFilter text.now) workspace.old.held workspace.new.held }
    ensures kept { result ≡ 0 → faults.new.held ≡ faults.old.held }
    ensures failed { result ≢ 0 → workspace.new.held ≡ workspace.old.held }
    ensures rejected { result ≢ 0 →
        IsOutcome (ParsesIn workspace.old.held text.now 3) faults.old.held result faults.new.held }
    ensures well { IsWorkspace workspace.old.held → IsUtf8 text.now → IsJudged result }
    ensures wrong { IsNoWorkspace workspace.old.held → result ≡ 2 }
    ensures not_utf8 { IsWorkspace workspace.old.held → (IsUtf8 text.now → ⊥) → result ≡ 3 }
{
    let Some(mut object) = take(alloc, workspace) else {
        return Failure::WrongHandle.code();
    };
    let ended = set_default_filter(alloc, &mut object, text);
    give(alloc, workspace, object);
    match ended {
        Ok(None) => 0,
        Ok(Some(refusal)) => store(alloc, faults, Ok(Object::Refused(refusal))),
        Err(failure) => failure.code(),
    }
}

/// Empties a handle, and drops what it held.
#[unsafe(no_mangle)]
pub extern "C" fn filterset_workspace_free(alloc: Global, workspace: &mut Handle)
    ensures { workspace.new.held ≡ None }
{
    let _held = take(alloc, workspace);
}

/// Parses a filterset of a workspace. Stores the filterset in `parsed` (status 0), or why the text is rejected (status 4):
/// its faults, or that it nests too deeply.
#[unsafe(no_mangle)]
pub extern "C" fn filterset_parse(
    alloc: Global,
    workspace: &mut Handle,
    text: &[u8],
    kind: u8,
    parsed: &mut Handle,
) -> u8
    ensures kept { workspace.new.held ≡ workspace.old.held }
    ensures parsed { IsOutcome (ParsesIn workspace.old.held text.now kind) parsed.old.held result parsed.new.held }
    ensures well { IsWorkspace workspace.old.held → IsUtf8 text.now → kind < 4 → IsJudged result }
    ensures wrong { IsNoWorkspace workspace.old.held → result ≡ 2 }
    ensures no_kind { IsWorkspace workspace.old.held → 4 ≤ kind → result ≡ 5 }
    ensures not_utf8 { IsWorkspace workspace.old.held → kind < 4 → (IsUtf8 text.now → ⊥) → result ≡ 3 }
{
    let Some(object) = take(alloc, workspace) else {
        return Failure::WrongHandle.code();
    };
    let made = parse_in(alloc, &object, text, kind);
    give(alloc, workspace, object);
    store(alloc, parsed, made)
}

/// Writes 0 or 1, or 2 for unknown: whether the filterset matches the tests of a binary, if the binary decides that.
#[unsafe(no_mangle)]
pub extern "C" fn filterset_matches_binary(
    alloc: Global,
    filterset: &mut Handle,
    binary: &Binary<'_>,
    answer: &mut u8,
) -> u8
    ensures kept { filterset.new.held ≡ filterset.old.held }
    ensures answered { result ≡ 0 →
        HoldsFilterset (λ bound. IsBinaryNumber bound binary.now answer.new) filterset.old.held }
    ensures failed { result ≢ 0 → answer.new ≡ answer.old }
    ensures well { IsFilterset filterset.old.held → IsWellBinary binary.now → IsDone result }
    ensures wrong { IsNoFilterset filterset.old.held → result ≡ 2 }
    ensures no_platform { IsFilterset filterset.old.held → 2 ≤ binary.now.platform → result ≡ 5 }
    ensures not_utf8 { IsFilterset filterset.old.held → binary.now.platform < 2
        → (HasTexts binary.now → ⊥) → result ≡ 3 }
{
    let Some(object) = take(alloc, filterset) else {
        return Failure::WrongHandle.code();
    };
    let number = number_of_binary(alloc, &object, binary);
    give(alloc, filterset, object);
    write_number(number, answer)
}

/// Writes a number, unless it could not be had. Returns the status.
fn write_number(number: Result<u8, Failure>, answer: &mut u8) -> u8
    ensures { IsWritten number answer.old result answer.new }
{
    match number {
        Ok(number) => {
            *answer = number;
            0
        }
        Err(failure) => failure.code(),
    }
}

/// Writes 0 or 1: whether the filterset matches a test.
#[tactic(auto, using(crate::proofs::Numbers::only_answer, crate::proofs::Numbers::only_well))]
#[unsafe(no_mangle)]
pub extern "C" fn filterset_matches_test(
    alloc: Global,
    filterset: &mut Handle,
    binary: &Binary<'_>,
    test: &Test<'_>,
    answer: &mut u8,
) -> u8
    ensures kept { filterset.new.held ≡ filterset.old.held }
    ensures answered { result ≡ 0 →
        HoldsFilterset (λ bound. IsTestNumber bound binary.now test.now answer.new) filterset.old.held }
    ensures failed { result ≢ 0 → answer.new ≡ answer.old }
    ensures well { IsFilterset filterset.old.held → IsWellBinary binary.now → IsWellTest test.now → IsDone result }
    ensures wrong { IsNoFilterset filterset.old.held → result ≡ 2 }
    ensures no_platform { IsFilterset filterset.old.held → 2 ≤ binary.now.platform → result ≡ 5 }
    ensures not_utf8 { IsFilterset filterset.old.held → binary.now.platform < 2
        → (AreTexts binary.now test.now → ⊥) → result ≡ 3 }
{
    let answers = slice::from_mut(answer);
    filterset_matches_tests(alloc, filterset, binary, slice::from_ref(test), answers)
}

/// Writes 0 or 1 for each test of a binary: whether the filterset matches it. There must be an answer for each test.
#[tactic(auto, using(crate::proofs::Statuses::numbers_done, crate::proofs::Statuses::numbers_failed))]
#[unsafe(no_mangle)]
pub extern "C" fn filterset_matches_tests(
    alloc: Global,
    filterset: &mut Handle,
    binary: &Binary<'_>,
    tests: &[Test<'_>],
    answers: &mut [u8],
) -> u8
    ensures kept { filterset.new.held ≡ filterset.old.held }
    ensures answered { result ≡ 0 →
        HoldsFilterset (λ bound. AllZip (IsTestNumber bound binary.now) tests.now answers.new) filterset.old.held }
    ensures failed { result ≢ 0 → answers.new ≡ answers.old }
    ensures well { IsFilterset filterset.old.held → IsWellBinary binary.now → All IsWellTest tests.now
        → length tests.now ≡ length answers.old → IsDone result }
    ensures wrong { IsNoFilterset filterset.old.held → result ≡ 2 }
    ensures other_count { IsFilterset filterset.old.held → length tests.now ≢ length answers.old → result ≡ 5 }
    ensures no_platform { IsFilterset filterset.old.held → 2 ≤ binary.now.platform → result ≡ 5 }
    ensures not_utf8 { IsFilterset filterset.old.held → binary.now.platform < 2
        → length tests.now ≡ length answers.old → (AreAllTexts binary.now tests.now → ⊥) → result ≡ 3 }
{
    let Some(object) = take(alloc, filterset) else {
        return Failure::WrongHandle.code();
    };
    let numbers = test_numbers(alloc, &object, binary, tests, answers.len());
    give(alloc, filterset, object);
    write_numbers(numbers, answers)
}

/// Writes numbers, unless they could not be had or are not as many as the answers. Returns the status.
fn write_numbers(numbers: Result<Vec<u8>, Failure>, answers: &mut [u8]) -> u8
    ensures { AreWritten numbers answers.old result answers.new }
{
    match numbers {
        Ok(numbers) if numbers.len() == answers.len() => {
            answers.copy_from_slice(&numbers);
            0
        }
        Ok(_) => Failure::InvalidArgument.code(),
        Err(failure) => failure.code(),
    }
}

/// Writes 0 or 1: whether the filterset has a `group(..)`, so that its answers depend on the groups of tests.
#[unsafe(no_mangle)]
pub extern "C" fn filterset_needs_groups(
    alloc: Global,
    filterset: &mut Handle,
    answer: &mut u8,
) -> u8
    ensures kept { filterset.new.held ≡ filterset.old.held }
    ensures answered { result ≡ 0 → HoldsFilterset (λ bound.
        answer.new ≡ yes_or_no (has_leaf is_group bound.filterset.compiled)) filterset.old.held }
    ensures failed { result ≢ 0 → answer.new ≡ answer.old }
    ensures well { IsFilterset filterset.old.held → result ≡ 0 }
    ensures wrong { IsNoFilterset filterset.old.held → result ≡ 2 }
{
    let Some(object) = take(alloc, filterset) else {
        return Failure::WrongHandle.code();
    };
    let number = needs_groups(&object);
    give(alloc, filterset, object);
    write_number(number, answer)
}

/// Returns the number of whether a filterset has a `group(..)`.
fn needs_groups(object: &Object) -> Result<u8, Failure>
    ensures number { IfOk result (λ number. HoldsFilterset (λ bound.
        number ≡ yes_or_no (has_leaf is_group bound.filterset.compiled)) (Some object.now)) }
    ensures well { IsFilterset (Some object.now) → IfErr result (λ failure. ⊥) }
    ensures wrong { IsNoFilterset (Some object.now) → result ≡ Err WrongHandle }
{
    match object {
        Object::Filterset(bound) => Ok(yes_or_no(bound.filterset.compiled.has_group_matchers())),
        Object::Workspace(_) | Object::Refused(_) => Err(Failure::WrongHandle),
    }
}

/// Writes as much of the filterset's print as there is room for, and the length of the whole print.
#[unsafe(no_mangle)]
pub extern "C" fn filterset_print(
    alloc: Global,
    filterset: &mut Handle,
    room: &mut [u8],
    text_length: &mut usize,
) -> u8
    ensures kept { filterset.new.held ≡ filterset.old.held }
    ensures written { result ≡ 0 →
        IsWrittenText (λ text. HoldsFilterset (IsPrint text) filterset.old.held) room.old room.new text_length.new }
    ensures failed { result ≢ 0 → (room.new ≡ room.old) × (text_length.new ≡ text_length.old) }
    ensures well { IsFilterset filterset.old.held → IsDone result }
    ensures wrong { IsNoFilterset filterset.old.held → result ≡ 2 }
{
    let Some(object) = take(alloc, filterset) else {
        return Failure::WrongHandle.code();
    };
    let text = print_of(alloc, &object);
    give(alloc, filterset, object);
    write_text(text, room, text_length)
}

/// Prints the filterset that a handle holds.
fn print_of(alloc: Global, object: &Object) -> Result<String, Failure>
    ensures text { IfOk result (λ text. HoldsFilterset (IsPrint (string_bytes text)) (Some object.now)) }
    ensures well { IsFilterset (Some object.now) → IfErr result (λ failure. failure ≡ OutOfMemory) }
    ensures wrong { IsNoFilterset (Some object.now) → result ≡ Err WrongHandle }
{
    match object {
        Object::Filterset(bound) => {
            let tree = &bound.filterset.parsed;
            Ok(format!(in alloc; "{tree}")?)
        }
        Object::Workspace(_) | Object::Refused(_) => Err(Failure::WrongHandle),
    }
}

/// Writes as much of a text as there is room for, and its length, unless the text could not be had. Returns the status.
fn write_text(text: Result<String, Failure>, room: &mut [u8], text_length: &mut usize) -> u8
    ensures { IsTextWritten text room.old text_length.old result room.new text_length.new }
{
    match text {
        Ok(text) => {
            *text_length = text.len();
            copy_text(text.as_str(), room);
            0
        }
        Err(failure) => failure.code(),
    }
}

/// Returns the number of faults that a handle holds.
#[unsafe(no_mangle)]
pub extern "C" fn filterset_fault_count(alloc: Global, faults: &mut Handle) -> usize
    ensures kept { faults.new.held ≡ faults.old.held }
    ensures count { result ≡ fault_count faults.old.held }
{
    let Some(object) = take(alloc, faults) else {
        return 0;
    };
    let count = fault_count(&object);
    give(alloc, faults, object);
    count
}

/// Writes where a fault is.
#[unsafe(no_mangle)]
pub extern "C" fn filterset_fault_span(
    alloc: Global,
    faults: &mut Handle,
    index: usize,
    span: &mut Span,
) -> u8
    ensures kept { faults.new.held ≡ faults.old.held }
    ensures written { result ≡ 0 → IsSpanAt faults.old.held index span.new }
    ensures failed { result ≢ 0 → span.new ≡ span.old }
    ensures well { index < fault_count faults.old.held → result ≡ 0 }
    ensures wrong { faults.old.held ≡ None → result ≡ 2 }
    ensures no_fault { IsSome faults.old.held → fault_count faults.old.held ≤ index → result ≡ 5 }
{
    let Some(object) = take(alloc, faults) else {
        return Failure::WrongHandle.code();
    };
    let found = span_at(&object, index);
    give(alloc, faults, object);
    match found {
        Ok(found) => {
            *span = found;
            0
        }
        Err(failure) => failure.code(),
    }
}

/// Writes as much of a text of a fault as there is room for, and the length of the whole text: its code (0), its label (1)
/// or its help (2).
#[unsafe(no_mangle)]
pub extern "C" fn filterset_fault_text(
    alloc: Global,
    faults: &mut Handle,
    index: usize,
    part: u8,
    room: &mut [u8],
    text_length: &mut usize,
) -> u8
    ensures kept { faults.new.held ≡ faults.old.held }
    ensures written { result ≡ 0 → IsWrittenText (IsTextAt faults.old.held index part) room.old room.new text_length.new }
    ensures failed { result ≢ 0 → (room.new ≡ room.old) × (text_length.new ≡ text_length.old) }
    ensures well { index < fault_count faults.old.held → part < 3 → IsDone result }
    ensures wrong { faults.old.held ≡ None → result ≡ 2 }
    ensures no_fault { IsSome faults.old.held → fault_count faults.old.held ≤ index → result ≡ 5 }
    ensures no_part { IsSome faults.old.held → 3 ≤ part → result ≡ 5 }
{
    let Some(object) = take(alloc, faults) else {
        return Failure::WrongHandle.code();
    };
    let text = text_at(alloc, &object, index, part);
    give(alloc, faults, object);
    write_text(text, room, text_length)
}

/// Empties a handle, and drops what it held.
#[unsafe(no_mangle)]
pub extern "C" fn filterset_free(alloc: Global, filterset: &mut Handle)
    ensures { filterset.new.held ≡ None }
{
    let _held = take(alloc, filterset);
}
