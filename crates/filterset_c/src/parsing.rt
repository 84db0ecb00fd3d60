//! Parses filtersets.
ghost use Rattle.std.specs.Prelude.{◌≡◌, ◌≢◌, ◌<◌, ◌≤◌, false, Err, IfErr, IfNone, IfOk, IfSome, Some};
ghost use Rattle.std.specs.Str.{IsUtf8};
ghost use Rattle.filterset_expression.specs.Expression.{has_leaf, is_default, is_group};
ghost use Rattle.filterset_faults.specs.declared.span.SourceSpan.{SourceSpan};
ghost use Rattle.filterset_grammar.specs.{Grammar.Spells, Tree.Tree};
ghost use Rattle.filterset_rewriting.specs.Nesting.Depth.{depth};
ghost use Rattle.filterset_c.specs.Parsing.{HasKind, IsAccepted, IsDefaultFilter, IsFiltersetWithin, IsRefused, IsTooDeep, IsWithin, ParsesIn};
ghost use Rattle.filterset_c.specs.Workspaces.{IsNoWorkspace, IsWorkspace};
ghost use Rattle.filterset_c.specs.declared.failure.Failure.TheVariants as failures;
ghost use Rattle.filterset_faults.specs.declared.kind.FiltersetKind.TheVariants as kinds;

use crate::failure::Failure;
use crate::faults::Span;
use crate::object::{BoundFilterset, Object, Refusal, Workspace};
use crate::queries::text_of;
use filterset_rewriting::nesting::find_too_deep;
use nextest_filtering::{CompiledExpr, Filterset, FiltersetKind, ParseContext, ParseRefusal};
use std::alloc::{AllocError, Global};

/// Returns the kind that has this number.
fn kind_of(number: u8) -> Result<FiltersetKind, Failure>
    ensures kind { IfOk result (HasKind number) }
    ensures well { IfErr result (λ failure. 4 ≤ number) }
    ensures failed { IfErr result (λ failure. failure ≡ failures.InvalidArgument) }
{
    match number {
        0 => Ok(FiltersetKind::Test),
        1 => Ok(FiltersetKind::TestArchive),
        2 => Ok(FiltersetKind::OverrideFilter),
        3 => Ok(FiltersetKind::DefaultFilter),
        _ => Err(Failure::InvalidArgument),
    }
}

/// Returns where a text passes the limit of levels, if it does. The only error is out of memory.
fn find_deep_place(alloc: Global, limit: usize, text: &[u8]) -> Result<Option<Span>, AllocError>
    ensures within { IfOk result (λ found. (e : Tree SourceSpan) → Spells text.now e
        → IfNone found (IsWithin limit (depth e))) }
    ensures deep { IfOk result (λ found. IfSome found (IsTooDeep limit text.now)) }
{
    if limit == 0 {
        return Ok(None);
    }
    match find_too_deep(alloc, text, limit)? {
        Some(offset) => Ok(Some(Span {
            offset,
            length: if text[offset] == b'n' { 3 } else { 1 },
        })),
        None => Ok(None),
    }
}

/// Parses a filterset of the workspace, without a limit. Returns the faults of the text if it has any.
fn parse_text(
    alloc: Global,
    workspace: &Workspace,
    text: &str,
    kind: FiltersetKind,
) -> Result<Result<Filterset, Refusal>, Failure>
    ensures accepted { IfOk result (λ parsed. IfOk parsed (IsAccepted workspace.now text.now kind)) }
    ensures refused { IfOk result (λ parsed. IfErr parsed (IsRefused workspace.now text.now kind)) }
    ensures no_default { kind ≡ kinds.DefaultFilter → IfOk result (λ parsed.
        IfOk parsed (λ filterset. has_leaf is_default filterset.compiled ≡ false)) }
    ensures no_group { kind ≡ kinds.DefaultFilter → IfOk result (λ parsed.
        IfOk parsed (λ filterset. has_leaf is_group filterset.compiled ≡ false)) }
    ensures failed { IfErr result (λ failure. failure ≡ failures.OutOfMemory) }
{
    let input = String::from_str(alloc, text)?;
    let context = ParseContext::new(alloc, &workspace.graph)?;
    match Filterset::parse(alloc, input, &context, kind, &workspace.known_groups) {
        Ok(filterset) => Ok(Ok(filterset)),
        Err(ParseRefusal::Faults(faults)) => Ok(Err(Refusal::Faults(faults))),
        Err(ParseRefusal::OutOfMemory { .. }) => Err(Failure::OutOfMemory),
    }
}

/// Parses a filterset of the workspace. Returns why the text is rejected if it is.
pub fn parse_within(
    alloc: Global,
    workspace: &Workspace,
    bytes: &[u8],
    kind: FiltersetKind,
) -> Result<Result<Filterset, Refusal>, Failure>
    ensures accepted { IfOk result (λ parsed. IfOk parsed (IsFiltersetWithin workspace.now bytes.now kind)) }
    ensures refused { IfOk result (λ parsed. IfErr parsed (IsRefused workspace.now bytes.now kind)) }
    ensures failed { IfErr result (λ failure. failure ≢ failures.Rejected) }
    ensures well { IsUtf8 bytes.now → IfErr result (λ failure. failure ≡ failures.OutOfMemory) }
    ensures not_utf8 { (IsUtf8 bytes.now → ⊥) → result ≡ Err failures.NotUtf8 }
{
    let text = text_of(bytes)?;
    match find_deep_place(alloc, workspace.depth, bytes)? {
        Some(place) => Ok(Err(Refusal::TooDeep(place))),
        None => parse_text(alloc, workspace, text, kind),
    }
}

/// Parses the default filter of the workspace anew, so that handles share nothing. The only error is out of memory, which a
/// pattern is taken for that `regex` finds too large, and did not when the filter was set.
fn parse_default_filter(alloc: Global, workspace: &Workspace) -> Result<CompiledExpr, Failure>
    ensures filter { IfOk result (IsDefaultFilter workspace.now workspace.now.default_filter) }
    ensures no_default { IfOk result (λ filter. has_leaf is_default filter ≡ false) }
    ensures no_group { IfOk result (λ filter. has_leaf is_group filter ≡ false) }
    ensures failed { IfErr result (λ failure. failure ≡ failures.OutOfMemory) }
{
    match &workspace.default_filter {
        None => Ok(CompiledExpr::ALL),
        Some(text) => match parse_text(alloc, workspace, text, FiltersetKind::DefaultFilter)? {
            Ok(filterset) => Ok(filterset.compiled),
            Err(_) => Err(Failure::OutOfMemory),
        },
    }
}

/// Parses a filterset, of the kind that has this number.
pub fn parse_in(alloc: Global, object: &Object, bytes: &[u8], kind: u8) -> Result<Object, Failure>
    ensures parsed { IfOk result (ParsesIn (Some object.now) bytes.now kind) }
    ensures failed { IfErr result (λ failure. failure ≢ failures.Rejected) }
    ensures well { IsWorkspace (Some object.now) → IsUtf8 bytes.now → kind < 4
        → IfErr result (λ failure. failure ≡ failures.OutOfMemory) }
    ensures wrong { IsNoWorkspace (Some object.now) → result ≡ Err failures.WrongHandle }
    ensures no_kind { IsWorkspace (Some object.now) → 4 ≤ kind → result ≡ Err failures.InvalidArgument }
    ensures not_utf8 { IsWorkspace (Some object.now) → kind < 4 → (IsUtf8 bytes.now → ⊥) → result ≡ Err failures.NotUtf8 }
{
    let Object::Workspace(workspace) = object else {
        return Err(Failure::WrongHandle);
    };
    let filterset_kind = kind_of(kind)?;
    match parse_within(alloc, workspace, bytes, filterset_kind)? {
        Ok(filterset) => Ok(Object::Filterset(BoundFilterset {
            filterset,
            default_filter: parse_default_filter(alloc, workspace)?,
        })),
        Err(refusal) => Ok(Object::Refused(refusal)),
    }
}
