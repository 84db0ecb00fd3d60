//! The names of a workspace that may be offered.
ghost use Rattle.std.specs.Prelude.{◌≡◌, ◌&&◌, IfOk, length, map, nat_lt, not};
ghost use Rattle.std.specs.{List.list_all, List.list_any, Str.bytes_eq};
ghost use Rattle.filterset_offers.specs.{Candidates.row_of, Workspaces.known_of, Workspaces.workspace_row};
ghost use Rattle.filterset_offers.specs.Candidates as candidates;
ghost use Rattle.filterset_offers.specs.Names.{AreKnown, AreNames, IsGathered, may_lack};
ghost use Rattle.filterset_offers.specs.Names as spec;

use crate::candidates::{Candidate, is_name_byte, naming};
use crate::named::{Named, names_of};
use crate::workspace::Workspace;
use std::alloc::{AllocError, Global};

/// How many names of a sort are offered at most.
const LIMIT: usize = 100;

/// Returns whether all bytes of a name are those of names.
fn is_plain(name: &[u8]) -> bool
    ensures { result ≡ list_all candidates.is_name_byte name.now }
{
    name.iter().all(|byte| is_name_byte(*byte))
}

/// Returns whether a name begins with what is typed, and is written as it is.
fn may_offer(typed: &str, name: &str) -> bool
    ensures { result ≡ spec.may_offer typed.now name.now }
{
    let bytes = name.as_bytes();
    bytes.starts_with(typed.as_bytes()) && is_plain(bytes) && !bytes.is_empty()
}

/// Returns whether a name is one of these.
fn has_name(names: &[&str], name: &str) -> bool
    ensures { result ≡ list_any (λ n. bytes_eq name.now n.now) names.now }
{
    names.iter().any(|other| name == *other)
}

/// Returns whether a name is to be added: it may be offered, is not there yet, and there are not too many.
fn is_wanted(names: &[&str], typed: &str, name: &str) -> bool
    ensures { result ≡ (spec.may_offer typed.now name.now && nat_lt (length names.now) 100
        && not (list_any (λ n. bytes_eq name.now n.now) names.now)) }
{
    may_offer(typed, name) && names.len() < LIMIT && !has_name(names, name)
}

/// Returns the names that may be offered, each once.
fn gather<'w>(alloc: Global, names: &[&'w str], typed: &str) -> Result<Vec<&'w str>, AllocError>
    ensures { IfOk result (λ found. IsGathered (map (λ n. n.now) names.now) typed.now (map (λ n. n.now) found.items)) }
{
    let mut found = Vec::new(alloc);
    for name in names {
        if is_wanted(found.as_slice(), typed, name) {
            found.push(name)?;
        }
    }
    Ok(found)
}

/// Makes the candidates of names.
fn candidates_of<'w>(
    alloc: Global,
    named: Named,
    names: &[&'w str],
) -> Result<Vec<Candidate<'w>>, AllocError>
    ensures { IfOk result (λ made. map row_of made.items ≡ map (candidates.naming named) (map (λ n. n.now) names.now)) }
{
    let mut made = Vec::with_capacity(alloc, names.len())?;
    for name in names {
        made.push(naming(named, name))?;
    }
    Ok(made)
}

/// Makes the candidates of the names of what is named so.
fn candidates_for<'w>(
    alloc: Global,
    workspace: &Workspace<'w>,
    typed: &str,
    named: Named,
) -> Result<Vec<Candidate<'w>>, AllocError>
    ensures { IfOk result (λ made. AreNames (workspace_row workspace.now) typed.now named (map row_of made.items)) }
{
    let names = names_of(alloc, workspace, named)?;
    let found = gather(alloc, names.as_slice(), typed)?;
    candidates_of(alloc, named, found.as_slice())
}

/// Makes the candidates of the names of a workspace, if there is one.
pub fn known_candidates<'w>(
    alloc: Global,
    workspace: Option<Workspace<'w>>,
    typed: &str,
) -> Result<Vec<Candidate<'w>>, AllocError>
    ensures { IfOk result (λ made. AreKnown (known_of workspace.entry) typed.now (map row_of made.items)) }
{
    let Some(workspace) = workspace else {
        return Ok(Vec::new(alloc));
    };
    let mut made = candidates_for(alloc, &workspace, typed, Named::Package)?;
    let mut binaries = candidates_for(alloc, &workspace, typed, Named::Binary)?;
    let mut ids = candidates_for(alloc, &workspace, typed, Named::BinaryId)?;
    let mut tests = candidates_for(alloc, &workspace, typed, Named::Test)?;
    made.append(&mut binaries)?;
    made.append(&mut ids)?;
    made.append(&mut tests)?;
    Ok(made)
}

/// Returns whether names may be missing among candidates.
pub fn may_lack(candidates: &[Candidate<'_>]) -> bool
    ensures { result ≡ may_lack (map row_of candidates.now) }
{
    LIMIT <= candidates.len()
}
