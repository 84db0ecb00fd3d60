//! Packages among which are all whose names a matcher matches.
ghost use Rattle.std.specs.Prelude.{IfOk, IfSome};
ghost use Rattle.filterset_matchers.specs.Matchers.{matcher_of};
ghost use Rattle.nextest_filtering.specs.Candidates.{AreCandidates};

use crate::compile::literal::find_texts;
use crate::compile::members::Members;
use filterset_graph::PackageMetadata;
use filterset_matchers::NameMatcher;
use std::alloc::{AllocError, Global};

/// The least number of packages whose names are searched as one text. With fewer, a search costs more than it saves.
const LEAST_SEARCHED: usize = 64;

/// Returns packages of the workspace among which are all whose names the matcher matches, or `None` if every package may
/// be one. A package may be listed more than once. The only error is out of memory.
#[inline(never)]
pub(super) fn list_candidates<'g>(
    alloc: Global,
    members: &Members<'g>,
    matcher: &NameMatcher,
) -> Result<Option<Vec<&'g PackageMetadata>>, AllocError>
    ensures { IfOk result (λ found. IfSome found (λ candidates.
        AreCandidates members.now.packages.items (matcher_of matcher.now) candidates.items)) }
{
    let (first, last) = match members.packages() {
        [first, .., last] if members.packages().len() >= LEAST_SEARCHED => (first, last),
        _ => return Ok(None),
    };
    let samples = [first.name(), last.name()];
    let Some(texts) = find_texts(alloc, matcher, samples)? else {
        return Ok(None);
    };
    let mut found = Vec::new(alloc);
    for text in &texts {
        let mut more = members.list_containing(alloc, text)?;
        found.append(&mut more)?;
    }
    Ok(Some(found))
}
