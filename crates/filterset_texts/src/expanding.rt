//! What matchers are expanded to.
ghost use Rattle.std.specs.Prelude.{◌≡◌, min, IfOk};
ghost use Rattle.filterset_matchers.specs.Matchers.{matcher_of};
ghost use Rattle.filterset_texts.specs.Expanding.{IsExpansionOf, matcher_sequence_count};

use crate::counting::count_sequences;
use crate::part::Part;
use crate::texts::{expand_contains, expand_equal};
use crate::tokens::expand_tokens;
use filterset_matchers::NameMatcher;
use std::alloc::{AllocError, Global};

/// What a matcher is expanded to.
#[derive(Debug, Drop)]
pub enum Expansion {
    /// These sequences: one of them matches a text if and only if the matcher does.
    Sequences(Vec<Vec<Part>>),
    /// Nothing, because the matcher is a regular expression.
    Pattern,
    /// Nothing, because there would be more sequences than allowed.
    TooMany,
}

/// Counts the sequences of the matcher, up to `usize::MAX`. A pattern has none.
fn count_matcher_sequences(matcher: &NameMatcher) -> usize
    ensures { result ≡ min (matcher_sequence_count (matcher_of matcher.now)) usize.MAX }
{
    match matcher {
        NameMatcher::Equal { .. } | NameMatcher::Contains { .. } => 1,
        NameMatcher::Glob { glob, .. } => count_sequences(glob.tokens()),
        NameMatcher::Regex(_) => 0,
    }
}

/// Expands the matcher to sequences of parts, at most `limit` of them. Their number is known before any is made. It is one
/// for a matcher that compares texts. For a glob it is the product over its tokens, where a group counts the sum over its
/// branches, a `**` at the start or in the middle counts two, and any other token counts one.
///
/// The only error is out of memory.
pub fn sequences_of(
    alloc: Global,
    matcher: &NameMatcher,
    limit: usize,
) -> Result<Expansion, AllocError>
    ensures { IfOk result (IsExpansionOf (matcher_of matcher.now) limit) }
{
    if count_matcher_sequences(matcher) > limit {
        return Ok(Expansion::TooMany);
    }
    let sequences = match matcher {
        NameMatcher::Equal { value, .. } => expand_equal(alloc, value.as_str())?,
        NameMatcher::Contains { value, .. } => expand_contains(alloc, value.as_str())?,
        NameMatcher::Glob { glob, .. } => expand_tokens(alloc, glob.tokens())?,
        NameMatcher::Regex(_) => return Ok(Expansion::Pattern),
    };
    Ok(Expansion::Sequences(sequences))
}
