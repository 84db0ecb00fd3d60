//! Matchers that match one text alone, and globs that begin with different literals.
ghost use Rattle.std.specs.Prelude.{◌≡◌, ℕ, Bool, List, IfNone, IfOk, IfSome, IsTrue};
ghost use Rattle.filterset_glob.specs.{Matching.Matches, Tokens.tokens_of};
ghost use Rattle.filterset_matchers.specs.Matchers.{matcher_of};
ghost use Rattle.filterset_matchers.specs.Matcher as matcher;
ghost use Rattle.filterset_deciding.specs.{Globs.are_literals, Known.IsLiteralOf, Texts.IsEqual};

use filterset_glob::{GenericGlob, GlobToken};
use filterset_matchers::NameMatcher;
use std::alloc::{AllocError, Global};

/// Returns whether each token is a literal.
fn are_literals(tokens: &[GlobToken]) -> bool
    ensures { result ≡ are_literals tokens.now }
{
    for token in tokens {
        if !matches!(token, GlobToken::Literal(_)) {
            return false;
        }
    }
    true
}

/// Returns the only text that the glob matches, if all its tokens are literals. The only error is out of memory.
fn literal_of_glob<'m>(alloc: Global, glob: &'m GenericGlob) -> Result<Option<&'m str>, AllocError>
    ensures { IfOk result (λ found. IfSome found (λ text. (own : List ℕ) (implicit : Bool)
        → IsLiteralOf (matcher.Glob own glob.entry.now.tokens implicit) text.now)) }
{
    if !are_literals(glob.tokens()) {
        return Ok(None);
    }
    let text = glob.as_str();
    let is_matched = glob.is_match(alloc, text)?;
    if !is_matched {
        return Ok(None);
    }
    Ok(Some(text))
}

/// Returns the only text that the matcher matches, if it compares for equality or is a glob of literals. The only error is
/// out of memory.
pub(crate) fn literal_of<'m>(
    alloc: Global,
    matcher: &'m NameMatcher,
) -> Result<Option<&'m str>, AllocError>
    ensures some { IfOk result (λ found. IfSome found (λ text. IsLiteralOf (matcher_of matcher.entry.now) text.now)) }
    ensures none { IfOk result (λ found. IfNone found (¬ IsEqual (matcher_of matcher.entry.now))) }
{
    match matcher {
        NameMatcher::Equal { value, .. } => Ok(Some(value.as_str())),
        NameMatcher::Glob { glob, .. } => literal_of_glob(alloc, glob),
        NameMatcher::Contains { .. } | NameMatcher::Regex(_) => Ok(None),
    }
}

/// Returns whether both lists of tokens begin with literals that differ at some position, so that no text matches both.
pub(crate) fn begin_apart(tokens: &[GlobToken], others: &[GlobToken]) -> bool
    ensures { IsTrue result → (text : List ℕ) → Matches (tokens_of tokens.now) text
        → ¬ Matches (tokens_of others.now) text }
{
    for at in 0..tokens.len() {
        match (tokens.get(at), others.get(at)) {
            (Some(GlobToken::Literal(own)), Some(GlobToken::Literal(other))) => {
                if own != other {
                    return true;
                }
            }
            _ => return false,
        }
    }
    false
}
