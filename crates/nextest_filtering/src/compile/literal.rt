//! Texts such that each name that a matcher matches contains one of them.
ghost use Rattle.std.specs.Prelude.{◌≡◌, ◌⊎◌, ◌∷◌, [], IfOk, IfSome, string_bytes};
ghost use Rattle.filterset_glob.specs.Tokens.{tokens_of};
ghost use Rattle.filterset_matchers.specs.{Literals.StandsInEach, Matcher.Regex, Matchers.matcher_of};
ghost use Rattle.nextest_filtering.specs.Candidates.{OneStandsInNames};
ghost use Rattle.regex_extract.specs.Needles.{AreFilled, needles_of};

use filterset_glob::GlobToken;
use filterset_matchers::NameMatcher;
use memchr::memmem;
use regex_extract::required;
use regex_syntax::{Config, ErrorKind};
use std::alloc::{AllocError, Global};
use std::mem::swap;

/// The most texts that are searched for in place of a pattern.
const MAX_TEXTS: usize = 4;

/// Returns texts such that each name that the matcher matches contains one of them, or `None` if it finds none that are
/// worth a search. What both samples contain is taken to be in most names. The only error is out of memory.
pub(super) fn find_texts(
    alloc: Global,
    matcher: &NameMatcher,
    samples: [&str; 2],
) -> Result<Option<Vec<Vec<u8>>>, AllocError>
    ensures filled { IfOk result (λ found. IfSome found (λ texts. AreFilled (needles_of texts))) }
    ensures stands { IfOk result (λ found. IfSome found (λ texts. OneStandsInNames (matcher_of matcher.now) (needles_of texts))) }
{
    match matcher {
        NameMatcher::Equal { value, implicit: _ } => {
            list_filled(alloc, String::from_str(alloc, value.as_str())?)
        }
        NameMatcher::Contains { value, implicit: _ } => {
            list_filled(alloc, String::from_str(alloc, value.as_str())?)
        }
        NameMatcher::Glob { glob, implicit: _ } => {
            list_filled(alloc, find_rare_literal(alloc, glob.tokens(), samples)?)
        }
        NameMatcher::Regex(pattern) => find_required(alloc, pattern.as_str(), samples),
    }
}

/// Returns a list of this text alone, or `None` if it is empty. The only error is out of memory.
fn list_filled(alloc: Global, text: String) -> Result<Option<Vec<Vec<u8>>>, AllocError>
    ensures filled { IfOk result (λ found. IfSome found (λ texts. AreFilled (needles_of texts))) }
    ensures alone { IfOk result (λ found. IfSome found (λ texts. needles_of texts ≡ string_bytes text ∷ [])) }
{
    if text.is_empty() {
        return Ok(None);
    }
    Ok(Some(vec![in alloc; text.into_bytes()]?))
}

/// Returns texts such that each name in which the pattern has a match contains one of them, or `None` if it finds none, too
/// many, or one that is in both samples. The only error is out of memory.
#[cold]
#[inline(never)]
fn find_required(
    alloc: Global,
    pattern: &str,
    samples: [&str; 2],
) -> Result<Option<Vec<Vec<u8>>>, AllocError>
    ensures filled { IfOk result (λ found. IfSome found (λ texts. AreFilled (needles_of texts))) }
    ensures stands { IfOk result (λ found. IfSome found (λ texts. OneStandsInNames (Regex pattern.now) (needles_of texts))) }
{
    let tree = match regex_syntax::parse(alloc, pattern, &Config::default()) {
        Ok(parsed) => parsed.hir,
        Err(error) if matches!(error.kind, ErrorKind::OutOfMemory) => return Err(AllocError),
        Err(_) => return Ok(None),
    };
    match required(alloc, &tree)? {
        Some(texts)
            if texts.len() <= MAX_TEXTS && !texts.iter().any(|text| all_contain(samples, text)) => {
            Ok(Some(texts))
        }
        _ => Ok(None),
    }
}

/// Returns the longest run of literals among the tokens, outside of groups, that is not in both samples. It is empty if
/// there is none. The only error is out of memory.
fn find_rare_literal(
    alloc: Global,
    tokens: &[GlobToken],
    samples: [&str; 2],
) -> Result<String, AllocError>
    ensures { IfOk result (λ literal. StandsInEach (tokens_of tokens.now) (string_bytes literal)) }
{
    let mut longest = String::new(alloc);
    let mut run = String::new(alloc);
    for token in tokens {
        match token {
            GlobToken::Literal(own) => run.push(*own)?,
            _ => end_run(&mut longest, &mut run, samples),
        }
    }
    end_run(&mut longest, &mut run, samples);
    Ok(longest)
}

/// Ends a run: keeps it if it is longer than `longest` and not in both samples, and empties it.
fn end_run(longest: &mut String, run: &mut String, samples: [&str; 2])
    ensures kept { string_bytes longest.new ≡ string_bytes longest.old ⊎ string_bytes longest.new ≡ string_bytes run.old }
    ensures begun { string_bytes run.new ≡ [] }
{
    if run.len() > longest.len() && !all_contain(samples, run.as_bytes()) {
        swap(longest, run);
    }
    run.clear();
}

/// Returns whether all samples contain the text.
fn all_contain(samples: [&str; 2], text: &[u8]) -> bool {
    samples
        .iter()
        .all(|sample| memmem::find(sample.as_bytes(), text).is_some())
}
