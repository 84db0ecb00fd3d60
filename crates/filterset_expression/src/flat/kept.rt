//! Matchers that are kept from one evaluation to the next.
ghost use Rattle.std.specs.Prelude.{◌↔◌, IfOk, IsTrue};
ghost use Rattle.filterset_matchers.specs.{Matcher.MatchesName, Matchers.matcher_of, Pattern.HasMatch};

use crate::FiltersetLeaf;
use crate::flat::FlatStep;
use filterset_matchers::{GlobMatcher, NameMatcher, PatternMatcher, PatternRegex};
use std::alloc::{AllocError, Global};
use std::cell::RefCell;

/// What is kept for the matcher of a step. It knows its pattern or glob, so no answer depends on what is kept.
pub enum KeptMatcher<'a> {
    /// Nothing: the matcher only compares, or keeping something does not pay.
    Nothing,
    /// The searcher of a pattern, once a search has made it.
    Pattern(RefCell<Option<PatternMatcher<'a>>>),
    /// A glob with its longest literal.
    Glob(GlobMatcher<'a>),
}

// Implemented by hand: a derived `Drop` is proved again, with the cell's, in each function that drops one.
impl Drop for KeptMatcher<'_> {
    fn drop(self) {
        match self {
            KeptMatcher::Nothing => {}
            KeptMatcher::Pattern(_kept) => {}
            KeptMatcher::Glob(_kept) => {}
        }
    }
}

impl<'a> KeptMatcher<'a> {
    /// Returns what is kept for a step before the first evaluation. The only error is out of memory.
    fn new(alloc: Global, step: FlatStep<'a>) -> Result<KeptMatcher<'a>, AllocError> {
        Ok(match searching_matcher(step) {
            Some(NameMatcher::Regex(_)) => KeptMatcher::Pattern(RefCell::new(None)),
            Some(NameMatcher::Glob { glob, .. }) => KeptMatcher::Glob(GlobMatcher::new(
                alloc, glob,
            )?),
            _ => KeptMatcher::Nothing,
        })
    }

    /// Returns whether the matcher matches the name. The only error is out of memory.
    #[inline(always)]
    pub fn is_match(
        &self,
        alloc: Global,
        matcher: &'a NameMatcher,
        name: &str,
    ) -> Result<bool, AllocError>
        ensures { IfOk result (λ matched. IsTrue matched ↔ MatchesName (matcher_of matcher.now) name.now) }
    {
        match (self, matcher) {
            (KeptMatcher::Pattern(kept), NameMatcher::Regex(pattern)) => {
                search(kept, alloc, pattern, name)
            }
            (KeptMatcher::Glob(kept), NameMatcher::Glob { glob, .. }) if kept.is_of(glob) => {
                kept.is_match(alloc, name)
            }
            _ => matcher.is_match(alloc, name),
        }
    }
}

/// Returns whether the pattern matches anywhere in the name. The only error is out of memory.
fn search<'a>(
    kept: &RefCell<Option<PatternMatcher<'a>>>,
    alloc: Global,
    pattern: &'a PatternRegex,
    name: &str,
) -> Result<bool, AllocError>
    ensures { IfOk result (λ found. IsTrue found ↔ HasMatch pattern.now name.now) }
{
    if let Some(found) = pattern.is_match_at_once(name) {
        return Ok(found);
    }
    if let Ok(mut guard) = kept.try_borrow_mut() {
        if let Some(kept) = &mut *guard {
            if kept.is_of(pattern) {
                return Ok(kept.is_match(name));
            }
        }
    }
    search_first(kept, alloc, pattern, name)
}

/// Does the same with a new searcher and keeps it. It is not inlined, since a function zeroes its locals on entry.
#[cold]
#[inline(never)]
fn search_first<'a>(
    kept: &RefCell<Option<PatternMatcher<'a>>>,
    alloc: Global,
    pattern: &'a PatternRegex,
    name: &str,
) -> Result<bool, AllocError>
    ensures { IfOk result (λ found. IsTrue found ↔ HasMatch pattern.now name.now) }
{
    let mut matcher = pattern.matcher(alloc)?;
    let found = matcher.is_match(name);
    if let Ok(mut guard) = kept.try_borrow_mut() {
        *guard = Some(matcher);
    }
    Ok(found)
}

/// Returns what is kept for each step; empty if that is nothing for all of them. The only error is out of memory.
pub fn keep_matchers<'a>(
    alloc: Global,
    steps: &[FlatStep<'a>],
) -> Result<Vec<KeptMatcher<'a>>, AllocError> {
    let mut kept = Vec::new(alloc);
    if steps.iter().any(|step| searching_matcher(*step).is_some()) {
        for step in steps {
            kept.push(KeptMatcher::new(alloc, *step)?)?;
        }
    }
    Ok(kept)
}

/// Returns the step's matcher if it searches names and keeping something makes that faster. Groups are left to the
/// lookup.
fn searching_matcher<'a>(step: FlatStep<'a>) -> Option<&'a NameMatcher> {
    let leaf = match step {
        FlatStep::Leaf(FiltersetLeaf::Group(..)) => return None,
        FlatStep::Leaf(leaf) => leaf,
        _ => return None,
    };
    let matcher = leaf.matcher()?;
    let searches = match matcher {
        NameMatcher::Equal { .. } | NameMatcher::Contains { .. } => false,
        NameMatcher::Glob { glob, .. } => GlobMatcher::pays_for(glob),
        NameMatcher::Regex(_) => true,
    };
    searches.then_some(matcher)
}
