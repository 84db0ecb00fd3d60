//! Matchers for many names.
ghost use Rattle.std.specs.Prelude.{◌≡◌, ◌↔◌, IsTrue, IfOk};
ghost use Rattle.filterset_matchers.specs.{Matcher.MatchesName, Matchers.matcher_of};
ghost use Rattle.filterset_offers.specs.ReadyMatchers.{ready_matcher};

use filterset_matchers::{NameMatcher, PatternMatcher};
use std::alloc::{AllocError, Global};

/// A matcher for many names, which makes the searcher of a pattern once.
#[derive(Drop)]
pub(crate) enum ReadyMatcher<'m> {
    Pattern(PatternMatcher<'m>),
    Other(&'m NameMatcher),
}

impl<'m> ReadyMatcher<'m> {
    /// Prepares a matcher. The only error is out of memory.
    pub fn new(alloc: Global, matcher: &'m NameMatcher) -> Result<ReadyMatcher<'m>, AllocError>
        ensures { IfOk result (λ ready. ready_matcher ready ≡ matcher_of matcher.now) }
    {
        Ok(match matcher {
            NameMatcher::Regex(pattern) => ReadyMatcher::Pattern(pattern.matcher(alloc)?),
            _ => ReadyMatcher::Other(matcher),
        })
    }

    /// Returns whether the matcher matches a name. The only error is out of memory.
    pub fn matches(&mut self, alloc: Global, name: &str) -> Result<bool, AllocError>
        ensures matches { IfOk result (λ matched. IsTrue matched ↔ MatchesName (ready_matcher self.old) name.now) }
        ensures same { ready_matcher self.new ≡ ready_matcher self.old }
    {
        match self {
            ReadyMatcher::Pattern(pattern) => Ok(pattern.is_match(name)),
            ReadyMatcher::Other(matcher) => matcher.is_match(alloc, name),
        }
    }
}
