//! Matchers of names.
ghost use Rattle.std.specs.Prelude.{◌≡◌, ◌↔◌, IsTrue, IfOk, IsOk};

use filterset_glob::GenericGlob;
use std::alloc::{AllocError, Global};
use std::rc::Rc;

mod compiled;
mod glob;
mod pattern;
mod plain;
mod substring;

pub use glob::GlobMatcher;
pub use pattern::{PatternMatcher, PatternRefusal, PatternRegex};

/// A matcher of names. `implicit` is true if the matcher was parsed from a text without a sign.
///
/// Two matchers are equal if their variants and fields are. Of globs only the tokens are compared, and of patterns the
/// texts.
///
/// The type implements `Drop`, so no field can be moved out of it.
#[derive(Debug)]
pub enum NameMatcher {
    /// Matches the name that is equal to the value.
    Equal {
        value: String,
        implicit: bool,
    },
    /// Matches names that contain the value.
    Contains {
        value: String,
        implicit: bool,
    },
    /// Matches names that the glob matches as a whole.
    Glob {
        glob: GenericGlob,
        /// Equality ignores this field.
        implicit: bool,
    },
    /// Matches names in which the pattern has a match.
    Regex(Rc<PatternRegex>),
}

// Implemented by hand: a derived `Drop` is proved again, variant by variant, in each function that drops a matcher.
impl Drop for NameMatcher {
    fn drop(self) {
        match self {
            NameMatcher::Equal {
                value: _value,
                implicit: _,
            }
            | NameMatcher::Contains {
                value: _value,
                implicit: _,
            } => {}
            NameMatcher::Glob {
                glob: _glob,
                implicit: _,
            } => {}
            NameMatcher::Regex(_pattern) => {}
        }
    }
}

/// Compares all fields, but of globs only the tokens.
impl PartialEq for NameMatcher {
    ghost use Rattle.std.specs.Cmp.{partial_equiv_from_equiv};
    ghost use Rattle.filterset_matchers.specs.Equality.{same_matcher, same_matcher_equiv};

    ghost eq = { same_matcher };

    ghost laws = { partial_equiv_from_equiv same_matcher_equiv };

    fn eq(&self, other: &NameMatcher) -> bool {
        match (self, other) {
            (
                NameMatcher::Equal { value, implicit },
                NameMatcher::Equal {
                    value: other_value,
                    implicit: other_implicit,
                },
            )
            | (
                NameMatcher::Contains { value, implicit },
                NameMatcher::Contains {
                    value: other_value,
                    implicit: other_implicit,
                },
            ) => value == other_value && implicit == other_implicit,
            (
                NameMatcher::Glob { glob, implicit: _ },
                NameMatcher::Glob {
                    glob: other_glob,
                    implicit: _,
                },
            ) => glob == other_glob,
            (NameMatcher::Regex(pattern), NameMatcher::Regex(other_pattern)) => {
                pattern.as_str() == other_pattern.as_str()
            }
            _ => false,
        }
    }
}

impl Eq for NameMatcher {
    ghost use Rattle.filterset_matchers.specs.Equality.{same_matcher_equiv};

    ghost laws = { same_matcher_equiv };
}

impl NameMatcher {
    ghost use Rattle.filterset_matchers.specs.{Matcher.MatchesName, Matcher.ByComparing, Matchers.matcher_of};

    /// Returns whether the matcher matches the input. The only error is out of memory; `Equal` and `Contains` always
    /// succeed.
    pub fn is_match(&self, alloc: Global, input: &str) -> Result<bool, AllocError>
        ensures matches { IfOk result (λ matched. IsTrue matched ↔ MatchesName (matcher_of self.now) input.now) }
        ensures no_memory { ByComparing (matcher_of self.now) → IsOk result }
    {
        match self {
            NameMatcher::Equal { value, implicit: _ } => Ok(input == value.as_str()),
            NameMatcher::Contains { value, implicit: _ } => Ok(substring::contains(
                input,
                value.as_str(),
            )),
            NameMatcher::Glob { glob, implicit: _ } => glob.is_match(alloc, input),
            NameMatcher::Regex(pattern) => pattern.is_match(alloc, input),
        }
    }

    /// Copies the matcher. A pattern is shared. The only error is out of memory.
    pub fn try_clone(&self, alloc: Global) -> Result<NameMatcher, AllocError>
        ensures { IfOk result (λ copy. matcher_of copy ≡ matcher_of self.now) }
    {
        Ok(match self {
            NameMatcher::Equal { value, implicit } => NameMatcher::Equal {
                value: String::from_str(alloc, value.as_str())?,
                implicit: *implicit,
            },
            NameMatcher::Contains { value, implicit } => NameMatcher::Contains {
                value: String::from_str(alloc, value.as_str())?,
                implicit: *implicit,
            },
            NameMatcher::Glob { glob, implicit } => NameMatcher::Glob {
                glob: glob.try_clone(alloc)?,
                implicit: *implicit,
            },
            NameMatcher::Regex(pattern) => NameMatcher::Regex(pattern.clone()?),
        })
    }
}
