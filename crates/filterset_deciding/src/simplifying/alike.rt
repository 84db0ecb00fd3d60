//! Trees that match the same tests at sight.
ghost use Rattle.std.specs.Prelude.{◌≡◌};
ghost use Rattle.filterset_language.specs.Views.{leaf_of, tree_of};
ghost use Rattle.filterset_matchers.specs.Matchers.{matcher_of};
ghost use Rattle.filterset_deciding.specs.Simplifying.Alike.{alike, alike_leaves, alike_matchers, identical_matchers};

use filterset_language::{ParsedExpr, ParsedLeaf};
use filterset_matchers::NameMatcher;

/// Returns whether two trees without parentheses are the same but for spans, the spelling of operators, signs and the
/// texts of globs.
pub fn are_alike<S>(one: &ParsedExpr<S>, other: &ParsedExpr<S>) -> bool
    ensures { result ≡ alike (tree_of one.now) (tree_of other.now) }
{
    match (one, other) {
        (ParsedExpr::Not(_, operand), ParsedExpr::Not(_, other_operand)) => {
            are_alike(operand, other_operand)
        }
        (ParsedExpr::Union(_, left, right), ParsedExpr::Union(_, other_left, other_right))
        | (
            ParsedExpr::Intersection(_, left, right),
            ParsedExpr::Intersection(_, other_left, other_right),
        )
        | (
            ParsedExpr::Difference(_, left, right),
            ParsedExpr::Difference(_, other_left, other_right),
        )
        | (
            ParsedExpr::SymmetricDifference(_, left, right),
            ParsedExpr::SymmetricDifference(_, other_left, other_right),
        ) => are_alike(left, other_left) && are_alike(right, other_right),
        (ParsedExpr::Set(leaf), ParsedExpr::Set(other_leaf)) => are_alike_leaves(leaf, other_leaf),
        _ => false,
    }
}

/// The same of two predicates. Those of groups are alike only if their matchers are identical, since a lookup of groups
/// may tell others apart.
fn are_alike_leaves<S>(one: &ParsedLeaf<S>, other: &ParsedLeaf<S>) -> bool
    ensures { result ≡ alike_leaves (leaf_of one.now) (leaf_of other.now) }
{
    match (one, other) {
        (ParsedLeaf::Package(matcher, _), ParsedLeaf::Package(other_matcher, _))
        | (ParsedLeaf::Deps(matcher, _), ParsedLeaf::Deps(other_matcher, _))
        | (ParsedLeaf::Rdeps(matcher, _), ParsedLeaf::Rdeps(other_matcher, _))
        | (ParsedLeaf::Kind(matcher, _), ParsedLeaf::Kind(other_matcher, _))
        | (ParsedLeaf::Binary(matcher, _), ParsedLeaf::Binary(other_matcher, _))
        | (ParsedLeaf::BinaryId(matcher, _), ParsedLeaf::BinaryId(other_matcher, _))
        | (ParsedLeaf::Test(matcher, _), ParsedLeaf::Test(other_matcher, _)) => {
            are_alike_matchers(matcher, other_matcher)
        }
        (ParsedLeaf::Group(matcher, _), ParsedLeaf::Group(other_matcher, _)) => {
            are_identical_matchers(matcher, other_matcher)
        }
        (ParsedLeaf::Platform(platform, _), ParsedLeaf::Platform(other_platform, _)) => {
            platform == other_platform
        }
        (ParsedLeaf::Default(_), ParsedLeaf::Default(_))
        | (ParsedLeaf::All, ParsedLeaf::All)
        | (ParsedLeaf::None, ParsedLeaf::None) => true,
        _ => false,
    }
}

/// Returns whether two matchers are the same but for signs and the texts of globs.
fn are_alike_matchers(one: &NameMatcher, other: &NameMatcher) -> bool
    ensures { result ≡ alike_matchers (matcher_of one.now) (matcher_of other.now) }
{
    match (one, other) {
        (
            NameMatcher::Equal { value, implicit: _ },
            NameMatcher::Equal {
                value: other_value,
                implicit: _,
            },
        )
        | (
            NameMatcher::Contains { value, implicit: _ },
            NameMatcher::Contains {
                value: other_value,
                implicit: _,
            },
        ) => value == other_value,
        (
            NameMatcher::Glob { glob, implicit: _ },
            NameMatcher::Glob {
                glob: other_glob,
                implicit: _,
            },
        ) => glob == other_glob,
        (NameMatcher::Regex(pattern), NameMatcher::Regex(other_pattern)) => {
            pattern.as_str() == other_pattern.as_str()
        }
        _ => false,
    }
}

/// Returns whether two matchers are the same, signs and the texts of globs included.
fn are_identical_matchers(one: &NameMatcher, other: &NameMatcher) -> bool
    ensures { result ≡ identical_matchers (matcher_of one.now) (matcher_of other.now) }
{
    match (one, other) {
        (
            NameMatcher::Equal { value, implicit },
            NameMatcher::Equal {
                value: other_value,
                implicit: other_implicit,
            },
        )
        | (
            NameMatcher::Contains { value, implicit },
            NameMatcher::Contains {
                value: other_value,
                implicit: other_implicit,
            },
        ) => value == other_value && implicit == other_implicit,
        (
            NameMatcher::Glob { glob, implicit },
            NameMatcher::Glob {
                glob: other_glob,
                implicit: other_implicit,
            },
        ) => {
            glob.as_str() == other_glob.as_str() && glob == other_glob && implicit == other_implicit
        }
        (NameMatcher::Regex(pattern), NameMatcher::Regex(other_pattern)) => {
            pattern.as_str() == other_pattern.as_str()
        }
        _ => false,
    }
}
