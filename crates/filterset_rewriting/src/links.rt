//! Operators that are written in front of their operands.
ghost use Rattle.std.specs.Prelude.{◌≡◌, ◌≤◌, ◌++◌, IfOk, IfSome, MatchOption, length};
ghost use Rattle.std.specs.Str.{trim_start};
ghost use Rattle.filterset_language.specs.Views.{tree_of};
ghost use Rattle.filterset_rewriting.specs.Links.{IsOperator, LacksWord, NoOperator, linked};

use filterset_language::{AndOperator, OrOperator, ParsedExpr};
use std::alloc::{AllocError, Global};

/// An operator that joins two operands or more.
#[derive(Clone, Copy, Debug)]
pub enum Link {
    Every(AndOperator),
    Any(OrOperator),
}

/// Returns what is after a word, if the text goes on with it after white space.
fn after_word<'t>(text: &'t str, word: &str) -> Option<&'t str>
    ensures found { MatchOption result (LacksWord word.now text.entry.now) (λ t. trim_start text.entry.now ≡ word.now ++ t.now) }
    ensures within { IfSome result (λ t. length t.now ≤ length text.entry.now) }
{
    match text.trim_start().strip_prefix(word) {
        Some(rest) => Some(rest),
        None => None,
    }
}

/// Returns the operator that a text begins with, and what is after it.
pub fn read_operator(text: &str) -> Option<(Link, &str)>
    ensures found { MatchOption result (NoOperator text.now) (λ x. IsOperator text.now x.0 x.1.now) }
    ensures within { IfSome result (λ x. length x.1.now ≤ length text.now) }
{
    if let Some(rest) = after_word(text, "and") {
        return Some((Link::Every(AndOperator::LiteralAnd), rest));
    }
    if let Some(rest) = after_word(text, "AND") {
        return Some((Link::Every(AndOperator::LiteralAnd), rest));
    }
    if let Some(rest) = after_word(text, "&&") {
        return Some((Link::Every(AndOperator::Ampersand), rest));
    }
    if let Some(rest) = after_word(text, "or") {
        return Some((Link::Any(OrOperator::LiteralOr), rest));
    }
    if let Some(rest) = after_word(text, "OR") {
        return Some((Link::Any(OrOperator::LiteralOr), rest));
    }
    match after_word(text, "||") {
        Some(rest) => Some((Link::Any(OrOperator::Pipe), rest)),
        None => None,
    }
}

/// Joins two trees.
pub fn link_trees<S: Drop>(
    alloc: Global,
    link: Link,
    left: ParsedExpr<S>,
    right: ParsedExpr<S>,
) -> Result<ParsedExpr<S>, AllocError>
    ensures { IfOk result (λ made. tree_of made ≡ linked link (tree_of left) (tree_of right)) }
{
    let left = Box::new(alloc, left)?;
    let right = Box::new(alloc, right)?;
    Ok(match link {
        Link::Every(operator) => ParsedExpr::Intersection(operator, left, right),
        Link::Any(operator) => ParsedExpr::Union(operator, left, right),
    })
}
