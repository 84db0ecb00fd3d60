//! Finds where a text nests too deeply, before it is parsed: the parser and all that goes down a tree take up stack for each
//! level.
//!
//! A level is an open parenthesis of an expression, or a negation whose operand has not ended. Arguments of predicates are
//! passed over. From a place on where the text is not spelled as a filterset, each `!` and `not` counts, and each `(` that
//! begins no argument, so the parser is never nested more deeply than what is counted. The braces that are open in an
//! argument are counted apart (`groups`).
ghost use Rattle.std.specs.Prelude.{◌<◌, ◌≤◌, Bool, IfNone, IfOk, IfSome, List, MatchOption, length, ℕ};
ghost use Rattle.filterset_faults.specs.declared.span.SourceSpan.{SourceSpan};
ghost use Rattle.filterset_grammar.specs.{Grammar.Spells, Tree.Tree};
ghost use Rattle.filterset_rewriting.specs.Nesting.{Depth.IsTooDeep, Depth.depth, Levels.After, Levels.Passes};

use std::alloc::{AllocError, Global};

mod arguments;
mod groups;
mod tokens;

use groups::find_deep_group;
use tokens::{Lexeme, next_token};

/// The most levels that a text may have, for people and for editors.
pub const MOST_LEVELS: usize = 512;

/// What comes of moving past a token.
#[derive(Clone, Copy)]
enum Step {
    /// The level after the token is within the limit.
    Within,
    /// The token passes the limit.
    TooDeep,
    /// No filterset has the token here.
    Misplaced,
}

/// The levels at a position.
#[derive(Drop)]
struct Levels {
    /// The level of operands: the number of what is open.
    base: usize,
    /// The level at the position: `base` and the negations in front of the operand.
    level: usize,
    /// The level of operands outside of each open parenthesis.
    outside: Vec<usize>,
}

impl Levels {
    /// Moves past a token.
    fn pass(&mut self, token: Lexeme, limit: usize) -> Result<Step, AllocError>
        ensures { IfOk result (λ step. (t : List ℕ) (within : Bool)
            → After limit token t self.old.outside.items self.old.base self.old.level within
            → Passes limit t within self.new step) }
    {
        match token {
            Lexeme::Between => Ok(Step::Within),
            Lexeme::Negation => {
                if self.level >= limit {
                    return Ok(Step::TooDeep);
                }
                self.level += 1;
                Ok(Step::Within)
            }
            Lexeme::Open => {
                if self.level >= limit {
                    return Ok(Step::TooDeep);
                }
                self.outside.push(self.base)?;
                self.level += 1;
                self.base = self.level;
                Ok(Step::Within)
            }
            Lexeme::Close => match self.outside.pop() {
                Some(base) => {
                    self.base = base;
                    self.level = base;
                    Ok(Step::Within)
                }
                None => Ok(Step::Misplaced),
            },
            Lexeme::Predicate => {
                self.level = self.base;
                Ok(Step::Within)
            }
            Lexeme::Other => Ok(Step::Misplaced),
        }
    }
}

/// Returns the offset of the parenthesis or negation that is nested more deeply than `limit` levels, if there is one. The
/// only error is out of memory. One pass.
pub fn find_too_deep(alloc: Global, text: &[u8], limit: usize) -> Result<Option<usize>, AllocError>
    ensures place { IfOk result (λ found. IfSome found (λ at. at < length text.now)) }
    ensures deep { IfOk result (λ found. (e : Tree SourceSpan) → Spells text.now e
        → MatchOption found (depth e ≤ limit) (λ at. limit < depth e)) }
{
    let mut levels = Levels {
        base: 0,
        level: 0,
        outside: Vec::new(alloc),
    };
    let mut at = 0;
    while at < text.len() {
        let (_, rest) = text.split_at(at);
        let next = next_token(rest);
        match levels.pass(next.token, limit)? {
            Step::Within => at += next.len,
            Step::TooDeep => return Ok(Some(at)),
            Step::Misplaced => return Ok(count_on(text, at, levels.level, limit)),
        }
    }
    Ok(None)
}

/// Returns the offset of the parenthesis, the negation or the brace of a glob's group that is nested more deeply than `limit`
/// levels, if there is one. The only error is out of memory. Two passes.
pub fn find_deep_place(alloc: Global, text: &str, limit: usize) -> Result<Option<usize>, AllocError>
    ensures shallow { IfOk result (λ found.
        IfNone found ((e : Tree SourceSpan) → Spells text.now e → depth e ≤ limit)) }
    ensures deep { IfOk result (λ found. IfSome found (IsTooDeep limit text.now)) }
{
    let bytes = text.as_bytes();
    match find_too_deep(alloc, bytes, limit)? {
        Some(at) => Ok(Some(at)),
        None => Ok(find_deep_group(bytes, limit)),
    }
}

/// Counts levels from a position on. Returns the offset of the first that passes the limit. A `)` counts that ends no
/// argument, in a text without slashes and backslashes: those that do are the first after their predicates.
fn count_on(text: &[u8], start: usize, level: usize, limit: usize) -> Option<usize>
    requires { start ≤ length text.now }
    ensures { IfSome result (λ at. at < length text.now) }
{
    let is_plain = !text.contains(&b'/') && !text.contains(&b'\\');
    let mut reached = level;
    for at in start..text.len() {
        let (front, rest) = text.split_at(at);
        if may_go_down(front, rest) {
            if reached >= limit {
                return Some(at);
            }
            reached += 1;
        } else if is_plain && front.ends_with(b")") && rest.starts_with(b")") {
            reached = reached.saturating_sub(1);
        }
    }
    None
}

/// Returns whether what follows may be a parenthesis or a negation. A `(` after a word that is no operator begins an argument.
fn may_go_down(front: &[u8], rest: &[u8]) -> bool {
    match rest {
        [b'!', ..] | [b'n', b'o', b't', ..] => true,
        [b'(', ..] => {
            !matches!(front, [.., b'a'..=b'z'])
                || front.ends_with(b"not")
                || front.ends_with(b"and")
                || front.ends_with(b"or")
        }
        _ => false,
    }
}
