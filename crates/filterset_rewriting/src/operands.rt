//! Operands of calls, which may be calls.
ghost use Rattle.std.specs.Prelude.{◌≡◌, ◌<◌, ◌≤◌, IfOk, IfSome, MatchOption, length};
ghost use Rattle.filterset_language.specs.Views.{tree_of};
ghost use Rattle.filterset_rewriting.specs.Calls.{AreJoined, AreOpen, Begins, IsFront, IsList, IsOperand, Lacks, NoFront, NoList, NoOperand, end_sign};

use crate::fronts::{Front, read_expression};
use crate::links::{Link, link_trees, read_operator};
use filterset_language::ParsedExpr;
use std::alloc::{AllocError, Global};

/// An operand at the front of a text, and the text after the sign that ends it: a parenthesis after the last one, else a comma.
#[derive(Debug, Drop)]
struct Operand<'t> {
    tree: ParsedExpr,
    is_last: bool,
    behind: &'t str,
}

/// Returns what is after an ASCII sign, if the text goes on with it after white space.
fn after(text: &str, mark: char) -> Option<&str>
    requires { mark < 128 }
    ensures found { MatchOption result (Lacks mark text.now) (λ t. Begins mark text.now t.now) }
    ensures shorter { IfSome result (λ t. length t.now < length text.now) }
{
    text.trim_start().strip_prefix(mark)
}

/// Returns the operand that an expression is, if a comma or a parenthesis is after it.
fn end_operand<'t>(front: Front<'t>) -> Option<Operand<'t>>
    ensures found { MatchOption result (Lacks 44 front.entry.behind.now × Lacks 41 front.entry.behind.now)
        (λ x. (tree_of x.tree ≡ tree_of front.entry.tree) × Begins (end_sign x.is_last) front.entry.behind.now x.behind.now) }
    ensures shorter { IfSome result (λ x. length x.behind.now < length front.entry.behind.now) }
{
    let Front { tree, behind: rest } = front;
    if let Some(behind) = after(rest, ',') {
        return Some(Operand {
            tree,
            is_last: false,
            behind,
        });
    }
    match after(rest, ')') {
        Some(behind) => Some(Operand {
            tree,
            is_last: true,
            behind,
        }),
        None => None,
    }
}

/// Reads an expression or a call at the front of a text. Calls are read within calls up to this many levels.
#[cycle(calls)]
fn read_front<'t>(
    alloc: Global,
    levels: usize,
    text: &'t str,
) -> Result<Option<Front<'t>>, AllocError>
    ensures found { IfOk result (λ o. MatchOption o (NoFront levels text.entry.now)
        (λ f. IsFront text.entry.now (tree_of f.tree) f.behind.now)) }
    ensures within { IfOk result (λ o. IfSome o (λ f. length f.behind.now ≤ length text.entry.now)) }
{
    match read_operator(text) {
        Some((link, rest)) => {
            if levels == 0 {
                return Ok(None);
            }
            read_list(alloc, levels - 1, link, rest)
        }
        None => read_expression(alloc, text),
    }
}

/// Reads the operands of an operator that a text begins with, two or more between parentheses, and joins them.
#[cycle(calls)]
pub fn read_list<'t>(
    alloc: Global,
    levels: usize,
    link: Link,
    text: &'t str,
) -> Result<Option<Front<'t>>, AllocError>
    ensures found { IfOk result (λ o. MatchOption o (NoList levels text.entry.now)
        (λ f. IsList link text.entry.now (tree_of f.tree) f.behind.now)) }
    ensures within { IfOk result (λ o. IfSome o (λ f. length f.behind.now ≤ length text.entry.now)) }
{
    let Some(inside) = after(text, '(') else {
        return Ok(None);
    };
    let Some(operand) = read_operand(alloc, levels, inside)? else {
        return Ok(None);
    };
    let Operand {
        tree,
        is_last,
        behind,
    } = operand;
    if is_last {
        return Ok(None);
    }
    join_operands(alloc, levels, link, tree, behind)
}

/// Reads an operand at the front of a text.
#[cycle(calls)]
fn read_operand<'t>(
    alloc: Global,
    levels: usize,
    text: &'t str,
) -> Result<Option<Operand<'t>>, AllocError>
    ensures found { IfOk result (λ o. MatchOption o (NoOperand levels text.entry.now)
        (λ x. IsOperand text.entry.now (tree_of x.tree) (end_sign x.is_last) x.behind.now)) }
    ensures shorter { IfOk result (λ o. IfSome o (λ x. length x.behind.now < length text.entry.now)) }
{
    match read_front(alloc, levels, text)? {
        Some(front) => Ok(end_operand(front)),
        None => Ok(None),
    }
}

/// Reads the operands at the front of a text, up to the one that a parenthesis follows, and joins them to a tree.
#[cycle(calls)]
fn join_operands<'t>(
    alloc: Global,
    levels: usize,
    link: Link,
    first: ParsedExpr,
    text: &'t str,
) -> Result<Option<Front<'t>>, AllocError>
    ensures found { IfOk result (λ o. MatchOption o (AreOpen levels text.entry.now)
        (λ f. AreJoined link (tree_of first) text.entry.now (tree_of f.tree) f.behind.now)) }
    ensures within { IfOk result (λ o. IfSome o (λ f. length f.behind.now ≤ length text.entry.now)) }
{
    let mut tree = first;
    let mut rest = text;
    loop {
        let Some(operand) = read_operand(alloc, levels, rest)? else {
            return Ok(None);
        };
        let Operand {
            tree: right,
            is_last,
            behind,
        } = operand;
        tree = link_trees(alloc, link, tree, right)?;
        if is_last {
            return Ok(Some(Front { tree, behind }));
        }
        rest = behind;
    }
}
