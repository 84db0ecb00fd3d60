//! Reads expressions.
ghost use Rattle.std.specs.Prelude.{◌≡◌, suc, ◌<◌, length, IfOk, Some};
ghost use Rattle.std.specs.Option.{option_map};
ghost use Rattle.filterset_grammar.specs.Tree.{Not, Parens, Set};
ghost use Rattle.filterset_language.specs.Parsing.Descent.{boxed_tree, operand_at, and_level_by, or_level_by, join, unite, set_at, negated_by, enclosed_by};
ghost use Rattle.filterset_language.specs.Parsing.Outcome.{ReadsTree, ReadsOn};
ghost use Rattle.filterset_language.specs.Parsing.Position.{position_of, IsBehind, IsAtOrBehind};
ghost use Rattle.filterset_language.specs.Parsing.Recovery.{StillStand, EndsBehind, joined, Checked, AtOperand, AtName, NoOperand};
ghost use Rattle.filterset_language.specs.{Parsing.Words.joiner_at, Parsing.Words.or_at, Views.leaf_of};

use crate::parsing::input::{Input, Read};
use crate::parsing::misplaced::find_misplaced;
use crate::parsing::names::{PredicateName, read_name};
use crate::parsing::operators::{is_before_caret, read_joiner, read_not, read_or};
use crate::parsing::predicates::{read_close, read_predicate};
use crate::tree::{ParsedExpr, ParsedLeaf, nodes};
use filterset_faults::ParseSingleError;
use filterset_grammar::{Joiner, NotOperator, OrOperator};
use std::alloc::{AllocError, Global};

/// Reads a predicate, a negation or an expression in parentheses.
///
/// The readers of expressions call each other, and an expression takes up their frames at each level that it nests. So
/// each part is read by a function of its own, which has few locals.
#[cycle(parser)]
fn read_operand<'a>(
    alloc: Global,
    faults: &mut Vec<ParseSingleError>,
    input: Input<'a>,
) -> Result<Read<'a, Box<ParsedExpr>>, AllocError>
    requires { AtOperand input }
    ensures value { ReadsTree input.entry faults.old faults.new result (λ n. operand_at (suc n)) }
    ensures stand { StillStand input.entry faults.old faults.new result }
    ensures behind { EndsBehind input.entry result }
{
    let start = input.skip_blanks();
    if let Some((name, rest)) = read_name(start) {
        return read_set(alloc, faults, name, start, rest);
    }
    if let Some((operator, rest)) = read_not(start) {
        return read_negation(alloc, faults, operator, rest);
    }
    if let Some(rest) = start.after("(") {
        return read_parens(alloc, faults, rest);
    }
    read_nothing(faults, input, start)
}

/// Reads the operand of a negation, after the operator.
#[cycle(parser)]
#[inline(never)]
fn read_negation<'a>(
    alloc: Global,
    faults: &mut Vec<ParseSingleError>,
    operator: NotOperator,
    input: Input<'a>,
) -> Result<Read<'a, Box<ParsedExpr>>, AllocError>
    requires { AtOperand input }
    ensures value { ReadsTree input.entry faults.old faults.new result (λ n. negated_by operator (operand_at (suc n))) }
    ensures stand { StillStand input.entry faults.old faults.new result }
    ensures behind { EndsBehind input.entry result }
{
    let operand = read_operand(alloc, faults, input)?;
    Ok(Read {
        value: negate(alloc, operator, operand.value)?,
        end: operand.end,
    })
}

/// Reads an expression and the closing parenthesis, after the opening one.
#[cycle(parser)]
#[inline(never)]
fn read_parens<'a>(
    alloc: Global,
    faults: &mut Vec<ParseSingleError>,
    input: Input<'a>,
) -> Result<Read<'a, Box<ParsedExpr>>, AllocError>
    requires { AtOperand input }
    ensures value { ReadsTree input.entry faults.old faults.new result (λ n. enclosed_by (operand_at (suc n))) }
    ensures stand { StillStand input.entry faults.old faults.new result }
    ensures behind { EndsBehind input.entry result }
{
    let inner = read_or_level(alloc, faults, input)?;
    let end = read_close(faults, inner.end)?;
    Ok(Read {
        value: enclose(alloc, inner.value)?,
        end,
    })
}

/// Reports what is at `start` instead of an operand, and returns no value. Reading goes on after a misplaced operator.
#[inline(never)]
fn read_nothing<'a>(
    faults: &mut Vec<ParseSingleError>,
    input: Input<'a>,
    start: Input<'a>,
) -> Result<Read<'a, Box<ParsedExpr>>, AllocError>
    requires at { AtOperand input }
    requires nothing { NoOperand (position_of input) (position_of start) }
    requires start { IsAtOrBehind input start }
    ensures more { IfOk result (λ r. length faults.old.items < length faults.new.items) }
    ensures stand { StillStand input.entry faults.old faults.new result }
    ensures behind { EndsBehind input.entry result }
{
    if let Some((op, suggest, end)) = find_misplaced(start) {
        faults.push(ParseSingleError::ExprFoundBinaryOp {
            op,
            suggest,
            span: start.up_to(end),
        })?;
        return Ok(Read { value: None, end });
    }
    if let Some(end) = start.after_word("NOT") {
        faults.push(ParseSingleError::ExprFoundUnaryOp {
            op: "NOT",
            suggest: "not",
            span: start.up_to(end),
        })?;
        return Ok(Read { value: None, end });
    }
    faults.push(ParseSingleError::ExpectedExpr(input.to_end()))?;
    Ok(Read {
        value: None,
        end: input,
    })
}

/// Reads operands of the level of `and`. If the first one took up no text, the level ends before `^`.
#[cycle(parser)]
fn read_and_level<'a>(
    alloc: Global,
    faults: &mut Vec<ParseSingleError>,
    input: Input<'a>,
) -> Result<Read<'a, Box<ParsedExpr>>, AllocError>
    requires { AtOperand input }
    ensures value { ReadsTree input.entry faults.old faults.new result (λ n. and_level_by (operand_at (suc n))) }
    ensures stand { StillStand input.entry faults.old faults.new result }
    ensures behind { EndsBehind input.entry result }
{
    let first = read_operand(alloc, faults, input)?;
    if first.end.offset == input.offset && is_before_caret(&first.end) {
        return Ok(first);
    }
    read_and_rest(alloc, faults, first)
}

/// Reads the operands of the level of `and` after the first one.
#[cycle(parser)]
#[inline(never)]
fn read_and_rest<'a>(
    alloc: Global,
    faults: &mut Vec<ParseSingleError>,
    first: Read<'a, Box<ParsedExpr>>,
) -> Result<Read<'a, Box<ParsedExpr>>, AllocError>
    ensures value { ReadsOn joiner_at join (λ n. operand_at (suc n)) first.entry faults.old faults.new result }
    ensures stand { StillStand first.entry.end faults.old faults.new result }
    ensures behind { EndsBehind first.entry.end result }
{
    let mut level = first;
    loop {
        let start = level.end.skip_blanks();
        let Some((joiner, rest)) = read_joiner(start) else {
            return Ok(Read {
                value: level.value,
                end: level.end.remember_blanks(start),
            });
        };
        check_joiner(faults, joiner, start, rest)?;
        let right = read_operand(alloc, faults, rest)?;
        level = Read {
            value: join(alloc, joiner, level.value, right.value)?,
            end: right.end,
        };
    }
}

/// Reads operands of the level of `or`.
#[cycle(parser)]
pub fn read_or_level<'a>(
    alloc: Global,
    faults: &mut Vec<ParseSingleError>,
    input: Input<'a>,
) -> Result<Read<'a, Box<ParsedExpr>>, AllocError>
    requires { AtOperand input }
    ensures value { ReadsTree input.entry faults.old faults.new result (λ n. or_level_by (operand_at (suc n))) }
    ensures stand { StillStand input.entry faults.old faults.new result }
    ensures behind { EndsBehind input.entry result }
{
    let first = read_and_level(alloc, faults, input)?;
    read_or_rest(alloc, faults, first)
}

/// Reads the operands of the level of `or` after the first one.
#[cycle(parser)]
#[inline(never)]
fn read_or_rest<'a>(
    alloc: Global,
    faults: &mut Vec<ParseSingleError>,
    first: Read<'a, Box<ParsedExpr>>,
) -> Result<Read<'a, Box<ParsedExpr>>, AllocError>
    ensures value { ReadsOn or_at unite (λ n. and_level_by (operand_at (suc n))) first.entry faults.old faults.new result }
    ensures stand { StillStand first.entry.end faults.old faults.new result }
    ensures behind { EndsBehind first.entry.end result }
{
    let mut level = first;
    loop {
        let start = level.end.skip_blanks();
        let Some((operator, rest)) = read_or(start) else {
            return Ok(Read {
                value: level.value,
                end: level.end.remember_blanks(start),
            });
        };
        check_or(faults, operator, start, rest)?;
        let right = read_and_level(alloc, faults, rest)?;
        level = Read {
            value: unite(alloc, operator, level.value, right.value)?,
            end: right.end,
        };
    }
}

/// Reports an operator of the level of `and` that has no value.
#[inline(never)]
fn check_joiner<'a>(
    faults: &mut Vec<ParseSingleError>,
    joiner: Option<Joiner>,
    start: Input<'a>,
    rest: Input<'a>,
) -> Result<(), AllocError>
    requires stands { Some (joiner, position_of rest) ≡ joiner_at (position_of start) }
    requires behind { IsBehind start rest }
    ensures value { IfOk result (λ u. Checked joiner faults.old.items faults.new.items) }
    ensures stand { StillStand start.entry faults.old faults.new result }
{
    if joiner.is_some() {
        return Ok(());
    }
    faults.push(ParseSingleError::InvalidAndOperator(start.up_to(rest)))?;
    Ok(())
}

/// Reports an operator of the level of `or` that has no value.
#[inline(never)]
fn check_or<'a>(
    faults: &mut Vec<ParseSingleError>,
    operator: Option<OrOperator>,
    start: Input<'a>,
    rest: Input<'a>,
) -> Result<(), AllocError>
    requires stands { Some (operator, position_of rest) ≡ or_at (position_of start) }
    requires behind { IsBehind start rest }
    ensures value { IfOk result (λ u. Checked operator faults.old.items faults.new.items) }
    ensures stand { StillStand start.entry faults.old faults.new result }
{
    if operator.is_some() {
        return Ok(());
    }
    faults.push(ParseSingleError::InvalidOrOperator(start.up_to(rest)))?;
    Ok(())
}

/// Reads a predicate after its name, as an expression. The name begins at `start`.
#[inline(never)]
fn read_set<'a>(
    alloc: Global,
    faults: &mut Vec<ParseSingleError>,
    name: PredicateName,
    start: Input<'a>,
    input: Input<'a>,
) -> Result<Read<'a, Box<ParsedExpr>>, AllocError>
    requires name { AtName name input }
    requires start { IsAtOrBehind start input }
    ensures value { ReadsTree input.entry faults.old faults.new result (λ n. set_at name start.entry.offset) }
    ensures stand { StillStand input.entry faults.old faults.new result }
    ensures behind { EndsBehind input.entry result }
{
    let leaf = read_predicate(alloc, faults, name, start, input)?;
    Ok(Read {
        value: make_set(alloc, leaf.value)?,
        end: leaf.end,
    })
}

/// Makes an expression of a predicate, if it has a value.
fn make_set(alloc: Global, leaf: Option<ParsedLeaf>) -> Result<Option<Box<ParsedExpr>>, AllocError>
    ensures { IfOk result (λ e. option_map boxed_tree e ≡ option_map (λ l. Set l) (option_map leaf_of leaf)) }
{
    match leaf {
        Some(leaf) => Ok(Some(nodes::make_set(alloc, leaf)?)),
        None => Ok(None),
    }
}

/// Negates an operand, if it has a value.
#[inline(never)]
fn negate(
    alloc: Global,
    operator: NotOperator,
    operand: Option<Box<ParsedExpr>>,
) -> Result<Option<Box<ParsedExpr>>, AllocError>
    ensures { IfOk result (λ e. option_map boxed_tree e
        ≡ option_map (λ t. Not operator t) (option_map boxed_tree operand)) }
{
    match operand {
        Some(operand) => Ok(Some(nodes::negate(alloc, operator, operand)?)),
        None => Ok(None),
    }
}

/// Encloses an expression in parentheses, if it has a value.
#[inline(never)]
fn enclose(
    alloc: Global,
    inner: Option<Box<ParsedExpr>>,
) -> Result<Option<Box<ParsedExpr>>, AllocError>
    ensures { IfOk result (λ e. option_map boxed_tree e
        ≡ option_map (λ t. Parens t) (option_map boxed_tree inner)) }
{
    match inner {
        Some(inner) => Ok(Some(nodes::enclose(alloc, inner)?)),
        None => Ok(None),
    }
}

/// Joins two operands by an operator of the level of `and`, if all three have a value.
#[inline(never)]
fn join(
    alloc: Global,
    joiner: Option<Joiner>,
    left: Option<Box<ParsedExpr>>,
    right: Option<Box<ParsedExpr>>,
) -> Result<Option<Box<ParsedExpr>>, AllocError>
    ensures { IfOk result (λ e. option_map boxed_tree e
        ≡ joined join joiner (option_map boxed_tree left) (option_map boxed_tree right)) }
{
    match (joiner, left, right) {
        (Some(joiner), Some(left), Some(right)) => {
            Ok(Some(nodes::join(alloc, joiner, left, right)?))
        }
        _ => Ok(None),
    }
}

/// Joins two operands by an operator of the level of `or`, if all three have a value.
#[inline(never)]
fn unite(
    alloc: Global,
    operator: Option<OrOperator>,
    left: Option<Box<ParsedExpr>>,
    right: Option<Box<ParsedExpr>>,
) -> Result<Option<Box<ParsedExpr>>, AllocError>
    ensures { IfOk result (λ e. option_map boxed_tree e
        ≡ joined unite operator (option_map boxed_tree left) (option_map boxed_tree right)) }
{
    match (operator, left, right) {
        (Some(operator), Some(left), Some(right)) => {
            Ok(Some(nodes::unite(alloc, operator, left, right)?))
        }
        _ => Ok(None),
    }
}
