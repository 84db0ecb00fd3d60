//! Reads expressions of `cfg(..)`.
ghost use Rattle.std.specs.Prelude.{◌≡◌, ◌<◌, ◌≤◌, length, codes, IfOk};
ghost use Rattle.std.specs.Str.{trim_start};
ghost use Rattle.filterset_configuration.specs.PlatformGrammar.{Expression, GoesOn, Inside, IsKey, IsNamed, Sign};
ghost use Rattle.filterset_configuration.specs.PlatformReading.{Gives, IsPlaced, IsTrueOf, Lacks};
ghost use Rattle.filterset_configuration.specs.PlatformTrees.{Expr, Exprs, expr_of, exprs_of, negated};
ghost use Rattle.filterset_json.specs.Shape.{Text};

pub(crate) mod words;

use crate::platforms::expressions::CfgExpr;
use crate::platforms::fault::{Expected, ReadError};
use crate::platforms::settings::Cfg;
use std::alloc::{AllocError, Global};
use words::{after, read_quoted, read_word};

/// Reports what is expected in `text` after white space.
pub(crate) fn expect(text: &str, expected: Expected) -> ReadError
    requires { Lacks expected (trim_start text.now) }
    ensures { IsTrueOf text.now result }
{
    ReadError::Fault {
        left: text.trim_start().len(),
        expected,
    }
}

/// Reads an expression, and returns the text after it.
#[cycle(parser)]
pub(crate) fn read_expression<'a>(
    alloc: Global,
    text: &'a str,
) -> Result<(CfgExpr, &'a str), ReadError>
    ensures read { IfOk result (λ x. Expression (expr_of x.0) text.now x.1.now) }
    ensures only { (e : Expr) (r : Text) → Expression e text.now r → Gives expr_of result e r }
    ensures place { IsPlaced text.now result }
    ensures shorter { IfOk result (λ x. length x.1.now < length text.now) }
{
    let Some((word, rest)) = read_word(text) else {
        return Err(expect(text, Expected::Expression));
    };
    match word {
        "all" => read_all(alloc, rest),
        "any" => read_any(alloc, rest),
        "not" => read_not(alloc, rest),
        _ => read_setting(alloc, word, rest),
    }
}

/// Reads the rest of a conjunction.
#[cycle(parser)]
#[inline(never)]
fn read_all<'a>(alloc: Global, text: &'a str) -> Result<(CfgExpr, &'a str), ReadError>
    ensures read { IfOk result (λ x. GoesOn (expr_of x.0) (codes "all") text.now x.1.now) }
    ensures only { (e : Expr) (r : Text) → GoesOn e (codes "all") text.now r → Gives expr_of result e r }
    ensures place { IsPlaced text.now result }
    ensures shorter { IfOk result (λ x. length x.1.now < length text.now) }
{
    let (expressions, rest) = read_list(alloc, text)?;
    Ok((CfgExpr::All(expressions), rest))
}

/// Reads the rest of a disjunction.
#[cycle(parser)]
#[inline(never)]
fn read_any<'a>(alloc: Global, text: &'a str) -> Result<(CfgExpr, &'a str), ReadError>
    ensures read { IfOk result (λ x. GoesOn (expr_of x.0) (codes "any") text.now x.1.now) }
    ensures only { (e : Expr) (r : Text) → GoesOn e (codes "any") text.now r → Gives expr_of result e r }
    ensures place { IsPlaced text.now result }
    ensures shorter { IfOk result (λ x. length x.1.now < length text.now) }
{
    let (expressions, rest) = read_list(alloc, text)?;
    Ok((CfgExpr::Any(expressions), rest))
}

/// Reads the rest of a negation.
#[cycle(parser)]
#[inline(never)]
fn read_not<'a>(alloc: Global, text: &'a str) -> Result<(CfgExpr, &'a str), ReadError>
    ensures read { IfOk result (λ x. GoesOn (expr_of x.0) (codes "not") text.now x.1.now) }
    ensures only { (e : Expr) (r : Text) → GoesOn e (codes "not") text.now r → Gives expr_of result e r }
    ensures place { IsPlaced text.now result }
    ensures shorter { IfOk result (λ x. length x.1.now < length text.now) }
{
    let Some(inside) = after(text, '(') else {
        return Err(expect(text, Expected::OpenParenthesis));
    };
    let (operand, behind) = read_expression(alloc, inside)?;
    let Some(rest) = after(behind, ')') else {
        return Err(expect(behind, Expected::CloseParenthesis));
    };
    Ok((negate(alloc, operand)?, rest))
}

/// Negates an expression.
fn negate(alloc: Global, operand: CfgExpr) -> Result<CfgExpr, AllocError>
    ensures { IfOk result (λ e. expr_of e ≡ negated (expr_of operand)) }
{
    Ok(CfgExpr::Not(Box::new(alloc, operand)?))
}

/// Reads expressions in parentheses.
#[cycle(parser)]
#[inline(never)]
fn read_list<'a>(alloc: Global, text: &'a str) -> Result<(Vec<CfgExpr>, &'a str), ReadError>
    ensures read { IfOk result (λ x. (t : Text) × Sign 40 text.now t × Inside (exprs_of x.0.items) t x.1.now) }
    ensures only { (es : Exprs) (t r : Text) → Sign 40 text.now t → Inside es t r
        → Gives (λ v. exprs_of v.items) result es r }
    ensures place { IsPlaced text.now result }
    ensures shorter { IfOk result (λ x. length x.1.now < length text.now) }
{
    let Some(inside) = after(text, '(') else {
        return Err(expect(text, Expected::OpenParenthesis));
    };
    read_inside(alloc, inside)
}

/// Reads expressions and the closing parenthesis, after the opening one.
#[cycle(parser)]
#[inline(never)]
fn read_inside<'a>(alloc: Global, text: &'a str) -> Result<(Vec<CfgExpr>, &'a str), ReadError>
    ensures read { IfOk result (λ x. Inside (exprs_of x.0.items) text.now x.1.now) }
    ensures only { (es : Exprs) (r : Text) → Inside es text.now r → Gives (λ v. exprs_of v.items) result es r }
    ensures place { IsPlaced text.now result }
    ensures shorter { IfOk result (λ x. length x.1.now < length text.now) }
{
    let mut expressions = Vec::new(alloc);
    let mut rest = text;
    loop {
        if let Some(end) = after(rest, ')') {
            return Ok((expressions, end));
        }
        let (expression, behind) = read_expression(alloc, rest)?;
        expressions.push(expression)?;
        let Some(next) = after(behind, ',') else {
            return close_list(expressions, behind);
        };
        rest = next;
    }
}

/// Reads the closing parenthesis after the last expression, which no comma follows.
#[inline(never)]
fn close_list<'a>(
    expressions: Vec<CfgExpr>,
    text: &'a str,
) -> Result<(Vec<CfgExpr>, &'a str), ReadError>
    requires { (t : Text) → Sign 44 text.now t → ⊥ }
    ensures read { IfOk result (λ x. (exprs_of x.0.items ≡ exprs_of expressions.items) × Sign 41 text.now x.1.now) }
    ensures only { (r : Text) → Sign 41 text.now r
        → Gives (λ v. exprs_of v.items) result (exprs_of expressions.items) r }
    ensures place { IsPlaced text.now result }
    ensures shorter { IfOk result (λ x. length x.1.now < length text.now) }
{
    match after(text, ')') {
        Some(rest) => Ok((expressions, rest)),
        None => Err(expect(text, Expected::CommaOrCloseParenthesis)),
    }
}

/// Reads the rest of what `rustc` may set, after its name or its key.
#[inline(never)]
fn read_setting<'a>(
    alloc: Global,
    word: &str,
    text: &'a str,
) -> Result<(CfgExpr, &'a str), ReadError>
    requires { IsKey word.now }
    ensures read { IfOk result (λ x. GoesOn (expr_of x.0) word.now text.now x.1.now) }
    ensures only { (e : Expr) (r : Text) → GoesOn e word.now text.now r → Gives expr_of result e r }
    ensures place { IsPlaced text.now result }
    ensures shorter { IfOk result (λ x. length x.1.now ≤ length text.now) }
{
    let Some(behind) = after(text, '=') else {
        return Ok((name_of(alloc, word)?, text));
    };
    let Some((value, rest)) = read_quoted(behind) else {
        return Err(expect(behind, Expected::Value));
    };
    let key = String::from_str(alloc, word)?;
    let value = String::from_str(alloc, value)?;
    Ok((CfgExpr::Value(Cfg::KeyValue(key, value)), rest))
}

/// Makes an expression of a name.
fn name_of(alloc: Global, word: &str) -> Result<CfgExpr, AllocError>
    requires { IsKey word.now }
    ensures { IfOk result (λ e. IsNamed word.now (expr_of e)) }
{
    match word {
        "true" => Ok(CfgExpr::Literal(true)),
        "false" => Ok(CfgExpr::Literal(false)),
        _ => Ok(CfgExpr::Value(Cfg::Name(String::from_str(alloc, word)?))),
    }
}
