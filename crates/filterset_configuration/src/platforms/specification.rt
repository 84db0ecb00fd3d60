//! Platforms of a configuration: a triple, or an expression.
ghost use Rattle.std.specs.Prelude.{◌≡◌, ◌≢◌, ◌<◌, ◌≤◌, ◌++◌, ℕ, codes, length, slice_index, false, Some, IfErr, IfOk, IfSome, IsSome, IsTrue};
ghost use Rattle.filterset_configuration.specs.PlatformGrammar.{IsWhole, Spells, is_triple_byte};
ghost use Rattle.filterset_configuration.specs.PlatformReading.{FaultStands, IsTrueOf, Returns};
ghost use Rattle.filterset_configuration.specs.PlatformTrees.{Expr, Facts, Spec, expr_of, facts_of, spec_of};
ghost use Rattle.filterset_json.specs.Shape.{Text};
ghost use Rattle.filterset_configuration.specs.PlatformValues.{Extends, IsKnown, spec_value};

use crate::platforms::evaluating::value_of;
use crate::platforms::expressions::CfgExpr;
use crate::platforms::facts::PlatformFacts;
use crate::platforms::fault::{Expected, PlatformFault, PlatformRefusal, ReadError};
use crate::platforms::parsing::words::{after, is_word_byte};
use crate::platforms::parsing::{expect, read_expression};
use std::alloc::{AllocError, Global};

/// What a configuration asks of a platform.
#[derive(Debug)]
pub enum PlatformSpec {
    /// The triple is this one.
    Triple(String),
    /// The expression of `cfg(..)` is true.
    Cfg(CfgExpr),
}

// Implemented by hand: a derived `Drop` is proved again in each function that drops a platform.
impl Drop for PlatformSpec {
    fn drop(self) {
        match self {
            PlatformSpec::Triple(_triple) => {}
            PlatformSpec::Cfg(_expression) => {}
        }
    }
}

impl PlatformSpec {
    /// Parses a platform. `cfg(` begins an expression, and any other text is a triple.
    ///
    /// The fault of a text that is none is the first one.
    pub fn parse(alloc: Global, text: &str) -> Result<PlatformSpec, PlatformRefusal>
        ensures read { IfOk result (λ spec. Spells text.now (spec_of spec)) }
        ensures only { (spec : Spec) → Spells text.now spec → IfOk result (λ x. spec_of x ≡ spec) }
        ensures fault { IfErr result (FaultStands text.now) }
    {
        match read_platform(alloc, text) {
            Ok(spec) => Ok(spec),
            Err(ReadError::OutOfMemory) => Err(PlatformRefusal::OutOfMemory(AllocError)),
            Err(ReadError::Fault { left, expected }) => Err(PlatformRefusal::Fault(
                PlatformFault {
                    offset: text.len().saturating_sub(left),
                    expected,
                },
            )),
        }
    }

    /// Returns whether a platform of which these facts are known is what is asked for, or `None` if they do not decide
    /// it.
    pub fn applies(&self, facts: &PlatformFacts) -> Option<bool>
        ensures value { result ≡ spec_value (facts_of facts.now) (spec_of self.now) }
        ensures sound { IfSome result (λ b. (world : Facts)
            → Extends (facts_of facts.now) world → spec_value world (spec_of self.now) ≡ Some b) }
        ensures known { IsKnown (facts_of facts.now) → IsSome result }
    {
        match self {
            PlatformSpec::Triple(triple) => {
                let known = facts.triple.as_ref();
                known.map(|known| known.as_str() == triple.as_str())
            }
            PlatformSpec::Cfg(expression) => value_of(expression, facts),
        }
    }
}

/// Reads a platform.
fn read_platform(alloc: Global, text: &str) -> Result<PlatformSpec, ReadError>
    ensures read { IfOk result (λ spec. Spells text.now (spec_of spec)) }
    ensures only { (spec : Spec) → Spells text.now spec → Returns spec_of result spec }
    ensures place { IfErr result (IsTrueOf text.now) }
{
    match text.strip_prefix("cfg(") {
        Some(inside) => Ok(PlatformSpec::Cfg(read_whole(alloc, inside)?)),
        None => read_triple(alloc, text),
    }
}

/// Reads an expression and the closing parenthesis, up to the end of the text.
fn read_whole(alloc: Global, text: &str) -> Result<CfgExpr, ReadError>
    ensures read { IfOk result (λ e. IsWhole (expr_of e) text.now) }
    ensures only { (e : Expr) → IsWhole e text.now → Returns expr_of result e }
    ensures place { IfErr result (IsTrueOf text.now) }
{
    let (expression, behind) = read_expression(alloc, text)?;
    let Some(rest) = after(behind, ')') else {
        return Err(expect(behind, Expected::CloseParenthesis));
    };
    if rest.is_empty() {
        return Ok(expression);
    }
    Err(ReadError::Fault {
        left: rest.len(),
        expected: Expected::End,
    })
}

/// Reads a triple.
fn read_triple(alloc: Global, text: &str) -> Result<PlatformSpec, ReadError>
    requires { (s : Text) → text.now ≢ codes "cfg(" ++ s }
    ensures read { IfOk result (λ spec. Spells text.now (spec_of spec)) }
    ensures only { (spec : Spec) → Spells text.now spec → Returns spec_of result spec }
    ensures place { IfErr result (IsTrueOf text.now) }
{
    let count = triple_len(text.as_bytes());
    if count < text.len() {
        return Err(ReadError::Fault {
            left: text.len() - count,
            expected: Expected::TripleCharacter,
        });
    }
    Ok(PlatformSpec::Triple(String::from_str(alloc, text)?))
}

/// Returns the number of bytes before the first that is in no triple.
fn triple_len(text: &[u8]) -> usize
    ensures within { result ≤ length text.now }
    ensures before { (k : ℕ) → k < result → IsTrue (is_triple_byte (slice_index text.now k)) }
    ensures stop { result < length text.now → is_triple_byte (slice_index text.now result) ≡ false }
{
    for (i, b) in text.iter().enumerate() {
        if !is_triple_byte(*b) {
            return i;
        }
    }
    text.len()
}

/// Returns whether a byte may be in a triple.
fn is_triple_byte(b: u8) -> bool
    ensures { result ≡ is_triple_byte b }
{
    is_word_byte(b) || b == b'-' || b == b'.'
}
