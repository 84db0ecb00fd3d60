//! Finds operators where an operand belongs.
ghost use Rattle.std.specs.Prelude.{◌≡◌, ℕ, List, IfSome, None};
ghost use Rattle.filterset_language.specs.Parsing.Position.{Position, position_of, IsBehind};
ghost use Rattle.filterset_language.specs.Parsing.Recovery.{IsMisplaced};

use crate::parsing::input::Input;

/// Finds an operator of two operands here, in one of its spellings or as other languages write it. Returns it, the one to
/// suggest instead, and the position after it.
pub fn find_misplaced(input: Input<'_>) -> Option<(&'static str, &'static str, Input<'_>)>
    ensures value { IfSome result (λ x. IsMisplaced (position_of input.entry) x.0.now x.1.now (position_of x.2)) }
    ensures none { result ≡ None → (op suggest : List ℕ) (q : Position)
        → IsMisplaced (position_of input.entry) op suggest q → ⊥ }
    ensures behind { IfSome result (λ x. IsBehind input.entry x.2) }
{
    if let Some(end) = input.after_word("and") {
        return Some(("and", "and", end));
    }
    if let Some(end) = input.after_word("or") {
        return Some(("or", "or", end));
    }
    if let Some(end) = input.after_word("AND") {
        return Some(("AND", "and", end));
    }
    if let Some(end) = input.after_word("OR") {
        return Some(("OR", "or", end));
    }
    if let Some(end) = input.after("&&") {
        return Some(("&&", "&", end));
    }
    let end = input.after("||")?;
    Some(("||", "|", end))
}
