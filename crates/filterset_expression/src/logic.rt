//! Connectives, and logics of two truth values or of three.
ghost use Rattle.std.specs.Prelude.{◌≡◌, true, false, not, Some};
ghost use Rattle.filterset_expression.specs.Connectives.{Conjunction, Disjunction, ExclusiveDisjunction, connected, kleene, kleene_not};
ghost use Rattle.filterset_expression.specs.Logics.{IsLogic, IsExclusiveOr};
ghost use Rattle.filterset_expression.specs.LogicLaws.{bool_is_logic, kleene_is_logic, bool_has_exclusive_or, kleene_has_exclusive_or};
ghost use Rattle.filterset_expression.specs.declared.logic.Connective.{Connective};

/// A binary operator on sets of tests or on truth values.
#[derive(Clone, Copy, Debug, PartialEq, Eq)]
pub enum Connective {
    /// Both.
    Conjunction,
    /// One, or both.
    Disjunction,
    /// Exactly one.
    ExclusiveDisjunction,
}

/// A type of truth values.
///
/// All three connectives are commutative and associative. True is the unit of `logic_and`, false that of `logic_or` and
/// of `logic_xor`. `logic_not` is its own inverse, De Morgan's laws hold, and `logic_xor` with true is `logic_not`.
pub trait Logic: Copy {
    ghost top_value: { Self };

    ghost bottom_value: { Self };

    /// The value of each connective.
    ghost connect: { Connective → Self → Self → Self };

    ghost not_of: { Self → Self };

    /// Returns true.
    fn top() -> Self
        ensures { result ≡ top_value };

    /// Returns false.
    fn bottom() -> Self
        ensures { result ≡ bottom_value };

    /// Returns whether both are true.
    fn logic_and(self, other: Self) -> Self
        ensures { result ≡ connect Conjunction self other };

    /// Returns whether at least one is true.
    fn logic_or(self, other: Self) -> Self
        ensures { result ≡ connect Disjunction self other };

    /// Returns whether the value is false.
    fn logic_not(self) -> Self
        ensures { result ≡ not_of self };

    /// Returns whether exactly one is true.
    fn logic_xor(self, other: Self) -> Self
        ensures { result ≡ connect ExclusiveDisjunction self other };

    ghost laws: { IsLogic top_value bottom_value connect not_of };

    ghost xor_laws: { IsExclusiveOr top_value bottom_value connect not_of };
}

/// Applies the connective to two values.
pub(crate) fn connect<L: Logic>(connective: Connective, left: L, right: L) -> L
    ensures { result ≡ L.connect connective left right }
{
    match connective {
        Connective::Conjunction => left.logic_and(right),
        Connective::Disjunction => left.logic_or(right),
        Connective::ExclusiveDisjunction => left.logic_xor(right),
    }
}

impl Logic for bool {
    ghost top_value = { true };

    ghost bottom_value = { false };

    ghost connect = { connected };

    ghost not_of = { not };

    ghost laws = { bool_is_logic };

    ghost xor_laws = { bool_has_exclusive_or };

    fn top() -> bool {
        true
    }

    fn bottom() -> bool {
        false
    }

    fn logic_and(self, other: bool) -> bool {
        self && other
    }

    fn logic_or(self, other: bool) -> bool {
        self || other
    }

    fn logic_not(self) -> bool {
        !self
    }

    fn logic_xor(self, other: bool) -> bool {
        self ^ other
    }
}

/// `None` is unknown. A result is known if the known operand alone decides it; for `logic_xor` it never does.
impl Logic for Option<bool> {
    ghost top_value = { Some true };

    ghost bottom_value = { Some false };

    ghost connect = { kleene };

    ghost not_of = { kleene_not };

    ghost laws = { kleene_is_logic };

    ghost xor_laws = { kleene_has_exclusive_or };

    fn top() -> Option<bool> {
        Some(true)
    }

    fn bottom() -> Option<bool> {
        Some(false)
    }

    fn logic_and(self, other: Option<bool>) -> Option<bool> {
        match (self, other) {
            (Some(false), _) | (_, Some(false)) => Some(false),
            (Some(true), Some(true)) => Some(true),
            _ => None,
        }
    }

    fn logic_or(self, other: Option<bool>) -> Option<bool> {
        match (self, other) {
            (Some(true), _) | (_, Some(true)) => Some(true),
            (Some(false), Some(false)) => Some(false),
            _ => None,
        }
    }

    fn logic_not(self) -> Option<bool> {
        self.map(|value| !value)
    }

    fn logic_xor(self, other: Option<bool>) -> Option<bool> {
        match (self, other) {
            (Some(left), Some(right)) => Some(left ^ right),
            _ => None,
        }
    }
}
