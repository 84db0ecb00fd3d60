//! The stacks of truth values that steps run on: up to 64 values as bits of two words, more in a `Vec`.
ghost use Rattle.std.specs.Prelude.{◌≡◌, ◌≤◌, ◌<◌, ◌^◌, ◌∷◌, [], Bool, List, ℕ, IfOk, length, reverse, vec_capacity};
ghost use Rattle.filterset_expression.specs.Stacks.{values_of, truth_of, known_truth_of};

use crate::Logic;
use std::alloc::{AllocError, Global};

/// A stack of values with limited room.
pub(super) trait Stack<L> {
    /// The values, the top first.
    ghost values: { Self → List L };

    /// How many values it has room for.
    ghost room: { Self → ℕ };

    /// Pushes a value.
    fn push(&mut self, value: L)
        requires { length (values self.old) < room self.old }
        ensures values { values self.new ≡ value ∷ values self.old }
        ensures room { room self.old ≤ room self.new };

    /// Pops the top value.
    fn pop(&mut self) -> L
        requires { 0 < length (values self.old) }
        ensures values { values self.old ≡ result ∷ values self.new }
        ensures room { room self.old ≤ room self.new };
}

/// A stack whose room is reserved when it is made.
#[derive(Drop)]
pub(super) struct Reserved<L> {
    values: Vec<L>,
}

impl<L> Reserved<L> {
    /// Returns an empty stack with room for this many values. The only error is out of memory.
    pub(super) fn with_room(alloc: Global, room: usize) -> Result<Reserved<L>, AllocError>
        ensures empty { IfOk result (λ made. reverse made.values.items ≡ []) }
        ensures room { IfOk result (λ made. room ≤ vec_capacity made.values) }
    {
        Ok(Reserved {
            values: Vec::with_capacity(alloc, room)?,
        })
    }
}

impl<L: Copy> Stack<L> for Reserved<L> {
    ghost values = { λ s. reverse s.values.items };

    ghost room = { λ s. vec_capacity s.values };

    fn push(&mut self, value: L) {
        self.values.push_reserved(value);
    }

    fn pop(&mut self) -> L {
        match self.values.pop() {
            Some(value) => value,
            None => unreachable!(),
        }
    }
}

/// A logic whose values are pairs of bits.
pub(super) trait TwoBits: Logic {
    /// The value of two bits.
    ghost of_bits: { Bool → Bool → Self };

    /// Returns the value of two bits.
    fn from_bits(first: bool, second: bool) -> Self
        ensures { result ≡ of_bits first second };

    /// Returns the bits of the value.
    fn bits(self) -> (bool, bool)
        ensures { of_bits result.0 result.1 ≡ self };
}

/// The first bit is the value.
impl TwoBits for bool {
    ghost of_bits = { truth_of };

    fn from_bits(truth: bool, _unused: bool) -> bool {
        truth
    }

    fn bits(self) -> (bool, bool) {
        (self, false)
    }
}

/// The first bit is the value, and the second is whether it is known.
impl TwoBits for Option<bool> {
    ghost of_bits = { known_truth_of };

    fn from_bits(truth: bool, known: bool) -> Option<bool> {
        known.then_some(truth)
    }

    fn bits(self) -> (bool, bool) {
        (self.unwrap_or(false), self.is_some())
    }
}

/// A stack of up to 64 values in two words. The bits of both words at one position are a value, the top at the lowest
/// position; a push is a shift.
#[derive(Clone, Copy)]
pub(super) struct Words {
    height: u32,
    first: u64,
    second: u64,
    ghost within: { height ≤ 64 },
    ghost first_within: { first < 2 ^ height },
    ghost second_within: { second < 2 ^ height },
}

impl Words {
    /// Returns an empty stack.
    pub(super) fn new() -> Words
        ensures { result.height ≡ 0 }
    {
        Words {
            height: 0,
            first: 0,
            second: 0,
        }
    }
}

impl<L: TwoBits> Stack<L> for Words {
    ghost values = { λ s. values_of L.of_bits s.height s.first s.second };

    ghost room = { λ s. 64 };

    fn push(&mut self, value: L) {
        let (first, second) = value.bits();
        *self = Words {
            height: self.height + 1,
            first: self.first * 2 + u64::from(first),
            second: self.second * 2 + u64::from(second),
        };
    }

    fn pop(&mut self) -> L {
        let value = L::from_bits(self.first % 2 == 1, self.second % 2 == 1);
        *self = Words {
            height: self.height - 1,
            first: self.first / 2,
            second: self.second / 2,
        };
        value
    }
}
