//! Blocks of numbers of characters, for texts that are not of ASCII.

ghost use Rattle.std.specs.Prelude.{◌≡◌, ℕ, ◌+◌, ◌*◌, ◌<◌, ◌↔◌, length, slice_index};
ghost use Rattle.std.specs.Int.{bit_at};
ghost use Rattle.filterset_glob.specs.{Matching.Admits, Tokens.token_of};

use crate::lanes;
use crate::lanes::Block;
use crate::token::GlobToken;
use std::simd::prelude::*;

/// The numbers of 64 characters.
type Numbers = Simd<u32, 64>;

impl Block for Numbers {
    ghost lanes = { λ block. block };

    #[inline(always)]
    fn find_equal(self, number: u32) -> u64 {
        self.simd_eq(Numbers::splat(number)).to_bitmask()
    }

    #[inline(always)]
    fn find_at_least(self, number: u32) -> u64 {
        self.simd_ge(Numbers::splat(number)).to_bitmask()
    }

    #[inline(always)]
    fn find_at_most(self, number: u32) -> u64 {
        self.simd_le(Numbers::splat(number)).to_bitmask()
    }
}

/// Finds the characters of this block that the token admits. Bits after the text may be anything.
#[inline(never)]
pub(crate) fn find_admitted(numbers: &[u32], block: usize, token: &GlobToken) -> u64
    ensures { (k : ℕ) → k < 64 → 64 * block + k < length numbers.now
        → (bit_at result k ≡ 1) ↔ Admits (token_of token.now) (slice_index numbers.now (64 * block + k)) }
{
    if block > numbers.len() / 64 {
        return 0;
    }
    lanes::find_admitted(load(&numbers[64 * block..]), token)
}

/// Finds the first 64 numbers that are equal to this one. Bits after the numbers may be anything.
#[inline(never)]
pub(crate) fn find_number(numbers: &[u32], number: u32) -> u64
    ensures { (k : ℕ) → k < 64 → k < length numbers.now → (bit_at result k ≡ 1) ↔ (slice_index numbers.now k ≡ number) }
{
    load(numbers).find_equal(number)
}

/// Returns the first 64 numbers. If there are fewer, the numbers after them may be anything.
#[inline(always)]
fn load(numbers: &[u32]) -> Numbers
    ensures { (k : ℕ) → k < 64 → k < length numbers.now → slice_index result k ≡ slice_index numbers.now k }
{
    let count = numbers.len();
    if count >= 64 {
        return Numbers::from_slice(numbers);
    }
    let mut block = [u32::MAX; 64];
    block[..count].copy_from_slice(numbers);
    Numbers::from_array(block)
}
