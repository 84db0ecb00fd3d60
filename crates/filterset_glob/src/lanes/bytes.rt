//! Blocks of bytes, for texts of ASCII. Each byte is the number of its character.

ghost use Rattle.std.specs.Prelude.{◌≡◌, ℕ, ◌+◌, ◌*◌, ◌<◌, length, slice_index};

use crate::lanes::Block;
use std::simd::prelude::*;

impl Block for u8x64 {
    ghost lanes = { λ block. block };

    #[inline(always)]
    fn find_equal(self, number: u32) -> u64 {
        if number > 255 {
            return 0;
        }
        self.simd_eq(u8x64::splat(number as u8)).to_bitmask()
    }

    #[inline(always)]
    fn find_at_least(self, number: u32) -> u64 {
        if number > 255 {
            return 0;
        }
        self.simd_ge(u8x64::splat(number as u8)).to_bitmask()
    }

    #[inline(always)]
    fn find_at_most(self, number: u32) -> u64 {
        if number > 255 {
            return u64::MAX;
        }
        self.simd_le(u8x64::splat(number as u8)).to_bitmask()
    }
}

/// Returns the first 64 bytes. If there are fewer, the bytes after them may be anything.
#[inline(always)]
pub(crate) fn load_first(bytes: &[u8]) -> u8x64
    ensures { (k : ℕ) → k < 64 → k < length bytes.now → slice_index result k ≡ slice_index bytes.now k }
{
    let count = bytes.len();
    if count >= 64 {
        return u8x64::from_slice(bytes);
    }
    let mut block = [u8::MAX; 64];
    block[..count].copy_from_slice(bytes);
    u8x64::from_array(block)
}

/// Returns the 64 bytes of this block. If there are fewer, the bytes after them may be anything.
#[inline(always)]
pub(crate) fn load(bytes: &[u8], block: usize) -> u8x64
    ensures { (k : ℕ) → k < 64 → 64 * block + k < length bytes.now
        → slice_index result k ≡ slice_index bytes.now (64 * block + k) }
{
    if block < bytes.len() / 64 {
        u8x64::from_slice(&bytes[64 * block..])
    } else {
        load_last(bytes, block)
    }
}

/// Returns the bytes of a block that is not whole, and others after them.
#[inline(never)]
fn load_last(bytes: &[u8], block: usize) -> u8x64
    ensures { (k : ℕ) → k < 64 → 64 * block + k < length bytes.now
        → slice_index result k ≡ slice_index bytes.now (64 * block + k) }
{
    if block > bytes.len() / 64 {
        return u8x64::splat(0);
    }
    load_first(&bytes[64 * block..])
}
