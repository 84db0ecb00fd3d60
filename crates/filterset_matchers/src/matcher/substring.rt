//! A search for a substring. For texts of up to 60 bytes it is faster than `str::contains`.
ghost use Rattle.std.specs.Prelude.{◌≡◌, ◌↔◌, ◌+◌, ◌-◌, ◌<◌, ◌≤◌, ℕ, IsTrue, length, slice_index};
ghost use Rattle.std.specs.{Int.bit_at, Str.Iter.HasSubslice};
ghost use Rattle.filterset_matchers.specs.Substring.{StandsAt};

use std::simd::prelude::*;

/// Returns whether the text contains the needle.
pub(super) fn contains(text: &str, needle: &str) -> bool
    ensures { IsTrue result ↔ HasSubslice text.now needle.now }
{
    let text = text.as_bytes();
    let needle = needle.as_bytes();
    if needle.is_empty() {
        return true;
    }
    if text.len() < needle.len() {
        return false;
    }
    let positions = text.len() - needle.len() + 1;
    let ends = (needle[0], needle[needle.len() - 1]);
    let mut from = 0;
    while from < positions {
        let to = positions.min(from + 16);
        let (first, end) = narrow(text, needle, ends, from, to);
        if first < end && occurs_between(text, needle, first, end) {
            return true;
        }
        from = to;
    }
    false
}

/// Returns whether the needle occurs at a position from `from` on and before `to`.
#[inline(never)]
fn occurs_between(text: &[u8], needle: &[u8], from: usize, to: usize) -> bool
    requires some { 0 < length needle.now }
    requires within { to + length needle.now ≤ length text.now + 1 }
    ensures { IsTrue result ↔ ((k : ℕ) × (from ≤ k) × (k < to) × StandsAt text.now needle.now k) }
{
    for position in from..to {
        if occurs_at(text, needle, position) {
            return true;
        }
    }
    false
}

/// Returns whether the needle occurs at this position.
#[inline(always)]
fn occurs_at(text: &[u8], needle: &[u8], position: usize) -> bool
    requires some { 0 < length needle.now }
    requires within { position + length needle.now ≤ length text.now }
    ensures { IsTrue result ↔ StandsAt text.now needle.now position }
{
    text[position] == needle[0] && &text[position..position + needle.len()] == needle
}

/// Narrows the up to 16 positions from `from` to `to` to those between the first and the last at which the needle may
/// occur: the text there has the needle's first and last byte, `ends`. If `to` is below 16, it returns all of them.
///
/// The caller reads `ends` before its loop: the compiler does not move a read out of a loop if some iterations skip it.
#[inline(always)]
fn narrow(text: &[u8], needle: &[u8], ends: (u8, u8), from: usize, to: usize) -> (usize, usize)
    requires some { 0 < length needle.now }
    requires within { to + length needle.now ≤ length text.now + 1 }
    requires ends { (ends.0 ≡ slice_index needle.now 0) × (ends.1 ≡ slice_index needle.now (length needle.now - 1)) }
    ensures end { result.1 ≤ to }
    ensures each { (k : ℕ) → from ≤ k → k < to → to ≤ k + 16 → StandsAt text.now needle.now k
        → (result.0 ≤ k) × (k < result.1) }
{
    if to < 16 {
        return (from, to);
    }
    let start = to - 16;
    let begun = find_equal(&text[start..], ends.0);
    let ended = find_equal(&text[start + (needle.len() - 1)..], ends.1);
    let both = begun & ended;
    if both == 0 {
        return (to, to);
    }
    let first = start + both.trailing_zeros() as usize;
    let end = start + (64 - both.leading_zeros()) as usize;
    (first, end.min(to))
}

/// Finds the bytes among the first 16 that are equal to this one, the lowest bit for the first.
#[inline(always)]
fn find_equal(bytes: &[u8], byte: u8) -> u64
    requires { 16 ≤ length bytes.now }
    ensures { (k : ℕ) → k < 16 → (bit_at result k ≡ 1) ↔ (slice_index bytes.now k ≡ byte) }
{
    u8x16::from_slice(bytes)
        .simd_eq(u8x16::splat(byte))
        .to_bitmask()
}
