//! Answers as bits of words.
ghost use Rattle.std.specs.Prelude.{◌≡◌, ◌≤◌, ◌<◌, ◌*◌, ◌/◌, ◌+◌, ◌==◌, ◌&&◌, ◌||◌, ℕ, Bool, false, not, IfOk, length, vec_len};
ghost use Rattle.std.specs.Int.{bit_at};
ghost use Rattle.filterset_record.specs.Bits.{bit_of};
ghost use Rattle.filterset_expression.specs.Connectives.{connected};

use filterset_expression::Connective;
use std::alloc::{AllocError, Global};

/// Answers, 64 to a word.
#[derive(Debug, Drop)]
pub(crate) struct Bits {
    pub(crate) words: Vec<u64>,
}

impl Bits {
    /// Returns `false` for so many positions, and for those that fill the last word. The only error is out of memory.
    pub(crate) fn with_len(alloc: Global, len: usize) -> Result<Bits, AllocError>
        ensures room { IfOk result (λ bits. vec_len bits.words ≡ len / 64 + 1) }
        ensures empty { IfOk result (λ bits. (i : ℕ) → bit_of bits.words.items i ≡ false) }
    {
        Ok(Bits {
            words: vec![in alloc; 0u64; len / 64 + 1]?,
        })
    }

    /// Copies the answers. The only error is out of memory.
    pub(crate) fn try_clone(&self) -> Result<Bits, AllocError>
        ensures { IfOk result (λ copy. copy.words.items ≡ self.now.words.items) }
    {
        Ok(Bits {
            words: self.words.clone()?,
        })
    }

    /// Returns the answer at a position.
    pub(crate) fn get(&self, position: usize) -> bool
        requires { position < 64 * vec_len self.now.words }
        ensures { result ≡ bit_of self.now.words.items position }
    {
        (self.words[position / 64] >> (position % 64)) & 1 == 1
    }

    /// Returns a position after this one and no later than `len`, such that the answers from this one on and before it are
    /// the same: the first of the same word with another answer, or where the word ends.
    pub(crate) fn run_end(&self, position: usize, len: usize) -> usize
        requires some { position < len }
        requires room { position < 64 * vec_len self.now.words }
        ensures later { position < result }
        ensures within { result ≤ len }
        ensures same { (i : ℕ) → position ≤ i → i < result
            → bit_of self.now.words.items i ≡ bit_of self.now.words.items position }
    {
        let place = position % 64;
        let run = run_len(self.words[position / 64] >> place);
        position + run.min(64 - place).min(len - position)
    }

    /// Makes the answer at a position `true` if `answer` is.
    pub(crate) fn put(&mut self, position: usize, answer: bool)
        requires { position < 64 * vec_len self.old.words }
        ensures room { vec_len self.new.words ≡ vec_len self.old.words }
        ensures put { (i : ℕ) → bit_of self.new.words.items i
            ≡ ((i == position) && answer || bit_of self.old.words.items i) }
    {
        if answer {
            self.words[position / 64] |= 1u64 << (position % 64);
        }
    }

    /// Negates each answer.
    pub(crate) fn negate(&mut self)
        ensures room { vec_len self.new.words ≡ vec_len self.old.words }
        ensures negated { (i : ℕ) → i < 64 * vec_len self.old.words
            → bit_of self.new.words.items i ≡ not (bit_of self.old.words.items i) }
    {
        for word in self.words.iter_mut() {
            *word = negate_word(*word);
        }
    }

    /// Applies the connective to the answers at each position.
    pub(crate) fn combine(&mut self, connective: Connective, other: &Bits)
        requires { vec_len self.old.words ≡ vec_len other.now.words }
        ensures room { vec_len self.new.words ≡ vec_len self.old.words }
        ensures combined { (i : ℕ) → bit_of self.new.words.items i
            ≡ connected connective (bit_of self.old.words.items i) (bit_of other.now.words.items i) }
    {
        for (place, word) in self.words.iter_mut().enumerate() {
            *word = combine_words(connective, *word, other.words[place]);
        }
    }
}

/// Returns how many of the lowest bits of a word are the same.
fn run_len(word: u64) -> usize
    ensures some { 0 < result }
    ensures same { (i : ℕ) → i < result → (bit_at word i == 1) ≡ (bit_at word 0 == 1) }
{
    if word & 1 == 1 {
        word.trailing_ones() as usize
    } else {
        word.trailing_zeros() as usize
    }
}

/// Applies the connective to the bits of two words.
fn combine_words(connective: Connective, left: u64, right: u64) -> u64
    ensures { (i : ℕ) → bit_at result i == 1 ≡ connected connective (bit_at left i == 1) (bit_at right i == 1) }
{
    match connective {
        Connective::Conjunction => left & right,
        Connective::Disjunction => left | right,
        Connective::ExclusiveDisjunction => left ^ right,
    }
}

/// Negates the bits of a word.
fn negate_word(word: u64) -> u64
    ensures { (i : ℕ) → i < 64 → bit_at result i == 1 ≡ not (bit_at word i == 1) }
{
    !word
}
