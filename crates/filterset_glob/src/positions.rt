//! Sets of positions in a text, with one bit for each position.

ghost use Rattle.std.specs.Prelude.{◌≡◌, ℕ, ◌+◌, ◌-◌, ◌*◌, ◌/◌, ◌^◌, ◌<◌, ◌≤◌, ◌↔◌, ◌⊎◌, ◌∷◌, false, true, List, [], Bool, length, take, replicate, IfNone, IfOk, IfSome, IsOk, IsTrue};
ghost use Rattle.filterset_glob.specs.Positions.{Holds, Moves};
ghost use Rattle.filterset_glob.specs.Matching.{Matches, MatchesToken, TakesOne};
ghost use Rattle.filterset_glob.specs.{Tokens.deep_first, Tokens.star, Tokens.token_of, Tokens.tokens_of, Words.positions_of};

use crate::steps::Steps;
use crate::text::Text;
use crate::token::GlobToken;
use crate::{word, words};
use std::alloc::{AllocError, Global};
use std::marker::Model;
use std::mem;

/// The positions of a text that the matcher has reached. Every method that reads or writes all positions counts a step for
/// each.
#[derive(Drop)]
pub(crate) struct Positions {
    /// The number of positions of the text.
    count: usize,
    /// The first 64 positions, the lowest bit for the first. Bits after the last position may be anything.
    first: u64,
    /// The other positions, 64 in each word.
    later: Vec<u64>,
}

impl Model for Positions {
    ghost Value = { List Bool };

    ghost view = { λ p. positions_of p.count (p.first ∷ p.later.items) };

    ghost invariant = { λ p. length p.later.items ≡ (p.count - 1) / 64 };
}

/// The positions before a group, where every branch starts, and those after the branches that were passed.
#[derive(Drop)]
pub(crate) struct GroupPositions {
    pub(crate) before: Positions,
    pub(crate) after: Positions,
}

impl Positions {
    /// Returns the set of the first position, for a text of `last` characters.
    pub(crate) fn start(alloc: Global, last: usize) -> Result<Positions, AllocError>
        requires { last + 1 < 2 ^ 64 }
        ensures start { IfOk result (λ positions. positions ≡ true ∷ replicate last false) }
        ensures no_memory { last < 64 → IsOk result }
    {
        Ok(Positions {
            count: last + 1,
            first: 1,
            later: words::make_empty(alloc, last / 64)?,
        })
    }

    /// Keeps the positions as those before a group, with none after it. The matcher has a frame on the stack for each group
    /// around a token: to keep it small, the sets are boxed, and what moves them is not inlined.
    #[cold]
    #[inline(never)]
    pub(crate) fn keep(
        &self,
        alloc: Global,
        steps: &mut Steps,
    ) -> Result<Box<GroupPositions>, AllocError>
        ensures before { IfOk result (λ kept. kept.value.before ≡ self.now) }
        ensures after { IfOk result (λ kept. kept.value.after ≡ replicate (length self.now) false) }
        ensures steps { steps.new.count ≡ steps.old.count + length self.now }
    {
        self.count_all(steps); // each position is copied
        let before = Positions {
            count: self.count,
            first: self.first,
            later: self.later.to_vec(alloc)?,
        };
        let after = Positions {
            count: self.count,
            first: 0,
            later: words::make_empty(alloc, self.later.len())?,
        };
        Ok(Box::new(alloc, GroupPositions { before, after })?)
    }

    /// Sets the positions to those of another set for the same text.
    #[inline(never)]
    pub(crate) fn set(&mut self, other: &Positions, steps: &mut Steps)
        requires { length self.old ≡ length other.now }
        ensures same { self.new ≡ other.now }
        ensures steps { steps.new.count ≡ steps.old.count + length self.old }
    {
        self.count_all(steps); // each position is written
        self.first = other.first;
        self.later.copy_from_slice(&other.later);
    }

    /// Swaps the positions with those of another set.
    #[inline(never)]
    pub(crate) fn swap(&mut self, other: &mut Positions)
        ensures { self.new ≡ other.old }
    {
        mem::swap(self, other);
    }

    /// Returns the set as one word, if its text has at most 63 characters.
    #[inline(always)]
    pub(crate) fn word(&self) -> Option<u64>
        ensures short { IfSome result (λ _. length self.now ≤ 64) }
        ensures word { IfSome result (λ word. self.now ≡ positions_of (length self.now) (word ∷ [])) }
        ensures long { IfNone result (64 < length self.now) }
    {
        if self.later.is_empty() {
            Some(self.first)
        } else {
            None
        }
    }

    /// Sets the positions to the bits of this word.
    #[inline(always)]
    pub(crate) fn set_word(&mut self, word: u64, steps: &mut Steps)
        requires { length self.old ≤ 64 }
        ensures length { length self.new ≡ length self.old }
        ensures word { self.new ≡ positions_of (length self.old) (word ∷ []) }
        ensures steps { steps.new.count ≡ steps.old.count + length self.old }
    {
        self.count_all(steps); // each position is written
        self.first = word;
    }

    /// Returns the union of this word and the set.
    #[inline(always)]
    pub(crate) fn unite_word(&self, word: u64, steps: &mut Steps) -> u64
        requires { length self.now ≤ 64 }
        ensures joined { (i : ℕ) → Holds (positions_of (length self.now) (result ∷ [])) i
            ↔ (Holds (positions_of (length self.now) (word ∷ [])) i ⊎ Holds self.now i) }
        ensures steps { steps.new.count ≡ steps.old.count + length self.now }
    {
        self.count_all(steps); // each position is joined
        word::unite(word, self.first)
    }

    /// Adds the positions of another set for the same text.
    #[inline(never)]
    pub(crate) fn join(&mut self, other: &Positions, steps: &mut Steps)
        requires { length self.old ≡ length other.now }
        ensures length { length self.new ≡ length self.old }
        ensures joined { (i : ℕ) → Holds self.new i ↔ (Holds self.old i ⊎ Holds other.now i) }
        ensures steps { steps.new.count ≡ steps.old.count + length self.old }
    {
        self.count_all(steps); // each position is joined
        self.first = word::unite(self.first, other.first);
        words::join(&mut self.later, &other.later);
    }

    /// Moves the positions over any text: adds all positions after the lowest.
    pub(crate) fn fill(&mut self, steps: &mut Steps)
        ensures length { length self.new ≡ length self.old }
        ensures moved { (text : List ℕ) → length self.old ≡ length text + 1
            → Moves (MatchesToken star) text self.old self.new }
        ensures steps { steps.new.count ≡ steps.old.count + length self.old }
    {
        self.count_all(steps); // each position is looked at for the lowest
        self.first = word::fill_up(self.first, false);
        words::fill(&mut self.later, word::has(self.first, 63));
    }

    /// Moves the positions over the empty text, or any text that ends in a slash: adds the positions after slashes, from
    /// the lowest position on.
    #[inline(never)]
    pub(crate) fn add_behind_slashes(&mut self, text: &Text, steps: &mut Steps)
        requires { length self.old ≡ length text.now + 1 }
        ensures length { length self.new ≡ length self.old }
        ensures moved { Moves (MatchesToken deep_first) text.now self.old self.new }
        ensures steps { steps.new.count ≡ steps.old.count + length self.old }
    {
        self.count_all(steps); // each position is looked at for a slash after it
        let mut reached = false;
        for position in 0..text.len() {
            reached = reached || self.holds(position);
            if reached && text.number(position) == '/' as u32 {
                self.hold(position + 1);
            }
        }
    }

    /// Moves the positions over a token that admits single characters: each over the next character, or it is removed.
    #[inline(always)]
    pub(crate) fn step_over(&mut self, text: &mut Text, token: &GlobToken, steps: &mut Steps)
        requires long { length self.old ≡ length text.old + 1 }
        requires one { TakesOne (token_of token.now) }
        ensures same { text.new ≡ text.old }
        ensures length { length self.new ≡ length self.old }
        ensures moved { Moves (MatchesToken (token_of token.now)) text.old self.old self.new }
        ensures steps { steps.new.count ≡ steps.old.count + length self.old }
    {
        self.count_all(steps); // each position is moved
        let kept = words::keep_first(self.first, text, token);
        self.first = word::shift_up(kept, 0);
        words::step_over(&mut self.later, text, token, word::highest(kept));
    }

    /// Moves a single position over as many of the tokens as admit the next characters. Returns the number of tokens:
    ///
    /// - 1 if the first token does not admit its character; the set is then empty.
    /// - all tokens if the set is found to be empty, as in `is_none`.
    /// - 0 if there may be several positions, or the position is at the end of the text; the set is then unchanged.
    #[inline(always)]
    pub(crate) fn run_over(&mut self, text: &Text, tokens: &[GlobToken], steps: &mut Steps) -> usize
        requires long { length self.old ≡ length text.now + 1 }
        requires some { 0 < length tokens.now }
        requires one { (token : GlobToken) → take 1 tokens.now ≡ token ∷ [] → TakesOne (token_of token) }
        ensures length { length self.new ≡ length self.old }
        ensures short { result ≤ length tokens.now }
        ensures moved { Moves (Matches (tokens_of (take result tokens.now))) text.now self.old self.new }
        ensures unchanged { result ≡ 0 → self.new ≡ self.old }
        // Each position counts, and a single position as often as it moves.
        ensures counted { steps.old.count + length self.old ≤ steps.new.count }
        ensures exactly { (i : ℕ) → Holds self.old i → steps.new.count ≡ steps.old.count + length self.old + result }
        ensures once { result ≡ 0 → steps.new.count ≡ steps.old.count + length self.old }
        ensures steps { steps.new.count ≤ steps.old.count + 2 * length self.old }
    {
        self.count_all(steps); // each position is looked at for another
        let word = self.first;
        if word == 0 {
            if self.later.is_empty() {
                return tokens.len();
            }
            return 0;
        }
        let position = word::lowest(word);
        if word != word::mask_of(position) || position as usize >= text.len() {
            return 0;
        }
        if !self.later.is_empty() && !words::are_none(&self.later) {
            return 0;
        }
        let run = text.count_admitted(position as usize, tokens);
        self.first = 0;
        if run == 0 {
            steps.add(1); // the position, whose next character is not taken
            return 1;
        }
        steps.add(run); // the position, moved so often
        self.hold(position as usize + run);
        run
    }

    /// Returns true only if the set is empty. For a text of more than 63 characters it returns false.
    #[inline(always)]
    pub(crate) fn is_none(&self, steps: &mut Steps) -> bool
        ensures none { IsTrue result → (i : ℕ) → ¬ Holds self.now i }
        ensures steps { steps.new.count ≡ steps.old.count + length self.now }
    {
        self.count_all(steps); // each position is looked at
        self.first == 0 && self.later.is_empty()
    }

    /// Counts a step for each position.
    fn count_all(&self, steps: &mut Steps)
        ensures { steps.new.count ≡ steps.old.count + length self.now }
    {
        steps.add(self.count);
    }

    /// Returns whether the set has this position. Counts no step.
    #[inline(always)]
    pub(crate) fn holds(&self, position: usize) -> bool
        requires { position < length self.now }
        ensures { IsTrue result ↔ Holds self.now position }
    {
        if position < 64 {
            word::has(self.first, position)
        } else {
            word::has(self.later[position / 64 - 1], position % 64)
        }
    }

    /// Adds this position.
    fn hold(&mut self, position: usize)
        requires { position < length self.old }
        ensures length { length self.new ≡ length self.old }
        ensures held { (i : ℕ) → Holds self.new i ↔ ((i ≡ position) ⊎ Holds self.old i) }
    {
        if position < 64 {
            self.first = word::insert(self.first, position);
        } else {
            let word = &mut self.later[position / 64 - 1];
            *word = word::insert(*word, position % 64);
        }
    }
}
