//! Columns of answers.
ghost use Rattle.std.specs.Prelude.{◌≡◌, ◌↔◌, ◌<◌, ◌≤◌, ◌+◌, ◌*◌, ◌/◌, ◌&&◌, ℕ, Bool, not, IfOk, IsTrue, vec_len};
ghost use Rattle.filterset_record.specs.{Bits.bit_of, Answers.answer_at, Answers.HasRoom};
ghost use Rattle.filterset_expression.specs.Connectives.{connected};

use crate::bits::Bits;
use filterset_expression::Connective;
use std::alloc::AllocError;

/// The answers for a list of tests, 64 to a word.
#[derive(Debug, Drop)]
pub struct Column {
    len: usize,
    answers: Answers,
    ghost has_room: { HasRoom len answers },
}

/// Answers for a list of tests.
#[derive(Debug, Drop)]
pub(crate) enum Answers {
    /// All are the same.
    Same(bool),
    /// Each is a bit.
    Each(Bits),
}

impl Column {
    ghost use Rattle.filterset_record.specs.Columns.{answer_of};

    /// Returns the number of tests.
    pub fn len(&self) -> usize
        ensures { result ≡ self.now.len }
    {
        self.len
    }

    /// Returns whether there are no tests.
    pub fn is_empty(&self) -> bool
        ensures { IsTrue result ↔ self.now.len ≡ 0 }
    {
        self.len == 0
    }

    /// Returns the answer for the test at a position.
    pub fn get(&self, position: usize) -> bool
        requires { position < self.now.len }
        ensures { result ≡ answer_of self.now position }
    {
        match &self.answers {
            Answers::Same(answer) => *answer,
            Answers::Each(bits) => bits.get(position),
        }
    }

    /// Returns a position after this one, such that the answers from this one on and before it are the same.
    pub fn run_end(&self, position: usize) -> usize
        requires { position < self.now.len }
        ensures later { position < result }
        ensures within { result ≤ self.now.len }
        ensures same { (i : ℕ) → position ≤ i → i < result → answer_of self.now i ≡ answer_of self.now position }
    {
        match &self.answers {
            Answers::Same(_) => self.len,
            Answers::Each(bits) => bits.run_end(position, self.len),
        }
    }

    /// Returns a column with the same answer for each test.
    pub(crate) fn same(len: usize, answer: bool) -> Column
        ensures len { result.len ≡ len }
        ensures same { (i : ℕ) → answer_of result i ≡ answer }
    {
        Column {
            len,
            answers: Answers::Same(answer),
        }
    }

    /// Returns a column of these answers, which have room for so many tests.
    pub(crate) fn of_bits(len: usize, bits: Bits) -> Column
        requires { vec_len bits.words ≡ len / 64 + 1 }
        ensures len { result.len ≡ len }
        ensures bits { (i : ℕ) → answer_of result i ≡ bit_of bits.words.items i }
    {
        Column {
            len,
            answers: Answers::Each(bits),
        }
    }

    /// Returns whether all answers are `answer` and no word holds them.
    pub(crate) fn is_same(&self, answer: bool) -> bool
        ensures { IsTrue result → (i : ℕ) → answer_of self.now i ≡ answer }
    {
        match &self.answers {
            Answers::Same(own) => *own == answer,
            Answers::Each(_) => false,
        }
    }

    /// Negates each answer.
    pub(crate) fn negated(self) -> Column
        ensures len { result.len ≡ self.len }
        ensures negated { (i : ℕ) → i < self.len → answer_of result i ≡ not (answer_of self i) }
    {
        let Column { len, answers } = self;
        let answers = match answers {
            Answers::Same(answer) => Answers::Same(!answer),
            Answers::Each(mut bits) => {
                bits.negate();
                Answers::Each(bits)
            }
        };
        Column { len, answers }
    }

    /// Applies the connective to the answers at each position.
    pub(crate) fn combined(self, connective: Connective, other: Column) -> Column
        requires { self.len ≡ other.len }
        ensures len { result.len ≡ self.len }
        ensures combined { (i : ℕ) → i < self.len
            → answer_of result i ≡ connected connective (answer_of self i) (answer_of other i) }
    {
        let Column { len, answers } = self;
        let Column {
            len: _,
            answers: others,
        } = other;
        let answers = match (answers, others) {
            (Answers::Each(mut bits), Answers::Each(others)) => {
                bits.combine(connective, &others);
                Answers::Each(bits)
            }
            (Answers::Same(answer), Answers::Same(other)) => {
                Answers::Same(connect(connective, answer, other))
            }
            (Answers::Each(bits), Answers::Same(answer))
            | (Answers::Same(answer), Answers::Each(bits)) => {
                combine_with_same(connective, bits, answer)
            }
        };
        Column { len, answers }
    }

    /// Returns where both columns are true. The only error is out of memory.
    pub(crate) fn both(&self, other: &Column) -> Result<Column, AllocError>
        requires { self.now.len ≡ other.now.len }
        ensures len { IfOk result (λ both. both.len ≡ self.now.len) }
        ensures both { IfOk result (λ both. (i : ℕ) → i < self.now.len
            → answer_of both i ≡ (answer_of self.now i && answer_of other.now i)) }
    {
        let own = self.try_clone()?;
        Ok(own.combined(Connective::Conjunction, other.try_clone()?))
    }

    /// Returns where this column is true and the other is false. The only error is out of memory.
    pub(crate) fn without(&self, other: &Column) -> Result<Column, AllocError>
        requires { self.now.len ≡ other.now.len }
        ensures len { IfOk result (λ rest. rest.len ≡ self.now.len) }
        ensures rest { IfOk result (λ rest. (i : ℕ) → i < self.now.len
            → answer_of rest i ≡ (answer_of self.now i && not (answer_of other.now i))) }
    {
        let own = self.try_clone()?;
        let others = other.try_clone()?.negated();
        Ok(own.combined(Connective::Conjunction, others))
    }

    /// Copies the column. The only error is out of memory.
    pub(crate) fn try_clone(&self) -> Result<Column, AllocError>
        ensures len { IfOk result (λ copy. copy.len ≡ self.now.len) }
        ensures same { IfOk result (λ copy. (i : ℕ) → answer_of copy i ≡ answer_of self.now i) }
    {
        Ok(Column {
            len: self.len,
            answers: match &self.answers {
                Answers::Same(answer) => Answers::Same(*answer),
                Answers::Each(bits) => Answers::Each(bits.try_clone()?),
            },
        })
    }
}

/// Applies the connective to two answers.
fn connect(connective: Connective, left: bool, right: bool) -> bool
    ensures { result ≡ connected connective left right }
{
    match connective {
        Connective::Conjunction => left && right,
        Connective::Disjunction => left || right,
        Connective::ExclusiveDisjunction => left ^ right,
    }
}

/// Applies the connective to each answer and the same other one.
fn combine_with_same(connective: Connective, mut bits: Bits, answer: bool) -> Answers
    ensures combined { (i : ℕ) → i < 64 * vec_len bits.words
        → answer_at result i ≡ connected connective (bit_of bits.words.items i) answer }
    ensures room { (len : ℕ) → vec_len bits.words ≡ len / 64 + 1 → HasRoom len result }
{
    match (connective, answer) {
        (Connective::Conjunction, false) => Answers::Same(false),
        (Connective::Disjunction, true) => Answers::Same(true),
        (Connective::ExclusiveDisjunction, true) => {
            bits.negate();
            Answers::Each(bits)
        }
        _ => Answers::Each(bits),
    }
}
