//! Positions in a text, and steps from one to the next: over blanks, a word, or all up to the next `)`.
ghost use Rattle.std.specs.Prelude.{◌≡◌, ◌+◌, ◌-◌, ◌≤◌, ◌<◌, ◌^◌, length, min, IsCharBoundary, IfSome};
ghost use Rattle.std.specs.Option.{option_map};
ghost use Rattle.filterset_language.specs.Parsing.{Front.close_len, Seam.IsSeam, Seam.AreBlanks};
ghost use Rattle.filterset_faults.specs.Span.{span};

use crate::parsing::lengths::{blank_len, close_len};
use filterset_faults::SourceSpan;

/// A position in a text: a byte offset, and the rest of the text from there.
#[derive(Clone, Copy)]
pub struct Input<'a> {
    pub text: &'a str,
    pub rest: &'a str,
    pub offset: usize,
    /// The number of bytes at the start of `rest` that are known to be blanks. There may be more.
    blanks: usize,
    ghost seam: { IsSeam text.now rest.now offset },
    ghost fits: { offset + length rest.now < 2 ^ 64 },
    ghost skipped: { AreBlanks offset rest.now blanks },
}

/// The result of a reader: the value, if it has one, and the position where reading goes on.
#[derive(Drop)]
pub struct Read<'a, T> {
    pub value: Option<T>,
    pub end: Input<'a>,
}

impl<'a> Input<'a> {
    ghost use Rattle.filterset_language.specs.Parsing.Position.{position, advanced, skip, after, after_word, position_of, IsBehind, IsAtOrBehind};

    /// Starts at the beginning of a text.
    #[tactic(auto, using(crate::proofs::Positions::seam_start))]
    pub fn new(text: &'a str) -> Input<'a>
        ensures value { position_of result ≡ position 0 text.now }
        ensures text { result.text.now ≡ text.now }
    {
        Input {
            text,
            rest: text,
            offset: 0,
            blanks: 0,
        }
    }

    /// Returns the empty span at this position.
    pub fn here(self) -> SourceSpan
        ensures { result ≡ span self.entry.offset 0 }
    {
        SourceSpan::new(self.offset, 0)
    }

    /// Returns the span from here to the end of the text.
    pub fn to_end(self) -> SourceSpan
        ensures { result ≡ span self.entry.offset (length self.entry.rest.now) }
    {
        SourceSpan::new(self.offset, self.rest.len())
    }

    /// Returns the span from here to a later position.
    pub fn up_to(self, end: Input<'a>) -> SourceSpan
        requires { self.offset ≤ end.offset }
        ensures { result ≡ span self.entry.offset (end.entry.offset - self.entry.offset) }
    {
        SourceSpan::new(self.offset, end.offset - self.offset)
    }

    /// Returns the span of a backslash that begins no escape: as many bytes as follow it, but at most two.
    pub fn backslash(self) -> SourceSpan
        requires { 0 < length self.rest.now }
        ensures { result ≡ span self.entry.offset (min 2 (length self.entry.rest.now - 1)) }
    {
        SourceSpan::new(self.offset, std::cmp::min(2, self.rest.len() - 1))
    }

    /// Advances to the next `)`, or to the end.
    pub fn advance_to_close(self) -> Input<'a>
        ensures value { position_of result ≡ advanced (close_len self.entry.rest.now) (position_of self.entry) }
        ensures behind { IsAtOrBehind self.entry result }
    {
        self.advance(close_len(self.rest.as_bytes()))
    }

    /// Advances by `count` bytes.
    pub fn advance(self, count: usize) -> Input<'a>
        requires within { count ≤ length self.rest.now }
        requires boundary { IsCharBoundary self.rest.now count }
        ensures value { position_of result ≡ advanced count (position_of self.entry) }
        ensures behind { IsAtOrBehind self.entry result }
    {
        Input {
            text: self.text,
            rest: &self.rest[count..],
            offset: self.offset + count,
            blanks: 0,
        }
    }

    /// Advances over all blanks.
    pub fn skip_blanks(self) -> Input<'a>
        ensures value { position_of result ≡ skip (position_of self.entry) }
        ensures behind { IsAtOrBehind self.entry result }
    {
        let mut input = self.advance(self.blanks);
        loop {
            let count = blank_len(input.rest.as_bytes());
            if count == 0 {
                return input;
            }
            input = input.advance(count);
        }
    }

    /// Returns the same position with the blanks up to `start` known, so that they are not skipped one by one again.
    pub fn remember_blanks(self, start: Input<'a>) -> Input<'a>
        requires skipped { position_of start ≡ skip (position_of self) }
        ensures value { position_of result ≡ position_of self.entry }
        ensures known { result.blanks ≡ start.entry.offset - self.entry.offset }
        ensures behind { IsAtOrBehind self.entry result }
    {
        Input {
            text: self.text,
            rest: self.rest,
            offset: self.offset,
            blanks: start.offset - self.offset,
        }
    }

    /// Returns the position after `text`, if the rest begins with it.
    pub fn after(self, text: &str) -> Option<Input<'a>>
        ensures value { option_map position_of result ≡ after text.now (position_of self.entry) }
        ensures behind { IfSome result (λ x. 0 < length text.now → IsBehind self.entry x) }
    {
        match self.rest.strip_prefix(text) {
            Some(rest) => Some(Input {
                text: self.text,
                rest,
                offset: self.offset + text.len(),
                blanks: 0,
            }),
            None => None,
        }
    }

    /// Returns the position after `word`, if the rest begins with it and no letter, digit or `_` follows.
    pub fn after_word(self, word: &str) -> Option<Input<'a>>
        ensures value { option_map position_of result ≡ after_word word.now (position_of self.entry) }
        ensures behind { IfSome result (λ x. 0 < length word.now → IsBehind self.entry x) }
    {
        let input = self.after(word)?;
        match input.rest.as_bytes() {
            [b, ..] if b.is_ascii_alphanumeric() || *b == b'_' => None,
            _ => Some(input),
        }
    }
}
