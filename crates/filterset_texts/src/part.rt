//! Sequences of parts, as which globs and compared texts are searched.

/// A part of a sequence, which matches a piece of a text.
#[derive(Debug, Drop)]
pub enum Part {
    /// Matches one character that is in one of the ranges, or, if negated, in none. Ranges include both ends.
    One {
        negated: bool,
        ranges: Vec<(char, char)>,
    },
    /// Matches any text, even the empty one.
    Any,
}

/// What a text has to be.
#[derive(Debug, Drop)]
pub struct Condition {
    /// A sequence matches a text that can be divided into one piece for each part, in order, so that each part matches its
    /// piece.
    pub sequences: Vec<Vec<Part>>,
    /// Whether one of the sequences must match the text; otherwise none may.
    pub is_matched: bool,
}
