//! Stretches of a file.

/// A stretch of a file, by the offsets of its first byte and of the byte after it.
#[derive(Clone, Copy, Debug, PartialEq, Eq)]
pub struct Stretch {
    pub from: usize,
    pub to: usize,
}
