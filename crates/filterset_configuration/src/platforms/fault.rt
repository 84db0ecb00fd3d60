//! Why texts are refused.
use std::alloc::{AllocError, AllocFailed};
use std::fmt;

/// What a platform lacks.
#[derive(Clone, Copy, Debug, PartialEq, Eq)]
pub enum Expected {
    /// A name, a key or an operator: a word begins an expression.
    Expression,
    /// A parenthesis after an operator.
    OpenParenthesis,
    /// The closing parenthesis of a negation or of the whole expression.
    CloseParenthesis,
    /// A comma or a closing parenthesis, after an expression of `all` or `any`.
    CommaOrCloseParenthesis,
    /// A value in quotes, after an equals sign.
    Value,
    /// The end of the text, after `cfg(..)`.
    End,
    /// A letter, a digit, `_`, `-` or `.`, of which triples are made.
    TripleCharacter,
}

impl fmt::Display for Expected {
    fn fmt<W: fmt::Write>(&self, f: &mut fmt::Formatter<W>) -> fmt::Result {
        f.write_str(match self {
            Expected::Expression => "a name, `all`, `any` or `not`",
            Expected::OpenParenthesis => "`(`",
            Expected::CloseParenthesis => "`)`",
            Expected::CommaOrCloseParenthesis => "`,` or `)`",
            Expected::Value => "a value in quotes",
            Expected::End => "the end",
            Expected::TripleCharacter => "a letter, a digit, `_`, `-` or `.`",
        })
    }
}

/// The reason why a text is no platform.
#[derive(Clone, Copy, Debug, PartialEq, Eq)]
pub struct PlatformFault {
    /// Where the fault is, in bytes.
    pub offset: usize,
    /// What should be there.
    pub expected: Expected,
}

impl fmt::Display for PlatformFault {
    fn fmt<W: fmt::Write>(&self, f: &mut fmt::Formatter<W>) -> fmt::Result {
        let (offset, expected) = (self.offset, self.expected);
        write!(f, "expected {expected} at byte {offset}")
    }
}

/// The reason why `PlatformSpec::parse` fails.
#[derive(Debug, Drop)]
pub enum PlatformRefusal {
    /// The text is no platform.
    Fault(PlatformFault),
    /// Out of memory. The text may be a platform or not.
    OutOfMemory(AllocError),
}

/// The reason why `read_cfg` fails.
#[derive(Debug, Drop)]
pub enum CfgRefusal {
    /// This line, counted from 1, is neither a name nor a key with a value.
    Line(usize),
    /// No line sets this, which `rustc` sets for each platform.
    Lacks(&'static str),
    /// Out of memory.
    OutOfMemory(AllocError),
}

impl fmt::Display for CfgRefusal {
    fn fmt<W: fmt::Write>(&self, f: &mut fmt::Formatter<W>) -> fmt::Result {
        match self {
            CfgRefusal::Line(line) => write!(
                f,
                "line {line} must be a name, or a key with a value in quotes",
            ),
            CfgRefusal::Lacks(key) => write!(f, "no line sets `{key}`"),
            CfgRefusal::OutOfMemory(_) => f.write_str("out of memory"),
        }
    }
}

impl From<AllocError> for CfgRefusal {
    ghost use Rattle.std.specs.Prelude.{◌≡◌};
    ghost use Rattle.filterset_configuration.specs.declared.platforms.fault.CfgRefusal.TheVariants.{OutOfMemory};

    ghost from_gives = { λ refused refusal. refusal ≡ OutOfMemory refused };

    fn from(refused: AllocError) -> CfgRefusal {
        CfgRefusal::OutOfMemory(refused)
    }
}

impl<T: Drop> From<AllocFailed<T>> for CfgRefusal {
    ghost use Rattle.std.specs.Prelude.{◌≡◌, alloc_error};
    ghost use Rattle.filterset_configuration.specs.declared.platforms.fault.CfgRefusal.TheVariants.{OutOfMemory};

    ghost from_gives = { λ _ refusal. refusal ≡ OutOfMemory alloc_error };

    fn from(_refused: AllocFailed<T>) -> CfgRefusal {
        CfgRefusal::OutOfMemory(AllocError)
    }
}

/// Why a reader fails. A fault has the number of bytes after it.
#[derive(Debug, Drop)]
pub(crate) enum ReadError {
    OutOfMemory,
    Fault { left: usize, expected: Expected },
}

impl From<AllocError> for ReadError {
    ghost use Rattle.std.specs.Prelude.{◌≡◌};
    ghost use Rattle.filterset_configuration.specs.declared.platforms.fault.ReadError.TheVariants.{OutOfMemory};

    ghost from_gives = { λ _ error. error ≡ OutOfMemory };

    fn from(_refused: AllocError) -> ReadError {
        ReadError::OutOfMemory
    }
}

impl<T: Drop> From<AllocFailed<T>> for ReadError {
    ghost use Rattle.std.specs.Prelude.{◌≡◌};
    ghost use Rattle.filterset_configuration.specs.declared.platforms.fault.ReadError.TheVariants.{OutOfMemory};

    ghost from_gives = { λ _ error. error ≡ OutOfMemory };

    fn from(_refused: AllocFailed<T>) -> ReadError {
        ReadError::OutOfMemory
    }
}
