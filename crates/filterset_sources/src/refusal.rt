//! Why a file is refused.
ghost use Rattle.std.specs.Prelude.{◌≡◌};

use filterset_json::{EntryRefusal, WrongValue};
use std::alloc::{AllocError, AllocFailed};
use std::fmt;

/// Why a file is refused. The caller knows which file it is.
#[derive(Debug, Drop)]
pub enum SourceRefusal {
    /// The text is not JSON.
    NotJson(serde_json::Error),
    /// The text is not TOML; the first fault is on this line, counted from 1.
    NotToml { error: toml::de::Error, line: usize },
    /// A value is wrong or missing.
    WrongValue(WrongValue),
    /// Says nothing about the file.
    OutOfMemory(AllocError),
}

impl fmt::Display for SourceRefusal {
    fn fmt<W: fmt::Write>(&self, f: &mut fmt::Formatter<W>) -> fmt::Result {
        match self {
            SourceRefusal::NotJson(error) => write!(f, "not JSON: {error}"),
            SourceRefusal::NotToml { error, line } => {
                let message = error.message();
                write!(f, "not TOML: {message} at line {line}")
            }
            SourceRefusal::WrongValue(wrong) => write!(f, "{wrong}"),
            SourceRefusal::OutOfMemory(_) => f.write_str("out of memory"),
        }
    }
}

impl From<AllocError> for SourceRefusal {
    ghost use Rattle.std.specs.Prelude.{◌≡◌};
    ghost use Rattle.filterset_sources.specs.declared.refusal.SourceRefusal.TheVariants.{OutOfMemory};

    ghost from_gives = { λ refused refusal. refusal ≡ OutOfMemory refused };

    fn from(refused: AllocError) -> SourceRefusal {
        SourceRefusal::OutOfMemory(refused)
    }
}

impl<T: Drop> From<AllocFailed<T>> for SourceRefusal {
    ghost use Rattle.std.specs.Prelude.{◌≡◌, alloc_error};
    ghost use Rattle.filterset_sources.specs.declared.refusal.SourceRefusal.TheVariants.{OutOfMemory};

    ghost from_gives = { λ _ refusal. refusal ≡ OutOfMemory alloc_error };

    fn from(_refused: AllocFailed<T>) -> SourceRefusal {
        SourceRefusal::OutOfMemory(AllocError)
    }
}

impl From<EntryRefusal> for SourceRefusal {
    ghost use Rattle.std.specs.Prelude.{◌≡◌};
    ghost use Rattle.filterset_sources.specs.Refusals.{source_refusal};

    ghost from_gives = { λ refused refusal. refusal ≡ source_refusal refused };

    fn from(refused: EntryRefusal) -> SourceRefusal {
        match refused {
            EntryRefusal::Wrong(wrong) => SourceRefusal::WrongValue(wrong),
            EntryRefusal::OutOfMemory(refused) => SourceRefusal::OutOfMemory(refused),
        }
    }
}

impl SourceRefusal {
    ghost use Rattle.std.specs.Prelude.{string_bytes};
    ghost use Rattle.filterset_sources.specs.Refusals.{IsWrong};

    /// Refuses the value at a path, which must be as `expected` says.
    pub(crate) fn at(path: String, expected: &'static str) -> SourceRefusal
        ensures { IsWrong result (string_bytes path) expected.now }
    {
        SourceRefusal::WrongValue(WrongValue { path, expected })
    }
}
