//! Why a JSON value is refused.
ghost use Rattle.std.specs.Prelude.{◌≡◌};

use crate::path::{Step, join};
use std::alloc::{AllocError, AllocFailed, Global};
use std::fmt;

/// A value that is wrong or missing. Displays as one line without a line feed.
#[derive(Debug, Drop)]
pub struct WrongValue {
    /// The path to the value, as `packages[3].targets[0].kind`; empty for the whole file.
    pub path: String,
    /// What the value must be, as it goes after "must be".
    pub expected: &'static str,
}

impl fmt::Display for WrongValue {
    fn fmt<W: fmt::Write>(&self, f: &mut fmt::Formatter<W>) -> fmt::Result {
        let expected = self.expected;
        match self.path.as_str() {
            "" => write!(f, "the file must be {expected}"),
            path => write!(f, "`{path}` must be {expected}"),
        }
    }
}

/// Why no entry is read from a JSON value.
#[derive(Debug, Drop)]
pub enum EntryRefusal {
    Wrong(WrongValue),
    /// Says nothing about the value.
    OutOfMemory(AllocError),
}

impl From<AllocError> for EntryRefusal {
    ghost use Rattle.std.specs.Prelude.{◌≡◌};
    ghost use Rattle.filterset_json.specs.declared.refusal.EntryRefusal.TheVariants.{OutOfMemory};

    ghost from_gives = { λ refused refusal. refusal ≡ OutOfMemory refused };

    fn from(refused: AllocError) -> EntryRefusal {
        EntryRefusal::OutOfMemory(refused)
    }
}

impl<T: Drop> From<AllocFailed<T>> for EntryRefusal {
    ghost use Rattle.std.specs.Prelude.{◌≡◌, alloc_error};
    ghost use Rattle.filterset_json.specs.declared.refusal.EntryRefusal.TheVariants.{OutOfMemory};

    ghost from_gives = { λ _ refusal. refusal ≡ OutOfMemory alloc_error };

    fn from(_refused: AllocFailed<T>) -> EntryRefusal {
        EntryRefusal::OutOfMemory(AllocError)
    }
}

impl EntryRefusal {
    ghost use Rattle.std.specs.Prelude.{[], string_bytes};
    ghost use Rattle.filterset_json.specs.Refusals.{IsAfter, IsWrong};

    /// Refuses a whole value, which must be as `expected` says.
    pub fn wrong(alloc: Global, expected: &'static str) -> EntryRefusal
        ensures { IsWrong result [] expected.now }
    {
        EntryRefusal::Wrong(WrongValue {
            path: String::new(alloc),
            expected,
        })
    }

    /// Refuses the value from which `step` leads to the refused one. It is out of memory if there is none for the path.
    pub fn after(self, alloc: Global, step: Step<'_>) -> EntryRefusal
        ensures { IsAfter step.entry self result }
    {
        let EntryRefusal::Wrong(wrong) = self else {
            return self;
        };
        match join(alloc, step, wrong.path.as_str()) {
            Ok(path) => EntryRefusal::Wrong(WrongValue { path, ..wrong }),
            Err(refused) => EntryRefusal::OutOfMemory(refused),
        }
    }
}
