//! How calls end, as numbers for C.
ghost use Rattle.std.specs.Prelude.{◌≡◌};
ghost use Rattle.filterset_c.specs.Statuses.{status_code, status_of};

use std::alloc::{AllocError, AllocFailed};

/// Why a call failed.
#[derive(Clone, Copy, Debug, PartialEq, Eq)]
pub enum Failure {
    /// There was not enough memory, which says nothing about the arguments.
    OutOfMemory,
    /// The handle is empty, or holds something else than the call takes.
    WrongHandle,
    /// Bytes that must be a text are not UTF-8.
    NotUtf8,
    /// The text has faults, or the bytes describe no workspace.
    Rejected,
    /// A number has no meaning, or two lists differ in length.
    InvalidArgument,
}

impl Failure {
    /// Returns the status for C, which is never 0.
    pub fn code(self) -> u8
        ensures { result ≡ status_code self }
    {
        match self {
            Failure::OutOfMemory => 1,
            Failure::WrongHandle => 2,
            Failure::NotUtf8 => 3,
            Failure::Rejected => 4,
            Failure::InvalidArgument => 5,
        }
    }
}

/// Returns the status of a call: 0 if it did not fail.
pub fn status_of(ended: Result<(), Failure>) -> u8
    ensures { result ≡ status_of ended }
{
    match ended {
        Ok(()) => 0,
        Err(failure) => failure.code(),
    }
}

impl From<AllocError> for Failure {
    ghost use Rattle.std.specs.Prelude.{◌≡◌};
    ghost use Rattle.filterset_c.specs.declared.failure.Failure.TheVariants.{OutOfMemory};

    ghost from_gives = { λ _ failure. failure ≡ OutOfMemory };

    fn from(_error: AllocError) -> Failure {
        Failure::OutOfMemory
    }
}

impl<T: Drop> From<AllocFailed<T>> for Failure {
    ghost use Rattle.std.specs.Prelude.{◌≡◌};
    ghost use Rattle.filterset_c.specs.declared.failure.Failure.TheVariants.{OutOfMemory};

    ghost from_gives = { λ _ failure. failure ≡ OutOfMemory };

    fn from(_error: AllocFailed<T>) -> Failure {
        Failure::OutOfMemory
    }
}
