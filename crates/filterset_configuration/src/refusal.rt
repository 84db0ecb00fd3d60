//! Why a configuration is refused.
use std::alloc::{AllocError, AllocFailed};
use std::fmt;

/// Why a configuration is refused.
#[derive(Debug, Drop)]
pub enum ProfileRefusal {
    /// The value at the path is wrong.
    Wrong {
        /// As `profile.ci.overrides[2].platform`.
        path: String,
        /// What the value must be, as it goes after "must be".
        expected: &'static str,
    },
    /// Says nothing about the configuration.
    OutOfMemory(AllocError),
}

impl fmt::Display for ProfileRefusal {
    fn fmt<W: fmt::Write>(&self, f: &mut fmt::Formatter<W>) -> fmt::Result {
        match self {
            ProfileRefusal::Wrong { path, expected } => write!(f, "`{path}` must be {expected}"),
            ProfileRefusal::OutOfMemory(_) => f.write_str("out of memory"),
        }
    }
}

impl From<AllocError> for ProfileRefusal {
    ghost use Rattle.std.specs.Prelude.{◌≡◌};
    ghost use Rattle.filterset_configuration.specs.declared.refusal.ProfileRefusal.TheVariants.{OutOfMemory};

    ghost from_gives = { λ refused refusal. refusal ≡ OutOfMemory refused };

    fn from(refused: AllocError) -> ProfileRefusal {
        ProfileRefusal::OutOfMemory(refused)
    }
}

impl<T: Drop> From<AllocFailed<T>> for ProfileRefusal {
    ghost use Rattle.std.specs.Prelude.{◌≡◌, alloc_error};
    ghost use Rattle.filterset_configuration.specs.declared.refusal.ProfileRefusal.TheVariants.{OutOfMemory};

    ghost from_gives = { λ _ refusal. refusal ≡ OutOfMemory alloc_error };

    fn from(_refused: AllocFailed<T>) -> ProfileRefusal {
        ProfileRefusal::OutOfMemory(AllocError)
    }
}
