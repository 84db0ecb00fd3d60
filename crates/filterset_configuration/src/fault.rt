//! Why a profile has no lineage.
use std::alloc::{AllocError, AllocFailed};
use std::fmt;

/// Why a profile has no lineage.
#[derive(Debug, Drop)]
pub enum LineageFault {
    /// No profile has the name that is asked for.
    NoProfile(String),
    /// No profile has the name at the path.
    NoParent {
        /// As `profile.ci.inherits`.
        path: String,
        name: String,
    },
    /// The profile at the path falls back on itself.
    Cycle {
        path: String,
    },
    /// Says nothing about the profiles.
    OutOfMemory(AllocError),
}

impl fmt::Display for LineageFault {
    fn fmt<W: fmt::Write>(&self, f: &mut fmt::Formatter<W>) -> fmt::Result {
        match self {
            LineageFault::NoProfile(name) => write!(f, "no profile is named `{name}`"),
            LineageFault::NoParent { path, name } => {
                write!(f, "`{path}` is `{name}`, and no profile is named so")
            }
            LineageFault::Cycle { path } => write!(f, "`{path}` falls back on itself"),
            LineageFault::OutOfMemory(_) => f.write_str("out of memory"),
        }
    }
}

impl From<AllocError> for LineageFault {
    ghost use Rattle.std.specs.Prelude.{◌≡◌};
    ghost use Rattle.filterset_configuration.specs.declared.fault.LineageFault.TheVariants.{OutOfMemory};

    ghost from_gives = { λ refused fault. fault ≡ OutOfMemory refused };

    fn from(refused: AllocError) -> LineageFault {
        LineageFault::OutOfMemory(refused)
    }
}

impl<T: Drop> From<AllocFailed<T>> for LineageFault {
    ghost use Rattle.std.specs.Prelude.{◌≡◌, alloc_error};
    ghost use Rattle.filterset_configuration.specs.declared.fault.LineageFault.TheVariants.{OutOfMemory};

    ghost from_gives = { λ _ fault. fault ≡ OutOfMemory alloc_error };

    fn from(_refused: AllocFailed<T>) -> LineageFault {
        LineageFault::OutOfMemory(AllocError)
    }
}
