//! How far a session has come.
ghost use Rattle.std.specs.Prelude.{◌≡◌};
ghost use Rattle.filterset_display.specs.Machine as spec;

use crate::message::Call;
use crate::positions::Encoding;

/// How far a session has come.
#[derive(Clone, Copy, Debug, PartialEq, Eq)]
pub enum Phase {
    /// Not initialized yet.
    New,
    Running(Encoding),
    /// Shut down, and waiting for `exit`.
    Stopped,
    /// Over, in order or not.
    Over { in_order: bool },
}

/// Returns the phase after a request.
pub fn phase_after(phase: Phase, call: &Call) -> Phase
    ensures { result ≡ spec.phase_after phase call.now }
{
    match (phase, call) {
        (Phase::New, Call::Initialize(encoding)) => Phase::Running(*encoding),
        (Phase::Running(_), Call::Shutdown) => Phase::Stopped,
        (phase, _) => phase,
    }
}

/// Returns the phase after `exit`.
pub fn phase_at_exit(phase: Phase) -> Phase
    ensures { result ≡ spec.phase_at_exit phase }
{
    match phase {
        Phase::Over { in_order } => Phase::Over { in_order },
        Phase::Stopped => Phase::Over { in_order: true },
        Phase::New | Phase::Running(_) => Phase::Over { in_order: false },
    }
}
