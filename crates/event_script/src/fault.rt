//! Why a text is no script.
ghost use Rattle.std.specs.Prelude.{◌≡◌};
ghost use Rattle.event_script.specs.Faults.{script_reason};
ghost use Rattle.event_script.specs.declared.fault.ScriptFault.TheVariants.{OutOfMemory as ScriptOutOfMemory};

use protocol::reason::Reason;
use std::alloc::{AllocError, AllocFailed};

/// Why a text is no script.
#[derive(Clone, Copy, Debug, PartialEq, Eq, Drop)]
pub enum ScriptFault {
    /// There is no memory for its events.
    OutOfMemory,
    /// A line is no event.
    Script,
}

impl ScriptFault {
    /// The reason by which the program reports it: 25 or 45.
    pub fn reason(self) -> Reason
        ensures { result ≡ script_reason self }
    {
        match self {
            ScriptFault::OutOfMemory => Reason::OutOfMemory,
            ScriptFault::Script => Reason::Script,
        }
    }
}

/// Why a text is no script, and at which line, counted from 1.
#[derive(Clone, Copy, Drop)]
pub struct ScriptError {
    pub fault: ScriptFault,
    pub line: usize,
}

impl From<ScriptError> for ScriptFault {
    ghost from_gives = { λ e fault. fault ≡ e.fault };

    fn from(error: ScriptError) -> ScriptFault {
        error.fault
    }
}

impl From<AllocError> for ScriptFault {
    ghost from_gives = { λ _ e. e ≡ ScriptOutOfMemory };

    fn from(_error: AllocError) -> ScriptFault {
        ScriptFault::OutOfMemory
    }
}

impl<T: Drop> From<AllocFailed<T>> for ScriptFault {
    ghost from_gives = { λ _ e. e ≡ ScriptOutOfMemory };

    fn from(_error: AllocFailed<T>) -> ScriptFault {
        ScriptFault::OutOfMemory
    }
}
