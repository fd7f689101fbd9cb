//! Why a server ends early.
ghost use Rattle.std.specs.Prelude.{◌≡◌};
ghost use Rattle.serving.specs.Faults.{serve_reason};
ghost use Rattle.serving.specs.declared.faults.ServeFault.TheVariants.{Poll};

use event_loop::LoopFault;
use protocol::reason::Reason;

/// Why a server ended before its turns were done.
#[derive(Clone, Copy, Debug, Drop)]
pub enum ServeFault {
    /// Out of memory for the server.
    OutOfMemory,
    /// The ports could not say what happened, sixteen turns in a row.
    Poll,
    /// The numbers of the stations could not be kept when it began.
    Numbers,
}

impl ServeFault {
    /// The reason by which the program reports it: 25, 40 or 49.
    pub fn reason(self) -> Reason
        ensures { result ≡ serve_reason self }
    {
        match self {
            ServeFault::OutOfMemory => Reason::OutOfMemory,
            ServeFault::Poll => Reason::Poll,
            ServeFault::Numbers => Reason::Numbers,
        }
    }
}

impl From<LoopFault> for ServeFault {
    ghost from_gives = { λ fault serve. serve ≡ Poll };

    fn from(_fault: LoopFault) -> ServeFault {
        ServeFault::Poll
    }
}
