//! Why a status port's answer is not taken.
ghost use Rattle.std.specs.Prelude.{◌≡◌};
ghost use Rattle.job_status.specs.Faults.{status_reason};

use incidents::Failure;
use protocol::reason::Reason;

/// Why a status port's answer was not taken.
#[derive(Clone, Copy, Drop)]
pub enum StatusFault {
    /// Nothing came for as long as an answer is waited for.
    Quiet,
    /// The connection was closed before anything came.
    Closed,
    /// The connection ended, or the time was over, before all of it was there.
    Ended,
    /// It is not the answer of a status port.
    Other,
}

impl StatusFault {
    /// The reason by which the program reports it: 42 or 52.
    pub fn reason(self) -> Reason
        ensures { result ≡ status_reason self }
    {
        match self {
            StatusFault::Quiet | StatusFault::Closed | StatusFault::Ended => Reason::Read,
            StatusFault::Other => Reason::BadReply,
        }
    }

    /// What it is in a sentence.
    fn cause(self) -> &'static str {
        match self {
            StatusFault::Quiet => {
                "nothing came for ten seconds: perhaps the server is stopped, or this is its port for feeds"
            }
            StatusFault::Closed => {
                "the connection was closed without an answer: perhaps the status port tells nothing to this address"
            }
            StatusFault::Ended =>
                "the connection ended, or ten seconds were over, before the whole answer came",
            StatusFault::Other =>
                "the answer is not that of a status port; perhaps this is another port of the server",
        }
    }

    /// It, as the program reports it.
    pub fn failure(self) -> Failure
        ensures { result.reason ≡ status_reason self }
    {
        Failure::by(self.reason(), Some(self.cause()))
    }
}
