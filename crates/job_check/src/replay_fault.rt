//! Why a script is not replayed.
ghost use Rattle.std.specs.Prelude.{◌≡◌};
ghost use Rattle.job_check.specs.Faults.{replay_reason};

use incidents::{Failure, Incident, Place};
use protocol::reason::Reason;
use sl_io::StreamFault;

/// Why a script was not replayed.
#[derive(Clone, Copy, Debug, PartialEq, Eq, Drop)]
pub enum ReplayFault {
    /// There is no memory, or the script was not read to its end: nothing was written. Or a beginning of the output was
    /// written and not all of it.
    Stream(StreamFault),
    /// A line of the script is no event: the first that is none, counted from 1. Nothing was written.
    Script(usize),
}

impl ReplayFault {
    /// The reason by which the program reports it: 25, 42, 43 or 45.
    pub fn reason(self) -> Reason
        ensures { result ≡ replay_reason self }
    {
        match self {
            ReplayFault::Stream(fault) => fault.reason(),
            ReplayFault::Script(_) => Reason::Script,
        }
    }

    /// It, of a script in a file.
    pub fn in_script<'a>(self, path: &'a str) -> Incident<'a>
        ensures { result.failure.reason ≡ replay_reason self }
    {
        let failure = Failure::of(self.reason());
        match self {
            ReplayFault::Script(line) => failure.at(Place::Line {
                path,
                number: line as u64,
            }),
            ReplayFault::Stream(_) => failure.in_file(path),
        }
    }
}
