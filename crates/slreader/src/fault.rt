//! Why a reader stops.
ghost use Rattle.std.specs.Prelude.{◌≡◌};
ghost use Rattle.slreader.specs.Faults.{reader_reason};

use protocol::reason::Reason;

/// Why a plan isn't begun, or why a reader stops.
#[derive(Clone, Copy, Debug, PartialEq, Eq, Drop)]
pub enum ReaderFault {
    /// What was sent in a transfer is not a stream of packets.
    NotAPacket,
    /// There are no wants or too many, or one of them can't be asked for.
    Limit,
    /// There was no memory for the commands.
    OutOfMemory,
    /// The server refused every want.
    AllRefused,
    /// An answer is neither OK nor ERROR, or the server did not greet as a SeedLink server does.
    BadReply,
}

impl ReaderFault {
    /// The reason by which the program reports it: 10, 22, 25, 51 or 52.
    pub fn reason(self) -> Reason
        ensures { result ≡ reader_reason self }
    {
        match self {
            ReaderFault::NotAPacket => Reason::NotAPacket,
            ReaderFault::Limit => Reason::Limit,
            ReaderFault::OutOfMemory => Reason::OutOfMemory,
            ReaderFault::AllRefused => Reason::AllRefused,
            ReaderFault::BadReply => Reason::BadReply,
        }
    }

    /// What it is in a sentence, if its reason's own sentence doesn't say it.
    pub fn cause(self) -> Option<&'static str> {
        match self {
            ReaderFault::Limit => Some("this can't be asked for in SeedLink"),
            _ => None,
        }
    }
}
