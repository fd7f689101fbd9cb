//! Why a listing of packets stops.
ghost use Rattle.std.specs.Prelude.{◌≡◌};
ghost use Rattle.reader_run.specs.Faults.{listing_reason};

use protocol::reason::Reason;
use slreader::ReaderFault;

/// Why a listing of packets stops.
#[derive(Clone, Copy, Debug, PartialEq, Eq, Drop)]
pub enum ListingFault {
    /// The plan can't be asked for, there is no memory, or the server sent what a reader can't read.
    Reader(ReaderFault),
    /// A read failed, or the server closed the connection before the end.
    Read,
    /// A command, a line or a record could not be written.
    Write,
    /// What was written could not be made to last, or how far the reader is could not be kept.
    State,
}

impl ListingFault {
    /// The reason by which the program reports it: those of the reader's fault, 42, 43 or 53.
    pub fn reason(self) -> Reason
        ensures { result ≡ listing_reason self }
    {
        match self {
            ListingFault::Reader(fault) => fault.reason(),
            ListingFault::Read => Reason::Read,
            ListingFault::Write => Reason::Write,
            ListingFault::State => Reason::State,
        }
    }

    /// What it is in a sentence, if its reason's own sentence doesn't say it.
    pub fn cause(self) -> Option<&'static str> {
        match self {
            ListingFault::Reader(fault) => fault.cause(),
            ListingFault::Read => Some("the connection ended before the end of the transfer"),
            _ => None,
        }
    }
}
