//! What is wrong with a file of records.
ghost use Rattle.std.specs.Prelude.{◌≡◌};
ghost use Rattle.record_check.specs.Listing.{file_reason};

use mseed_header::RecordFault;
use protocol::reason::Reason;

/// What is wrong with a file of records.
#[derive(Clone, Copy, PartialEq, Eq, Drop)]
pub enum FileFault {
    /// A record is refused. This is why the first of them is none.
    Record(RecordFault),
    /// A record is refused because its station is not one of those that are expected.
    Station,
    /// No record is refused, and bytes are left over.
    Partial,
}

impl FileFault {
    /// The reason by which the program reports it: those of the record's fault, 1 to 6, or 32 or 41.
    pub fn reason(self) -> Reason
        ensures { result ≡ file_reason self }
    {
        match self {
            FileFault::Record(fault) => fault.reason(),
            FileFault::Station => Reason::UnknownStation,
            FileFault::Partial => Reason::Partial,
        }
    }

    /// What it is in a sentence, if its reason's own sentence doesn't say it.
    pub fn cause(self) -> Option<&'static str> {
        match self {
            FileFault::Record(_) => None,
            FileFault::Station => Some("no station has the record's network and station codes"),
            FileFault::Partial => Some("the file ends inside a record"),
        }
    }
}
