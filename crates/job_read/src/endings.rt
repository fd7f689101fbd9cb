//! Why a reading over a connection ends, and whether another connection is made.
ghost use Rattle.std.specs.Prelude.{◌≡◌};
ghost use Rattle.job_read.specs.Endings.{goes_on, is_mendable, is_wrong, lost, transfer_reason, unlisted};

use crate::places::Places;
use incidents::Failure;
use protocol::reason::Reason;
use reader_run::ListingFault;

/// Why a transfer was not listed to its end.
#[derive(Clone, Copy, Drop)]
pub enum TransferFault {
    /// The server ended the connection before it had answered HELLO.
    Unanswered,
    /// The server owed a connection, an answer or the rest of a packet, and was silent for too long.
    Silent,
    /// Anything else that a listing meets.
    Listing(ListingFault),
}

impl TransferFault {
    /// The reason by which the program reports it: 42, or that of the listing.
    pub fn reason(self) -> Reason
        ensures { result ≡ transfer_reason self }
    {
        match self {
            TransferFault::Unanswered | TransferFault::Silent => Reason::Read,
            TransferFault::Listing(fault) => fault.reason(),
        }
    }

    /// What it is in a sentence, if its reason's own sentence doesn't say it.
    fn cause(self) -> Option<&'static str> {
        match self {
            TransferFault::Unanswered => Some(
                "the connection ended before HELLO was answered; perhaps the server takes no client from here now",
            ),
            TransferFault::Silent => Some(
                "the server was silent for too long, though a connection, an answer or the rest of a packet was due",
            ),
            TransferFault::Listing(fault) => fault.cause(),
        }
    }

    /// It, as the program reports it.
    pub fn failure(self) -> Failure
        ensures { result.reason ≡ transfer_reason self }
    {
        Failure::by(self.reason(), self.cause())
    }
}

/// Whether another connection may mend what has that reason: none could be made, or it ended before the end of the
/// transfer.
fn is_mendable(reason: Reason) -> bool
    ensures { result ≡ is_mendable reason }
{
    matches!(reason, Reason::Connect | Reason::Read)
}

/// Whether another server may mend it: this one answers what a SeedLink server never does, or refuses all that is
/// asked.
fn is_wrong(reason: Reason) -> bool
    ensures { result ≡ is_wrong reason }
{
    matches!(
        reason,
        Reason::NotAPacket | Reason::BadReply | Reason::AllRefused
    )
}

/// Whether the next server is asked after the one at a place failed for that reason, or the first one again.
pub fn goes_on(reason: Reason, places: &Places, is_retried: bool) -> bool
    ensures { result ≡ goes_on reason places.now.place places.now.count is_retried }
{
    (is_mendable(reason) || (is_wrong(reason) && places.has_others()))
        && (is_retried || !places.is_last())
}

/// Why packets were not listed to the end, by whether HELLO was answered before, and whether the server was silent for
/// too long.
pub fn unlisted(fault: ListingFault, is_answered: bool, is_silent: bool) -> TransferFault
    ensures { result ≡ unlisted fault is_answered is_silent }
{
    match fault {
        ListingFault::Read => lost(is_answered, is_silent),
        _ => TransferFault::Listing(fault),
    }
}

/// The connection ended before the end of the transfer.
fn lost(is_answered: bool, is_silent: bool) -> TransferFault
    ensures { result ≡ lost is_silent is_answered }
{
    if is_silent {
        TransferFault::Silent
    } else if is_answered {
        TransferFault::Listing(ListingFault::Read)
    } else {
        TransferFault::Unanswered
    }
}
