//! Addresses on which a server can't listen.
ghost use Rattle.std.specs.Prelude.{◌≡◌};
ghost use Rattle.ports_socket.specs.Faults.{fault_of, listen_reason};
ghost use Rattle.protocol.specs.declared.reason.Reason.TheVariants.{Listen};

use incidents::{Failure, Incident, Place};
use job_base::ServerAddress;
use ports_socket::ListenError;
use protocol::reason::Reason;
use std::io;

/// An address that can't be listened on, for the system's reason.
pub fn unlistened<'a>(address: ServerAddress<'a>, reason: io::Error) -> Incident<'a>
    ensures { result.failure.reason ≡ Listen }
{
    Failure::of(Reason::Listen)
        .at(Place::Address(address.word))
        .because(reason)
}

/// Two addresses, for clients and for feeds, of which one can't be listened on.
pub fn unlistened_for<'a>(
    clients: ServerAddress<'a>,
    feeds: ServerAddress<'a>,
    error: ListenError,
) -> Incident<'a>
    ensures { result.failure.reason ≡ listen_reason (fault_of error) }
{
    match error {
        ListenError::OutOfMemory => Incident::out_of_memory(),
        ListenError::Clients(reason) => unlistened(clients, reason),
        ListenError::Feeds(reason) => unlistened(feeds, reason),
    }
}
