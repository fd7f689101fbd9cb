//! Why no sockets can be listened on.
ghost use Rattle.std.specs.Prelude.{◌≡◌};
ghost use Rattle.ports_socket.specs.Faults.{fault_of, listen_reason};

use protocol::reason::Reason;
use std::io;

/// Why no sockets can be listened on.
#[derive(Clone, Copy, Drop)]
pub enum ListenFault {
    /// Out of memory.
    OutOfMemory,
    /// An address can't be listened on: its port is taken, it is not an address of this machine, or the system lets the
    /// program have no socket.
    Listen,
}

impl ListenFault {
    /// The reason by which the program reports it: 25 or 46.
    pub fn reason(self) -> Reason
        ensures { result ≡ listen_reason self }
    {
        match self {
            ListenFault::OutOfMemory => Reason::OutOfMemory,
            ListenFault::Listen => Reason::Listen,
        }
    }
}

/// Why no sockets can be listened on, and what the system says of it.
#[derive(Debug, Drop)]
pub enum ListenError {
    /// Out of memory.
    OutOfMemory,
    /// The address for clients can't be listened on, or the system has nothing by which sockets are waited for.
    Clients(io::Error),
    /// The address for feeds can't be listened on.
    Feeds(io::Error),
}

impl ListenError {
    /// The fault as the program reports it.
    pub fn fault(&self) -> ListenFault
        ensures { result ≡ fault_of self.now }
    {
        match self {
            ListenError::OutOfMemory => ListenFault::OutOfMemory,
            ListenError::Clients(_) => ListenFault::Listen,
            ListenError::Feeds(_) => ListenFault::Listen,
        }
    }
}
