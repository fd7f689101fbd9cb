//! Whose an open port is.
ghost use Rattle.std.specs.Prelude.{◌≡◌};
ghost use Rattle.ports_socket.specs.Doors.{other_kind};

use std::net::Ipv4Addr;

/// Whose connection it is.
#[derive(Clone, Copy, Drop)]
pub enum PeerKind {
    Client,
    Feed,
}

impl PeerKind {
    /// The other one.
    pub fn other(self) -> PeerKind
        ensures { result ≡ other_kind self }
    {
        match self {
            PeerKind::Client => PeerKind::Feed,
            PeerKind::Feed => PeerKind::Client,
        }
    }
}

/// Whose an open port is.
#[derive(Clone, Copy, Drop)]
pub struct Peer {
    pub number: u64,
    pub kind: PeerKind,
    /// The address that the system reported for its connection.
    pub address: Ipv4Addr,
}
