//! What ports answer.
ghost use Rattle.std.specs.Prelude.{◌≡◌, codes};

use protocol::reason::Reason;
use std::net::Ipv4Addr;

/// What happened at some port.
#[derive(Clone, Copy, Drop)]
pub enum Happening {
    /// A client joined at a port, from an address.
    Joined(u64, Ipv4Addr),
    /// A feed joined at a port.
    JoinedFeed(u64),
    /// A port may be read.
    Readable(u64),
    /// A port may be written to.
    Writable(u64),
    /// Nothing more happened for now.
    Quiet,
}

/// What a read gives.
#[derive(Clone, Copy, Drop)]
pub enum Got {
    /// So many bytes, 1 to the buffer's length, at the beginning of the buffer.
    Bytes(usize),
    /// Nothing for now.
    Later,
    /// Nothing more: the other side has ended.
    Closed,
}

/// What a write takes.
#[derive(Clone, Copy, Drop)]
pub enum Put {
    /// The first so many bytes, 0 to all.
    Took(usize),
    /// Nothing for now.
    Later,
}

/// A call on the ports failed.
#[derive(Clone, Copy, Drop)]
pub struct PortFault;

impl PortFault {
    /// The reason by which the program reports it: 48 Device.
    pub fn reason(self) -> Reason
        ensures { result ≡ Reason.Device }
    {
        Reason::Device
    }
}
