//! Who is at a port.
ghost use Rattle.std.specs.Prelude.{◌≡◌};
ghost use Rattle.ports_logged.specs.Decided.{over_of, present_of};
ghost use Rattle.ports_logged.specs.Visitors.{fresh, is_uncut, records_given};

use crate::traffic::Traffic;
use crate::visit::Visit;
use ports::{Party, PresentClient};
use protocol::limits::RECORD;
use std::net::Ipv4Addr;

/// Who is at a port, and what went over it.
#[derive(Clone, Copy, Drop)]
pub struct Visitor {
    pub port: u64,
    pub party: Party,
    /// When it came, in milliseconds since the server began.
    pub since: u64,
    pub traffic: Traffic,
}

impl Visitor {
    /// Who has just come.
    pub fn new(port: u64, party: Party, since: u64) -> Visitor
        ensures { result ≡ fresh port party since }
    {
        Visitor {
            port,
            party,
            since,
            traffic: Traffic::bytes_given(0),
        }
    }

    /// What is noted at the end, of a connection from an address: of a client the bytes that it took and
    /// the records that it lost, of a feed the whole records that it gave.
    pub fn end(self, address: Ipv4Addr) -> Visit
        ensures { result ≡ over_of address self }
    {
        let Visitor {
            port,
            party,
            since: _,
            traffic,
        } = self;
        match party {
            Party::Client => Visit::Close {
                port,
                address,
                bytes: traffic.taken,
                lost: traffic.lost,
                is_cut: traffic.cuts > 0,
            },
            Party::Feed => Visit::FeedOver {
                port,
                address,
                records: traffic.given / RECORD as u64,
                refused: traffic.refused,
            },
        }
    }
}

/// How many whole records a port gave, if somebody is there, and else 0.
pub fn records_given(visitor: Option<Visitor>) -> u64
    ensures { result ≡ records_given visitor }
{
    match visitor {
        Some(visitor) => visitor.traffic.given / RECORD as u64,
        None => 0,
    }
}

/// Whether somebody is there who was not cut yet.
pub fn is_uncut(visitor: Option<Visitor>) -> bool
    ensures { result ≡ is_uncut visitor }
{
    match visitor {
        Some(visitor) => visitor.traffic.cuts == 0,
        None => false,
    }
}

/// The client that somebody at a port is, whose connection came from an address, and the bytes that it took.
pub fn present_of(visitor: Option<Visitor>, address: Ipv4Addr) -> Option<PresentClient>
    ensures { result ≡ present_of address visitor }
{
    match visitor {
        Some(visitor) => Some(PresentClient {
            address,
            since: visitor.since,
            bytes: visitor.traffic.taken,
        }),
        None => None,
    }
}
