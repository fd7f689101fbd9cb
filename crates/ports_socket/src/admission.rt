//! Whose connections are taken.
ghost use Rattle.std.specs.Prelude.{◌≡◌, ◌↔◌, IsTrue, None};
ghost use Rattle.ports_socket.specs.Admissions.{IsFeeder, IsFewer};

use access_list::AccessList;
use std::net::Ipv4Addr;

/// Whose connections are taken.
#[derive(Drop)]
pub struct Admission {
    /// Feeds are taken from the addresses of this list alone, or from all if there is none.
    pub feed_from: Option<AccessList>,
    /// So many clients of one address may be connected at once, or any number if there is none.
    pub per_address: Option<usize>,
}

impl Admission {
    /// All connections are taken.
    pub fn of_all() -> Admission
        ensures { result ≡ record { feed_from = None; per_address = None } }
    {
        Admission {
            feed_from: None,
            per_address: None,
        }
    }

    /// Whether a client is taken from an address that has so many.
    pub fn takes_client_beside(&self, clients: usize) -> bool
        ensures { IsTrue result ↔ IsFewer self.now.per_address clients }
    {
        match self.per_address {
            Some(most) => clients < most,
            None => true,
        }
    }

    /// Whether feeds from an address are taken.
    pub fn takes_feeds_from(&self, address: Ipv4Addr) -> bool
        ensures { IsTrue result ↔ IsFeeder self.now.feed_from address }
    {
        match &self.feed_from {
            Some(list) => list.allows(address),
            None => true,
        }
    }
}
