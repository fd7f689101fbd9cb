//! How many clients of each address are connected.
ghost use Rattle.std.specs.Prelude.{◌≡◌, ◌<◌, [], OnErr, OnOk, nat_le, nat_lt};
ghost use Rattle.ports_socket.specs.Hosts.{Ascend, IsCounted, IsUncounted, Parts, clients_of};

use std::alloc::{AllocError, Global};
use std::marker::Model;

/// The addresses of the connected clients, as numbers. They rise, and each stands there as often as it has clients, so
/// that they are counted by halving.
#[derive(Drop)]
pub struct Hosts {
    addresses: Vec<u32>,
}

impl Model for Hosts {
    ghost use Rattle.std.specs.Prelude.{ℕ, List};
    ghost use Rattle.ports_socket.specs.Hosts.{Ascend};

    ghost Value = { List ℕ };

    ghost view = { λ h. h.addresses.items };

    ghost invariant = { λ h. Ascend h.addresses.items };
}

/// The place of the first number that is not below one.
fn place_below(addresses: &[u32], address: u32) -> usize
    requires { Ascend addresses.now }
    ensures { Parts (λ x. nat_lt x address) addresses.now result }
{
    addresses.partition_point(|other| *other < address)
}

/// The place of the first number that is above one.
fn place_above(addresses: &[u32], address: u32) -> usize
    requires { Ascend addresses.now }
    ensures { Parts (λ x. nat_le x address) addresses.now result }
{
    addresses.partition_point(|other| *other <= address)
}

impl Hosts {
    /// Nobody is connected.
    pub fn new(alloc: Global) -> Hosts
        ensures { result ≡ [] }
    {
        Hosts {
            addresses: Vec::new(alloc),
        }
    }

    /// How many clients an address has.
    pub fn count(&self, address: u32) -> usize
        ensures { result ≡ clients_of address self.now }
    {
        let from = place_below(self.addresses.as_slice(), address);
        let to = place_above(self.addresses.as_slice(), address);
        to - from
    }

    /// An address has one client more. It fails only for want of memory, and then nothing changes.
    pub fn add(&mut self, address: u32) -> Result<(), AllocError>
        ensures ok { OnOk result (IsCounted address self.old self.new) }
        ensures err { OnErr result (self.new ≡ self.old) }
    {
        let at = place_above(self.addresses.as_slice(), address);
        match self.addresses.insert(at, address) {
            Ok(()) => Ok(()),
            Err(_) => Err(AllocError),
        }
    }

    /// An address that has a client has one less.
    pub fn remove(&mut self, address: u32)
        requires { 0 < clients_of address self.old }
        ensures { IsUncounted address self.old self.new }
    {
        let at = place_below(self.addresses.as_slice(), address);
        let _gone = self.addresses.remove(at);
    }
}
