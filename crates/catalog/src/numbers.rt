//! Numbers that are kept for stations from one run of a server to the next.
ghost use Rattle.std.specs.Prelude.{◌≡◌, ◌≤◌, IfOk, length, map};
ghost use Rattle.protocol.specs.Catalog.{has_codes};
ghost use Rattle.catalog.specs.Numbers.{entry_by, first_by, numbered};

use crate::station::Station;
use sl_packet::Seq;
use std::alloc::{AllocError, Global};
use std::marker::Model;

/// A number that is kept for the station with these codes: that of the first record that it is to have.
#[derive(Drop)]
pub struct KeptNumber {
    network: Vec<u8>,
    code: Vec<u8>,
    next: Seq,
}

impl Model for KeptNumber {
    ghost use Rattle.catalog.specs.Numbers.{Numbered};

    ghost Value = { Numbered };

    ghost view = { λ n. record { network = n.network.items; code = n.code.items; next = n.next } };
}

impl KeptNumber {
    /// The number of the station with these codes.
    pub fn new(network: Vec<u8>, code: Vec<u8>, next: Seq) -> KeptNumber
        ensures { result ≡ record { network = network.items; code = code.items; next = next } }
    {
        KeptNumber {
            network,
            code,
            next,
        }
    }

    /// The first number of a station. Only memory can lack.
    pub fn of(alloc: Global, station: &Station) -> Result<KeptNumber, AllocError>
        ensures { IfOk result (λ number. number ≡ numbered station.now) }
    {
        let network = station.network().to_vec(alloc)?;
        let code = station.code().to_vec(alloc)?;
        Ok(KeptNumber {
            network,
            code,
            next: station.first(),
        })
    }

    /// The same number once more. Only memory can lack.
    pub fn copy(&self, alloc: Global) -> Result<KeptNumber, AllocError>
        ensures { IfOk result (λ copy. copy ≡ self.now) }
    {
        let network = self.network().to_vec(alloc)?;
        let code = self.code().to_vec(alloc)?;
        Ok(KeptNumber {
            network,
            code,
            next: self.next,
        })
    }

    /// The network code.
    pub fn network(&self) -> &[u8]
        ensures { result.now ≡ self.now.network }
    {
        self.network.as_slice()
    }

    /// The station's code.
    pub fn code(&self) -> &[u8]
        ensures { result.now ≡ self.now.code }
    {
        self.code.as_slice()
    }

    /// The number.
    pub fn next(&self) -> Seq
        ensures { result ≡ self.now.next }
    {
        self.next
    }

    /// Another number for the same station.
    pub fn set_next(&mut self, next: Seq)
        ensures { self.new ≡ record self.old { next = next } }
    {
        self.next = next;
    }

    /// Whether it is kept for a station.
    pub fn is_of(&self, station: &Station) -> bool
        ensures { result ≡ has_codes self.now.network self.now.code station.now.station }
    {
        station.has_codes(self.network(), self.code())
    }
}

/// The first number of a station: the first that is kept for its codes, or else its own.
fn first_by(kept: &[KeptNumber], station: &Station) -> Seq
    ensures { result ≡ first_by kept.now station.now.station }
{
    for number in kept {
        if number.is_of(station) {
            return number.next();
        }
    }
    station.first()
}

/// Has stations begin with the numbers that are kept for them.
pub(crate) fn begin_at(stations: &mut Vec<Station>, kept: &[KeptNumber])
    ensures { stations.new.items ≡ map (entry_by kept.now) stations.old.items }
{
    for station in stations.iter_mut() {
        let first = first_by(kept, station);
        station.begin_at(first);
    }
}
