//! The last packets of stations, after which a later reader goes on.
ghost use Rattle.std.specs.Prelude.{◌≡◌, ◌++◌, [], OnOk};
ghost use Rattle.slreader.specs.Lasts.{last_at, last_before};

use crate::spelling::{NETWORK, STATION, is_code};
use crate::tally::{Reached, Tally};
use crate::want::Want;
use std::alloc::{AllocError, Global};
use std::marker::Model;

/// The last packet of a station that a reader was given.
#[derive(Drop)]
pub struct LastPacket {
    network: Vec<u8>,
    station: Vec<u8>,
    reached: Reached,
}

impl Model for LastPacket {
    ghost use Rattle.slreader.specs.Lasts.{LastValue};

    ghost Value = { LastValue };

    ghost view = { λ l. record { network = l.network.items; station = l.station.items; reached = l.reached } };
}

impl LastPacket {
    ghost use Rattle.std.specs.Prelude.{◌≡◌, IfOk};
    ghost use Rattle.slreader.specs.Lasts.{is_last_of, is_named};

    /// The last packet of the station with these codes.
    pub fn new(
        alloc: Global,
        network: &[u8],
        station: &[u8],
        reached: Reached,
    ) -> Result<LastPacket, AllocError>
        ensures { IfOk result
            (λ l. l ≡ record { network = network.now; station = station.now; reached = reached }) }
    {
        Ok(LastPacket {
            network: Vec::from_slice(alloc, network)?,
            station: Vec::from_slice(alloc, station)?,
            reached,
        })
    }

    /// The network's code.
    pub fn network(&self) -> &[u8]
        ensures { result.now ≡ self.now.network }
    {
        self.network.as_slice()
    }

    /// The station's code.
    pub fn station(&self) -> &[u8]
        ensures { result.now ≡ self.now.station }
    {
        self.station.as_slice()
    }

    /// Its number, and the end of its record.
    pub fn reached(&self) -> Reached
        ensures { result ≡ self.now.reached }
    {
        self.reached
    }

    /// Whether its codes are those of a station.
    pub fn is_named(&self) -> bool
        ensures { result ≡ is_named self.now }
    {
        is_code(NETWORK, self.network.as_slice()) && is_code(STATION, self.station.as_slice())
    }

    /// Whether it is of the station with these codes.
    pub fn is_of(&self, network: &[u8], station: &[u8]) -> bool
        ensures { result ≡ is_last_of network.now station.now self.now }
    {
        self.network.as_slice() == network && self.station.as_slice() == station
    }
}

/// The first of the last packets that is of that station.
pub fn last_at(network: &[u8], station: &[u8], lasts: &[LastPacket]) -> Option<Reached>
    ensures { result ≡ last_at network.now station.now lasts.now }
{
    for last in lasts {
        if last.is_of(network, station) {
            return Some(last.reached());
        }
    }
    None
}

/// Adds the last packet of a want's station, if there is one.
fn put_last(
    alloc: Global,
    lasts: &mut Vec<LastPacket>,
    want: &Want<'_>,
    reached: Option<Reached>,
) -> Result<(), AllocError>
    ensures { OnOk result (lasts.new.items ≡ lasts.old.items ++ last_before want.now reached []) }
{
    if let Some(reached) = reached {
        lasts.push(LastPacket::new(alloc, want.network, want.station, reached)?)?;
    }
    Ok(())
}

impl Tally {
    ghost use Rattle.std.specs.Prelude.{◌≡◌, IfOk};
    ghost use Rattle.slreader.specs.Lasts.{lasts_of};

    /// The last packets of the wants' stations, in the order of the wants.
    pub fn lasts(&self, alloc: Global, wants: &[Want<'_>]) -> Result<Vec<LastPacket>, AllocError>
        ensures { IfOk result (λ lasts. lasts.items ≡ lasts_of self.now wants.now) }
    {
        let mut lasts = Vec::new(alloc);
        for (index, want) in wants.iter().enumerate() {
            put_last(alloc, &mut lasts, want, self.reached(index))?;
        }
        Ok(lasts)
    }
}
