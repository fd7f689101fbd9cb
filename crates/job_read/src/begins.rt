//! Stations of which all records are asked for from a number on, and whether the server begins with that.
ghost use Rattle.std.specs.Prelude.{◌≡◌};
ghost use Rattle.job_read.specs.Begins.{begin_told};

use crate::hearing::are_whole;
use crate::notices::{Notice, Teller};
use crate::together::{is_same_station, number_in};
use sl_packet::Seq;
use slreader::{GivenPacket, Tally, Want};
use std::alloc::{AllocError, Global};

/// A number that is asked for and not held, and the one with which the server begins in its place.
#[derive(Clone, Copy)]
struct OtherBegin {
    asked: Seq,
    first: Seq,
}

/// What is told of a station that is asked for from a number on, at its first packet. With 0 all that is held is meant.
fn begin_told(asked: Seq, first: Seq) -> Option<OtherBegin>
    ensures { result ≡ begin_told asked first }
{
    if asked.value() == 0 || asked.value() == first.value() {
        None
    } else {
        Some(OtherBegin { asked, first })
    }
}

/// A want whose first packet is still to come, by its place, and the number that it asks for.
#[derive(Clone, Copy, Drop)]
struct Awaited {
    want: usize,
    asked: Seq,
}

/// The wants whose first packet is still to come, of those that ask for all records of a station from a number on.
#[derive(Drop)]
pub struct Begins {
    awaited: Vec<Awaited>,
}

/// Whether a want is of a station.
pub fn is_of(want: &Want<'_>, network: &[u8], station: &[u8]) -> bool {
    want.station == station && want.network == network
}

/// The number that is asked for of the station of a want, if this is the last of its wants, all records of it are asked
/// for, and nothing of it was read before.
fn awaited_of(wants: &[Want<'_>], at: usize, tally: &Tally) -> Option<Seq> {
    let want = wants.get(at)?;
    if wants[at + 1..]
        .iter()
        .any(|later| is_same_station(later, want))
    {
        return None;
    }
    if tally.reached(at).is_none() && are_whole(want.network, want.station, wants) {
        number_in(&want.action)
    } else {
        None
    }
}

impl Begins {
    /// None is awaited.
    pub fn none(alloc: Global) -> Begins {
        Begins {
            awaited: Vec::new(alloc),
        }
    }

    /// Before the first packet, after what was counted.
    pub fn new(alloc: Global, wants: &[Want<'_>], tally: &Tally) -> Result<Begins, AllocError> {
        let mut awaited = Vec::new(alloc);
        for want in 0..wants.len() {
            if let Some(asked) = awaited_of(wants, want, tally) {
                awaited.push(Awaited { want, asked })?;
            }
        }
        Ok(Begins { awaited })
    }

    /// The number that is asked for of a station, if its first packet is still to come. It came.
    fn take(&mut self, wants: &[Want<'_>], network: &[u8], station: &[u8]) -> Option<Seq> {
        for (at, awaited) in self.awaited.iter().enumerate() {
            let Awaited { want, asked } = *awaited;
            if let Some(want) = wants.get(want)
                && is_of(want, network, station)
            {
                self.awaited.swap_remove(at);
                return Some(asked);
            }
        }
        None
    }

    /// A packet came. If it is the first of its station and has not the number that is asked for, that is told.
    pub fn hear<T: Teller>(
        &mut self,
        wants: &[Want<'_>],
        packet: &GivenPacket<'_>,
        teller: &mut T,
    ) {
        if self.awaited.is_empty() {
            return;
        }
        let (Some(first), Some(header)) = (Seq::parse(&packet.bytes()[2..8]), packet.header())
        else {
            return;
        };
        let (network, station) = (header.network(), header.station());
        let Some(asked) = self.take(wants, network, station) else {
            return;
        };
        if let Some(OtherBegin { asked, first }) = begin_told(asked, first) {
            teller.tell(&Notice::OtherBegin {
                network,
                station,
                asked,
                first,
            });
        }
    }
}
