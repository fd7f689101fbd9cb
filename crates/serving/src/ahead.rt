//! Numbers that are kept for a later run.
//!
//! There are three steps, 1,024, 8,192 and 65,536 records. A turn brings at most 1,024 records, and a kept number has
//! to be further ahead than that. A restart of a young station then uses up few numbers, 2,048, so a station comes
//! round after 8,192 runs of few records. From 8,192 records of a station on the step is 8,192, and from 65,536 on it
//! is 65,536: else a server would wait for its disk again and again in a flood.
ghost use Rattle.std.specs.Prelude.{◌≡◌, ◌≤◌, ◌+◌, ◌%◌, ℕ, length, slice_get};
ghost use Rattle.protocol.specs.Packet.{numbers};
ghost use Rattle.protocol.specs.Catalog.{Config as ProtocolConfig};
ghost use Rattle.protocol.specs.History.{Arrival};
ghost use Rattle.std.specs.Prelude.{List};
ghost use Rattle.station_ring.specs.HeldRecords.{holdings_of};
ghost use Rattle.serving.specs.Ahead.{ahead, ahead_of, number_ahead, numbers_ahead};

use sl_packet::Seq;
use station_ring::Rings;

/// The number that is kept of a station with few records is kept anew each time that so many more came.
const STEP: u64 = 1_024;

/// From so many records of a station on, its number is kept anew each time that so many more came.
const LATER_STEP: u64 = 8_192;

/// From so many on, each time that so many more came.
const LAST_STEP: u64 = 65_536;

/// Numbers are those below this one.
const NUMBERS: u32 = 0x100_0000;

/// The numbers that are to be kept, of each station in the order of the configuration: each so far ahead of the
/// station's next number that the records of a turn don't reach it. It depends on the station's first number and on
/// how many of its own records came, and on nothing else.
#[derive(Clone, Copy)]
pub struct NumbersAhead<'a> {
    rings: &'a Rings,
}

impl<'a> NumbersAhead<'a> {
    /// Those of what a server holds.
    pub fn of(rings: &'a Rings) -> NumbersAhead<'a>
        ensures { (config : ProtocolConfig) (h : List Arrival) → rings.entry.now ≡ holdings_of config h →
            ahead_of result ≡ numbers_ahead config h }
    {
        NumbersAhead { rings }
    }

    /// How many stations there are.
    pub fn count(&self) -> usize
        ensures { result ≡ length (ahead_of self.now) }
    {
        self.rings.count()
    }

    /// The number of the station at a place, where one is there.
    pub fn number(&self, place: usize) -> Option<Seq>
        ensures { result ≡ slice_get (ahead_of self.now) place }
    {
        match self.rings.ring(place) {
            Some(ring) => Some(number_ahead(ring.next_number(), ring.pushes())),
            None => None,
        }
    }
}

/// The number that is kept of a station whose next record is to have that number, after so many records.
fn number_ahead(next: Seq, count: u64) -> Seq
    ensures { (first : ℕ) → next ≡ (first + count) % numbers → result ≡ number_ahead first count }
{
    Seq::of((next.value() + gap(count)) % NUMBERS).unwrap()
}

/// How far it is ahead of the next one.
fn gap(count: u64) -> u32
    ensures ahead { count + result ≡ ahead count }
    ensures few { result ≤ 131072 }
{
    if count < LATER_STEP {
        (2 * STEP - count % STEP) as u32
    } else if count < LAST_STEP {
        (2 * LATER_STEP - count % LATER_STEP) as u32
    } else {
        (2 * LAST_STEP - count % LAST_STEP) as u32
    }
}
