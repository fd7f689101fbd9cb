//! The rings of all stations.
ghost use Rattle.std.specs.Prelude.{◌≡◌, ◌≢◌, ◌≤◌, ◌<◌, ◌^◌, ◌+◌, ◌-◌, [], ◌∷◌, ◌++◌, List, ℕ, length, map, take};
ghost use Rattle.std.specs.Prelude.{slice_get, slice_set, option_map, IfOk, IfSome, Some, None, true, if◌then◌else◌};
ghost use Rattle.protocol.specs.Catalog.{Config as ProtocolConfig, Station};
ghost use Rattle.protocol.specs.History.{Arrival, is_of, number_at as number_in_history, oldest_held, held_with_number};
ghost use Rattle.protocol.specs.History.{from_number};
ghost use Rattle.catalog.specs.Places.{station_at, HasDistinctCodes};
ghost use Rattle.station_ring.specs.Rings.{RingValue, pushed, number_at, place_with};
ghost use Rattle.station_ring.specs.HeldRecords.{AllGrow, AreBehind, GrowByOne, IsBefore, IsBehind, holdings_of};
ghost use Rattle.station_ring.specs.HeldRecords.{next_numbers, numbers_after, place_from, ring_of, summary_of};
ghost use Rattle.station_ring.specs.Levels.{is_raise, raises_after, raises_in, raises_of};

use crate::held::Summary;
use crate::ring::Ring;
use catalog::Config;
use sl_packet::Seq;
use std::alloc::{AllocError, Global};
use std::marker::Model;

/// How many records of a station raise its level each time, as long as there are fewer than the next number.
const RAISE_EVERY: u64 = 1_024;

/// From so many records of a station on, so many raise its level each time, up to the next number.
const RAISE_LATER: u64 = 8_192;

/// From so many records of a station on, so many raise its level each time.
const RAISE_LAST: u64 = 65_536;

/// A ring for each station of a configuration, at the station's place, how many records arrived at all of them, and how
/// far they have come: the levels of all stations together.
#[derive(Drop)]
pub struct Rings {
    rings: Vec<Ring>,
    arrivals: u64,
    raises: u64,
    latest: usize,
}

impl Model for Rings {
    ghost use Rattle.station_ring.specs.HeldRecords.{RingsValue};
    ghost use Rattle.station_ring.specs.Levels.{IsCounted};

    ghost Value = { RingsValue };

    ghost view = { λ s. record { rings = s.rings.items; arrivals = s.arrivals } };

    ghost invariant = { λ s. IsCounted s.arrivals s.raises s.rings.items };
}

impl Rings {
    /// Rings that hold nothing yet, one for each station. It fails only where there is no memory for them.
    #[tactic(auto, unfolding(crate::specs::HeldRecords::holdings_of))]
    pub fn new(alloc: Global, config: &Config) -> Result<Rings, AllocError>
        ensures { IfOk result (λ rings. rings ≡ holdings_of config.now []) }
    {
        let mut rings = Vec::new(alloc);
        for station in config.stations() {
            rings.push(Ring::new(alloc, station.capacity(), station.first())?)?;
        }
        Ok(Rings {
            rings,
            arrivals: 0,
            raises: 0,
            latest: 0,
        })
    }

    /// How many records arrived.
    #[tactic(auto, unfolding(crate::specs::HeldRecords::holdings_of))]
    pub fn arrivals(&self) -> u64
        ensures value { result ≡ self.now.arrivals }
        ensures count { (config : ProtocolConfig) (h : List Arrival) → self.now ≡ holdings_of config h
            → result ≡ length h }
        ensures behind { AreBehind result self.now.rings }
    {
        let _ = &self.rings;
        self.arrivals
    }

    /// How far the stations' records have come: the levels of all stations together, each by how many of its own
    /// records arrived. Each time that a number has to be kept anew for some station, this rises.
    pub fn raises(&self) -> u64
        ensures value { result ≡ raises_in self.now }
        ensures history { (config : ProtocolConfig) (h : List Arrival) → self.now ≡ holdings_of config h
            → result ≡ raises_after config h }
    {
        self.raises
    }

    /// The ring of the station at a place, where one is there. Its stamps are positions in the history.
    pub fn ring(&self, place: usize) -> Option<&Ring>
        ensures ring { option_map (λ ring. ring.now) result ≡ slice_get self.now.rings place }
        ensures behind { IfSome result (λ ring. IsBehind self.now.arrivals ring.now) }
    {
        let _ = self.arrivals;
        self.rings.get(place)
    }

    /// The place of the station at which the last record arrived, or 0 before the first one. No ring says which of them
    /// it was, so that who asks looks at that ring.
    pub fn latest(&self) -> usize {
        self.latest
    }

    /// How many stations have a ring.
    pub fn count(&self) -> usize
        ensures { result ≡ length self.now.rings }
    {
        let _ = self.arrivals;
        self.rings.len()
    }

    /// The number that the next record of the station at a place is to have, where one is there.
    pub fn next_number(&self, place: usize) -> Option<Seq>
        ensures ring { result ≡ slice_get (next_numbers self.now) place }
        ensures history { (config : ProtocolConfig) (h : List Arrival) → self.now ≡ holdings_of config h →
            result ≡ slice_get (numbers_after config h) place }
    {
        match self.ring(place) {
            Some(ring) => Some(ring.next_number()),
            None => None,
        }
    }

    /// A record of the station at a place arrives, and has that station's next number. It takes no memory.
    ///
    /// Fewer than 2^64 - 1 records arrived before.
    pub fn arrive(&mut self, place: usize, bytes: &[u8; 512], summary: Summary) -> Seq
        requires there { place < length self.old.rings }
        requires countable { self.old.arrivals < 2 ^ 64 - 1 }
        ensures holds { (config : ProtocolConfig) (h : List Arrival) (a : Arrival) → self.old ≡ holdings_of config h →
            HasDistinctCodes config.entries → is_of (station_at config.entries place) a ≡ true →
            a.bytes ≡ bytes.now → summary_of a.facts ≡ summary → self.new ≡ holdings_of config (h ++ a ∷ []) }
        ensures number { (config : ProtocolConfig) (h : List Arrival) → self.old ≡ holdings_of config h →
            result ≡ number_in_history (station_at config.entries place) h (length h) }
        ensures count { length self.new.rings ≡ length self.old.rings }
        ensures arrivals { self.new.arrivals ≡ self.old.arrivals + 1 }
        ensures grow { AllGrow self.old.rings self.new.rings }
        ensures by_one { GrowByOne self.old.rings self.new.rings }
        ensures others { (other : ℕ) → other ≢ place → slice_get self.new.rings other ≡ slice_get self.old.rings other }
    {
        let pushed = push_at(
            self.rings.as_mut_slice(),
            place,
            self.arrivals,
            bytes,
            summary,
        );
        self.arrivals += 1;
        self.raises += u64::from(pushed.is_raise);
        self.latest = place;
        pushed.number
    }

    /// The position of the oldest held record of the station at a place, or that of the next arrival where none is
    /// held.
    pub fn oldest_held(&self, place: usize) -> u64
        ensures { (config : ProtocolConfig) (h : List Arrival) → self.now ≡ holdings_of config h →
            result ≡ oldest_held (station_at config.entries place) h }
    {
        match self.ring(place) {
            Some(ring) => oldest_of(ring, self.arrivals),
            None => self.arrivals,
        }
    }

    /// The position of the held record with a number, of the station at a place; else that of the next arrival where
    /// the number is the station's next one; else that of the oldest held record.
    pub fn from_number(&self, place: usize, number: Seq) -> u64
        ensures position { (config : ProtocolConfig) (h : List Arrival) → self.now ≡ holdings_of config h →
            result ≡ from_number (station_at config.entries place) h number }
        ensures before { (r : RingValue) → slice_get self.now.rings place ≡ Some r
            → IsBefore r (place_from r number) result }
    {
        match self.ring(place) {
            Some(ring) => from_number(ring, number, self.arrivals),
            None => self.arrivals,
        }
    }
}

/// What a push answers: the record's number, and whether it raised its station's level.
#[derive(Clone, Copy, Drop)]
struct Pushed {
    number: Seq,
    is_raise: bool,
}

/// Pushes a record to the ring at a place. Its stamp is the count of the records that arrived before.
fn push_at(
    rings: &mut [Ring],
    place: usize,
    arrivals: u64,
    bytes: &[u8; 512],
    summary: Summary,
) -> Pushed
    requires there { place < length rings.old }
    requires behind { AreBehind arrivals rings.old }
    requires countable { arrivals < 2 ^ 64 - 1 }
    ensures pushed { (r : RingValue) → slice_get rings.old place ≡ Some r →
        rings.new ≡ slice_set rings.old place
        (pushed r (record { stamp = arrivals; bytes = bytes.now; summary = summary })) }
    ensures number { (r : RingValue) → slice_get rings.old place ≡ Some r → result.number ≡ number_at r r.pushes }
    ensures raises { raises_of rings.new ≡ raises_of rings.old + (if result.is_raise then 1 else 0) }
    ensures behind { AreBehind (arrivals + 1) rings.new }
    ensures grow { AllGrow rings.old rings.new }
    ensures by_one { GrowByOne rings.old rings.new }
    ensures others { (other : ℕ) → other ≢ place → slice_get rings.new other ≡ slice_get rings.old other }
{
    let number = rings[place].push(arrivals, bytes, summary);
    Pushed {
        number,
        is_raise: is_raise(rings[place].pushes()),
    }
}

/// Whether the last of so many records of a station raised its level.
fn is_raise(count: u64) -> bool
    ensures { result ≡ is_raise count }
{
    if count < RAISE_LATER {
        count % RAISE_EVERY == 0
    } else if count < RAISE_LAST {
        count % RAISE_LATER == 0
    } else {
        count % RAISE_LAST == 0
    }
}

/// The position of the oldest held record, or that of the next arrival where none is held.
fn oldest_of(ring: &Ring, arrivals: u64) -> u64
    ensures { (s : Station) (h : List Arrival) → ring.now ≡ ring_of s h → arrivals ≡ length h
        → result ≡ oldest_held s h }
{
    match ring.at_or_after(0) {
        Some((_place, held)) => held.stamp,
        None => arrivals,
    }
}

/// The position of the held record with a number.
fn position_with(ring: &Ring, number: Seq) -> Option<u64>
    ensures position { (s : Station) (h : List Arrival) → ring.now ≡ ring_of s h
        → result ≡ held_with_number s h number }
    ensures before { IfSome result (λ position. IsBefore ring.now (place_from ring.now number) position) }
    ensures none { result ≡ None → place_with ring.now number ≡ None }
{
    ring.holds_its_last();
    let place = ring.find(number)?;
    let held = ring.get(place)?;
    Some(held.stamp)
}

/// The position of the held record with a number; else that of the next arrival where the number is to be its; else
/// that of the oldest held record.
fn from_number(ring: &Ring, number: Seq, arrivals: u64) -> u64
    ensures position { (s : Station) (h : List Arrival) → ring.now ≡ ring_of s h → arrivals ≡ length h
        → result ≡ from_number s h number }
    ensures before { IsBehind arrivals ring.now → IsBefore ring.now (place_from ring.now number) result }
{
    match position_with(ring, number) {
        Some(position) => position,
        None if ring.next_number() == number => arrivals,
        None => oldest_of(ring, arrivals),
    }
}
