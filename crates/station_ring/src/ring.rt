//! Rings of records.
//!
//! The block of a ring's records is allocated when the ring is made. A push into a full ring writes the record over the
//! oldest one, so that its bytes are copied once, and moves no other. A place is reached by arithmetic from the count
//! of pushes, and a number by its distance from the oldest number, modulo 2^24. The ring lends the number of a place
//! too (`number_at`), which a packet needs, and tells its invariant by a call of its own (`holds_its_last`). Its stamps
//! are those of the caller, and rise.
ghost use Rattle.std.specs.Prelude.{◌≡◌, ℕ, ◌+◌, ◌-◌, ◌%◌, ◌^◌, ◌<◌, ◌≤◌, [], ◌∷◌, ◌++◌, length, slice_get, All};
ghost use Rattle.std.specs.Prelude.{IfOk};
ghost use Rattle.std.specs.Option.{option_map, option_copied};
ghost use Rattle.protocol.specs.Packet.{numbers};
ghost use Rattle.station_ring.specs.Rings.{place_among};

use crate::held::{Briefs, Held, Summary};
use crate::records::Records;
use sl_packet::Seq;
use std::alloc::{AllocError, Global};
use std::marker::Model;

/// Numbers are those below this one.
const NUMBERS: u64 = 0x100_0000;

/// The last records of a station, as many as its capacity. A place is the count of records that were pushed before
/// a record, from 0 on; a number is its place and the first number together, modulo 2^24.
///
/// The records lie in a block of a fixed size that is allocated once, and a push into a full ring overwrites the
/// oldest. No call goes through what is held: a place is reached by the count of pushes, and a number by its
/// distance from the oldest one. A search goes through the briefs, which lie in a block of their own.
#[derive(Drop)]
pub struct Ring {
    first: Seq,
    pushes: u64,
    held: Records,
}

impl Model for Ring {
    ghost use Rattle.station_ring.specs.Rings.{RingValue, IsRing};

    ghost Value = { RingValue };

    ghost view = { λ s.
        record { capacity = s.held.capacity; first = s.first; pushes = s.pushes; held = s.held.items } };

    ghost invariant = { λ s. IsRing
        (record { capacity = s.held.capacity; first = s.first; pushes = s.pushes; held = s.held.items }) };
}

impl Ring {
    ghost use Rattle.station_ring.specs.Rings.{IsRing, empty, pushed, first_place, oldest_place, number_at};
    ghost use Rattle.station_ring.specs.Rings.{place_with};
    ghost use Rattle.station_ring.specs.Rings.{held_at, held_from, Grows};
    ghost use Rattle.station_ring.specs.Briefs.{TellFrom};

    /// A ring that holds nothing yet: at most `capacity` records, 1 to 65,536, the first of which has the number
    /// `first`. It fails only where there is no memory for them.
    pub fn new(alloc: Global, capacity: usize, first: Seq) -> Result<Ring, AllocError>
        requires least { 1 ≤ capacity }
        requires most { capacity ≤ 65536 }
        ensures { IfOk result (λ r. r ≡ empty capacity first) }
    {
        let held = Records::with_capacity(alloc, capacity)?;
        let _below = first.value();
        Ok(Ring {
            first,
            pushes: 0,
            held,
        })
    }

    /// Pushes a record, and answers its number. A full ring lets its oldest record go. It takes no memory.
    ///
    /// The stamp is greater than that of every held record, and fewer than 2^64 - 1 records were pushed before.
    pub fn push(&mut self, stamp: u64, bytes: &[u8; 512], summary: Summary) -> Seq
        requires later { All (λ h. h.stamp < stamp) self.old.held }
        requires countable { self.old.pushes < 2 ^ 64 - 1 }
        ensures held { self.new ≡ pushed self.old (record { stamp = stamp; bytes = bytes.now; summary = summary }) }
        ensures number { result ≡ number_at self.old self.old.pushes }
        ensures latest { All (λ h. h.stamp ≤ stamp) self.new.held }
        ensures grows { Grows self.old self.new }
    {
        let number = self.next_number();
        self.held.push(stamp, bytes, summary);
        self.pushes += 1;
        number
    }

    /// How many records were pushed.
    pub fn pushes(&self) -> u64
        ensures { result ≡ self.now.pushes }
    {
        self.pushes
    }

    /// The place of the oldest held record; None where nothing was pushed yet.
    pub fn oldest(&self) -> Option<u64>
        ensures { result ≡ oldest_place self.now }
    {
        if self.held.len() == 0 {
            None
        } else {
            Some(self.first_place())
        }
    }

    /// The number that the next record is to have.
    pub fn next_number(&self) -> Seq
        ensures { result ≡ number_at self.now self.now.pushes }
    {
        self.number_at(self.pushes)
    }

    /// The number of the record that was, or is to be, pushed at that place.
    pub fn number_at(&self, place: u64) -> Seq
        ensures { result ≡ number_at self.now place }
    {
        number_of(self.first, place)
    }

    /// The held place with that number: None where no held record has it, as where it was let go or is still to
    /// come.
    pub fn find(&self, number: Seq) -> Option<u64>
        ensures { result ≡ place_with self.now number }
    {
        let start = self.first_place();
        let distance = distance(number_of(self.first, start), number);
        if distance < self.pushes - start {
            Some(start + distance)
        } else {
            None
        }
    }

    /// The held record at that place: None where it was let go or is still to come.
    pub fn get(&self, place: u64) -> Option<&Held>
        ensures { option_copied result ≡ held_at self.now place }
    {
        let first = self.first_place();
        if place < first {
            return None;
        }
        self.held.get((place - first) as usize)
    }

    /// The least held place that is not below that one, with its record: None where no such place is held.
    pub fn at_or_after(&self, place: u64) -> Option<(u64, &Held)>
        ensures { option_map (λ x. (x.0, x.1.now)) result ≡ held_from self.now place }
    {
        let place = place.max(self.first_place());
        let held = self.get(place)?;
        Some((place, held))
    }

    /// The briefs of the held records from a place on.
    pub fn briefs_from(&self, place: u64) -> Briefs<'_>
        requires low { first_place self.now ≤ place }
        requires high { place ≤ self.now.pushes }
        ensures { TellFrom self.now place result.streams.now (result.older.now ++ result.newer.now) }
    {
        let first = self.first_place();
        self.held.briefs_from((place - first) as usize)
    }

    /// What is true of each ring: its capacity is 1 to 65,536, it holds as many records as were pushed, and no more
    /// than its capacity, and their stamps rise.
    pub fn holds_its_last(&self)
        ensures { IsRing self.now }
    {
        let _ = &self.held;
    }

    /// The place of the oldest held record, or of the next one where none is held: places before it were let go.
    pub fn first_place(&self) -> u64
        ensures place { result ≡ first_place self.now }
        ensures together { result + length self.now.held ≡ self.now.pushes }
    {
        self.pushes - self.held.len() as u64
    }
}

/// The number of the record at a place, where the first record has the number `first`.
fn number_of(first: Seq, place: u64) -> Seq
    ensures { result ≡ (first + place) % numbers }
{
    let number = (u64::from(first.value()) + place % NUMBERS) % NUMBERS;
    Seq::of(number as u32).unwrap()
}

/// How many places after a record with the number `from` the next place with the number `to` is. Numbers go on with
/// 0 after the last.
fn distance(from: Seq, to: Seq) -> u64
    ensures reached { (from + result) % numbers ≡ to }
    ensures next { result < numbers }
{
    (NUMBERS + u64::from(to.value()) - u64::from(from.value())) % NUMBERS
}
