//! The last records of a station, and their briefs beside them.
ghost use Rattle.std.specs.Prelude.{◌≡◌, ◌≤◌, ◌<◌, ◌++◌, ◌∷◌, [], IfOk, length, drop, slice_get, slice_set};
ghost use Rattle.std.specs.Option.{option_copied};
ghost use Rattle.station_ring.specs.Blocks.{buffer, keep_last, place_after};
ghost use Rattle.station_ring.specs.Briefs.{AreBriefs};

use crate::held::{Brief, Briefs, Held, Summary};
use crate::streams::Streams;
use std::alloc::{AllocError, Global};
use std::marker::Model;

/// The last records of a station, as many as its capacity, in a block of a fixed size that is allocated once. What a
/// search looks at of each lies in a block beside it, at the same place. Once both are full, a record is written over
/// the oldest one, where that lies, so that its bytes are copied once.
#[derive(Drop)]
pub(crate) struct Records {
    held: Vec<Held>,
    briefs: Vec<Brief>,
    /// Where the oldest one lies.
    oldest: usize,
    capacity: usize,
    streams: Streams,
}

impl Model for Records {
    ghost use Rattle.std.specs.Prelude.{◌≡◌, ◌≤◌, vec_capacity, vec_len};
    ghost use Rattle.station_ring.specs.declared.held.Held.{Held};
    ghost use Rattle.station_ring.specs.Blocks.{Buffer, IsFilled, buffer, from_oldest};
    ghost use Rattle.station_ring.specs.Briefs.{AreBriefs};

    ghost Value = { Buffer Held };

    ghost view = { λ s. buffer (from_oldest s.oldest s.held.items) s.capacity };

    ghost invariant = { λ s. IsFilled s.oldest (vec_len s.held) s.capacity × (vec_len s.briefs ≡ vec_len s.held)
        × (s.capacity ≤ vec_capacity s.held) × (s.capacity ≤ vec_capacity s.briefs)
        × AreBriefs s.streams (from_oldest s.oldest s.held.items) (from_oldest s.oldest s.briefs.items) };
}

impl Records {
    /// No records yet. It fails only for want of memory.
    pub fn with_capacity(alloc: Global, capacity: usize) -> Result<Records, AllocError>
        requires { 1 ≤ capacity }
        ensures { IfOk result (λ r. r ≡ buffer [] capacity) }
    {
        let held = Vec::with_capacity(alloc, capacity)?;
        let briefs = Vec::with_capacity(alloc, capacity)?;
        let streams = Streams::new(alloc)?;
        Ok(Records {
            held,
            briefs,
            oldest: 0,
            capacity,
            streams,
        })
    }

    /// How many there are.
    pub fn len(&self) -> usize
        ensures { result ≡ length self.now.items }
    {
        let _ = &self.briefs;
        self.held.len()
    }

    /// The one at an index, from the oldest on.
    pub fn get(&self, index: usize) -> Option<&Held>
        ensures { option_copied result ≡ slice_get self.now.items index }
    {
        let _ = &self.briefs;
        let (newer, older) = self.held.split_at(self.oldest);
        if index < older.len() {
            older.get(index)
        } else {
            newer.get(index - older.len())
        }
    }

    /// Puts in one record more. If there is no room for it, the oldest one is let go first.
    pub fn push(&mut self, stamp: u64, bytes: &[u8; 512], summary: Summary)
        ensures { self.new ≡ buffer (keep_last self.old.capacity (self.old.items
            ++ record { stamp = stamp; bytes = bytes.now; summary = summary } ∷ [])) self.old.capacity }
    {
        let stream = self.streams.number(summary.stream());
        let brief = Brief {
            start: summary.start,
            stop: summary.stop,
            stream,
        };
        if self.held.len() < self.capacity {
            let item = Held {
                stamp,
                bytes: *bytes,
                summary,
            };
            self.held.push_reserved(item);
            self.briefs.push_reserved(brief);
        } else {
            write_over(&mut self.held[self.oldest], stamp, bytes, summary);
            self.briefs[self.oldest] = brief;
            self.oldest = next_place(self.oldest, self.capacity);
        }
    }

    /// The briefs of the records from an index on.
    pub fn briefs_from(&self, index: usize) -> Briefs<'_>
        requires { index ≤ length self.now.items }
        ensures { AreBriefs result.streams.now (drop index self.now.items) (result.older.now ++ result.newer.now) }
    {
        let (newer, older) = self.briefs.split_at(self.oldest);
        let streams = self.streams.known();
        if index <= older.len() {
            Briefs {
                older: &older[index..],
                newer,
                streams,
            }
        } else {
            Briefs {
                older: &[],
                newer: &newer[index - older.len()..],
                streams,
            }
        }
    }
}

/// The place after one, in a block of so many.
fn next_place(place: usize, capacity: usize) -> usize
    requires { place < capacity }
    ensures { result ≡ place_after place capacity }
{
    if place + 1 < capacity { place + 1 } else { 0 }
}

/// Writes a record over another one, where that lies.
fn write_over(held: &mut Held, stamp: u64, bytes: &[u8; 512], summary: Summary)
    ensures { held.new ≡ record { stamp = stamp; bytes = bytes.now; summary = summary } }
{
    held.stamp = stamp;
    held.bytes = *bytes;
    held.summary = summary;
}
