//! The numbers of a station's streams.
ghost use Rattle.std.specs.Prelude.{◌≡◌, ◌≤◌, ℕ, IfOk, IfSome, Some, None, [], length, slice_get, true};
ghost use Rattle.station_ring.specs.declared.held.Stream.{Stream as StreamValue};

use crate::held::Stream;
use std::alloc::{AllocError, Global};
use std::marker::Model;

/// How many streams of a station get a number.
const STREAMS: usize = 64;

/// The streams of a station that have a number, in the order in which their first records came. A stream keeps its
/// number for good. Memory for all of them is taken when this is made.
#[derive(Drop)]
pub(crate) struct Streams {
    known: Vec<Stream>,
}

impl Model for Streams {
    ghost use Rattle.std.specs.Prelude.{◌≤◌, List};
    ghost use Rattle.std.specs.Vec.{vec_capacity, vec_len};
    ghost use Rattle.station_ring.specs.declared.held.Stream.{Stream as StreamValue};

    ghost Value = { List StreamValue };

    ghost view = { λ s. s.known.items };

    ghost invariant = { λ s. (vec_len s.known ≤ 64) × (64 ≤ vec_capacity s.known) };
}

impl Streams {
    /// No streams yet. It fails only for want of memory.
    pub fn new(alloc: Global) -> Result<Streams, AllocError>
        ensures { IfOk result (λ s. s ≡ []) }
    {
        let known = Vec::with_capacity(alloc, STREAMS)?;
        Ok(Streams { known })
    }

    /// The streams, by their numbers.
    pub fn known(&self) -> &[Stream]
        ensures { result.now ≡ self.now }
    {
        self.known.as_slice()
    }

    /// The number of a stream. One that has none yet gets the next number, as long as there is one.
    pub fn number(&mut self, stream: Stream) -> Option<u8>
        ensures keeps { (k : ℕ) (s : StreamValue) → slice_get self.old k ≡ Some s → slice_get self.new k ≡ Some s }
        ensures there { IfSome result (λ k. slice_get self.new k ≡ Some stream) }
        ensures grows { length self.old ≤ length self.new }
        ensures full { result ≡ None → 64 ≤ length self.new }
    {
        let known = number_among(self.known.as_slice(), stream);
        if known.is_some() {
            return known;
        }
        let number = self.known.len();
        if number >= STREAMS {
            return None;
        }
        self.known.push_reserved(stream);
        Some(number as u8)
    }
}

fn is_same(one: &Stream, other: &Stream) -> bool
    ensures { result ≡ true → one.now ≡ other.now }
{
    one.location == other.location && one.channel == other.channel && one.kind == other.kind
}

/// The number of a stream among those that have one.
fn number_among(known: &[Stream], stream: Stream) -> Option<u8>
    requires { length known.now ≤ 64 }
    ensures { IfSome result (λ k. slice_get known.now k ≡ Some stream) }
{
    for (number, one) in known.iter().enumerate() {
        if is_same(one, &stream) {
            return Some(number as u8);
        }
    }
    None
}
