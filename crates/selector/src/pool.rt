//! The patterns of all stations that one client names.
ghost use Rattle.std.specs.Prelude.{◌≡◌, ◌<◌, ◌≤◌, ◌+◌, ◌^◌, [], ◌∷◌, ◌++◌, ◌⊎◌, ◌↔◌, IfOk, IsOk, OnOk, OnErr, drop};
ghost use Rattle.std.specs.Prelude.{length, replicate, slice_set, take};
ghost use Rattle.std.specs.Vec.{vec_capacity};
ghost use Rattle.protocol.specs.Pattern.{Pattern, passes};
ghost use Rattle.protocol.specs.Record.{Facts};
ghost use Rattle.selector.specs.Matching.{passes_parts};
ghost use Rattle.selector.specs.Pools.{starts_from, list_at, together, total, HasRoom};

use crate::list::{Full, passes_among};
use crate::pattern::Pattern;
use protocol::record::Kind;
use std::alloc::{AllocError, Global};
use std::marker::Model;

/// How many lists a pool has.
const LISTS: usize = 255;

/// How many patterns a list holds, at most.
const EACH: usize = 64;

/// How many patterns all lists hold together, at most.
const TOGETHER: usize = 1024;

/// 255 lists of patterns, numbered from 0. A list holds at most 64 patterns, and all lists together at most 1,024.
///
/// All patterns lie in one collection that never grows, list after list, so a record is compared with those of its own
/// list alone.
#[derive(Drop)]
pub struct Pool {
    patterns: Vec<Pattern>,
    starts: [u16; LISTS],
    counts: [u8; LISTS],
}

impl Model for Pool {
    ghost use Rattle.std.specs.Prelude.{List, ◌≤◌};
    ghost use Rattle.std.specs.Vec.{vec_capacity};
    ghost use Rattle.protocol.specs.Pattern.{Pattern};
    ghost use Rattle.selector.specs.Pools.{cut, IsLaidOut};

    ghost Value = { List (List Pattern) };

    ghost view = { λ p. cut p.patterns.items p.counts };

    ghost invariant = { λ p. IsLaidOut p.patterns.items p.starts p.counts × (1024 ≤ vec_capacity p.patterns) };
}

/// Writes where each list starts, by how many patterns each holds.
fn lay_out(starts: &mut [u16], counts: &[u8])
    requires same { length starts.old ≡ length counts.now }
    requires few { total counts.now < 2 ^ 16 }
    ensures { starts.new ≡ starts_from 0 counts.now }
{
    let mut start = 0;
    for (i, count) in counts.iter().enumerate() {
        starts[i] = start;
        start += u16::from(*count);
    }
}

/// Takes so many patterns away from a place on.
fn take_away(patterns: &mut Vec<Pattern>, start: usize, count: usize)
    requires { start + count ≤ length patterns.old.items }
    ensures items { patterns.new.items ≡ take start patterns.old.items ++ drop (start + count) patterns.old.items }
    ensures capacity { vec_capacity patterns.new ≡ vec_capacity patterns.old }
{
    drop(patterns.drain(start..start + count));
}

impl Pool {
    /// 255 empty lists. Memory is taken here alone, and only for want of it this fails.
    pub fn new(alloc: Global) -> Result<Pool, AllocError>
        ensures { IfOk result (λ p. p ≡ replicate 255 []) }
    {
        Ok(Pool {
            patterns: Vec::with_capacity(alloc, TOGETHER)?,
            starts: [0; LISTS],
            counts: [0; LISTS],
        })
    }

    /// Adds a pattern behind the others of a list. It fails exactly where that list holds 64 or all lists hold 1,024
    /// together, and then nothing changes.
    pub fn add(&mut self, list: usize, pattern: Pattern) -> Result<(), Full>
        requires { list < 255 }
        ensures room { IsOk result ↔ HasRoom self.old list }
        ensures added { OnOk result (self.new ≡ slice_set self.old list (list_at self.old list ++ pattern ∷ [])) }
        ensures full { OnErr result ((length (list_at self.old list) ≡ 64) ⊎ (together self.old ≡ 1024)) }
        ensures unchanged { OnErr result (self.new ≡ self.old) }
    {
        let count = self.counts[list];
        if count as usize == EACH || self.patterns.len() == TOGETHER {
            return Err(Full);
        }
        let end = self.starts[list] as usize + count as usize;
        if self.patterns.insert(end, pattern).is_err() {
            return Err(Full);
        }
        self.counts[list] = count + 1;
        lay_out(&mut self.starts, &self.counts);
        Ok(())
    }

    /// Takes all patterns of a list away. The other lists stay.
    pub fn clear(&mut self, list: usize)
        requires { list < 255 }
        ensures { self.new ≡ slice_set self.old list [] }
    {
        let start = self.starts[list] as usize;
        take_away(&mut self.patterns, start, self.counts[list] as usize);
        self.counts[list] = 0;
        lay_out(&mut self.starts, &self.counts);
    }

    /// Whether a record with that location, channel and type passes a list: the list has no pattern that isn't
    /// negated, or one matches, and no negated one matches.
    pub fn passes(&self, list: usize, location: &[u8; 2], channel: &[u8; 3], kind: Kind) -> bool
        requires { list < 255 }
        ensures parts { result ≡ passes_parts location.now channel.now kind (list_at self.now list) }
        ensures facts { (x : Facts) → x.location ≡ location.now → x.channel ≡ channel.now → x.kind ≡ kind
            → result ≡ passes (list_at self.now list) x }
    {
        let start = self.starts[list] as usize;
        let end = start + self.counts[list] as usize;
        passes_among(&self.patterns[start..end], location, channel, kind)
    }
}
