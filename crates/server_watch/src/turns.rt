//! How long the turns of a server take.
ghost use Rattle.std.specs.Prelude.{◌≡◌, map, replicate};
ghost use Rattle.server_watch.specs.Turns.{bound_texts, bounds, with_turn, with_turn_in};

use status_page::{TurnBucket, TurnTimes};

/// How many turns there were, how long they took together in microseconds, and how many were within each bound.
#[derive(Clone, Copy, Drop)]
pub struct Turns {
    pub buckets: [TurnBucket<'static>; 8],
    pub count: u64,
    pub micros: u64,
}

/// A bucket that counted nothing, by its bound in seconds and in microseconds.
fn empty(bound: &'static [u8], micros: u64) -> TurnBucket<'static>
    ensures bound { result.bound.now ≡ bound.entry.now }
    ensures micros { result.micros ≡ micros }
    ensures count { result.count ≡ 0 }
{
    TurnBucket {
        bound,
        micros,
        count: 0,
    }
}

/// A bucket counts a turn of so many microseconds, if it is within its bound.
fn count_in(bucket: &mut TurnBucket<'static>, micros: u64)
    ensures { bucket.new ≡ with_turn_in micros bucket.old }
{
    if micros <= bucket.micros {
        bucket.count = bucket.count.saturating_add(1);
    }
}

/// All buckets count it.
fn count_in_all(buckets: &mut [TurnBucket<'static>], micros: u64)
    ensures { buckets.new ≡ map (with_turn_in micros) buckets.old }
{
    for bucket in buckets.iter_mut() {
        count_in(bucket, micros);
    }
}

impl Turns {
    /// There was no turn. The bounds go from a tenth of a millisecond, which a turn takes that hands on one record, to
    /// a second, which no client should wait.
    pub fn new() -> Turns
        ensures bounds { map (λ b. b.bound.now) result.buckets ≡ bound_texts }
        ensures buckets { map (λ b. b.micros) result.buckets ≡ bounds }
        ensures counts { map (λ b. b.count) result.buckets ≡ replicate 8 0 }
        ensures count { result.count ≡ 0 }
        ensures micros { result.micros ≡ 0 }
    {
        Turns {
            buckets: [
                empty(b"0.0001", 100),
                empty(b"0.0005", 500),
                empty(b"0.001", 1_000),
                empty(b"0.005", 5_000),
                empty(b"0.02", 20_000),
                empty(b"0.1", 100_000),
                empty(b"1", 1_000_000),
                empty(b"+Inf", u64::MAX),
            ],
            count: 0,
            micros: 0,
        }
    }

    /// There was one that took so many microseconds.
    pub fn note(&mut self, micros: u64)
        ensures { self.new ≡ with_turn micros self.old }
    {
        count_in_all(&mut self.buckets, micros);
        self.count = self.count.saturating_add(1);
        self.micros = self.micros.saturating_add(micros);
    }

    /// What is told of them.
    pub fn times(&self) -> TurnTimes<'_>
        ensures buckets { result.buckets.now ≡ self.now.buckets }
        ensures count { result.count ≡ self.now.count }
        ensures micros { result.micros ≡ self.now.micros }
    {
        TurnTimes {
            buckets: &self.buckets,
            count: self.count,
            micros: self.micros,
        }
    }
}
