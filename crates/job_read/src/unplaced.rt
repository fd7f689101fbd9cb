//! Records that an archive has no place for, and when that is told.
ghost use Rattle.std.specs.Prelude.{◌≡◌, nat_lt};
ghost use Rattle.job_read.specs.Notices.{Tells};
ghost use Rattle.job_read.specs.Unplaced.{CountValue, after_count, count_told, has_passed, is_due};

use crate::notices::{Notice, Teller};
use std::marker::Model;

/// How many milliseconds lie at least between two times that it is told.
const HOUR: u64 = 3_600_000;

/// How many records without a place were told of, and when last, in milliseconds.
#[derive(Clone, Copy, Drop)]
pub struct UnplacedCount {
    told: u64,
    at: Option<u64>,
}

impl Model for UnplacedCount {
    ghost use Rattle.job_read.specs.Unplaced.{CountValue};

    ghost Value = { CountValue };

    ghost view = { λ c. record { told = c.told; at = c.at } };

    ghost inverse = { λ c. record { told = c.told; at = c.at } };
}

/// Whether nothing was told yet, or an hour has passed since.
pub fn has_passed(at: Option<u64>, now: u64) -> bool
    ensures { result ≡ has_passed at now }
{
    match at {
        Some(at) => now.saturating_sub(at) >= HOUR,
        None => true,
    }
}

impl UnplacedCount {
    ghost use Rattle.std.specs.Prelude.{None};

    /// None was told of.
    pub fn new() -> UnplacedCount
        ensures { result ≡ record { told = 0; at = None } }
    {
        UnplacedCount { told: 0, at: None }
    }

    /// Whether more than those that were told of are so many.
    pub fn is_less(&self, count: u64) -> bool
        ensures { result ≡ nat_lt self.now.told count }
    {
        self.told < count
    }

    /// Tells that so many are there: the first at once, and then at most once an hour.
    #[tactic(auto, using(crate::proofs::HearingLemmas::tells_nothing))]
    pub fn tell<T: Teller>(&mut self, count: u64, now: u64, teller: &mut T)
        ensures after { self.new ≡ after_count self.old count now }
        ensures told { Tells (T.told teller.old) (T.told teller.new) (count_told self.old count now) }
    {
        if self.is_less(count) && has_passed(self.at, now) {
            self.told = count;
            self.at = Some(now);
            teller.tell(&Notice::Unplaced(count));
        }
    }
}
