//! Records that are added one after the other, by which it is known that none comes any more that stands in a tail.
//!
//! A server holds at most 65,536 records of a station, and hands them in the order in which they came. So one that it
//! still had to hand is among the next 65,536: once as many were added, none of which stood in a tail, no such one
//! comes any more of what it held when the first of them was handed. What is fed to it anew meanwhile, as by a planned
//! restart, comes in its order too, each soon after the one before, and each of them begins the row anew.
ghost use Rattle.std.specs.Prelude.{◌≡◌};
ghost use Rattle.job_read.specs.Rows.{is_full, row_after};

use std::marker::Model;

/// How many records of a station a server holds at most.
pub const MOST_HELD: u64 = 65_536;

/// How many records were added one after the other, none of which stood in a tail, up to a limit.
#[derive(Clone, Copy, Drop)]
pub struct Row {
    limit: u64,
    count: u64,
}

impl Model for Row {
    ghost use Rattle.job_read.specs.Rows.{RowValue};

    ghost Value = { RowValue };

    ghost view = { λ r. record { limit = r.limit; count = r.count } };

    ghost inverse = { λ r. record { limit = r.limit; count = r.count } };
}

impl Row {
    /// None was added yet.
    pub fn new(limit: u64) -> Row
        ensures { result ≡ record { limit = limit; count = 0 } }
    {
        Row { limit, count: 0 }
    }

    /// The row begins anew.
    pub fn begin(&mut self)
        ensures { self.new ≡ record self.old { count = 0 } }
    {
        self.count = 0;
    }

    /// A record was added, or passed over. Answers whether so many were added as the limit says; then the row begins
    /// anew.
    pub fn note(&mut self, is_passed: bool) -> bool
        ensures full { result ≡ is_full self.old is_passed }
        ensures after { self.new ≡ row_after self.old is_passed }
    {
        if is_passed {
            self.count = 0;
            return false;
        }
        self.count = self.count.saturating_add(1);
        if self.count >= self.limit {
            self.count = 0;
            return true;
        }
        false
    }
}
