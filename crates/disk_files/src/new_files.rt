//! How many files are made within a minute: a server that hands records of ever new streams makes no more than a
//! machine bears.
ghost use Rattle.std.specs.Prelude.{◌≡◌, ◌-◌, ℕ, None, Some, if◌then◌else◌};
ghost use Rattle.disk_files.specs.NewFiles.{is_full, made_after};

use std::marker::Model;

/// How many files are made within a minute at most.
const MOST: u64 = 4_096;

/// A minute, in milliseconds.
const MINUTE: u64 = 60_000;

/// When the minute began in which files are made, in milliseconds, and how many were made in it.
#[derive(Clone, Copy, Drop)]
pub struct NewFiles {
    begun: u64,
    count: u64,
}

impl Model for NewFiles {
    ghost use Rattle.disk_files.specs.NewFiles.{MadeValue};

    ghost Value = { MadeValue };

    ghost view = { λ m. record { begun = m.begun; count = m.count } };

    ghost inverse = { λ m. record { begun = m.begun; count = m.count } };
}

impl NewFiles {
    /// None was made by then.
    pub fn new(now: u64) -> NewFiles
        ensures { result ≡ record { begun = now; count = 0 } }
    {
        NewFiles {
            begun: now,
            count: 0,
        }
    }

    /// Whether no more are made in this minute.
    pub fn is_full(&self, now: u64) -> bool
        ensures { result ≡ is_full self.now now }
    {
        let _ = &self.begun;
        now.saturating_sub(self.begun) < MINUTE && self.count >= MOST
    }

    /// One more is to be made. Answers how many milliseconds that has to wait, if it has to: until the minute is over.
    /// Else it is counted, in a minute that begins if the last one is over.
    pub fn make(&mut self, now: u64) -> Option<u64>
        ensures wait { result ≡ if is_full self.old now then Some (60000 - (now - self.old.begun)) else None }
        ensures made { self.new ≡ if is_full self.old now then self.old else made_after self.old now }
    {
        let passed = now.saturating_sub(self.begun);
        if self.is_full(now) {
            return Some(MINUTE.saturating_sub(passed));
        }
        if passed >= MINUTE {
            self.begun = now;
            self.count = 0;
        }
        self.count = self.count.saturating_add(1);
        None
    }
}
