//! How many connections are taken between two polls, so that no crowd at the doors keeps those waiting that are inside.
//!
//! Joins and reads are rationed by the sockets, and not by the loop: when a port is readable, when its end is told and
//! in which order happenings come is left to ports. At most 16 ports join between two polls, since a poll is all that a
//! feed with a record has to wait for; clients and feeds join by turns. A client gives at most 4,096 bytes, which is
//! four times what it has room for, and is told again after the next poll. Feeds are not rationed: what they bring is
//! what everybody waits for, and their events are told first.
ghost use Rattle.std.specs.Prelude.{◌≡◌, ◌+◌, ◌<◌, ◌≤◌, ◌↔◌, IsTrue};

/// How many connections are taken at most between two polls.
const MOST: u8 = 16;

/// The connections that were taken since the last poll.
#[derive(Clone, Copy, Drop)]
pub struct Joins {
    /// How many of them joined.
    pub count: u8,
    /// How many of them were turned away.
    pub away: u8,
    ghost few: { count + away ≤ 16 },
}

impl Joins {
    pub fn new() -> Joins
        ensures joined { result.count ≡ 0 }
        ensures away { result.away ≡ 0 }
    {
        Joins { count: 0, away: 0 }
    }

    /// Whether no further connection is taken before the next poll.
    pub fn is_full(&self) -> bool
        ensures { IsTrue result ↔ (self.now.count + self.now.away ≡ 16) }
    {
        self.count + self.away == MOST
    }

    /// One more joins.
    pub fn add(&mut self)
        requires { self.old.count + self.old.away < 16 }
        ensures joined { self.new.count ≡ self.old.count + 1 }
        ensures away { self.new.away ≡ self.old.away }
    {
        self.count += 1;
    }

    /// One more is turned away.
    pub fn turn_away(&mut self)
        requires { self.old.count + self.old.away < 16 }
        ensures joined { self.new.count ≡ self.old.count }
        ensures away { self.new.away ≡ self.old.away + 1 }
    {
        self.away += 1;
    }
}
