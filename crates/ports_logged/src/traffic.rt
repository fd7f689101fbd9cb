//! What goes over a port.
ghost use Rattle.std.specs.Prelude.{◌≡◌};
ghost use Rattle.ports_logged.specs.Visitors.{cutting, giving, joined_traffic, losing, refusing, taking};

/// What went over a port, and how often its client was cut. Each count stays at 2^64 - 1.
#[derive(Clone, Copy, Drop)]
pub struct Traffic {
    /// How many bytes it gave.
    pub given: u64,
    /// How many bytes it took.
    pub taken: u64,
    /// How many of the records that it gave were refused.
    pub refused: u64,
    /// How many new configurations cut its client.
    pub cuts: u64,
    /// How many records its client lost: they went out of their rings before it came to them.
    pub lost: u64,
}

/// What went over a port of which nothing is known yet.
const NOTHING: Traffic = Traffic {
    given: 0,
    taken: 0,
    refused: 0,
    cuts: 0,
    lost: 0,
};

impl Traffic {
    /// So many bytes that a port gave.
    pub fn bytes_given(count: usize) -> Traffic
        ensures { result ≡ giving count }
    {
        Traffic {
            given: count as u64,
            ..NOTHING
        }
    }

    /// So many bytes that a port took.
    pub fn bytes_taken(count: usize) -> Traffic
        ensures { result ≡ taking count }
    {
        Traffic {
            taken: count as u64,
            ..NOTHING
        }
    }

    /// A record that a port gave and that was refused.
    pub fn refused_record() -> Traffic
        ensures { result ≡ refusing }
    {
        Traffic {
            refused: 1,
            ..NOTHING
        }
    }

    /// A new configuration that cut a port's client.
    pub fn one_cut() -> Traffic
        ensures { result ≡ cutting }
    {
        Traffic { cuts: 1, ..NOTHING }
    }

    /// So many records that a port's client lost.
    pub fn records_lost(count: u64) -> Traffic
        ensures { result ≡ losing count }
    {
        Traffic {
            lost: count,
            ..NOTHING
        }
    }

    /// With more.
    pub fn and(self, more: Traffic) -> Traffic
        ensures { result ≡ joined_traffic self more }
    {
        Traffic {
            given: self.given.saturating_add(more.given),
            taken: self.taken.saturating_add(more.taken),
            refused: self.refused.saturating_add(more.refused),
            cuts: self.cuts.saturating_add(more.cuts),
            lost: self.lost.saturating_add(more.lost),
        }
    }
}
