//! Connections that were turned away.
ghost use Rattle.std.specs.Prelude.{◌≡◌, ◌∷◌, ◌++◌, ◌<◌, [], IfOk, length};

use ports_logged::Away;
use std::alloc::{AllocError, Global};
use std::marker::Model;

/// How many connections are taken at most between two polls.
const MOST: usize = 16;

/// Connections that were turned away, in order. There is room for as many as are taken between two polls.
#[derive(Drop)]
pub struct Departures {
    away: Vec<Away>,
}

impl Model for Departures {
    ghost use Rattle.std.specs.Prelude.{◌≤◌, List};
    ghost use Rattle.std.specs.Vec.{vec_capacity};
    ghost use Rattle.ports_logged.specs.declared.visit.Away.{Away as AwayValue};

    ghost Value = { List AwayValue };

    ghost view = { λ d. d.away.items };

    ghost invariant = { λ d. 16 ≤ vec_capacity d.away };
}

impl Departures {
    /// None yet. It fails only for want of memory.
    pub fn new(alloc: Global) -> Result<Departures, AllocError>
        ensures { IfOk result (λ departures. departures ≡ []) }
    {
        let away = Vec::with_capacity(alloc, MOST)?;
        Ok(Departures { away })
    }

    /// None any more.
    pub fn clear(&mut self)
        ensures { self.new ≡ [] }
    {
        self.away.clear();
    }

    /// One more was turned away.
    pub fn push(&mut self, away: Away)
        requires { length self.old < 16 }
        ensures { self.new ≡ self.old ++ away ∷ [] }
    {
        self.away.push_reserved(away);
    }

    /// Those that were turned away.
    pub fn as_slice(&self) -> &[Away]
        ensures { result.now ≡ self.now }
    {
        self.away.as_slice()
    }
}
