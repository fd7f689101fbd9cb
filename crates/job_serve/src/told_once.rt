//! A line that is told once, and again only after an hour.
ghost use Rattle.std.specs.Prelude.{◌≡◌, ◌⊎◌, [], None, IfSome};
ghost use Rattle.job_serve.specs.ToldOnce.{is_due, is_hour_past};

use std::alloc::Global;

/// An hour in milliseconds.
const HOUR: u64 = 3_600_000;

/// The line that was told last, and when, by the milliseconds that had passed since some begin.
#[derive(Drop)]
pub struct ToldOnce {
    line: Vec<u8>,
    told: Option<u64>,
}

/// Whether an hour has passed; where a clock could not be read it has.
fn is_hour_past(told: Option<u64>, now: Option<u64>) -> bool
    ensures { result ≡ is_hour_past told now }
{
    match (told, now) {
        (Some(told), Some(now)) => now.saturating_sub(told) >= HOUR,
        (_, _) => true,
    }
}

impl ToldOnce {
    /// Nothing was told.
    pub fn new(alloc: Global) -> ToldOnce
        ensures line { result.line.items ≡ [] }
        ensures told { result.told ≡ None }
    {
        ToldOnce {
            line: Vec::new(alloc),
            told: None,
        }
    }

    /// Whether a line is to be told now: it is another one than the one that was told last, or an hour has passed
    /// since.
    pub fn is_due(&self, line: &[u8], now: Option<u64>) -> bool
        ensures { result ≡ is_due self.now.line.items self.now.told line.now now }
    {
        self.line.as_slice() != line || is_hour_past(self.told, now)
    }

    /// A line is told now. Without memory for it the next one is told in any case.
    pub fn note(&mut self, alloc: Global, line: &[u8], now: Option<u64>)
        ensures line { IfSome self.new.told (λ _. self.new.line.items ≡ line.now) }
        ensures told { self.new.told ≡ None ⊎ self.new.told ≡ now }
    {
        self.told = None;
        if let Ok(line) = line.to_vec(alloc) {
            self.line = line;
            self.told = now;
        }
    }

    /// What was told last is over: the next line is told in any case.
    pub fn forget(&mut self)
        ensures { self.new.told ≡ None }
    {
        self.told = None;
    }
}
