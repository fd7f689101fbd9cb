//! How many records of a station came in each of the last 60 minutes.
ghost use Rattle.std.specs.Prelude.{◌≡◌, ◌≤◌, length};
ghost use Rattle.server_watch.specs.Minutes.{counted, no_minutes, reached, shifted};

/// How many minutes are kept.
pub const MINUTES: usize = 60;

/// The counts of a station, the oldest minute first.
#[derive(Clone, Copy, Drop)]
pub struct MinuteCounts {
    pub counts: [u32; 60],
    /// The minute of the last count, since the server began.
    pub minute: u64,
}

/// So many counts are over: those after them come forward, and none came since.
fn shift(counts: &mut [u32], by: usize)
    requires { by ≤ length counts.old }
    ensures { counts.new ≡ shifted by counts.old }
{
    for at in 0..counts.len() {
        counts[at] = match counts.get(at.saturating_add(by)) {
            Some(count) => *count,
            None => 0,
        };
    }
}

impl MinuteCounts {
    /// None came in any.
    pub fn new() -> MinuteCounts
        ensures { result ≡ no_minutes }
    {
        MinuteCounts {
            counts: [0; 60],
            minute: 0,
        }
    }

    /// It is that minute now, or a later one that was reached before.
    pub fn reach(&mut self, minute: u64)
        ensures { self.new ≡ reached minute self.old }
    {
        let passed = minute.saturating_sub(self.minute);
        let by = passed.min(60) as usize;
        shift(&mut self.counts, by);
        self.minute = self.minute.max(minute);
    }

    /// So many records came in a minute. It stays at 2^32 - 1.
    pub fn add(&mut self, minute: u64, came: u64)
        ensures { self.new ≡ counted minute came self.old }
    {
        self.reach(minute);
        let came = u32::try_from(came).unwrap_or(u32::MAX);
        self.counts[59] = self.counts[59].saturating_add(came);
    }
}
