//! When a station's records came.
ghost use Rattle.std.specs.Prelude.{◌≡◌, map, option_map};
ghost use Rattle.server_watch.specs.Watching.{age_of, all_noted, noted, noted_of, reaching};

use crate::minutes::MinuteCounts;
use station_ring::{Ring, Rings};

/// What is known of a station's records.
#[derive(Clone, Copy, Drop)]
pub struct Arrivals {
    /// How many had come when it was looked at last.
    pub seen: u64,
    /// The time, in milliseconds, of the look at which the last one was seen; of the begin before that.
    pub last: u64,
    /// How many came in each of the last minutes.
    pub minutes: MinuteCounts,
}

impl Arrivals {
    /// None came.
    pub fn new() -> Arrivals {
        Arrivals {
            seen: 0,
            last: 0,
            minutes: MinuteCounts::new(),
        }
    }

    /// So many records have come by a time.
    pub fn note(&mut self, pushes: u64, now: u64)
        ensures { self.new ≡ noted pushes now self.old }
    {
        let came = pushes.saturating_sub(self.seen);
        if came > 0 {
            self.last = now;
            self.minutes.add(now / 60_000, came);
        }
        self.seen = pushes;
    }

    /// The same of a ring, if there is one.
    fn note_ring(&mut self, ring: Option<&Ring>, now: u64)
        ensures { self.new ≡ noted_of (option_map (λ r. r.now) ring.entry) now self.old }
    {
        if let Some(ring) = ring {
            self.note(ring.pushes(), now);
        }
    }

    /// It is that minute now.
    fn reach(&mut self, minute: u64)
        ensures { self.new ≡ reaching minute self.old }
    {
        self.minutes.reach(minute);
    }

    /// How many seconds ago the last one came.
    pub fn age(&self, now: u64) -> u64
        ensures { result ≡ age_of now self.now }
    {
        now.saturating_sub(self.last) / 1_000
    }
}

/// Looks at the rings of all stations.
pub fn note_all(arrivals: &mut [Arrivals], rings: &Rings, now: u64)
    ensures { arrivals.new ≡ all_noted now arrivals.old rings.now.rings }
{
    for (place, one) in arrivals.iter_mut().enumerate() {
        one.note_ring(rings.ring(place), now);
    }
}

/// It is that minute now for all stations.
pub fn reach_all(arrivals: &mut [Arrivals], minute: u64)
    ensures { arrivals.new ≡ map (reaching minute) arrivals.old }
{
    for one in arrivals.iter_mut() {
        one.reach(minute);
    }
}
