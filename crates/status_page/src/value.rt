//! What is told of a server.
ghost use Rattle.std.specs.Prelude.{◌≡◌, count_by};
ghost use Rattle.status_page.specs.Values.{any_silent, is_in, is_silent, state_of};

use sl_time::Tick;

/// How often something happened, by its name.
#[derive(Clone, Copy)]
pub struct NamedCount<'a> {
    pub name: &'a [u8],
    pub count: u64,
}

/// From when to when a record goes.
#[derive(Clone, Copy)]
pub struct LastRecord {
    /// The moment of its first sample.
    pub start: Tick,
    /// The moment at which its samples are over.
    pub stop: Tick,
}

/// How a station stands.
#[derive(Clone, Copy, Drop)]
pub enum StationState {
    /// Records came, and the last one not too long ago.
    Heard,
    /// None came since the server began, and that is not too long ago.
    Waiting,
    /// Nothing came for too long.
    Silent,
}

/// What is told of a station.
#[derive(Clone, Copy)]
pub struct StationStatus<'a> {
    pub network: &'a [u8],
    pub code: &'a [u8],
    pub description: &'a [u8],
    /// Who may use it: the entries of the access list that holds for it, or `nobody` or `everybody`.
    pub users: &'a [u8],
    /// How many of its records are held, and how many are at most.
    pub held: u64,
    pub capacity: u64,
    /// The number that its next record will have, in six hexadecimal digits.
    pub next_number: [u8; 6],
    /// How many of its records came since the server began.
    pub records: u64,
    /// The last record that came.
    pub last: Option<LastRecord>,
    /// How many seconds ago it came, or the server began if none came.
    pub age: u64,
    /// After how many seconds without a record it is silent; without a number never.
    pub silent_after: Option<u64>,
    /// How many records came in each of the last 60 minutes, the oldest first.
    pub minutes: &'a [u32],
    /// How many clients named it.
    pub followers: u64,
}

impl<'a> StationStatus<'a> {
    /// Whether nothing came for too long.
    pub fn is_silent(&self) -> bool
        ensures { result ≡ is_silent self.now }
    {
        match self.silent_after {
            Some(seconds) => seconds <= self.age,
            None => false,
        }
    }

    /// How it stands.
    pub fn state(&self) -> StationState
        ensures { result ≡ state_of self.now }
    {
        if self.is_silent() {
            StationState::Silent
        } else if self.records > 0 {
            StationState::Heard
        } else {
            StationState::Waiting
        }
    }

    /// Whether it stands so.
    fn is_in(&self, state: StationState) -> bool
        ensures { result ≡ is_in state (state_of self.now) }
    {
        match (state, self.state()) {
            (StationState::Heard, StationState::Heard) => true,
            (StationState::Waiting, StationState::Waiting) => true,
            (StationState::Silent, StationState::Silent) => true,
            _ => false,
        }
    }
}

/// What is told of a client.
#[derive(Clone, Copy)]
pub struct ClientStatus {
    /// The number of its port, as the log has it.
    pub number: u64,
    /// Its address, four bytes.
    pub address: [u8; 4],
    /// For how many seconds it is here.
    pub seconds: u64,
    /// How many stations it named.
    pub named: u64,
    /// How many bytes of answers and packets it was sent. It stays at 2^64 - 1.
    pub bytes: u64,
    /// How many records of these came that its transfer has not looked at, wanted or not.
    pub behind: u64,
    /// How many records of these went out of their rings before it came to them, wanted or not. It stays at 2^64 - 1.
    pub lost: u64,
}

/// How many turns took no longer than a bound.
#[derive(Clone, Copy)]
pub struct TurnBucket<'a> {
    /// The bound in seconds, or `+Inf`.
    pub bound: &'a [u8],
    /// The same in microseconds; 2^64 - 1 for all turns.
    pub micros: u64,
    pub count: u64,
}

/// How long turns took: a turn is what a server does between two waits.
#[derive(Clone, Copy)]
pub struct TurnTimes<'a> {
    /// For each bound, in rising order.
    pub buckets: &'a [TurnBucket<'a>],
    /// How many turns there were.
    pub count: u64,
    /// How long they took together, in microseconds.
    pub micros: u64,
}

/// What is told of a server.
#[derive(Clone, Copy)]
pub struct StatusValue<'a> {
    pub title: &'a [u8],
    /// The program with its version and its logic.
    pub version: &'a [u8],
    /// When it began, by the system's clock, if that told the time.
    pub began: Option<Tick>,
    /// How many seconds ago that was.
    pub passed: u64,
    /// After how many seconds without a record a station is silent of which the configuration says nothing else.
    pub silent_after: u64,
    /// How many clients and feeds are connected.
    pub open_clients: u64,
    pub open_feeds: u64,
    /// How many records were taken and refused.
    pub records: u64,
    pub refused: u64,
    /// How many records were refused, by reason.
    pub refusals: &'a [NamedCount<'a>],
    /// How many connections were turned away, by reason.
    pub away: &'a [NamedCount<'a>],
    /// How many bytes of answers and packets clients were sent, those who left too.
    pub client_bytes: u64,
    /// How many records went out of their rings before a client came to them, those of clients who left too.
    pub client_lost: u64,
    pub turns: TurnTimes<'a>,
    pub stations: &'a [StationStatus<'a>],
    pub clients: &'a [ClientStatus],
}

/// Whether some station is silent.
pub fn is_any_silent(stations: &[StationStatus<'_>]) -> bool
    ensures { result ≡ any_silent stations.now }
{
    for station in stations {
        if station.is_silent() {
            return true;
        }
    }
    false
}

/// How many stations stand so.
pub fn count_in(stations: &[StationStatus<'_>], state: StationState) -> u64
    ensures { result ≡ count_by (λ s. is_in state (state_of s)) stations.now }
{
    let mut count = 0u64;
    for station in stations {
        if station.is_in(state) {
            count += 1;
        }
    }
    count
}
