//! Which refused records a log tells of: an unknown station once an hour, and any other cause once a feed.
ghost use Rattle.std.specs.Prelude.{◌≡◌, ◌<◌, IfSome, length};
ghost use Rattle.job_serve.specs.Refusals.{is_due, told_count, with_record};

use ports::{RecordCodes, RecordRefusal};
use ports_logged::ShownCodes;
use protocol::reason::Reason;
use std::alloc::{AllocError, Global};
use std::fmt::{self, Display, Formatter, Write};

/// How many milliseconds lie at least between two lines on one unknown station.
const HOUR: u64 = 3_600_000;

/// How many unknown stations are told apart. The records of all others are counted together.
const STATIONS: usize = 64;

/// How many causes are known, of sixteen feeds.
const CAUSES: usize = 128;

/// How many records were refused since the last line on them, and when that was, in milliseconds.
#[derive(Clone, Copy, Drop)]
pub struct RefusalsSince {
    count: u64,
    told: Option<u64>,
}

impl RefusalsSince {
    /// None yet.
    fn new() -> RefusalsSince
        ensures count { result.count ≡ 0 }
    {
        RefusalsSince {
            count: 0,
            told: None,
        }
    }

    /// Whether no line told of them yet, or an hour has passed since.
    fn is_due(&self, now: u64) -> bool
        ensures { result ≡ is_due self.now now }
    {
        match self.told {
            Some(told) => now.saturating_sub(told) >= HOUR,
            None => true,
        }
    }

    /// One more was refused. If a line is due, it tells how many were since the last one.
    fn add(&mut self, now: u64) -> Option<u64>
        ensures told { result ≡ told_count self.old now }
        ensures count { self.new ≡ with_record self.old now }
    {
        let count = self.count.saturating_add(1);
        if self.is_due(now) {
            *self = RefusalsSince {
                count: 0,
                told: Some(now),
            };
            Some(count)
        } else {
            self.count = count;
            None
        }
    }
}

/// An unknown station.
#[derive(Clone, Copy, Drop)]
struct UnknownStation {
    codes: RecordCodes,
    refused: RefusalsSince,
}

/// A cause for which a record of a feed was refused.
#[derive(Clone, Copy, Drop)]
struct Cause {
    port: u64,
    reason: Reason,
}

/// What a line tells of refused records beside a visit.
#[derive(Clone, Copy, Drop)]
pub enum RefusedLine {
    /// The first record of an unknown station, or of a cause: the visit tells it.
    First,
    /// So many more records of an unknown station.
    Station(RecordCodes, u64),
    /// So many records of unknown stations that are not told apart.
    Others(u64),
}

/// As `refused 120 records more of GE WLF, an unknown station`.
#[derive(Clone, Copy, Drop)]
pub struct RefusedText(pub RefusedLine);

impl Display for RefusedText {
    fn fmt<W: Write>(&self, f: &mut Formatter<W>) -> fmt::Result {
        match &self.0 {
            RefusedLine::First => Ok(()),
            RefusedLine::Station(codes, count) => {
                let codes = ShownCodes(*codes);
                write!(
                    f,
                    "refused {count} records more of {codes}, an unknown station"
                )
            }
            RefusedLine::Others(count) => {
                write!(
                    f,
                    "refused {count} records of more unknown stations than {STATIONS}"
                )
            }
        }
    }
}

/// The place of a station among those that are told apart.
fn station_at(stations: &[UnknownStation], codes: RecordCodes) -> Option<usize>
    ensures { IfSome result (λ at. at < length stations.now) }
{
    stations.iter().position(|station| {
        station.codes.network == codes.network && station.codes.station == codes.station
    })
}

/// Whether a cause of a feed is among some.
fn is_known(causes: &[Cause], port: u64, reason: Reason) -> bool {
    causes.iter().any(|cause| cause.port == port && cause.reason.number() == reason.number())
}

/// The refused records of which lines told. There is room for all that it keeps when it is made, and no call allocates.
#[derive(Drop)]
pub struct RefusalLog {
    stations: Vec<UnknownStation>,
    others: RefusalsSince,
    causes: Vec<Cause>,
}

impl RefusalLog {
    /// Nothing was told. It fails only for want of memory.
    pub fn new(alloc: Global) -> Result<RefusalLog, AllocError> {
        let stations = Vec::with_capacity(alloc, STATIONS)?;
        let causes = Vec::with_capacity(alloc, CAUSES)?;
        Ok(RefusalLog {
            stations,
            others: RefusalsSince::new(),
            causes,
        })
    }

    /// A record of a feed was refused. What a line tells of it, if one is due.
    pub fn add(&mut self, port: u64, refusal: RecordRefusal, now: u64) -> Option<RefusedLine> {
        match refusal {
            RecordRefusal::Unknown(codes) => self.add_station(codes, now),
            RecordRefusal::Other(reason) => self.add_cause(port, reason),
        }
    }

    /// A record of an unknown station was refused.
    fn add_station(&mut self, codes: RecordCodes, now: u64) -> Option<RefusedLine> {
        if let Some(at) = station_at(self.stations.as_slice(), codes) {
            let count = self.stations[at].refused.add(now)?;
            return Some(RefusedLine::Station(codes, count));
        }
        if self.stations.len() < self.stations.capacity() {
            let mut refused = RefusalsSince::new();
            let _first = refused.add(now);
            self.stations
                .push_reserved(UnknownStation { codes, refused });
            return Some(RefusedLine::First);
        }
        let count = self.others.add(now)?;
        Some(RefusedLine::Others(count))
    }

    /// A record of a feed was refused for another cause.
    fn add_cause(&mut self, port: u64, reason: Reason) -> Option<RefusedLine> {
        if is_known(self.causes.as_slice(), port, reason) {
            return None;
        }
        if self.causes.len() < self.causes.capacity() {
            self.causes.push_reserved(Cause { port, reason });
            return Some(RefusedLine::First);
        }
        None
    }

    /// A feed is gone, and its causes with it.
    pub fn forget(&mut self, port: u64) {
        self.causes.retain(|cause| cause.port != port);
    }
}
