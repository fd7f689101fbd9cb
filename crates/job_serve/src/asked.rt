//! Which lines tell of the stations that clients ask for: of each that was refused once a client, of those of a transfer
//! that begins, and of those that a client was sent packets of.
ghost use Rattle.std.specs.Prelude.{◌≡◌, ◌<◌, ◌-◌, [], IfOk, IfSome, length, nat_lt};
ghost use Rattle.job_serve.specs.AskedStations.{is_due};
ghost use Rattle.job_serve.specs.Refusals.{one_more};

use ports::AskedCodes;
use ports_logged::Visit;
use std::alloc::{AllocError, Global};
use std::fmt::{self, Display, Formatter, Write};
use std::net::Ipv4Addr;

/// How many refused stations of a client have a line, how many of a transfer, and how many that it was sent packets of.
const LINES: usize = 64;

/// How many refused stations are known at once, of all clients.
const STATIONS: usize = 4_096;

/// A station that a client was refused, and of which a line told.
#[derive(Clone, Copy, Drop)]
struct RefusedStation {
    port: u64,
    codes: AskedCodes,
}

/// A client that was refused some.
#[derive(Clone, Copy, Drop)]
struct Asker {
    port: u64,
    /// How many lines told of one, and how often it was refused one without a line.
    lines: usize,
    more: u64,
}

/// A client that is gone, and how many STATION of it were refused of which no line told.
#[derive(Clone, Copy, Drop)]
pub struct CloseLine<'v> {
    pub visit: &'v Visit,
    pub more: u64,
}

impl Display for CloseLine<'_> {
    /// As `close 17 10.0.0.7 bytes 52000 refused 36`.
    fn fmt<W: Write>(&self, f: &mut Formatter<W>) -> fmt::Result {
        let visit = self.visit;
        let more = self.more;
        if more > 0 {
            write!(f, "{visit} refused {more}")
        } else {
            write!(f, "{visit}")
        }
    }
}

/// So many stations of a client that have no line, of those that its transfer is to have records of or was sent packets
/// of.
#[derive(Clone, Copy, Drop)]
pub struct MoreStationsLine {
    /// `reads` or `sent`.
    pub word: &'static str,
    pub port: u64,
    pub address: Ipv4Addr,
    pub more: usize,
}

impl Display for MoreStationsLine {
    /// As `reads 17 10.0.0.7 and 191 more`.
    fn fmt<W: Write>(&self, f: &mut Formatter<W>) -> fmt::Result {
        let MoreStationsLine {
            word,
            port,
            address,
            more,
        } = *self;
        write!(f, "{word} {port} {address} and {more} more")
    }
}

/// The place of a client among those that were refused some.
fn asker_at(askers: &[Asker], port: u64) -> Option<usize>
    ensures { IfSome result (λ at. at < length askers.now) }
{
    askers.iter().position(|asker| asker.port == port)
}

/// Whether a station that a client was refused is among some.
fn is_known(stations: &[RefusedStation], port: u64, codes: AskedCodes) -> bool {
    for station in stations {
        if station.port == port && station.codes.station == codes.station {
            if station.codes.network == codes.network {
                return true;
            }
        }
    }
    false
}

/// Whether a refused station of a client has a line: it is known of none, fewer than 64 of the client's have one, and
/// there is room to know one more.
fn is_due(is_known: bool, lines: usize, has_room: bool) -> bool
    ensures { result ≡ is_due is_known lines has_room }
{
    if is_known {
        false
    } else if has_room {
        lines < LINES
    } else {
        false
    }
}

/// What lines told of stations that clients asked for. There is room for all that it keeps when it is made, and no call
/// allocates.
#[derive(Drop)]
pub struct AskedLog {
    stations: Vec<RefusedStation>,
    askers: Vec<Asker>,
    /// How many stations were told of a transfer that is to begin, or of a client that ends.
    told: usize,
}

impl AskedLog {
    /// Nothing was told of so many clients at most. It fails only for want of memory.
    pub fn new(alloc: Global, clients: usize) -> Result<AskedLog, AllocError>
        ensures stations { IfOk result (λ log. log.stations.items ≡ []) }
        ensures askers { IfOk result (λ log. log.askers.items ≡ []) }
        ensures told { IfOk result (λ log. log.told ≡ 0) }
    {
        let stations = Vec::with_capacity(alloc, if clients == 0 { 0 } else { STATIONS })?;
        let askers = Vec::with_capacity(alloc, clients)?;
        Ok(AskedLog {
            stations,
            askers,
            told: 0,
        })
    }

    /// A client is among those that were refused some from now on, if there is room for it.
    fn follow(&mut self, port: u64) {
        if asker_at(self.askers.as_slice(), port).is_some() {
            return;
        }
        if self.askers.len() < self.askers.capacity() {
            self.askers.push_reserved(Asker {
                port,
                lines: 0,
                more: 0,
            });
        }
    }

    /// A client was refused a station. Whether a line tells of it.
    pub fn add(&mut self, port: u64, codes: AskedCodes) -> bool {
        self.follow(port);
        let known = is_known(self.stations.as_slice(), port, codes);
        let has_room = self.stations.len() < self.stations.capacity();
        let Some(at) = asker_at(self.askers.as_slice(), port) else {
            return false;
        };
        let Asker { port, lines, more } = self.askers[at];
        let due = is_due(known, lines, has_room);
        if due && self.stations.len() < self.stations.capacity() {
            self.stations.push_reserved(RefusedStation { port, codes });
        }
        self.askers[at] = if due {
            Asker {
                port,
                lines: lines.saturating_add(1),
                more,
            }
        } else {
            Asker {
                port,
                lines,
                more: more.saturating_add(1),
            }
        };
        due
    }

    /// A client is gone, and what was known of it. How often it was refused a station without a line.
    pub fn forget(&mut self, port: u64) -> u64 {
        let Some(at) = asker_at(self.askers.as_slice(), port) else {
            return 0;
        };
        let gone = self.askers.swap_remove(at);
        self.stations.retain(|station| station.port != port);
        gone.more
    }

    /// One more station is told of a transfer that is to begin, or of a client that ends. Whether it has a line: 64 of
    /// them have one.
    pub fn add_told(&mut self) -> bool
        ensures line { result ≡ nat_lt self.old.told 64 }
        ensures count { self.new ≡ record self.old { told = one_more self.old.told } }
    {
        self.told = self.told.saturating_add(1);
        self.told <= LINES
    }

    /// The transfer begins, or the client has ended. How many of its stations have no line.
    pub fn end_told(&mut self) -> usize
        ensures more { result ≡ self.old.told - 64 }
        ensures ended { self.new ≡ record self.old { told = 0 } }
    {
        let all = self.told;
        self.told = 0;
        all.saturating_sub(LINES)
    }
}
