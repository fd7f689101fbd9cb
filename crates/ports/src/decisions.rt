//! What is decided of ports, by whoever runs them.
use protocol::reason::Reason;
use std::fmt::{self, Display, Formatter, Write};

/// Whose a port is.
#[derive(Clone, Copy, Drop)]
pub enum Party {
    Client,
    Feed,
}

/// Why a connection is closed before a byte of it is read or written.
#[derive(Clone, Copy, Drop)]
pub enum AwayReason {
    /// As many clients are connected as the configuration allows.
    MaxConnections,
    /// Sixteen feeds are connected.
    Feeds,
    /// Memory, or another thing by which it could be held, is not to be had.
    Memory,
    /// Feeds are not taken from its address.
    FeedFrom,
    /// Its address has as many clients as it may have.
    PerAddress,
}

impl Display for AwayReason {
    fn fmt<W: Write>(&self, f: &mut Formatter<W>) -> fmt::Result {
        f.write_str(match self {
            AwayReason::MaxConnections => "max_connections",
            AwayReason::Feeds => "feeds",
            AwayReason::Memory => "memory",
            AwayReason::FeedFrom => "feed-from",
            AwayReason::PerAddress => "per-address",
        })
    }
}

/// Why an open port is shut.
#[derive(Clone, Copy, Drop)]
pub enum Ending {
    /// The other side has ended.
    Closed,
    /// A read of it or a write to it failed.
    Failed,
    /// Its client was handed all up to its end.
    Complete,
}

/// The codes of a record's station, as they stand in its header: with spaces behind them up to two and five bytes.
#[derive(Clone, Copy, Drop)]
pub struct RecordCodes {
    pub network: [u8; 2],
    pub station: [u8; 5],
}

/// Why a record is refused.
#[derive(Clone, Copy, Drop)]
pub enum RecordRefusal {
    /// No station has its codes.
    Unknown(RecordCodes),
    /// Another reason.
    Other(Reason),
}

/// The codes of a station that a client asks for: the first eight bytes of each, with spaces behind a shorter one. They
/// may have any bytes but spaces and line ends.
#[derive(Clone, Copy, Drop)]
pub struct AskedCodes {
    pub station: [u8; 8],
    /// None if the client named no network.
    pub network: Option<[u8; 8]>,
}

/// What a client asks of a station (SeedLink 3, DATA, FETCH and TIME).
#[derive(Clone, Copy, Drop)]
pub enum Mode {
    Data,
    Fetch,
    Time,
}

/// What is decided of a port.
#[derive(Clone, Copy, Drop)]
pub enum Decision {
    /// The connection that joined is let in.
    LetIn(Party),
    /// The connection that joined is turned away. Its port is shut next.
    TurnedAway(AwayReason),
    /// The port is shut next.
    Ends(Ending),
    /// A record of 512 bytes that it gave is refused.
    Refused(RecordRefusal),
    /// STATION of its client is answered ERROR: the client sees no station with these codes.
    NoStation(AskedCodes),
    /// The transfer of its client that begins next is to have records of this station. It is said of each that something
    /// is asked of, in the order in which the client named them.
    Reads(AskedCodes, Mode),
    /// A transfer of its client begins, with the stations of which that was said.
    Begins,
    /// Its client, whose port is shut next, was sent so many packets of this station, at least one. It is said of each
    /// station that its transfer had packets of, in the order in which the client named them.
    Sent(AskedCodes, u64),
    /// Its client, whose port is shut next, lost so many records, at least one: they went out of their rings before it
    /// came to them.
    Lost(u64),
    /// Its client is cut: a new configuration shows its address something else than the client sees. The port is shut
    /// once it took what waits.
    Cut,
}
