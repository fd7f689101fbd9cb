//! Records that arrive.
ghost use Rattle.std.specs.Prelude.{◌≡◌, ◌≢◌, IfOk, IfErr, Err};
ghost use Rattle.protocol.specs.Record.{header_of};
ghost use Rattle.station_ring.specs.HeldRecords.{summary_of};
ghost use Rattle.server_core.specs.Arrivals.{arrive_reason, placed_by, IsPlaced};
ghost use Rattle.server_core.specs.declared.arrivals.ArriveFault.TheVariants.{Exhausted};

use catalog::Config;
use mseed_header::{Header, RecordFault, read};
use protocol::reason::Reason;
use station_ring::Summary;

/// Why a record is not taken. Then nothing changes.
#[derive(Clone, Copy, Debug, PartialEq, Eq, Drop)]
pub enum ArriveFault {
    /// It is no record.
    Record(RecordFault),
    /// No station of the configuration has the record's network and station codes.
    UnknownStation,
    /// As many records arrived as can be counted, 2^64 - 1.
    Exhausted,
}

impl ArriveFault {
    /// The reason by which the program reports it: those of the record's fault, 1 to 6, or 32 or 33.
    pub fn reason(self) -> Reason
        ensures { result ≡ arrive_reason self }
    {
        match self {
            ArriveFault::Record(fault) => fault.reason(),
            ArriveFault::UnknownStation => Reason::UnknownStation,
            ArriveFault::Exhausted => Reason::Exhausted,
        }
    }
}

/// What is kept of a record's header.
fn summary_of(header: &Header<'_>) -> Summary
    ensures { result ≡ summary_of header.now }
{
    Summary {
        start: header.start(),
        stop: header.end(),
        kind: header.kind(),
        location: *header.location(),
        channel: *header.channel(),
    }
}

/// A record of a station that is there.
#[derive(Drop)]
pub struct Placing {
    /// The place of the first station in the configuration with the record's codes.
    pub place: usize,
    /// What is kept of the record.
    pub summary: Summary,
}

/// The place of a record's station, and what is kept of the record; or why it is refused: it is no record, or no
/// station has its codes.
pub fn placed(config: &Config, bytes: &[u8; 512]) -> Result<Placing, ArriveFault>
    ensures ok { IfOk result (λ p. IsPlaced config.now bytes.now p.place p.summary) }
    ensures err { IfErr result (λ fault. placed_by config.now (header_of bytes.now) ≡ Err fault) }
    ensures counted { IfErr result (λ fault. fault ≢ Exhausted) }
{
    let header = match read(bytes) {
        Ok(header) => header,
        Err(fault) => return Err(ArriveFault::Record(fault)),
    };
    match config.place_of(header.network(), header.station()) {
        Some(place) => Ok(Placing {
            place,
            summary: summary_of(&header),
        }),
        None => Err(ArriveFault::UnknownStation),
    }
}
