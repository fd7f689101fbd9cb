//! What is held of a record.
ghost use Rattle.std.specs.Prelude.{◌≡◌};
ghost use Rattle.station_ring.specs.Briefs.{stream_of};

use protocol::record::Kind;
use sl_time::Tick;

/// What is asked of a held record without reading its bytes again.
#[derive(Clone, Copy)]
pub struct Summary {
    /// The moment of its first sample.
    pub start: Tick,
    /// The record's end: the moment at which its samples are over.
    pub stop: Tick,
    /// Its type.
    pub kind: Kind,
    /// Its location, padded with spaces.
    pub location: [u8; 2],
    /// Its channel, padded with spaces.
    pub channel: [u8; 3],
}

impl Summary {
    /// The stream that the record belongs to.
    pub fn stream(&self) -> Stream
        ensures { result ≡ stream_of self.now }
    {
        Stream {
            location: self.location,
            channel: self.channel,
            kind: self.kind,
        }
    }
}

/// Which stream of a station a record belongs to: its location, its channel and its type.
#[derive(Clone, Copy)]
pub struct Stream {
    pub location: [u8; 2],
    pub channel: [u8; 3],
    pub kind: Kind,
}

/// What a search looks at of a held record. The briefs of a ring lie side by side, apart from the records' bytes.
#[derive(Clone, Copy, Drop)]
pub struct Brief {
    /// The moment of the record's first sample.
    pub start: Tick,
    /// The moment at which its samples are over.
    pub stop: Tick,
    /// Its stream, by the stream's number. None if the stream has no number: only the first 64 streams of a station
    /// that sent a record get one.
    pub stream: Option<u8>,
}

/// The briefs of held records, one after the other, in two pieces.
#[derive(Clone, Copy)]
pub struct Briefs<'a> {
    /// Those of the older records.
    pub older: &'a [Brief],
    /// Those of the records after these.
    pub newer: &'a [Brief],
    /// The station's streams, by their numbers.
    pub streams: &'a [Stream],
}

/// A held record.
#[derive(Drop)]
pub struct Held {
    /// When it came, as a count that rises with each record that comes: the greater one came later, at whatever
    /// station.
    pub stamp: u64,
    /// The whole record, 512 bytes.
    pub bytes: [u8; 512],
    /// What is asked of it.
    pub summary: Summary,
}
