//! What is asked of a station.
use sl_packet::Seq;
use sl_time::Tick;

/// What a client asks of a station (SeedLink 3, DATA, FETCH and TIME).
#[derive(Clone, Copy)]
pub enum Action {
    /// `DATA [number [begin]]`: records as they come, from that sequence number on, and none that ended before that
    /// moment.
    Data {
        number: Option<Seq>,
        begin: Option<Tick>,
    },
    /// `FETCH [number [begin]]`: the same of the records that are held, and then the end.
    Fetch {
        number: Option<Seq>,
        begin: Option<Tick>,
    },
    /// `TIME [begin [last]]`: the records between two moments.
    Time {
        begin: Option<Tick>,
        last: Option<Tick>,
    },
}
