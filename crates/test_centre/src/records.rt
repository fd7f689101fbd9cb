//! Records as tests and benches make them.
use mseed_header::{ByteOrder, FieldFault, Fields, make};

/// What tests vary of a record.
#[derive(Clone, Copy, Drop)]
pub struct RecordOf<'a> {
    pub network: &'a [u8],
    pub station: &'a [u8],
    pub channel: &'a [u8],
    /// It starts so many seconds after 2024-02-29T00:00:00: 0 to 59.
    pub second: u8,
    /// How many samples it has, 100 a second.
    pub samples: u16,
}

impl<'a> RecordOf<'a> {
    /// A record of that station: 100 samples of BHZ, from the beginning of the minute on.
    pub fn station(network: &'a [u8], station: &'a [u8]) -> Self {
        RecordOf {
            network,
            station,
            channel: b"BHZ",
            second: 0,
            samples: 100,
        }
    }
}

/// The record, of quality D, without a location and with no bytes in place of samples.
///
/// # Errors
///
/// The fields spell no record: a code is too long, or there is no such second.
pub fn made(record: &RecordOf<'_>) -> Result<[u8; 512], FieldFault> {
    make(&Fields {
        sequence: 1,
        quality: b'D',
        station: record.station,
        location: b"",
        channel: record.channel,
        network: record.network,
        year: 2024,
        day: 60,
        hour: 0,
        minute: 0,
        second: record.second,
        fraction: 0,
        samples: record.samples,
        factor: 100,
        multiplier: 1,
        encoding: 11,
        order: ByteOrder::Big,
        extra: None,
        contents: b"",
    })
}
