//! What a stream is known by.
ghost use Rattle.std.specs.Prelude.{◌≡◌};
ghost use Rattle.record_check.specs.Index.{name_of, AreCodes};

use crate::texts::kind_letter;
use mseed_header::Header;
use text_parts::code_numbers::spelled;

/// The codes of a stream, each spelled as a number, and the letter of its type.
#[derive(Clone, Copy, PartialEq, Eq, Hash)]
pub struct StreamName {
    network: u64,
    station: u64,
    location: u64,
    channel: u64,
    letter: u8,
}

impl StreamName {
    /// That of the stream to which a record belongs.
    pub fn of(header: &Header<'_>) -> StreamName
        ensures name { result ≡ name_of header.now }
        ensures codes { AreCodes header.now }
    {
        StreamName {
            network: spelled(header.network()),
            station: spelled(header.station()),
            location: spelled(header.location()),
            channel: spelled(header.channel()),
            letter: kind_letter(header.kind()),
        }
    }
}
