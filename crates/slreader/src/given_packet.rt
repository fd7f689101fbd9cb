//! A packet that a reader is given.
ghost use Rattle.std.specs.Prelude.{◌≡◌, slice_range};
ghost use Rattle.slreader.specs.Tallies.{packet_facts};

use mseed_header::{Header, read};
use std::marker::Model;

/// A packet, with what its record says. In a contract it is its bytes.
#[derive(Drop)]
pub struct GivenPacket<'a> {
    bytes: &'a [u8; 520],
    header: Option<Header<'a>>,
}

impl<'a> Model for GivenPacket<'a> {
    ghost use Rattle.std.specs.Prelude.{◌≡◌, ℕ, List};
    ghost use Rattle.slreader.specs.Tallies.{packet_facts};

    ghost Value = { List ℕ };

    ghost view = { λ p. p.bytes.now };

    ghost invariant = { λ p. p.header ≡ packet_facts p.bytes.now };
}

/// Its record.
fn packet_record(packet: &[u8; 520]) -> &[u8; 512]
    ensures { result.now ≡ slice_range packet.now 8 520 }
{
    packet[8..520].as_array().unwrap()
}

/// What its record says, if it can be read.
#[tactic(auto, unfolding(crate::specs::Tallies::packet_facts))]
fn packet_header(packet: &[u8; 520]) -> Option<Header<'_>>
    ensures { result ≡ packet_facts packet.now }
{
    read(packet_record(packet)).ok()
}

impl<'a> GivenPacket<'a> {
    ghost use Rattle.std.specs.Prelude.{◌≡◌, slice_range};
    ghost use Rattle.std.specs.Result.{result_ok};
    ghost use Rattle.protocol.specs.Record.{header_of};
    ghost use Rattle.slreader.specs.Tallies.{packet_facts};

    /// The packet of these bytes, whose record is read.
    pub fn new(bytes: &'a [u8; 520]) -> GivenPacket<'a>
        ensures { result ≡ bytes.now }
    {
        GivenPacket {
            bytes,
            header: packet_header(bytes),
        }
    }

    /// Its bytes.
    pub fn bytes(&self) -> &'a [u8; 520]
        ensures { result.now ≡ self.now }
    {
        self.bytes
    }

    /// Its record.
    #[tactic(auto, unfolding(crate::specs::Tallies::packet_facts))]
    pub fn record(&self) -> &'a [u8; 512]
        ensures bytes { result.now ≡ slice_range self.now 8 520 }
        ensures header { packet_facts self.now ≡ result_ok (header_of result.now) }
    {
        packet_record(self.bytes)
    }

    /// What its record says, if it can be read.
    pub fn header(&self) -> &Option<Header<'a>>
        ensures { result.now ≡ packet_facts self.now }
    {
        &self.header
    }
}
