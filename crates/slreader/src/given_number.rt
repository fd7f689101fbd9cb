//! The number of a packet as it came.
ghost use Rattle.std.specs.Prelude.{◌≡◌};

use sl_packet::Seq;
use std::marker::Model;

/// The six bytes behind `SL` of a packet (SeedLink 3, data packets), which are read as a number where somebody asks for
/// it: a reader that lists a million packets asks once. In a contract it is that number, or None if they spell none.
#[derive(Drop)]
pub struct GivenNumber {
    digits: [u8; 6],
}

impl Model for GivenNumber {
    ghost use Rattle.std.specs.Prelude.{ℕ, Option};
    ghost use Rattle.protocol.specs.Packet.{number_of};

    ghost Value = { Option ℕ };

    ghost view = { λ n. number_of n.digits };
}

impl GivenNumber {
    ghost use Rattle.std.specs.Prelude.{◌≡◌, Some};
    ghost use Rattle.slreader.specs.Tallies.{packet_number};

    /// The number of a packet.
    pub fn in_packet(packet: &[u8; 520]) -> GivenNumber
        ensures { result ≡ packet_number packet.now }
    {
        GivenNumber {
            digits: *packet[2..8].as_array().unwrap(),
        }
    }

    /// A number that is known.
    pub fn of(number: Seq) -> GivenNumber
        ensures { result ≡ Some number }
    {
        let _known = number.value();
        GivenNumber {
            digits: number.digits(),
        }
    }

    /// Another one that says the same.
    pub fn copy(&self) -> GivenNumber
        ensures { result ≡ self.now }
    {
        GivenNumber {
            digits: self.digits,
        }
    }

    /// The number itself; None where the bytes spell none.
    pub fn read(&self) -> Option<Seq>
        ensures { result ≡ self.now }
    {
        Seq::parse(&self.digits)
    }
}
