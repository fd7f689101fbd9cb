//! The chain of blockettes.
//!
//! The facts of a record count the blockettes of its chain, though no client is told: so that what `Header::links`
//! answers is exact, and not only bounded. The offsets rise from 48 to at most 508, so there are at most 461.
ghost use Rattle.std.specs.Prelude.{◌≡◌, ◌<◌, ◌≤◌, IfSome, IsTrue};
ghost use Rattle.protocol.specs.Record.{fits as spec_fits, kind_of_type as spec_kind_of_type, word as spec_word};
ghost use Rattle.mseed_header.specs.Chain.{told_of, told_with};

use crate::numbers::word;
use protocol::record::{ByteOrder, Kind};

// What a record's header takes from its blockettes.
#[derive(Clone, Copy)]
pub struct Blockettes {
    // The byte of the first blockette 1000 that gives the record's length.
    pub length: Option<u8>,
    // What the first blockette that gives a kind gives.
    pub kind: Option<Kind>,
    // How many blockettes there are.
    pub links: u16,
}

// The most blockettes that a chain has: their offsets rise from 48 to at most 508.
pub const MOST_LINKS: u16 = 461;

// The kind that a blockette of a type gives a record without samples.
pub fn kind_of_type(blockette: u16) -> Option<Kind>
    ensures { result ≡ spec_kind_of_type blockette }
{
    match blockette {
        200 | 201 => Some(Kind::E),
        300 | 310 | 320 | 390 | 395 => Some(Kind::C),
        500 => Some(Kind::T),
        2000 => Some(Kind::O),
        _ => None,
    }
}

// Whether the blockette at an offset lies within the record: one of type 1000 has eight bytes, of any other four are
// read.
fn fits(order: ByteOrder, record: &[u8; 512], at: usize) -> bool
    ensures { result ≡ spec_fits order «record».now at }
{
    at <= 508 && (word(order, record, at) != 1000 || at <= 504)
}

impl Blockettes {
    // With what the blockette at an offset says.
    fn with(self, order: ByteOrder, record: &[u8; 512], at: usize) -> Self
        requires within { IsTrue (spec_fits order «record».now at) }
        requires few { self.links < MOST_LINKS }
        ensures { result ≡ told_with order «record».now self at }
    {
        let blockette = word(order, record, at);
        let length = if blockette == 1000 {
            Some(record[at + 6])
        } else {
            None
        };
        Blockettes {
            length: self.length.or(length),
            kind: self.kind.or(kind_of_type(blockette)),
            links: self.links + 1,
        }
    }
}

// What the blockettes say, or None where the chain is not well formed.
pub fn blockettes_of(order: ByteOrder, record: &[u8; 512]) -> Option<Blockettes>
    ensures value { result ≡ told_of order «record».now }
    ensures few { IfSome result (λ found. found.links ≤ MOST_LINKS) }
{
    let mut found = Blockettes {
        length: None,
        kind: None,
        links: 0,
    };
    let mut least = 48;
    let mut at = usize::from(word(order, record, 46));
    while at != 0 {
        if at < least || !fits(order, record, at) {
            return None;
        }
        found = found.with(order, record, at);
        least = at + 1;
        at = usize::from(word(order, record, at + 2));
    }
    Some(found)
}
