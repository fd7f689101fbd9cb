//! The numbers of a record, in either order of bytes.
ghost use Rattle.std.specs.Prelude.{◌≡◌, ◌+◌, ◌≤◌, ◌<◌, length};
ghost use Rattle.protocol.specs.Record.{has_date as spec_has_date, order_of as spec_order_of, signed};
ghost use Rattle.protocol.specs.Record.{word as spec_word};
ghost use Rattle.protocol.specs.Time.{is_day as spec_is_day};

use byteorder::{BigEndian, ByteOrder as Endian, LittleEndian};
use protocol::record::ByteOrder;

// The number in the two bytes at a place.
pub fn word(order: ByteOrder, record: &[u8; 512], at: usize) -> u16
    requires { at + 2 ≤ 512 }
    ensures { result ≡ spec_word order «record».now at }
{
    let bytes = &record[at..];
    match order {
        ByteOrder::Big => BigEndian::read_u16(bytes),
        ByteOrder::Little => LittleEndian::read_u16(bytes),
    }
}

// The number with a sign in the two bytes at a place.
pub fn short(order: ByteOrder, record: &[u8; 512], at: usize) -> i16
    requires { at + 2 ≤ 512 }
    ensures { result ≡ signed (spec_word order «record».now at) }
{
    word(order, record, at).cast_signed()
}

fn is_day(year: u16, day: u16) -> bool
    ensures { result ≡ spec_is_day year day }
{
    (1900..=2100).contains(&year) && (1..=366).contains(&day)
}

fn has_date(order: ByteOrder, record: &[u8; 512]) -> bool
    ensures { result ≡ spec_has_date order «record».now }
{
    is_day(word(order, record, 20), word(order, record, 22))
}

// The order of the bytes of all numbers: the first in which the start has a year and a day.
pub fn order_of(record: &[u8; 512]) -> Option<ByteOrder>
    ensures { result ≡ spec_order_of «record».now }
{
    if has_date(ByteOrder::Big, record) {
        Some(ByteOrder::Big)
    } else if has_date(ByteOrder::Little, record) {
        Some(ByteOrder::Little)
    } else {
        None
    }
}
