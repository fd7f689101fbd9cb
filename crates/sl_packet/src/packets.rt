//! Packets: `SL`, six hexadecimal digits and a record of 512 bytes (SeedLink 3, data packets).
ghost use Rattle.std.specs.Prelude.{◌≡◌, ◌<◌, ◌≤◌, ◌++◌, codes, length};
ghost use Rattle.protocol.specs.Packet.{digits, packet};
ghost use Rattle.protocol.specs.Streams.{may_stand, may_continue};

use crate::sequence::Seq;

/// The length of a packet, in bytes.
pub const PACKET: usize = 520;

/// The length of what stands before the record, in bytes.
const HEADER: usize = 8;

/// What stands before the record in the packet with that number: `SL` and the six digits of the number in upper case
/// (SeedLink 3, data packets).
pub fn header(number: Seq) -> [u8; 8]
    ensures { result ≡ codes "SL" ++ digits number }
{
    let mut header = [0; HEADER];
    header[..2].copy_from_slice(b"SL");
    header[2..].copy_from_slice(&number.digits());
    header
}

/// The packet of a record: its header, and the record as it is (SeedLink 3, data packets).
pub fn frame(number: Seq, record: &[u8; 512]) -> [u8; 520]
    ensures { result ≡ packet number «record».now }
{
    let mut packet = [0; PACKET];
    packet[..HEADER].copy_from_slice(&header(number));
    packet[HEADER..].copy_from_slice(record);
    packet
}

/// Whether a byte may stand at that place of a packet: `S`, `L`, six hexadecimal digits of either case, and then
/// anything.
fn may_stand(place: usize, byte: u8) -> bool
    ensures { result ≡ may_stand place byte }
{
    match place {
        0 => byte == b'S',
        1 => byte == b'L',
        2..=7 => byte.is_ascii_hexdigit(),
        _ => true,
    }
}

/// Whether a packet may begin with these bytes, which are eight or more.
fn may_begin(bytes: &[u8]) -> bool
    requires { 8 ≤ length bytes.now }
    ensures { result ≡ may_continue 0 bytes.now }
{
    for index in 0..HEADER {
        if !may_stand(index, bytes[index]) {
            return false;
        }
    }
    true
}

/// Whether the bytes may stand in a packet from that place on. Behind the header nothing needs a test. A whole header
/// is tested at once.
pub fn may_continue(place: usize, bytes: &[u8]) -> bool
    requires { place < 520 }
    ensures { result ≡ may_continue place bytes.now }
{
    if place == 0 && bytes.len() >= HEADER {
        return may_begin(bytes);
    }
    let tested = HEADER.saturating_sub(place).min(bytes.len());
    for index in 0..tested {
        if !may_stand(place + index, bytes[index]) {
            return false;
        }
    }
    true
}
