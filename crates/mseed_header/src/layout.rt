//! The bytes of a record that is made.
ghost use Rattle.std.specs.Prelude.{◌≡◌, ◌+◌, ◌-◌, ◌%◌, ◌≤◌, ◌++◌, IsTrue, length, replicate};
ghost use Rattle.arrayvec.specs.ArrayVec.{array_vec_len};
ghost use Rattle.protocol.specs.Made.{decimal, extra_bytes as spec_extra_bytes, has_codes_in_range, is_in_range};
ghost use Rattle.protocol.specs.Made.{layout_of as spec_layout_of, short_bytes as spec_short_bytes};
ghost use Rattle.protocol.specs.Made.{two_bytes as spec_two_bytes, word_order_byte};
ghost use Rattle.mseed_header.specs.Fields.{fields_value};
ghost use Rattle.mseed_header.specs.Layout.{blockettes_part, codes_part, places_part, rate_part, start_part};

use crate::fields::Fields;
use arrayvec::ArrayVec;
use byteorder::{BigEndian, ByteOrder as Endian, LittleEndian};
use protocol::record::ByteOrder;

// What is laid out of a record so far.
pub type Layout = ArrayVec<u8, 512>;

// The last decimal digit of a number.
fn digit(number: u32) -> u8
    ensures { result ≡ 48 + number % 10 }
{
    b'0' + (number % 10) as u8
}

fn sequence_digits(sequence: u32) -> [u8; 6]
    ensures { result ≡ decimal 6 sequence }
{
    [
        digit(sequence / 100_000),
        digit(sequence / 10_000),
        digit(sequence / 1000),
        digit(sequence / 100),
        digit(sequence / 10),
        digit(sequence),
    ]
}

// Bytes with a filler behind them.
pub fn padded<const N: usize>(filler: u8, bytes: &[u8]) -> [u8; N]
    requires { length bytes.now ≤ N }
    ensures { result ≡ bytes.now ++ replicate (N - length bytes.now) filler }
{
    let mut field = [filler; N];
    field[..bytes.len()].copy_from_slice(bytes);
    field
}

fn two_bytes(order: ByteOrder, number: u16) -> [u8; 2]
    ensures { result ≡ spec_two_bytes order number }
{
    let mut bytes = [0; 2];
    match order {
        ByteOrder::Big => BigEndian::write_u16(&mut bytes, number),
        ByteOrder::Little => LittleEndian::write_u16(&mut bytes, number),
    }
    bytes
}

fn short_bytes(order: ByteOrder, number: i16) -> [u8; 2]
    ensures { result ≡ spec_short_bytes order number }
{
    two_bytes(order, number.cast_unsigned())
}

fn put(layout: &mut Layout, bytes: &[u8])
    requires { array_vec_len layout.old + length bytes.now ≤ 512 }
    ensures items { layout.new.items ≡ layout.old.items ++ bytes.now }
    ensures len { array_vec_len layout.new ≡ array_vec_len layout.old + length bytes.now }
{
    layout.try_extend_from_slice(bytes).unwrap();
}

// The sequence number, the quality and the codes.
fn put_codes(layout: &mut Layout, fields: &Fields<'_>)
    requires in_range { IsTrue (has_codes_in_range (fields_value fields.now)) }
    requires room { array_vec_len layout.old ≤ 64 }
    ensures items { layout.new.items ≡ layout.old.items ++ codes_part (fields_value fields.now) }
    ensures len { array_vec_len layout.new ≡ array_vec_len layout.old + 20 }
{
    put(layout, &sequence_digits(fields.sequence));
    put(layout, &[fields.quality, b' ']);
    put(layout, &padded::<5>(b' ', fields.station));
    put(layout, &padded::<2>(b' ', fields.location));
    put(layout, &padded::<3>(b' ', fields.channel));
    put(layout, &padded::<2>(b' ', fields.network));
}

// The start, with a byte that nothing uses behind the second.
fn put_start(layout: &mut Layout, fields: &Fields<'_>)
    requires { array_vec_len layout.old ≤ 64 }
    ensures items { layout.new.items ≡ layout.old.items ++ start_part (fields_value fields.now) }
    ensures len { array_vec_len layout.new ≡ array_vec_len layout.old + 10 }
{
    put(layout, &two_bytes(fields.order, fields.year));
    put(layout, &two_bytes(fields.order, fields.day));
    put(layout, &[fields.hour, fields.minute, fields.second, 0]);
    put(layout, &two_bytes(fields.order, fields.fraction));
}

// The samples and their rate.
fn put_rate(layout: &mut Layout, fields: &Fields<'_>)
    requires { array_vec_len layout.old ≤ 64 }
    ensures items { layout.new.items ≡ layout.old.items ++ rate_part (fields_value fields.now) }
    ensures len { array_vec_len layout.new ≡ array_vec_len layout.old + 6 }
{
    put(layout, &two_bytes(fields.order, fields.samples));
    put(layout, &short_bytes(fields.order, fields.factor));
    put(layout, &short_bytes(fields.order, fields.multiplier));
}

// The flags, the count of blockettes, the time correction, and where samples and blockettes begin.
fn put_places(layout: &mut Layout, fields: &Fields<'_>)
    requires { array_vec_len layout.old ≤ 64 }
    ensures items { layout.new.items ≡ layout.old.items ++ places_part (fields_value fields.now) }
    ensures len { array_vec_len layout.new ≡ array_vec_len layout.old + 12 }
{
    let count = if fields.extra.is_some() { 2 } else { 1 };
    let samples_offset = if fields.samples > 0 { 64 } else { 0 };
    put(layout, &[0; 3]);
    put(layout, &[count]);
    put(layout, &[0; 4]);
    put(layout, &two_bytes(fields.order, samples_offset));
    put(layout, &two_bytes(fields.order, 48));
}

// The blockette behind the blockette 1000, or as many zeros.
fn extra_bytes(order: ByteOrder, extra: Option<u16>) -> [u8; 8]
    ensures { result ≡ spec_extra_bytes order extra }
{
    match extra {
        None => [0; 8],
        Some(blockette) => {
            let [first, second] = two_bytes(order, blockette);
            [first, second, 0, 0, 0, 0, 0, 0]
        }
    }
}

fn word_order(order: ByteOrder) -> u8
    ensures { result ≡ word_order_byte order }
{
    match order {
        ByteOrder::Big => 1,
        ByteOrder::Little => 0,
    }
}

// Blockette 1000, which gives a length of 2^9 bytes, and the blockette behind it.
fn put_blockettes(layout: &mut Layout, fields: &Fields<'_>)
    requires { array_vec_len layout.old ≤ 64 }
    ensures items { layout.new.items ≡ layout.old.items ++ blockettes_part (fields_value fields.now) }
    ensures len { array_vec_len layout.new ≡ array_vec_len layout.old + 16 }
{
    let next = if fields.extra.is_some() { 56 } else { 0 };
    put(layout, &two_bytes(fields.order, 1000));
    put(layout, &two_bytes(fields.order, next));
    put(layout, &[fields.encoding, word_order(fields.order), 9, 0]);
    put(layout, &extra_bytes(fields.order, fields.extra));
}

// The record of fields that are in range.
pub fn layout_of(fields: &Fields<'_>) -> [u8; 512]
    requires { IsTrue (is_in_range (fields_value fields.now)) }
    ensures { result ≡ spec_layout_of (fields_value fields.now) }
{
    let mut layout = Layout::new();
    put_codes(&mut layout, fields);
    put_start(&mut layout, fields);
    put_rate(&mut layout, fields);
    put_places(&mut layout, fields);
    put_blockettes(&mut layout, fields);
    put(&mut layout, &padded::<448>(0, fields.contents));
    layout.into_inner().unwrap()
}
