//! The lines of packets and of wants that are refused.
ghost use Rattle.std.specs.Prelude.{◌≡◌, ◌++◌, ◌∷◌, [], map, slice_range, IfOk, OnOk};
ghost use Rattle.std.specs.Char.{to_ascii_uppercase};
ghost use Rattle.reader_run.specs.Lines.{facts_text, line_of, number_text, packet_line, record_of, refusal_line};

use crate::packet_lines::PacketLines;
use mseed_header::Header;
use record_check::{Times, put_header};
use slreader::{GivenPacket, Want};
use std::alloc::{AllocError, Global};

/// The record of a packet.
pub(crate) fn record_of(packet: &[u8; 520]) -> &[u8; 512]
    ensures { result.now ≡ record_of packet.now }
{
    packet[8..520].as_array().unwrap()
}

/// The six digits of a packet's number, in upper case, and a space.
fn put_number(text: &mut Vec<u8>, packet: &[u8; 520]) -> Result<(), AllocError>
    ensures { OnOk result (text.new.items ≡ text.old.items ++ (number_text packet.now ++ 32 ∷ [])) }
{
    put_upper(text, packet[2..8].as_array().unwrap())
}

/// Six digits in upper case, and a space.
fn put_upper(text: &mut Vec<u8>, digits: &[u8; 6]) -> Result<(), AllocError>
    ensures { OnOk result (text.new.items ≡ text.old.items ++ (map to_ascii_uppercase digits.now ++ 32 ∷ [])) }
{
    let [a, b, c, d, e, f] = *digits;
    text.extend_from_slice(&[
        a.to_ascii_uppercase(),
        b.to_ascii_uppercase(),
        c.to_ascii_uppercase(),
        d.to_ascii_uppercase(),
        e.to_ascii_uppercase(),
        f.to_ascii_uppercase(),
        b' ',
    ])
}

/// What a packet's record says, if it can be read.
fn put_facts(
    text: &mut Vec<u8>,
    times: Times,
    header: &Option<Header<'_>>,
) -> Result<(), AllocError>
    ensures { OnOk result (text.new.items ≡ text.old.items ++ facts_text times header.now) }
{
    match header {
        Some(header) => put_header(text, times, header),
        None => text.extend_from_slice(b"unreadable"),
    }
}

/// The line of a packet.
fn put_line(text: &mut Vec<u8>, times: Times, packet: &GivenPacket<'_>) -> Result<(), AllocError>
    ensures { OnOk result (text.new.items ≡ text.old.items ++ packet_line times packet.now) }
{
    put_number(text, packet.bytes())?;
    put_facts(text, times, packet.header())?;
    text.push(b'\n')?;
    Ok(())
}

/// The line of a packet, if packets have lines.
pub(crate) fn put_packet(
    text: &mut Vec<u8>,
    lines: PacketLines,
    packet: &GivenPacket<'_>,
) -> Result<(), AllocError>
    ensures { OnOk result (text.new.items ≡ text.old.items ++ line_of lines packet.now) }
{
    match lines {
        PacketLines::Each(times) => put_line(text, times, packet),
        PacketLines::No => Ok(()),
    }
}

/// The line of a want that is refused.
pub(crate) fn refusal_line(alloc: Global, want: &Want<'_>) -> Result<Vec<u8>, AllocError>
    ensures { IfOk result (λ line. line.items ≡ refusal_line want.now) }
{
    let mut line = Vec::from_slice(alloc, b"refused ")?;
    line.extend_from_slice(want.network)?;
    line.push(b' ')?;
    line.extend_from_slice(want.station)?;
    line.push(b'\n')?;
    Ok(line)
}
