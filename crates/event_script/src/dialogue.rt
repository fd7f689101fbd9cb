//! The dialogue of a script: a line an event, with what each take was handed.
//!
//! A replay as text has the form of the files that `dialogues` plays, with the number of a client for its name. A
//! packet and an arrival are written by what their records say, since the digits of 512 bytes tell a reader nothing.
//! Whether the server takes a record or a configuration is not written: `run` hands out what clients are handed and no
//! more, and that shows it.
ghost use Rattle.std.specs.Prelude.{◌≡◌, ◌<◌, ◌≤◌, ◌+◌, ◌-◌, ◌^◌, ◌∷◌, ◌++◌, [], drop, map, length, codes, decimal};
ghost use Rattle.std.specs.Prelude.{IfOk, OnOk};
ghost use Rattle.std.specs.Net.Addr.{ipv4_bits};
ghost use Rattle.server_core.specs.Runs.{event_value, handed_value};
ghost use Rattle.record_check.specs.Listing.{reading_of, refusal_text};
ghost use Rattle.record_check.specs.declared.fault.FileFault.TheVariants.{Record};
ghost use Rattle.event_script.specs.Dialogue.{arrival_line, arrival_text, client_line, dialogue_of};
ghost use Rattle.event_script.specs.Dialogue.{event_line, handed_text, marked_text, nothing_text, opened_after};
ghost use Rattle.event_script.specs.Dialogue.{packet_facts, packet_text, received_text, sent_text, take_line};
ghost use Rattle.event_script.specs.Dialogue.{address_text, is_packet, takes_after};

use crate::spelling::put_spelled;
use itoa::Buffer;
use mseed_header::{Header, RecordFault, read};
use record_check::{Times, put_header};
use server_core::{Event, Handed};
use std::alloc::{AllocError, Global};
use std::net::Ipv4Addr;

/// What a record says, or why it is refused.
#[tactic(auto, unfolding(record_check::specs::Listing::reading_of))]
fn reading_of(record: &[u8; 512]) -> Result<Header<'_>, RecordFault>
    ensures { result ≡ reading_of «record».now }
{
    read(record)
}

/// The decimal digits of a number.
fn put_number(text: &mut Vec<u8>, number: usize) -> Result<(), AllocError>
    ensures { OnOk result (text.new.items ≡ text.old.items ++ decimal number) }
{
    let mut buffer = Buffer::new();
    text.extend_from_slice(buffer.format(number).as_bytes())
}

/// The number of a client, and a space.
fn put_client(text: &mut Vec<u8>, client: usize) -> Result<(), AllocError>
    ensures { OnOk result (text.new.items ≡ text.old.items ++ decimal client ++ 32 ∷ []) }
{
    put_number(text, client)?;
    text.push(b' ')?;
    Ok(())
}

/// The bytes without their ending, behind a mark and a space; behind two marks if they don't end so.
fn put_marked(text: &mut Vec<u8>, mark: u8, ending: &[u8], bytes: &[u8]) -> Result<(), AllocError>
    ensures { OnOk result (text.new.items ≡ text.old.items ++ marked_text mark ending.now bytes.now) }
{
    if bytes.ends_with(ending) {
        text.extend_from_slice(&[mark, b' '])?;
        put_spelled(text, &bytes[..bytes.len() - ending.len()])
    } else {
        text.extend_from_slice(&[mark, mark, b' '])?;
        put_spelled(text, bytes)
    }
}

/// Whether bytes are as long as a packet, and begin as one does.
fn is_packet(bytes: &[u8]) -> bool
    ensures { result ≡ is_packet bytes.now }
{
    bytes.len() == 520 && bytes.starts_with(b"SL")
}

/// The record of a packet.
fn record_of(packet: &[u8]) -> &[u8; 512]
    requires { length packet.now ≡ 520 }
    ensures { result.now ≡ drop 8 packet.now }
{
    packet[8..].as_array().unwrap()
}

/// What the record of a packet says; nothing of other bytes, or if the record is not valid.
fn packet_header(bytes: &[u8]) -> Option<Header<'_>>
    ensures { result ≡ packet_facts bytes.now }
{
    if is_packet(bytes) {
        reading_of(record_of(bytes)).ok()
    } else {
        None
    }
}

/// The number of a packet, and what its record says.
fn put_packet(text: &mut Vec<u8>, bytes: &[u8], header: &Header<'_>) -> Result<(), AllocError>
    requires { 8 ≤ length bytes.now }
    ensures { OnOk result (text.new.items ≡ text.old.items ++ packet_text bytes.now header.now) }
{
    text.extend_from_slice(b"packet ")?;
    put_spelled(text, &bytes[2..8])?;
    text.push(b' ')?;
    put_header(text, Times::Ticks, header)
}

/// What a client sends: `> HELLO` with a carriage return, or `>> HEL`.
fn put_sent(text: &mut Vec<u8>, bytes: &[u8]) -> Result<(), AllocError>
    ensures { OnOk result (text.new.items ≡ text.old.items ++ sent_text bytes.now) }
{
    put_marked(text, b'>', b"\r", bytes)
}

/// Bytes that a client is handed: a packet by what its record says, `< OK` with a carriage return and a line feed, or
/// `<< END`.
fn put_received(text: &mut Vec<u8>, bytes: &[u8]) -> Result<(), AllocError>
    ensures { OnOk result
        (text.new.items ≡ text.old.items ++ received_text bytes.now (packet_facts bytes.now)) }
{
    match packet_header(bytes) {
        Some(header) => put_packet(text, bytes, &header),
        None => put_marked(text, b'<', b"\r\n", bytes),
    }
}

/// No byte: the connection is over, or goes on.
fn put_nothing(text: &mut Vec<u8>, ended: bool) -> Result<(), AllocError>
    ensures { OnOk result (text.new.items ≡ text.old.items ++ nothing_text ended) }
{
    if ended {
        text.extend_from_slice(b"end")
    } else {
        text.extend_from_slice(b"nothing")
    }
}

/// What a take was handed.
fn put_handed(text: &mut Vec<u8>, take: &Handed) -> Result<(), AllocError>
    ensures { OnOk result (text.new.items ≡ text.old.items ++ handed_text (handed_value take.now)) }
{
    if take.bytes.is_empty() {
        put_nothing(text, take.ended)
    } else {
        put_received(text, take.bytes.as_slice())
    }
}

/// Four numbers joined by dots.
fn put_address(alloc: Global, text: &mut Vec<u8>, address: Ipv4Addr) -> Result<(), AllocError>
    ensures { OnOk result (text.new.items ≡ text.old.items ++ address_text (ipv4_bits address)) }
{
    let numbers = address.to_string(alloc)?;
    text.extend_from_slice(numbers.as_bytes())?;
    Ok(())
}

/// The line of a client that opens.
fn put_open(
    alloc: Global,
    text: &mut Vec<u8>,
    client: usize,
    address: Ipv4Addr,
) -> Result<(), AllocError>
    ensures { OnOk result (text.new.items
        ≡ text.old.items ++ client_line client (codes "open " ++ address_text (ipv4_bits address))) }
{
    put_client(text, client)?;
    text.extend_from_slice(b"open ")?;
    put_address(alloc, text, address)?;
    text.push(b'\n')?;
    Ok(())
}

/// The line of a client that sends bytes.
fn put_bytes(text: &mut Vec<u8>, client: usize, bytes: &[u8]) -> Result<(), AllocError>
    ensures { OnOk result (text.new.items ≡ text.old.items ++ client_line client (sent_text bytes.now)) }
{
    put_client(text, client)?;
    put_sent(text, bytes)?;
    text.push(b'\n')?;
    Ok(())
}

/// The line of the first of the takes that are left.
fn put_take(text: &mut Vec<u8>, takes: &[Handed]) -> Result<(), AllocError>
    ensures { OnOk result (text.new.items ≡ text.old.items ++ take_line (map handed_value takes.now)) }
{
    let Some(take) = takes.first() else {
        return Ok(());
    };
    put_client(text, take.client)?;
    put_handed(text, take)?;
    text.push(b'\n')?;
    Ok(())
}

/// The line of a client that closes.
fn put_close(text: &mut Vec<u8>, client: usize) -> Result<(), AllocError>
    ensures { OnOk result (text.new.items ≡ text.old.items ++ client_line client (codes "close")) }
{
    put_client(text, client)?;
    text.extend_from_slice(b"close\n")
}

/// Why a record is refused.
fn put_refusal(text: &mut Vec<u8>, fault: RecordFault) -> Result<(), AllocError>
    ensures { OnOk result (text.new.items ≡ text.old.items ++ refusal_text (Record fault)) }
{
    let reason = fault.reason();
    text.extend_from_slice(b"refused ")?;
    put_number(text, usize::from(reason.number()))?;
    text.push(b' ')?;
    text.extend_from_slice(reason.name().as_bytes())
}

/// What a record says, or why it is refused.
fn put_record(text: &mut Vec<u8>, record: &[u8; 512]) -> Result<(), AllocError>
    ensures { OnOk result (text.new.items ≡ text.old.items ++ arrival_text (reading_of «record».now)) }
{
    match reading_of(record) {
        Ok(header) => put_header(text, Times::Ticks, &header),
        Err(fault) => put_refusal(text, fault),
    }
}

/// The line of an arrival.
fn put_arrival(text: &mut Vec<u8>, record: &[u8; 512]) -> Result<(), AllocError>
    ensures { OnOk result (text.new.items ≡ text.old.items ++ arrival_line «record».now) }
{
    text.extend_from_slice(b"arrive ")?;
    put_record(text, record)?;
    text.push(b'\n')?;
    Ok(())
}

/// The line of an event, where so many clients opened before it, and with what the takes from it on were handed.
fn put_event(
    alloc: Global,
    text: &mut Vec<u8>,
    opened: usize,
    takes: &[Handed],
    event: &Event,
) -> Result<(), AllocError>
    ensures { OnOk result (text.new.items
        ≡ text.old.items ++ event_line opened (map handed_value takes.now) (event_value event.now)) }
{
    match event {
        Event::Open(address) => put_open(alloc, text, opened, *address),
        Event::Bytes(client, bytes) => put_bytes(text, *client, bytes.as_slice()),
        Event::Take(_, _) => put_take(text, takes),
        Event::Close(client) => put_close(text, *client),
        Event::Arrive(record) => put_arrival(text, record),
        Event::Reload(_) => text.extend_from_slice(b"server reload\n"),
    }
}

/// How many clients opened, with an event.
fn opened_after(opened: usize, event: &Event) -> usize
    requires { opened < 2 ^ 64 - 1 }
    ensures { result ≡ opened_after opened (event_value event.now) }
{
    match event {
        Event::Open(_) => opened + 1,
        _ => opened,
    }
}

/// The takes that are left after an event.
fn takes_after<'a>(takes: &'a [Handed], event: &Event) -> &'a [Handed]
    ensures { map handed_value result.now ≡ takes_after (map handed_value takes.now) (event_value event.now) }
{
    match (event, takes) {
        (Event::Take(_, _), [_, rest @ ..]) => rest,
        _ => takes,
    }
}

/// The dialogue of a script's events: a line an event, in order. A client is the number of opens before its own.
///
/// | Line | Of what |
/// |---|---|
/// | `0 open 10.0.0.7` | a client connects |
/// | `0 > HELLO` | it sends bytes that end with a carriage return |
/// | `0 >> HEL` | it sends other bytes |
/// | `0 < OK` | a take was handed bytes that end with a carriage return and a line feed |
/// | `0 << END` | a take was handed other bytes |
/// | `0 packet FFFFFE NET STA LOC CHA TYPE START END SAMPLES` | a take was handed a packet: its number and its record |
/// | `0 nothing` | a take was handed no byte |
/// | `0 end` | a take was handed no byte, since the connection is over |
/// | `0 close` | its connection ends |
/// | `arrive NET STA LOC CHA TYPE START END SAMPLES` | a record arrives |
/// | `arrive refused N NAME` | 512 bytes arrive that are not a valid record |
/// | `server reload` | a configuration is read again |
///
/// The n-th take of the events has the n-th of `takes`. Bytes are spelled with `\r`, `\n`, `\\`, and `\x` and two
/// digits for others that do not print. Only memory can lack.
pub fn dialogue_of(alloc: Global, events: &[Event], takes: &[Handed]) -> Result<Vec<u8>, AllocError>
    ensures { IfOk result (λ text. text.items ≡ dialogue_of (map event_value events.now) (map handed_value takes.now)) }
{
    let mut text = Vec::new(alloc);
    let mut opened = 0usize;
    let mut left = takes;
    for event in events {
        put_event(alloc, &mut text, opened, left, event)?;
        opened = opened_after(opened, event);
        left = takes_after(left, event);
    }
    Ok(text)
}
