//! What a record says of itself.
ghost use Rattle.std.specs.Prelude.{◌≡◌, ◌≤ℤ◌, ◌≤◌, ◌<◌, ◌^◌, ◌+ℤ◌, IfSome, IsTrue, length, pos, slice_index, take};
ghost use Rattle.std.specs.List.{list_all};
ghost use Rattle.protocol.specs.Record.{has_date as spec_has_date, header_of};
ghost use Rattle.protocol.specs.Record.{is_sequence_byte as spec_is_sequence_byte, read_in as spec_read_in};
ghost use Rattle.protocol.specs.Record.{multiplier};
ghost use Rattle.protocol.specs.Record.{word as spec_word};
ghost use Rattle.protocol.specs.Time.{btime_tick};
ghost use Rattle.mseed_header.specs.Header.{facts_with, header_by as spec_header_by, kind_with};

use crate::chain::{Blockettes, blockettes_of};
use crate::codes::{is_quality, is_sequence_byte, trimmed};
use crate::extent::ticks_for;
use crate::numbers::{order_of, short, word};
use protocol::record::{ByteOrder, Kind, RecordFault};
use sl_time::{Tick, of_btime};
use std::marker::Model;

/// What a record of 512 bytes says of itself. Its codes are the record's own bytes.
#[derive(Drop)]
pub struct Header<'a> {
    station: &'a [u8],
    location: &'a [u8; 2],
    channel: &'a [u8; 3],
    network: &'a [u8],
    start: Tick,
    end: Tick,
    kind: Kind,
    samples: u16,
    links: u16,
}

impl<'a> Model for Header<'a> {
    ghost use Rattle.std.specs.Prelude.{◌≤◌, length};
    ghost use Rattle.protocol.specs.Record.{Facts};
    ghost use Rattle.mseed_header.specs.Header.{facts};

    ghost Value = { Facts };

    ghost view = { λ h. facts h.network.now h.station.now h.location.now h.channel.now
        h.start h.end h.kind h.samples h.links };

    ghost invariant = { λ h. (length h.station.now ≤ 5) × (length h.network.now ≤ 2) × (h.links ≤ 461) };
}

impl<'a> Header<'a> {
    /// The station's code, without the spaces that pad it: at most 5 bytes of the record.
    pub fn station(&self) -> &'a [u8]
        ensures code { result.now ≡ self.now.station }
        ensures bound { length result.now ≤ 5 }
    {
        self.station
    }

    /// The location's code, with the spaces that pad it.
    pub fn location(&self) -> &'a [u8; 2]
        ensures { result.now ≡ self.now.location }
    {
        self.location
    }

    /// The channel's code, with the spaces that pad it.
    pub fn channel(&self) -> &'a [u8; 3]
        ensures { result.now ≡ self.now.channel }
    {
        self.channel
    }

    /// The network's code, without the spaces that pad it: at most 2 bytes of the record.
    pub fn network(&self) -> &'a [u8]
        ensures code { result.now ≡ self.now.network }
        ensures bound { length result.now ≤ 2 }
    {
        self.network
    }

    /// The time of the first sample.
    pub fn start(&self) -> Tick
        ensures { result ≡ self.now.start }
    {
        self.start
    }

    /// The end of the last sample: the start and the samples' time by the rate factor and multiplier, rounded down.
    pub fn end(&self) -> Tick
        ensures { result ≡ self.now.stop }
    {
        self.end
    }

    /// The type: with samples, data, or a log where the rate factor is 0; without, by the blockettes.
    pub fn kind(&self) -> Kind
        ensures { result ≡ self.now.kind }
    {
        self.kind
    }

    /// How many samples the record has.
    pub fn samples(&self) -> u16
        ensures { result ≡ self.now.samples }
    {
        self.samples
    }

    /// How many blockettes the chain has: at most 461, since their offsets rise from 48 to at most 508.
    pub fn links(&self) -> u16
        ensures count { result ≡ self.now.links }
        ensures bound { result ≤ 461 }
    {
        self.links
    }
}

// The time of the start, or None where it is none of a day.
fn start_of(order: ByteOrder, record: &[u8; 512]) -> Option<Tick>
    ensures value { result ≡ btime_tick (spec_word order «record».now 20) (spec_word order «record».now 22)
        (slice_index «record».now 24) (slice_index «record».now 25) (slice_index «record».now 26)
        (spec_word order «record».now 28) }
    ensures bound { IfSome result (λ start. start ≤ℤ pos (2 ^ 60)) }
{
    let year = word(order, record, 20);
    let day = word(order, record, 22);
    of_btime(
        year,
        day,
        record[24],
        record[25],
        record[26],
        word(order, record, 28),
    )
}

fn end_of(start: Tick, ticks: u64) -> Tick
    requires early { start ≤ℤ pos (2 ^ 60) }
    requires short { ticks < 2 ^ 60 }
    ensures { result ≡ start +ℤ pos ticks }
{
    Tick::new(start.value() + ticks.cast_signed())
}

// The kind, where this one is what the blockettes give.
fn kind_of(order: ByteOrder, record: &[u8; 512], given: Option<Kind>) -> Kind
    ensures { result ≡ kind_with order «record».now given }
{
    let has_samples = word(order, record, 30) > 0;
    let has_rate = word(order, record, 32) != 0;
    match (has_samples, has_rate) {
        (true, true) => Kind::D,
        (true, false) => Kind::L,
        (false, _) => given.unwrap_or(Kind::D),
    }
}

// The multiplier of the sample rate, where 0 counts as 1.
fn multiplier_of(order: ByteOrder, record: &[u8; 512]) -> i16
    ensures { result ≡ multiplier (spec_word order «record».now 34) }
{
    match short(order, record, 34) {
        0 => 1,
        multiplier => multiplier,
    }
}

fn header_with(
    order: ByteOrder,
    record: &[u8; 512],
    start: Tick,
    blockettes: Blockettes,
) -> Header<'_>
    requires early { start ≤ℤ pos (2 ^ 60) }
    requires few { blockettes.links ≤ 461 }
    ensures { result ≡ facts_with order «record».now start blockettes.kind blockettes.links }
{
    let samples = word(order, record, 30);
    let ticks = ticks_for(
        samples,
        short(order, record, 32),
        multiplier_of(order, record),
    );
    Header {
        station: trimmed(&record[8..13]),
        location: record[13..15].as_array().unwrap(),
        channel: record[15..18].as_array().unwrap(),
        network: trimmed(&record[18..20]),
        start,
        end: end_of(start, ticks),
        kind: kind_of(order, record, blockettes.kind),
        samples,
        links: blockettes.links,
    }
}

// Whether the first six bytes may be a sequence number.
fn has_sequence(record: &[u8; 512]) -> bool
    ensures { result ≡ list_all spec_is_sequence_byte (take 6 «record».now) }
{
    record[..6].iter().all(|byte| is_sequence_byte(*byte))
}

fn header_by(
    order: ByteOrder,
    record: &[u8; 512],
    start: Tick,
    blockettes: Blockettes,
) -> Result<Header<'_>, RecordFault>
    requires early { start ≤ℤ pos (2 ^ 60) }
    requires few { blockettes.links ≤ 461 }
    ensures { result ≡ spec_header_by order «record».now start blockettes }
{
    match blockettes.length {
        Some(9) => Ok(header_with(order, record, start, blockettes)),
        Some(_) => Err(RecordFault::Length),
        None => Err(RecordFault::No1000),
    }
}

fn read_in(order: ByteOrder, record: &[u8; 512]) -> Result<Header<'_>, RecordFault>
    requires { IsTrue (spec_has_date order «record».now) }
    ensures { result ≡ spec_read_in «record».now (Some order) }
{
    let start = start_of(order, record).ok_or(RecordFault::Time)?;
    let blockettes = blockettes_of(order, record).ok_or(RecordFault::Blockettes)?;
    header_by(order, record, start, blockettes)
}

/// Reads a record: its header, or the first fault that it has (SEED Reference Manual 2.4, chapter 8).
///
/// Numbers are big-endian where that reading has a year of 1900 to 2100 and a day of 1 to 366, and else
/// little-endian.
pub fn read(record: &[u8; 512]) -> Result<Header<'_>, RecordFault>
    ensures { result ≡ header_of «record».now }
{
    if !has_sequence(record) {
        return Err(RecordFault::Sequence);
    }
    if !is_quality(record[6]) {
        return Err(RecordFault::Quality);
    }
    let order = order_of(record).ok_or(RecordFault::Time)?;
    read_in(order, record)
}
