//! The streams of files of records.
ghost use Rattle.std.specs.Prelude.{◌≡◌, ◌+◌, ◌<◌, IfOk};
ghost use Rattle.record_check.specs.Streams.{earlier as spec_earlier, later as spec_later, AreInOrder};

use crate::runs::{Run, put_record};
use crate::texts::kind_letter;
use mseed_header::{Header, Kind};
use sl_time::Tick;
use std::alloc::{AllocError, Global};
use std::marker::Model;

/// The earlier of two moments.
fn earlier(a: Tick, b: Tick) -> Tick
    ensures { result ≡ spec_earlier a b }
{
    if b.value() < a.value() { b } else { a }
}

/// The later of two moments.
fn later(a: Tick, b: Tick) -> Tick
    ensures { result ≡ spec_later a b }
{
    if a.value() < b.value() { b } else { a }
}

/// What is known of a stream: the records of one type of a channel, in runs as they came.
#[derive(Drop)]
pub(crate) struct CheckedStream {
    network: Vec<u8>,
    station: Vec<u8>,
    location: [u8; 2],
    channel: [u8; 3],
    kind: Kind,
    records: u64,
    first: Tick,
    last: Tick,
    runs: Vec<Run>,
}

impl Model for CheckedStream {
    ghost use Rattle.record_check.specs.Streams.{StreamValue};

    ghost Value = { StreamValue };

    ghost view = { λ s. record {
      network = s.network.items;
      station = s.station.items;
      location = s.location;
      channel = s.channel;
      kind = s.kind;
      records = s.records;
      first = s.first;
      last = s.last;
      runs = s.runs.items;
    } };
}

impl CheckedStream {
    ghost use Rattle.std.specs.Prelude.{◌≡◌, IfOk, OnOk, OnErr};
    ghost use Rattle.record_check.specs.Streams.{begun, gone_on, is_data, IsInOrder};

    /// That of a record which is its first.
    pub(crate) fn new(alloc: Global, header: &Header<'_>) -> Result<CheckedStream, AllocError>
        ensures { IfOk result (λ s. s ≡ begun header.now) }
    {
        Ok(CheckedStream {
            network: Vec::from_slice(alloc, header.network())?,
            station: Vec::from_slice(alloc, header.station())?,
            location: *header.location(),
            channel: *header.channel(),
            kind: header.kind(),
            records: 1,
            first: header.start(),
            last: header.end(),
            runs: vec![in alloc; Run::of(header); 1]?,
        })
    }

    /// Whether it has data: samples at a rate.
    fn is_data(&self) -> bool
        ensures { result ≡ is_data self.now }
    {
        kind_letter(self.kind) == b'D'
    }

    /// One record more. It fails only if memory can't be allocated, and then nothing changes.
    #[tactic(auto, unfolding(crate::specs::Streams::gone_on))]
    pub(crate) fn go_on(&mut self, header: &Header<'_>) -> Result<(), AllocError>
        ensures gone { OnOk result (self.new ≡ gone_on header.now self.old) }
        ensures kept { OnErr result (self.new ≡ self.old) }
    {
        let is_data = self.is_data();
        put_record(&mut self.runs, is_data, header)?;
        self.records = self.records.saturating_add(1);
        self.first = earlier(self.first, header.start());
        self.last = later(self.last, header.end());
        Ok(())
    }

    /// Puts its runs in the order of their starts.
    pub(crate) fn put_in_order(&mut self)
        ensures { IsInOrder self.old self.new }
    {
        self.runs.sort_unstable_by_key(|run| run.start());
    }

    /// The network's code.
    pub(crate) fn network(&self) -> &[u8]
        ensures { result.now ≡ self.now.network }
    {
        self.network.as_slice()
    }

    /// The station's code.
    pub(crate) fn station(&self) -> &[u8]
        ensures { result.now ≡ self.now.station }
    {
        self.station.as_slice()
    }

    /// The location's code.
    pub(crate) fn location(&self) -> &[u8; 2]
        ensures { result.now ≡ self.now.location }
    {
        &self.location
    }

    /// The channel's code.
    pub(crate) fn channel(&self) -> &[u8; 3]
        ensures { result.now ≡ self.now.channel }
    {
        &self.channel
    }

    /// The type of its records.
    pub(crate) fn kind(&self) -> Kind
        ensures { result ≡ self.now.kind }
    {
        self.kind
    }

    /// How many records it has.
    pub(crate) fn records(&self) -> u64
        ensures { result ≡ self.now.records }
    {
        self.records
    }

    /// The earliest start of a record.
    pub(crate) fn first(&self) -> Tick
        ensures { result ≡ self.now.first }
    {
        self.first
    }

    /// The latest end of a record.
    pub(crate) fn last(&self) -> Tick
        ensures { result ≡ self.now.last }
    {
        self.last
    }

    /// Its runs.
    pub(crate) fn runs(&self) -> &[Run]
        ensures { result.now ≡ self.now.runs }
    {
        self.runs.as_slice()
    }
}

/// Puts the runs of each stream in the order of their starts.
pub(crate) fn put_all_in_order(streams: &mut Vec<CheckedStream>)
    ensures { AreInOrder streams.old.items streams.new.items }
{
    for index in 0..streams.len() {
        let stream = &mut streams[index];
        stream.put_in_order();
    }
}
