//! What a check has listed so far.
//!
//! The number of a record in a listing is counted in 128 bits, since 2^64 - 1 reads of 64 KiB can hold more than 2^64
//! records.
ghost use Rattle.std.specs.Prelude.{◌≡◌};
ghost use Rattle.record_check.specs.Listing.{fault_of, judged, reading_of, refusal as spec_refusal};

use crate::fault::FileFault;
use crate::finding::Finding;
use crate::options::ListingOptions;
use crate::stations::Stations;
use crate::stream_list::StreamList;
use crate::texts::{put_gaps, put_line, put_rest, put_summaries};
use mseed_header::{Header, RecordFault, read};
use std::alloc::{AllocError, Global};
use std::marker::Model;

/// How many bytes of lines there is room for from the start: a block of 64 KiB.
const ROOM: usize = 65_536;

/// How many bytes of lines are enough to be written: half of the room, so that what one more block of records gives
/// fits.
const ENOUGH: usize = 32_768;

/// Why a check refuses a record.
#[derive(Drop)]
pub(crate) enum Refused<'a> {
    /// It can't be read.
    Unread(RecordFault),
    /// Its station is not one of those that are expected. This is what it says.
    Stranger(Header<'a>),
}

impl Refused<'_> {
    /// What is wrong with a file that has it.
    pub(crate) fn fault(&self) -> FileFault
        ensures { result ≡ fault_of self.now }
    {
        match self {
            Refused::Unread(fault) => FileFault::Record(*fault),
            Refused::Stranger(_) => FileFault::Station,
        }
    }
}

/// What a record is to a check: what it says, or why it is refused.
pub(crate) type Said<'a> = Result<Header<'a>, Refused<'a>>;

/// What a record says, or why it is refused: it can't be read, or its station is not one of those that are expected.
#[tactic(auto, unfolding(crate::specs::Listing::reading_of))]
pub(crate) fn said_of<'a, S: Stations>(stations: &S, bytes: &'a [u8; 512]) -> Said<'a>
    ensures { result ≡ judged (S.has_station stations.now) (reading_of bytes.now) }
{
    match read(bytes) {
        Ok(header) if stations.has(header.network(), header.station()) => Ok(header),
        Ok(header) => Err(Refused::Stranger(header)),
        Err(fault) => Err(Refused::Unread(fault)),
    }
}

/// Why a record is refused.
fn refusal(said: &Said<'_>) -> Option<FileFault>
    ensures { result ≡ spec_refusal said.now }
{
    match said {
        Ok(_) => None,
        Err(refused) => Some(refused.fault()),
    }
}

/// The records that are listed so far: their number, how many of this file's were read before one was refused, why the
/// first refused one of them is refused, the lines that are not written yet, and the streams.
#[derive(Drop)]
pub(crate) struct Listing {
    count: u128,
    good: u128,
    fault: Option<FileFault>,
    lines: Vec<u8>,
    streams: StreamList,
}

impl Model for Listing {
    ghost use Rattle.std.specs.Prelude.{◌≤◌, ◌^◌};
    ghost use Rattle.record_check.specs.Checks.{Progress};

    ghost Value = { Progress };

    ghost view = { λ s. record {
      count = s.count;
      good = s.good;
      fault = s.fault;
      lines = s.lines.items;
      streams = s.streams;
    } };

    ghost invariant = { λ s. s.good ≤ 2 ^ 100 };
}

impl Listing {
    ghost use Rattle.std.specs.Prelude.{◌≡◌, ◌<◌, ◌^◌, ◌++◌, [], length, nat_le, IfOk, OnOk};
    ghost use Rattle.std.specs.Prelude.{option_map};
    ghost use Rattle.record_check.specs.Streams.{AreInOrder};
    ghost use Rattle.record_check.specs.Listing.{nothing_listed, partial_line, rules, streams_after};
    ghost use Rattle.record_check.specs.Listing.{streams_text, verdict_by};
    ghost use Rattle.record_check.specs.Checks.{begun_file, listed_of, with_record, with_said};
    ghost use Rattle.record_check.specs.Findings.{finding_after};

    /// Nothing is listed.
    pub(crate) fn new(alloc: Global) -> Result<Listing, AllocError>
        ensures { IfOk result (λ l. l ≡ begun_file nothing_listed) }
    {
        Ok(Listing {
            count: 0,
            good: 0,
            fault: None,
            lines: Vec::with_capacity(alloc, ROOM)?,
            streams: StreamList::new(alloc),
        })
    }

    /// A file begins: nothing of it is listed, and no line waits.
    pub(crate) fn begin_file(&mut self)
        ensures { self.new ≡ begun_file (listed_of self.old) }
    {
        self.good = 0;
        self.fault = None;
        self.lines.clear();
    }

    /// The record belongs to a stream, if it is read and streams are noted.
    fn put_in_stream(&mut self, options: ListingOptions, said: &Said<'_>) -> Result<(), AllocError>
        ensures { OnOk result
            (self.new ≡ record self.old { streams = streams_after options self.old.streams said.now }) }
    {
        match said {
            Ok(header) if options.has_streams() => self.streams.put(header),
            _ => Ok(()),
        }
    }

    /// Lists one record more, by what it is to the check.
    fn list_said(&mut self, options: ListingOptions, said: &Said<'_>) -> Result<(), AllocError>
        requires { self.old.good < 2 ^ 100 }
        ensures { OnOk result (self.new ≡ with_said options self.old said.now) }
    {
        self.put_in_stream(options, said)?;
        self.count = self.count.saturating_add(1);
        put_line(&mut self.lines, options, self.count, said)?;
        self.fault = self.fault.or(refusal(said));
        if self.fault.is_none() {
            self.good += 1;
        }
        Ok(())
    }

    /// Lists one record more, by its bytes.
    pub(crate) fn list<S: Stations>(
        &mut self,
        options: ListingOptions,
        stations: &S,
        bytes: &[u8; 512],
    ) -> Result<(), AllocError>
        requires { self.old.good < 2 ^ 100 }
        ensures { OnOk result
            (self.new ≡ with_record (rules options (S.has_station stations.now)) self.old bytes.now) }
    {
        self.list_said(options, &said_of(stations, bytes))
    }

    /// Lists the bytes that are left over, if there are some.
    pub(crate) fn list_rest(
        &mut self,
        options: ListingOptions,
        count: usize,
    ) -> Result<(), AllocError>
        ensures { OnOk result (self.new
            ≡ record self.old { lines = self.old.lines ++ partial_line options count }) }
    {
        put_rest(&mut self.lines, options, count)
    }

    /// Puts the runs of each stream in the order of their starts.
    pub(crate) fn put_in_order(&mut self)
        ensures order { AreInOrder self.old.streams self.new.streams }
        ensures others { self.new ≡ record self.old { streams = self.new.streams } }
    {
        self.streams.put_in_order();
    }

    /// Lists the gaps and overlaps of the streams, and the streams, as far as they are asked for.
    pub(crate) fn list_streams(&mut self, options: ListingOptions) -> Result<(), AllocError>
        ensures ok { OnOk result (self.new
            ≡ record self.old { lines = self.old.lines ++ streams_text options self.old.streams }) }
        ensures listed { listed_of self.new ≡ listed_of self.old }
    {
        put_gaps(&mut self.lines, options, self.streams.as_slice())?;
        put_summaries(&mut self.lines, options, self.streams.as_slice())
    }

    /// What is wrong with a file of the records and of so many bytes that are left over, and where.
    pub(crate) fn verdict(&self, rest: usize) -> Option<Finding>
        ensures { result ≡ option_map (finding_after self.now.good) (verdict_by self.now.fault rest) }
    {
        match self.fault {
            Some(fault) => Some(self.finding(fault)),
            None if rest == 0 => None,
            None => Some(self.finding(FileFault::Partial)),
        }
    }

    /// A fault that comes after the records that were read before one was refused.
    fn finding(&self, fault: FileFault) -> Finding
        ensures { result ≡ finding_after self.now.good fault }
    {
        Finding {
            fault,
            number: self.good + 1,
            offset: self.good * 512,
        }
    }

    /// The lines that are not written yet.
    pub(crate) fn lines(&self) -> &[u8]
        ensures { result.now ≡ self.now.lines }
    {
        self.lines.as_slice()
    }

    /// The lines are so many that they should be written.
    pub(crate) fn is_long(&self) -> bool
        ensures { result ≡ nat_le 32768 (length self.now.lines) }
    {
        self.lines.len() >= ENOUGH
    }

    /// The lines are written.
    pub(crate) fn clear(&mut self)
        ensures { self.new ≡ record self.old { lines = [] } }
    {
        self.lines.clear();
    }
}
