//! What servers make of the records of a feed.
//!
//! Which power of two a record gives as its length is found by trying: it is the byte in whose place 9 lets the record
//! be read. So the reader of records has no second answer for this one line, which is written once a feed.
ghost use Rattle.std.specs.Prelude.{◌≡◌, Err};
ghost use Rattle.record_check.specs.Checks.{piece_read};
ghost use Rattle.record_check.specs.Listing.{fault_of};
ghost use Rattle.record_check.specs.FeedTallies.{all_judged, offset_of};

use crate::fault::FileFault;
use crate::listing::{Refused, said_of};
use crate::stations::Stations;
use feeder::{FeedCutter, Feeding};
use mseed_header::{RecordFault, read};
use std::fmt::{self, Display, Formatter, Write};
use std::marker::Model;

/// The byte that gives a record's length as a power of two: 2^9 is 512.
const LENGTH: u8 = 9;

/// How many records in a row that can't be read say that a feed has lost the beginnings of its records.
const ROW: u64 = 16;

/// The codes of a record's station, as they stand in its header: with spaces after them up to two and five bytes.
#[derive(Clone, Copy, Drop)]
pub struct PaddedCodes {
    network: [u8; 2],
    station: [u8; 5],
}

impl PaddedCodes {
    /// Those of a record (SEED Reference Manual 2.4, chapter 8, fixed header, fields 7 and 4).
    fn of(bytes: &[u8; 512]) -> PaddedCodes {
        PaddedCodes {
            network: [bytes[18], bytes[19]],
            station: [bytes[8], bytes[9], bytes[10], bytes[11], bytes[12]],
        }
    }
}

/// Writes a code without its spaces, and `?` for each byte that doesn't print.
fn put_code<W: Write>(f: &mut Formatter<W>, code: &[u8]) -> fmt::Result {
    for byte in code {
        match byte {
            b' ' => {}
            33..=126 => f.write_char(*byte as char)?,
            _ => f.write_char('?')?,
        }
    }
    Ok(())
}

impl Display for PaddedCodes {
    /// `GE WLF`.
    fn fmt<W: Write>(&self, f: &mut Formatter<W>) -> fmt::Result {
        put_code(f, &self.network)?;
        f.write_char(' ')?;
        put_code(f, &self.station)
    }
}

/// What is told of a refused record beside its fault.
#[derive(Clone, Copy, Drop)]
pub enum Detail {
    Nothing,
    /// The power of two that it gives as its length, if that is why no server takes it.
    Power(u8),
    /// Its station, if that is one that is not expected.
    Station(PaddedCodes),
}

/// A record that no server takes.
#[derive(Clone, Copy, Drop)]
pub struct RefusedRecord {
    /// Its number in its file, from 1 on.
    pub number: u64,
    /// Why none takes it.
    pub fault: FileFault,
    pub detail: Detail,
}

impl RefusedRecord {
    /// That of a record with that number.
    fn of(number: u64, refused: &Refused<'_>, bytes: &[u8; 512]) -> RefusedRecord
        ensures number { result.number ≡ number }
        ensures fault { result.fault ≡ fault_of refused.now }
    {
        RefusedRecord {
            number,
            fault: refused.fault(),
            detail: match refused {
                Refused::Unread(fault) => detail_of(*fault, bytes),
                Refused::Stranger(_) => Detail::Station(PaddedCodes::of(bytes)),
            },
        }
    }

    /// How many bytes of its file are before it, at most 2^64 - 1.
    pub fn offset(&self) -> u64
        ensures { result ≡ offset_of self.now.number }
    {
        self.number.saturating_sub(1).saturating_mul(512)
    }
}

impl Display for RefusedRecord {
    /// `6 Length, 4096 bytes where 512 are taken`, or `32 UnknownStation GE WLF`.
    fn fmt<W: Write>(&self, f: &mut Formatter<W>) -> fmt::Result {
        let reason = self.fault.reason();
        write!(f, "{} {}", reason.number(), reason.name())?;
        match &self.detail {
            Detail::Power(power) if *power < 64 => write!(
                f,
                ", {} bytes where 512 are taken",
                1u64 << *power
            ),
            Detail::Station(codes) => write!(f, " {codes}"),
            _ => Ok(()),
        }
    }
}

/// The power of two that a record gives as its length, if that alone keeps it from being read: the byte in whose place
/// 9 would do.
fn power_of(bytes: &[u8; 512]) -> Option<u8> {
    let mut other = *bytes;
    for at in 48..512 {
        let power = other[at];
        other[at] = LENGTH;
        if read(&other).is_ok() {
            return Some(power);
        }
        other[at] = power;
    }
    None
}

/// What is told of a record that can't be read.
fn detail_of(fault: RecordFault, bytes: &[u8; 512]) -> Detail {
    match fault {
        RecordFault::Length => match power_of(bytes) {
            Some(power) => Detail::Power(power),
            None => Detail::Nothing,
        },
        _ => Detail::Nothing,
    }
}

/// What was judged of a feed.
#[derive(Drop)]
struct RefusedCount {
    /// The number in its file of the next record.
    next: u64,
    /// How many records no server takes, and the first of them.
    refused: u64,
    first: Option<RefusedRecord>,
    /// How many of the last records in a row can't be read, and the first of them.
    row: u64,
    row_first: Option<RefusedRecord>,
    /// The first of the first sixteen of a file that followed each other and can't be read.
    lost: Option<RefusedRecord>,
}

impl Model for RefusedCount {
    ghost use Rattle.std.specs.Prelude.{option_map};
    ghost use Rattle.record_check.specs.FeedTallies.{RefusedCountValue, refused_value};

    ghost Value = { RefusedCountValue };

    ghost view = { λ c. record {
      next = c.next;
      refused = c.refused;
      first = option_map refused_value c.first;
      row = c.row;
      row_first = option_map refused_value c.row_first;
      lost = option_map refused_value c.lost;
    } };
}

impl RefusedCount {
    ghost use Rattle.std.specs.Prelude.{◌≡◌, Err, option_map};
    ghost use Rattle.record_check.specs.FeedTallies.{judged_as, judged_with, nothing_judged, refused_value};
    ghost use Rattle.record_check.specs.FeedTallies.{row_ended, row_extended, with_refused, with_row};

    /// Before the first record, which has that number.
    fn new(next: u64) -> RefusedCount
        ensures { result ≡ nothing_judged next }
    {
        RefusedCount {
            next,
            refused: 0,
            first: None,
            row: 0,
            row_first: None,
            lost: None,
        }
    }

    /// A record is one that no server takes.
    fn refuse(&mut self, found: RefusedRecord)
        ensures { self.new ≡ with_refused self.old (refused_value found) }
    {
        self.refused = self.refused.saturating_add(1);
        self.first = self.first.or(Some(found));
    }

    /// The last record is not one that can't be read.
    fn end_row(&mut self)
        ensures { self.new ≡ row_ended self.old }
    {
        self.row = 0;
        self.row_first = None;
    }

    /// So many records in a row can't be read, of which that is the first.
    fn set_row(&mut self, row: u64, first: Option<RefusedRecord>)
        ensures { self.new ≡ with_row self.old row (option_map refused_value first) }
    {
        self.row = row;
        self.row_first = first;
        if row == ROW {
            self.lost = self.lost.or(first);
        }
    }

    /// One more record can't be read.
    fn extend_row(&mut self, found: RefusedRecord)
        ensures { self.new ≡ row_extended self.old (refused_value found) }
    {
        let row = self.row.saturating_add(1);
        let first = self.row_first.or(Some(found));
        self.set_row(row, first);
    }

    /// A record with that number is refused.
    fn judge_refused(&mut self, number: u64, refused: &Refused<'_>, bytes: &[u8; 512])
        ensures { self.new ≡ judged_as self.old number (Err refused.now) }
    {
        let found = RefusedRecord::of(number, refused, bytes);
        self.refuse(found);
        match refused {
            Refused::Unread(_) => self.extend_row(found),
            Refused::Stranger(_) => self.end_row(),
        }
    }

    /// One record more.
    fn judge<S: Stations>(&mut self, stations: &S, bytes: &[u8; 512])
        ensures { self.new ≡ judged_with (S.has_station stations.now) self.old bytes.now }
    {
        let number = self.next;
        self.next = number.saturating_add(1);
        match said_of(stations, bytes) {
            Ok(_) => self.end_row(),
            Err(refused) => self.judge_refused(number, &refused, bytes),
        }
    }
}

/// How many records of a feed no server takes, the first of them, and where a file has lost the beginnings of its
/// records.
#[derive(Drop)]
pub struct FeedTally {
    cutter: FeedCutter,
    count: RefusedCount,
}

impl Model for FeedTally {
    ghost use Rattle.record_check.specs.FeedTallies.{FeedTallyValue};

    ghost Value = { FeedTallyValue };

    ghost view = { λ t. record { held = t.cutter; count = t.count } };
}

/// Judges the records that become whole in a piece.
fn judge_piece<S: Stations>(
    stations: &S,
    cutter: &mut FeedCutter,
    count: &mut RefusedCount,
    piece: &[u8],
)
    ensures judged { count.new
        ≡ all_judged (S.has_station stations.now) count.old (piece_read cutter.old piece.now).records }
    ensures rest { cutter.new ≡ (piece_read cutter.old piece.now).rest }
{
    let mut left = piece;
    'records: while !left.is_empty() {
        let Feeding { used, whole } = cutter.feed(left);
        match whole {
            Some(bytes) => count.judge(stations, bytes),
            None => {}
        }
        left = &left[used..];
    }
}

impl FeedTally {
    ghost use Rattle.std.specs.Prelude.{◌≡◌, option_map};
    ghost use Rattle.record_check.specs.FeedTallies.{file_begun, nothing_seen, refused_value, seen};

    /// Before the first record, which has the number 1.
    pub fn new() -> FeedTally
        ensures { result ≡ nothing_seen }
    {
        FeedTally {
            cutter: FeedCutter::new(),
            count: RefusedCount::new(1),
        }
    }

    /// A file begins, of which the first record that comes has that number. What is left over of another file is no
    /// record.
    pub fn begin_file(&mut self, number: u64)
        ensures { self.new ≡ file_begun self.old number }
    {
        self.cutter = FeedCutter::new();
        let count = &mut self.count;
        count.end_row();
        count.next = number;
        count.lost = None;
    }

    /// Judges the records that become whole in a piece. A record is refused if it can't be read (SEED Reference Manual
    /// 2.4, chapter 8), or if its station is not one of these.
    pub fn judge<S: Stations>(&mut self, stations: &S, piece: &[u8])
        ensures { self.new ≡ seen (S.has_station stations.now) self.old piece.now }
    {
        judge_piece(stations, &mut self.cutter, &mut self.count, piece);
    }

    /// How many records no server takes, at most 2^64 - 1.
    pub fn refused(&self) -> u64
        ensures { result ≡ self.now.count.refused }
    {
        self.count.refused
    }

    /// The first of them.
    pub fn first(&self) -> Option<RefusedRecord>
        ensures { option_map refused_value result ≡ self.now.count.first }
    {
        self.count.first
    }

    /// The first of sixteen records of this file that followed each other and can't be read, once there were such.
    pub fn lost(&self) -> Option<RefusedRecord>
        ensures { option_map refused_value result ≡ self.now.count.lost }
    {
        self.count.lost
    }
}
