//! A reader of whose connection or outputs one call fails, each call in turn, or of which an output has room for so
//! many bytes, as a disk that fills. What was sent and written before is a beginning of what is sent and written
//! otherwise, nothing comes after, and a packet has a line only once its whole record is written.
ghost use Rattle.std.specs.Prelude.{◌≡◌, ◌<◌, ◌+◌, ◌%◌, ◌^◌, None};

use crate::beside_a_server::{ASKED, plan};
use crate::pieces::{Piece, joined};
use Piece::{Bytes, Record};
use reader_run::{Gathered, ListingFault, PacketLines, Times, read_over};
use sl_io::{DeviceFault, Failing, MemorySource, Sink};
use std::alloc::Global;
use std::ops::Range;
use std::test::Fail;

/// What the server sends: of two wants it refuses the second.
static ANSWERS: [Piece; 5] = [
    Bytes(
        b"SeedLink v3.0 (station access)\r\nTest Centre\r\nOK\r\nOK\r\nOK\r\nOK\r\nERROR\r\nSLFFFFFF",
    ),
    Record(b"WLF", 2),
    Bytes(b"SL000000"),
    Record(b"WLF", 3),
    Bytes(b"END"),
];

static RECORDS: [Piece; 2] = [Record(b"WLF", 2), Record(b"WLF", 3)];

const LINES: &[u8] = b"refused GE NONE\n\
    FFFFFF GE WLF -- BHZ D 17091648020000 17091648030000 100\n\
    000000 GE WLF -- BHZ D 17091648030000 17091648040000 100\n";

/// As much as the server sends, and less than a packet.
const ALL: usize = 65_536;

const LITTLE: usize = 300;

/// What goes wrong, with a number.
enum Trouble {
    Nothing,
    /// The read of what the server sends with that number fails, or the write of commands, lines or records.
    ReadFails,
    CommandFails,
    LineFails,
    RecordFails,
    /// There is room for so many bytes of commands, lines or records.
    CommandsFill,
    LinesFill,
    RecordsFill,
}

use Trouble::{
    CommandFails, CommandsFill, LineFails, LinesFill, Nothing, ReadFails, RecordFails, RecordsFill,
};

/// A trouble, how many bytes a read gives at most, the first number that is tried and the first one that is not, and
/// how many of these readings fail.
type Row = (Trouble, usize, usize, usize, usize);

static ROWS: [Row; 10] = [
    (Nothing, LITTLE, 0, 1, 0),
    (ReadFails, LITTLE, 1, 20, 4),
    (CommandFails, LITTLE, 1, 20, 2),
    (LineFails, LITTLE, 1, 20, 3),
    (RecordFails, LITTLE, 1, 20, 12),
    (CommandsFill, LITTLE, 0, 80, 68),
    (LinesFill, LITTLE, 0, 140, 130),
    (LinesFill, ALL, 0, 140, 130),
    (RecordsFill, ALL, 0, 520, 520),
    (RecordsFill, ALL, 1_016, 1_028, 8),
];

/// Which write of an output fails, if any, and how many bytes it has room for.
#[derive(Clone, Copy)]
struct Limit {
    due: u64,
    room: usize,
}

const ENDLESS: Limit = Limit {
    due: 0,
    room: usize::MAX,
};

/// The read that fails, if any, and the limits of the outputs.
#[derive(Clone, Copy)]
struct Limits {
    read: u64,
    commands: Limit,
    lines: Limit,
    records: Limit,
}

/// What a trouble with that number is.
fn limits_of(trouble: &Trouble, number: usize) -> Limits {
    let mut limits = Limits {
        read: 0,
        commands: ENDLESS,
        lines: ENDLESS,
        records: ENDLESS,
    };
    match trouble {
        Nothing => {}
        ReadFails => limits.read = number as u64,
        CommandFails => limits.commands.due = number as u64,
        LineFails => limits.lines.due = number as u64,
        RecordFails => limits.records.due = number as u64,
        CommandsFill => limits.commands.room = number,
        LinesFill => limits.lines.room = number,
        RecordsFill => limits.records.room = number,
    }
    limits
}

/// A writer with room for so many bytes, as a disk that fills: it takes what fits, at most 100 bytes at once, and then
/// each write fails.
#[derive(Drop)]
struct Disk {
    bytes: Vec<u8>,
    room: usize,
    failures: u64,
    calls: u64,
}

impl Disk {
    fn refuse(&mut self) -> DeviceFault
        ensures failures { self.new.failures ≡ (self.old.failures + 1) % 2 ^ 64 }
        ensures calls { self.new.calls ≡ self.old.calls }
    {
        self.failures = self.failures.wrapping_add(1);
        DeviceFault
    }
}

impl Sink for Disk {
    ghost written = { λ _. None };

    ghost failures = { λ s. s.failures };

    ghost calls = { λ s. s.calls };

    ghost empty_writes = { λ _. 0 };

    fn write(&mut self, bytes: &[u8]) -> Result<usize, DeviceFault> {
        self.calls = self.calls.wrapping_add(1);
        let count = bytes.len().min(self.room).min(100);
        if count < 1 && !bytes.is_empty() {
            return Err(self.refuse());
        }
        match self.bytes.extend_from_slice(&bytes[..count]) {
            Ok(()) => {
                self.room = self.room.saturating_sub(count);
                Ok(count)
            }
            Err(_) => Err(self.refuse()),
        }
    }
}

/// An output within a limit.
fn output(alloc: Global, limit: Limit) -> Failing<Disk> {
    let disk = Disk {
        bytes: Vec::new(alloc),
        room: limit.room,
        failures: 0,
        calls: 0,
    };
    Failing::new(disk, limit.due)
}

/// What came of a reading.
#[derive(Drop)]
struct Outcome {
    answer: Result<(), ListingFault>,
    asked: Vec<u8>,
    lines: Vec<u8>,
    records: Vec<u8>,
    has_failed: bool,
}

/// What comes of a reading of at most `piece` bytes a call within those limits.
fn reading(alloc: Global, answers: &[u8], piece: usize, limits: Limits) -> Result<Outcome, Fail>
    requires { 0 < piece }
{
    let plan = plan(alloc)?;
    let mut reader = Failing::new(MemorySource::in_pieces(answers, piece), limits.read);
    let mut asked = output(alloc, limits.commands);
    let mut lines = output(alloc, limits.lines);
    let mut records = Gathered::new(alloc, output(alloc, limits.records));
    let answer = read_over(
        alloc,
        PacketLines::Each(Times::Ticks),
        plan,
        &mut reader,
        &mut asked,
        &mut lines,
        &mut records,
    );
    let has_failed = reader.counts().failures > 0
        || asked.counts().failures > 0
        || lines.counts().failures > 0
        || records.sink().counts().failures > 0;
    Ok(Outcome {
        answer,
        asked: asked.into_inner().bytes,
        lines: lines.into_inner().bytes,
        records: records.into_sink().into_inner().bytes,
        has_failed,
    })
}

/// How many packets have a line, or a part of one. The line of a want that is refused begins with another letter.
fn listed_packets(lines: &[u8]) -> usize {
    let mut count: usize = 0;
    let mut is_first = true;
    for byte in lines {
        if is_first && *byte != b'r' {
            count = count.saturating_add(1);
        }
        is_first = *byte == b'\n';
    }
    count
}

/// Whether a beginning of all commands, lines and records was written, and each packet that has a line has its record.
/// Something was left out exactly if a call failed, and then the reading fails with that fault.
fn is_right(outcome: &Outcome, records: &[u8], fault: ListingFault) -> bool {
    let are_beginnings = ASKED.starts_with(outcome.asked.as_slice())
        && LINES.starts_with(outcome.lines.as_slice())
        && records.starts_with(outcome.records.as_slice());
    let is_whole = outcome.asked.len() == ASKED.len()
        && outcome.lines.len() == LINES.len()
        && outcome.records.len() == records.len();
    let has_records = listed_packets(outcome.lines.as_slice()) <= outcome.records.len() / 512;
    let answer = if is_whole { Ok(()) } else { Err(fault) };
    are_beginnings && has_records && outcome.answer == answer && outcome.has_failed != is_whole
}

/// The first number of a trouble whose reading goes otherwise, and how many readings failed before that.
fn tried(
    alloc: Global,
    answers: &[u8],
    records: &[u8],
    piece: usize,
    trouble: &Trouble,
    numbers: Range<usize>,
) -> Result<(Option<usize>, usize), Fail>
    requires { 0 < piece }
{
    let fault = match trouble {
        ReadFails => ListingFault::Read,
        _ => ListingFault::Write,
    };
    let mut failing: usize = 0;
    for number in numbers {
        let outcome = reading(alloc, answers, piece, limits_of(trouble, number))?;
        if !is_right(&outcome, records, fault) {
            return Ok((Some(number), failing));
        }
        if outcome.has_failed {
            failing = failing.saturating_add(1);
        }
    }
    Ok((None, failing))
}

#[test]
fn each_failure_is_its_fault_and_the_last(rt: HostRuntime) -> Result<(), Fail> {
    let answers = joined(rt.alloc(), &ANSWERS)?;
    let records = joined(rt.alloc(), &RECORDS)?;
    for (place, &(ref trouble, piece, from, until, failing)) in ROWS.iter().enumerate() {
        assert!(rt; 0 < piece);
        let tried = tried(rt.alloc(), &answers, &records, piece, trouble, from..until)?;
        assert!(rt; tried == (None, failing), "in row {place}: {tried:?}");
    }
    Ok(())
}
