//! Records of a file, without the bytes between them that are in no record.
ghost use Rattle.std.specs.Prelude.{◌≡◌, ◌≤◌, ◌<◌, ℕ, drop, false, length, true};
ghost use Rattle.std.specs.Io.{ReadsAtMost};
ghost use Rattle.job_feed.specs.Aligning.{begins, is_followed, is_record};

use mseed_header::read;
use protocol::limits::RECORD;
use record_check::{FileKind, kind_of};
use std::alloc::Global;
use std::io::{self, ErrorKind, Read};

/// How many bytes are read at most by one call.
const PIECE: usize = 16_384;

/// Whether bytes begin with a record that can be read (SEED Reference Manual 2.4, chapter 8).
fn is_record(bytes: &[u8]) -> bool
    ensures { result ≡ is_record bytes.now }
{
    match bytes.first_chunk() {
        Some(record) => read(record).is_ok(),
        None => false,
    }
}

/// Whether what follows the first 512 bytes begins with a record that can be read, or is less than a record.
fn is_followed(bytes: &[u8]) -> bool
    ensures { result ≡ is_followed bytes.now }
{
    if bytes.len() < 1024 {
        return true;
    }
    let (_, next) = bytes.split_at(512);
    is_record(next)
}

/// Whether a record begins there: it can be read, and so can what follows it, unless that is less than a record.
fn begins(bytes: &[u8]) -> bool
    ensures { result ≡ begins bytes.now }
{
    is_record(bytes) && is_followed(bytes)
}

/// The first place before a limit at which a record begins; the limit if there is none.
pub fn first_beginning(bytes: &[u8], limit: usize) -> usize
    requires { limit ≤ length bytes.now }
    ensures before { result ≤ limit }
    ensures here { result < limit → begins (drop result bytes.now) ≡ true }
    ensures passed { (place : ℕ) → place < result → begins (drop place bytes.now) ≡ false }
{
    for place in 0..limit {
        let (_, rest) = bytes.split_at(place);
        if begins(rest) {
            return place;
        }
    }
    limit
}

/// How many bytes the whole records have with which bytes begin and which can be read.
fn records_ahead(bytes: &[u8]) -> usize {
    let mut left = bytes;
    'records: while is_record(left) {
        left = &left[RECORD..];
    }
    bytes.len().saturating_sub(left.len())
}

/// Bytes of a file that follow each other and are in no record.
#[derive(Clone, Copy, Drop)]
pub struct Stretch {
    /// How many bytes of the file are before them.
    pub offset: u64,
    /// How many they are.
    pub bytes: u64,
    /// What the file is, if it is known for no file of records.
    pub kind: Option<FileKind>,
}

/// What is read of a file of records: all of it, or the records that can be read alone. What can't be read is then
/// passed over up to the next place where two records follow each other, or one at the end of the file.
#[derive(Drop)]
pub struct Aligned<T> {
    inner: T,
    skips: bool,
    /// What was read, and is neither given nor passed over.
    held: Vec<u8>,
    /// How many of these bytes are of records that can be read.
    due: usize,
    /// Whether bytes in no record were passed over last, and not yet a record found.
    is_lost: bool,
    /// How many bytes of the file are before those that are held.
    offset: u64,
    stretch: Stretch,
    /// The stretch that ended last, until it is told.
    ended: Option<Stretch>,
}

impl<T> Aligned<T> {
    /// What is read of a file from an offset on. If it skips, only records are read.
    pub fn new(alloc: Global, inner: T, skips: bool, offset: u64) -> Aligned<T> {
        Aligned {
            inner,
            skips,
            held: Vec::new(alloc),
            due: 0,
            is_lost: false,
            offset,
            stretch: Stretch {
                offset,
                bytes: 0,
                kind: None,
            },
            ended: None,
        }
    }

    /// What it was read of.
    pub fn into_inner(self) -> T {
        self.inner
    }

    /// The bytes in no record that were passed over last, if that was not told yet.
    pub fn take_ended(&mut self) -> Option<Stretch> {
        self.ended.take()
    }

    /// A record is found, or the file is over: the stretch before it ends.
    fn end_stretch(&mut self) {
        if self.stretch.bytes > 0 {
            self.ended = Some(self.stretch);
        }
        self.is_lost = false;
        self.stretch.bytes = 0;
    }

    /// The first of the bytes that are held are given, or passed over.
    fn let_go(&mut self, count: usize) {
        let count = count.min(self.held.len());
        drop(self.held.drain(..count));
        self.offset = self.offset.saturating_add(count as u64);
    }

    /// So many bytes are in no record.
    fn pass_over(&mut self, count: usize) {
        if self.stretch.bytes == 0 {
            self.stretch.offset = self.offset;
        }
        self.stretch.bytes = self.stretch.bytes.saturating_add(count as u64);
        self.let_go(count);
    }

    /// Passes over what is in no record, up to the next record or as far as can be told, before the file is over or
    /// after.
    fn search(&mut self, is_over: bool) {
        let len = self.held.len();
        let limit = if is_over {
            len
        } else {
            len.saturating_sub(2 * RECORD - 1)
        };
        let passed = first_beginning(self.held.as_slice(), limit);
        self.is_lost = true;
        self.pass_over(passed);
        if passed < limit || is_over {
            self.end_stretch();
        }
    }

    /// Looks for records in what is held, before the file is over or after.
    fn find(&mut self, is_over: bool) {
        if !self.is_lost {
            self.due = records_ahead(self.held.as_slice());
        }
        if self.due == 0 && (is_over || self.held.len() >= RECORD) {
            self.search(is_over);
            if !self.is_lost {
                self.due = records_ahead(self.held.as_slice());
            }
        }
    }

    /// Gives bytes of records that are held.
    fn give(&mut self, block: &mut [u8]) -> usize
        ensures { result ≤ length block.new }
    {
        let count = self.due.min(block.len()).min(self.held.len());
        block[..count].copy_from_slice(&self.held[..count]);
        self.let_go(count);
        self.due = self.due.saturating_sub(count);
        count
    }
}

impl<T: Read> Aligned<T> {
    /// Reads more behind what is held. Answers how many bytes, 0 at the end of the file.
    fn fill(&mut self) -> io::Result<usize> {
        let mut piece = [0; PIECE];
        let count = self.inner.read(&mut piece)?;
        if self.offset == 0 && self.held.is_empty() {
            self.stretch.kind = kind_of(&piece[..count]);
        }
        match self.held.extend_from_slice(&piece[..count]) {
            Ok(()) => Ok(count),
            Err(_) => Err(io::Error::from(ErrorKind::OutOfMemory)),
        }
    }

    /// Reads records alone.
    fn read_records(&mut self, block: &mut [u8]) -> io::Result<usize>
        ensures { ReadsAtMost result block.new }
    {
        let mut is_over = false;
        'pieces: for _ in 0..u64::MAX {
            if self.due == 0 {
                self.find(is_over);
            }
            if self.due > 0 || is_over {
                return Ok(self.give(block));
            }
            is_over = self.fill()? == 0;
        }
        Ok(0)
    }
}

impl<T: Read> Read for Aligned<T> {
    fn read(&mut self, block: &mut [u8]) -> io::Result<usize> {
        if self.skips {
            self.read_records(block)
        } else {
            self.inner.read(block)
        }
    }
}
