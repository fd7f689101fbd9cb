//! The records of a file on their way to a server: they are judged, and what is wrong with the file is told at once.
ghost use Rattle.std.specs.Prelude.{◌≡◌, ◌≤◌};
ghost use Rattle.job_feed.specs.Judging.{row_part};

use crate::aligned::{Aligned, Stretch};
use crate::lines::FeedLine;
use job_base::line_start;
use record_check::{FeedTally, FileKind, Finding, RefusedRecord, Stations, kind_of};
use std::io::{self, ErrorKind, Read};

/// How many bytes sixteen records have.
const ROW: u64 = 8_192;

/// After so many lines on bytes of a file that were passed over, no more are written.
const LINES: u64 = 16;

/// How many of so many bytes lie before the end of sixteen records, the first of which begins at that place of the
/// file, where so many bytes of the file came before them.
fn row_part(first: u64, before: u64, count: usize) -> usize
    ensures value { result ≡ row_part first before count }
    ensures most { result ≤ count }
{
    let left = first.saturating_add(ROW).saturating_sub(before);
    if left < count as u64 {
        left as usize
    } else {
        count
    }
}

/// What is wrong with a file in which so many records in a row can't be read, and where.
pub fn finding_of(lost: &RefusedRecord) -> Finding {
    Finding {
        fault: lost.fault,
        number: lost.number as u128,
        offset: lost.offset() as u128,
    }
}

/// A file whose records are judged as they are read. Once sixteen in a row can't be read, that is told, or, if it is
/// strict, they are the last that is read, and the next read fails.
#[derive(Drop)]
pub struct Judged<'r, 's, 't, 'f, T, S> {
    rt: &'r HostRuntime,
    inner: Aligned<T>,
    stations: &'s S,
    tally: &'t mut FeedTally,
    file: &'f str,
    is_strict: bool,
    /// How many bytes of the file are before the next one.
    offset: u64,
    /// How many lines on bytes that were passed over are left.
    lines: u64,
    is_told: bool,
    is_over: bool,
    /// Whether nothing was read of it yet, and what it is, if it is known for no file of records.
    is_new: bool,
    kind: Option<FileKind>,
}

impl<'r, 's, 't, 'f, T, S: Stations> Judged<'r, 's, 't, 'f, T, S> {
    /// The records of a file from an offset on.
    pub fn new(
        rt: &'r HostRuntime,
        inner: Aligned<T>,
        stations: &'s S,
        tally: &'t mut FeedTally,
        file: &'f str,
        is_strict: bool,
        offset: u64,
    ) -> Judged<'r, 's, 't, 'f, T, S> {
        Judged {
            rt,
            inner,
            stations,
            tally,
            file,
            is_strict,
            offset,
            lines: LINES,
            is_told: false,
            is_over: false,
            is_new: offset == 0,
            kind: None,
        }
    }

    /// What was read, whether it was given up because sixteen records in a row can't be read, and what it is, if it is
    /// known for no file of records.
    pub fn into_parts(self) -> (T, bool, Option<FileKind>) {
        let Judged {
            inner,
            is_over,
            kind,
            ..
        } = self;
        (inner.into_inner(), is_over, kind)
    }

    /// What it is by its first bytes.
    fn look_at(&mut self, bytes: &[u8]) {
        if self.is_new && !bytes.is_empty() {
            self.is_new = false;
            self.kind = kind_of(bytes);
        }
    }

    /// Tells of bytes that were passed over.
    fn tell_passed(&mut self, stretch: Stretch) {
        let file = self.file;
        if self.lines > 0 {
            self.lines -= 1;
            let line = FeedLine::PassedOver { file, stretch };
            let _ = eprintln!(self.rt; "{}{line}", line_start());
        }
    }

    /// Tells, once, that sixteen records in a row can't be read.
    fn tell_lost(&mut self, lost: RefusedRecord) {
        let file = self.file;
        if !self.is_told {
            self.is_told = true;
            let kind = self.kind;
            let line = FeedLine::Lost { file, lost, kind };
            let _ = eprintln!(self.rt; "{}{line}", line_start());
        }
    }

    /// How many of so many bytes that were judged are passed on.
    fn pass_on(&mut self, count: usize) -> usize
        ensures { result ≤ count }
    {
        let Some(lost) = self.tally.lost() else {
            return count;
        };
        if self.is_strict {
            self.is_over = true;
            return row_part(lost.offset(), self.offset, count);
        }
        self.tell_lost(lost);
        count
    }
}

impl<T: Read, S: Stations> Read for Judged<'_, '_, '_, '_, T, S> {
    fn read(&mut self, block: &mut [u8]) -> io::Result<usize> {
        if self.is_over {
            return Err(io::Error::from(ErrorKind::InvalidData));
        }
        let count = self.inner.read(block)?;
        if let Some(stretch) = self.inner.take_ended() {
            self.tell_passed(stretch);
        }
        self.look_at(&block[..count]);
        self.tally.judge(self.stations, &block[..count]);
        let count = self.pass_on(count);
        self.offset = self.offset.saturating_add(count as u64);
        Ok(count)
    }
}
