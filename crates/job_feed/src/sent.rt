//! What a job that feeds has sent, for its user.
//!
//! What `feed` says that it sent is what its connection took, in bytes, divided by 512. A feed port answers nothing, so
//! how many of them the server has read is known only at the end, or from the server's log.
ghost use Rattle.std.specs.Prelude.{◌≡◌, ◌+◌, ◌-◌, ◌^◌, min, nat_lt, None, Some, if◌then◌else◌};

use job_base::Several;
use shown_lines::ShownLine;
use std::fmt::{self, Display, Formatter, Write};

/// A record of a file.
#[derive(Clone, Copy, Drop)]
pub struct FileRecord<'a> {
    pub file: &'a str,
    /// Its number there, from 1 on.
    pub number: u64,
}

/// How many records a connection has taken whole, and the last of them.
#[derive(Clone, Copy, Drop)]
pub struct SentRecords<'a> {
    pub count: u64,
    pub last: Option<FileRecord<'a>>,
}

impl<'a> FileRecord<'a> {
    /// The first one.
    pub fn first_of(file: &'a str) -> FileRecord<'a>
        ensures file { result.file ≡ file.entry }
        ensures number { result.number ≡ 1 }
    {
        FileRecord { file, number: 1 }
    }
}

impl<'a> SentRecords<'a> {
    /// Before the first record.
    pub fn new() -> SentRecords<'a>
        ensures count { result.count ≡ 0 }
        ensures last { result.last ≡ None }
    {
        SentRecords {
            count: 0,
            last: None,
        }
    }

    /// By now the connection has taken so many. Those that came last are of a file, from this record on.
    pub fn reach(&mut self, first: FileRecord<'a>, count: u64)
        ensures count { self.new.count ≡ count }
        ensures last { self.new.last ≡ (if nat_lt self.old.count count
            then Some (record {
              file = first.entry.file;
              number = min (first.entry.number + (count - self.old.count - 1)) (2 ^ 64 - 1);
            })
            else self.old.last) }
    {
        if self.count < count {
            self.last = Some(FileRecord {
                file: first.file,
                number: first.number.saturating_add(count - self.count - 1),
            });
        }
        self.count = count;
    }
}

impl Display for SentRecords<'_> {
    /// `seedlinkd: sent 205 records, up to record 5 of c.mseed`, in a line of at most 200 bytes.
    fn fmt<W: Write>(&self, f: &mut Formatter<W>) -> fmt::Result {
        let sent = Several::records(self.count);
        let mut line = ShownLine::new(f);
        match self.last {
            Some(FileRecord { file, number }) => write!(
                line,
                "seedlinkd: sent {sent}, up to record {number} of {file}"
            ),
            None => write!(line, "seedlinkd: sent {sent}"),
        }
    }
}
