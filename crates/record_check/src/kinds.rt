//! Files that are no files of records, and known for what they are by their first bytes.
ghost use Rattle.std.specs.Prelude.{◌≡◌};
ghost use Rattle.record_check.specs.Kinds.{kind_by_signature};

use crate::feed_tally::{Detail, FeedTally};
use crate::finding::Finding;
use crate::stations::AllStations;
use std::fmt::{self, Display, Formatter, Write};

/// What a file is that is no file of records of 512 bytes.
#[derive(Clone, Copy, Drop)]
pub enum FileKind {
    /// It is compressed by `gzip` (RFC 1952).
    Gzip,
    /// It has records of miniSEED 3 (FDSN, version 3.0).
    MiniSeed3,
    /// Its first record gives that length, in bytes.
    Records(u64),
}

impl Display for FileKind {
    fn fmt<W: Write>(&self, f: &mut Formatter<W>) -> fmt::Result {
        match self {
            FileKind::Gzip => f.write_str("a file compressed by gzip"),
            FileKind::MiniSeed3 => f.write_str("miniSEED 3, where miniSEED 2 is taken"),
            FileKind::Records(length) => write!(
                f,
                "records of {length} bytes, where 512 are taken"
            ),
        }
    }
}

/// What a file is by the bytes with which each file of its kind begins.
fn kind_by_signature(bytes: &[u8]) -> Option<FileKind>
    ensures { result ≡ kind_by_signature bytes.now }
{
    match bytes {
        [0x1f, 0x8b, ..] => Some(FileKind::Gzip),
        [b'M', b'S', 3, ..] => Some(FileKind::MiniSeed3),
        _ => None,
    }
}

/// The length that a record gives, if that alone keeps it from being read.
fn length_of(bytes: &[u8]) -> Option<u64> {
    let mut tally = FeedTally::new();
    tally.judge(&AllStations, bytes);
    match tally.first()?.detail {
        Detail::Power(power) if power < 64 => Some(1 << power),
        _ => None,
    }
}

/// What a file is by its first bytes, if it is known for no file of records of 512 bytes.
pub fn kind_of(bytes: &[u8]) -> Option<FileKind> {
    match kind_by_signature(bytes) {
        Some(kind) => Some(kind),
        None => Some(FileKind::Records(length_of(bytes)?)),
    }
}

/// A record in which something is wrong, or what is left over after the last one, and what its file is, if it is known
/// for no file of records.
#[derive(Clone, Copy, Drop)]
pub struct FoundRecord {
    pub finding: Finding,
    pub kind: Option<FileKind>,
}

impl Display for FoundRecord {
    /// The lines that say so, each with two spaces before it.
    fn fmt<W: Write>(&self, f: &mut Formatter<W>) -> fmt::Result {
        let Finding { number, offset, .. } = self.finding;
        writeln!(f, "  record: {number}\n  offset: {offset}")?;
        match self.kind {
            Some(kind) => writeln!(f, "  found: {kind}"),
            None => Ok(()),
        }
    }
}
