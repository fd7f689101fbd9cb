//! What a user is told of the records of a feed.
use crate::aligned::Stretch;
use job_base::Several;
use record_check::{FileKind, RefusedRecord};
use shown_lines::ShownLine;
use std::fmt::{self, Display, Formatter, Write};

/// What is told of a feed while it is sent, and when all was sent, in a line of at most 200 bytes.
#[derive(Clone, Copy, Drop)]
pub enum FeedLine<'a> {
    /// Sixteen records of a file in a row can't be read, of which that is the first.
    Lost {
        file: &'a str,
        lost: RefusedRecord,
        /// What the file is, if it is known for no file of records.
        kind: Option<FileKind>,
    },
    /// Bytes of a file are in no record.
    PassedOver {
        file: &'a str,
        stretch: Stretch,
    },
    /// A file is named a second time.
    Again {
        file: &'a str,
    },
    /// Which stations the server has was not looked at.
    AnyStation,
    /// All was sent.
    Sent {
        count: u64,
    },
    /// Nothing was sent, since the first file ends before the record at which the feed was to begin.
    Short {
        from: u64,
        file: &'a str,
    },
    /// All was sent, and so many records are refused by every server, or by one with a configuration, of which that is
    /// the first, of a file.
    Refused {
        count: u64,
        refused: u64,
        config: Option<&'a str>,
        file: &'a str,
        first: RefusedRecord,
        kind: Option<FileKind>,
    },
}

/// Whoever refuses so many records: every server, or one with a configuration, which is named at the end of a line.
#[derive(Clone, Copy, Drop)]
struct Refusal {
    refused: u64,
    is_by_config: bool,
}

impl Display for Refusal {
    fn fmt<W: Write>(&self, f: &mut Formatter<W>) -> fmt::Result {
        let refused = self.refused;
        if self.is_by_config {
            write!(f, "{refused} would be refused")
        } else {
            write!(f, "no server takes {refused}")
        }
    }
}

/// The configuration by which records are refused, at the end of a line.
#[derive(Clone, Copy, Drop)]
struct ByConfig<'a>(Option<&'a str>);

impl Display for ByConfig<'_> {
    fn fmt<W: Write>(&self, f: &mut Formatter<W>) -> fmt::Result {
        match self.0 {
            Some(config) => write!(f, ", by {config}"),
            None => Ok(()),
        }
    }
}

/// What a file is, after what is wrong with it. The length of its records is told with that.
#[derive(Clone, Copy, Drop)]
struct Known(Option<FileKind>);

impl Display for Known {
    fn fmt<W: Write>(&self, f: &mut Formatter<W>) -> fmt::Result {
        match self.0 {
            Some(FileKind::Records(_)) | None => Ok(()),
            Some(kind) => write!(f, " ({kind})"),
        }
    }
}

/// The line that says what a file is, with two spaces before it.
#[derive(Clone, Copy, Drop)]
pub struct FoundKind(pub FileKind);

impl Display for FoundKind {
    fn fmt<W: Write>(&self, f: &mut Formatter<W>) -> fmt::Result {
        writeln!(f, "  found: {}", self.0)
    }
}

impl Display for FeedLine<'_> {
    fn fmt<W: Write>(&self, f: &mut Formatter<W>) -> fmt::Result {
        let mut line = ShownLine::new(f);
        match *self {
            FeedLine::Lost { file, lost, kind } => write!(
                line,
                "seedlinkd: 16 records in a row are not valid: {lost}{}; from record {}, byte {}, of {file} on",
                Known(kind),
                lost.number,
                lost.offset()
            ),
            FeedLine::PassedOver { file, stretch } => write!(
                line,
                "seedlinkd: passed over {} in no record{}, from byte {} of {file} on",
                Several::bytes(stretch.bytes),
                Known(stretch.kind),
                stretch.offset
            ),
            FeedLine::Again { file } => {
                write!(
                    line,
                    "seedlinkd: its records were sent twice: {file} is named again"
                )
            }
            FeedLine::AnyStation => write!(
                line,
                "seedlinkd: a feed port answers nothing: --config, or the server's --log, says which stations it has not"
            ),
            FeedLine::Sent { count } => write!(line, "sent {}", Several::records(count)),
            FeedLine::Short { from, file } => {
                write!(line, "sent 0 records: there is no record {from} in {file}")
            }
            FeedLine::Refused {
                count,
                refused,
                config,
                file,
                first,
                kind,
            } => write!(
                line,
                "sent {}, of which {}: {first}{}; record {}, byte {}, of {file}{}",
                Several::records(count),
                Refusal {
                    refused,
                    is_by_config: config.is_some()
                },
                Known(kind),
                first.number,
                first.offset(),
                ByConfig(config)
            ),
        }
    }
}
