//! What a reader tells of what it meets, and to whom.
ghost use Rattle.std.specs.Prelude.{◌≡◌, ◌∷◌, [], List, None};
ghost use Rattle.std.specs.declared.option.Option.{Option};
ghost use Rattle.job_read.specs.Notices.{NoticeValue, Tells, notice_value};

use job_base::line_start;
use shown_lines::ShownLine;
use sl_packet::Seq;
use std::fmt::{self, Display, Formatter, Write};

/// Something that a reader meets.
#[derive(Clone, Copy)]
pub enum Notice<'a> {
    /// The server refuses a want of that station.
    Refused {
        network: &'a [u8],
        station: &'a [u8],
    },
    /// Two packets of a station came one after the other between whose numbers others are missing, and so are as many
    /// ticks of time, if that is known. So many such lines were left out before.
    Gap {
        network: &'a [u8],
        station: &'a [u8],
        last: Seq,
        next: Seq,
        missing: Option<u64>,
        more: u64,
    },
    /// The same, and no time is missing.
    Renumbered {
        network: &'a [u8],
        station: &'a [u8],
        last: Seq,
        next: Seq,
        more: u64,
    },
    /// So many records in all have no place in the archive.
    Unplaced(u64),
    /// The first packet of a station has another number than the one that it is asked for from.
    OtherBegin {
        network: &'a [u8],
        station: &'a [u8],
        asked: Seq,
        first: Seq,
    },
    /// A packet came of a station that no want names.
    Unasked {
        network: &'a [u8],
        station: &'a [u8],
    },
}

/// A text of bytes, if it is one.
fn text_of(bytes: &[u8]) -> &str {
    str::from_utf8(bytes).unwrap_or("?")
}

/// Two numbers of a station that came one after the other.
#[derive(Clone, Copy)]
struct JumpLine<'a> {
    word: &'static str,
    network: &'a [u8],
    station: &'a [u8],
    last: Seq,
    next: Seq,
}

impl Display for JumpLine<'_> {
    fn fmt<W: Write>(&self, f: &mut Formatter<W>) -> fmt::Result {
        let (network, station) = (text_of(self.network), text_of(self.station));
        write!(f, "{} {network} {station}", self.word)?;
        let (last, next) = (self.last.digits(), self.next.digits());
        write!(f, " {} {}", text_of(&last), text_of(&next))
    }
}

/// How many lines were left out before one, behind it.
#[derive(Clone, Copy)]
struct LeftOut(u64);

impl Display for LeftOut {
    fn fmt<W: Write>(&self, f: &mut Formatter<W>) -> fmt::Result {
        match self.0 {
            0 => Ok(()),
            more => write!(f, ", after {more} more"),
        }
    }
}

/// A length of time in ticks, in seconds.
#[derive(Clone, Copy)]
struct Seconds(u64);

impl Display for Seconds {
    fn fmt<W: Write>(&self, f: &mut Formatter<W>) -> fmt::Result {
        write!(f, " {}.{:04}", self.0 / 10_000, self.0 % 10_000)
    }
}

impl Display for Notice<'_> {
    fn fmt<W: Write>(&self, f: &mut Formatter<W>) -> fmt::Result {
        let mut line = ShownLine::new(f);
        line.write_str("seedlinkd: ")?;
        match *self {
            Notice::Refused { network, station } => {
                write!(line, "refused {} {}", text_of(network), text_of(station))
            }
            Notice::Gap {
                network,
                station,
                last,
                next,
                missing,
                more,
            } => {
                let word = "gap";
                let jump = JumpLine {
                    word,
                    network,
                    station,
                    last,
                    next,
                };
                write!(line, "{jump}")?;
                if let Some(ticks) = missing {
                    write!(line, "{}", Seconds(ticks))?;
                }
                write!(line, "{}", LeftOut(more))
            }
            Notice::Renumbered {
                network,
                station,
                last,
                next,
                more,
            } => {
                let word = "renumbered";
                let jump = JumpLine {
                    word,
                    network,
                    station,
                    last,
                    next,
                };
                write!(line, "{jump}{}", LeftOut(more))
            }
            Notice::Unplaced(count) => {
                write!(line, "records without a place in the archive: {count}")
            }
            Notice::OtherBegin {
                network,
                station,
                asked,
                first,
            } => {
                let word = "not held";
                let begin = JumpLine {
                    word,
                    network,
                    station,
                    last: asked,
                    next: first,
                };
                write!(line, "{begin}")
            }
            Notice::Unasked { network, station } => {
                write!(
                    line,
                    "not asked for {} {}",
                    text_of(network),
                    text_of(station)
                )
            }
        }
    }
}

/// Whom a reader tells what it meets.
pub trait Teller {
    // All that was told, in order, if it is known.
    ghost told: { Self → Option (List NoticeValue) };

    /// Tells something.
    fn tell(&mut self, notice: &Notice<'_>)
        ensures { Tells (told self.old) (told self.new) (notice_value notice.now ∷ []) };
}

/// Tells on the standard error, a line each.
#[derive(Drop)]
pub struct ErrorTeller<'r> {
    rt: &'r HostRuntime,
}

impl<'r> ErrorTeller<'r> {
    /// Nothing was told yet.
    pub fn new(rt: &'r HostRuntime) -> ErrorTeller<'r> {
        ErrorTeller { rt }
    }
}

impl Teller for ErrorTeller<'_> {
    ghost told = { λ _. None };

    fn tell(&mut self, notice: &Notice<'_>) {
        let _ = eprintln!(self.rt; "{}{notice}", line_start());
    }
}
