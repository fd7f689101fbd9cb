//! What is noted of visits.
//!
//! A journal is told at once, and keeps nothing that waits: the lines go to the standard error as all others do, so
//! that what can't be written is dropped and counted in one place. The lines of visits and those of reports and faults
//! are written through one cell, since what counts the lines that were dropped, and knows whether the last one was cut,
//! must be one.
use ports::{AskedCodes, AwayReason, Mode, RecordCodes, RecordRefusal};
use std::fmt::{self, Display, Formatter, Write};
use std::net::Ipv4Addr;

/// A connection that was turned away.
#[derive(Clone, Copy, Drop)]
pub struct Away {
    pub address: Ipv4Addr,
    pub reason: AwayReason,
}

/// What a port took of a write, or of all pieces that it was handed by one call.
#[derive(Clone, Copy, Drop)]
pub struct Sent {
    pub port: u64,
    /// How many bytes; 0 if it took none.
    pub bytes: u64,
}

/// What happened of a visit. A port is named by its number.
#[derive(Clone, Copy, Drop)]
pub enum Visit {
    /// A client was let in.
    Open {
        port: u64,
        address: Ipv4Addr,
    },
    /// A client or a feed was turned away.
    Away(Away),
    /// STATION of a client was answered ERROR: it sees no station with these codes.
    NoStation {
        port: u64,
        address: Ipv4Addr,
        codes: AskedCodes,
    },
    /// The transfer of a client that begins next is to have records of this station.
    Reads {
        port: u64,
        address: Ipv4Addr,
        codes: AskedCodes,
        mode: Mode,
    },
    /// A transfer of a client began, with the stations that were noted before.
    Begins {
        port: u64,
        address: Ipv4Addr,
    },
    /// A client whose port is shut next was sent so many packets of this station.
    Packets {
        port: u64,
        address: Ipv4Addr,
        codes: AskedCodes,
        packets: u64,
    },
    /// A new configuration cut a client, for the first time.
    Cut {
        port: u64,
        address: Ipv4Addr,
    },
    /// A client's port was shut, after it took so many bytes, at most 2^64 - 1; also how many records the client lost,
    /// since they went out of their rings before it came to them, and whether it was cut.
    Close {
        port: u64,
        address: Ipv4Addr,
        bytes: u64,
        lost: u64,
        is_cut: bool,
    },
    /// A feed was let in.
    Feed {
        port: u64,
        address: Ipv4Addr,
    },
    /// A record that a feed gave was refused: the so-manieth whole one, from 1 on.
    Refused {
        port: u64,
        record: u64,
        refusal: RecordRefusal,
    },
    /// A feed's port was shut, after it gave so many whole records of 512 bytes, of which so many were refused; at most
    /// 2^64 - 1 of each.
    FeedOver {
        port: u64,
        address: Ipv4Addr,
        records: u64,
        refused: u64,
    },
}

/// Writes a code without the spaces behind it. A byte that doesn't print is shown as `?`.
fn put_code<W: Write>(f: &mut Formatter<W>, code: &[u8]) -> fmt::Result {
    for byte in code.trim_ascii_end() {
        f.write_char(if byte.is_ascii_graphic() {
            char::from(*byte)
        } else {
            '?'
        })?;
    }
    Ok(())
}

/// The codes of a record, as `GE WLF`.
#[derive(Clone, Copy, Drop)]
pub struct ShownCodes(pub RecordCodes);

impl Display for ShownCodes {
    fn fmt<W: Write>(&self, f: &mut Formatter<W>) -> fmt::Result {
        let codes = &self.0;
        put_code(f, &codes.network)?;
        f.write_char(' ')?;
        put_code(f, &codes.station)
    }
}

/// The codes of a station that a client asks for, as `GE WLF`; as `WLF` if it named no network. A byte that doesn't
/// print is shown as `?`.
#[derive(Clone, Copy, Drop)]
struct ShownAsked(AskedCodes);

impl Display for ShownAsked {
    fn fmt<W: Write>(&self, f: &mut Formatter<W>) -> fmt::Result {
        let codes = &self.0;
        if let Some(network) = &codes.network {
            put_code(f, network)?;
            f.write_char(' ')?;
        }
        put_code(f, &codes.station)
    }
}

/// What a client asks of a station, as `DATA`.
fn mode_name(mode: Mode) -> &'static str {
    match mode {
        Mode::Data => "DATA",
        Mode::Fetch => "FETCH",
        Mode::Time => "TIME",
    }
}

/// Writes why a record of a feed was refused.
fn put_refusal<W: Write>(
    f: &mut Formatter<W>,
    port: u64,
    record: u64,
    refusal: &RecordRefusal,
) -> fmt::Result {
    match refusal {
        RecordRefusal::Unknown(codes) => {
            let codes = ShownCodes(*codes);
            write!(
                f,
                "feed {port} refused {codes}, an unknown station, first at record {record}"
            )
        }
        RecordRefusal::Other(reason) => {
            let number = reason.number();
            let name = reason.name();
            write!(
                f,
                "feed {port} refused {number} {name}, first at record {record}"
            )
        }
    }
}

/// Writes how many records a client lost, if any, and that it was cut, if it was.
fn put_end<W: Write>(f: &mut Formatter<W>, lost: u64, is_cut: bool) -> fmt::Result {
    if lost > 0 {
        write!(f, " lost {lost}")?;
    }
    f.write_str(if is_cut { " cut" } else { "" })
}

impl Display for Visit {
    /// As `open 17 10.0.0.7`, `away 10.0.0.7 max_connections`, `refused 17 10.0.0.7 STATION GE WLF`,
    /// `reads 17 10.0.0.7 GE APE DATA`, `sent 17 10.0.0.7 GE APE packets 100`, `cut 17 10.0.0.7`,
    /// `close 17 10.0.0.7 bytes 52000`, `close 17 10.0.0.7 bytes 52000 lost 12 cut` for one that lost records and was
    /// cut, `feed 3 10.0.0.2`, `feed 3 refused 6 Length, first at record 17`,
    /// `feed 3 refused GE WLF, an unknown station, first at record 2` and `feed 3 over 10.0.0.2 records 120 refused 2`.
    fn fmt<W: Write>(&self, f: &mut Formatter<W>) -> fmt::Result {
        match self {
            Visit::Open { port, address } => write!(f, "open {port} {address}"),
            Visit::Away(away) => {
                let Away { address, reason } = away;
                write!(f, "away {address} {reason}")
            }
            Visit::NoStation {
                port,
                address,
                codes,
            } => {
                let codes = ShownAsked(*codes);
                write!(f, "refused {port} {address} STATION {codes}")
            }
            Visit::Reads {
                port,
                address,
                codes,
                mode,
            } => {
                let codes = ShownAsked(*codes);
                let mode = mode_name(*mode);
                write!(f, "reads {port} {address} {codes} {mode}")
            }
            Visit::Begins { port, address } => write!(f, "begins {port} {address}"),
            Visit::Packets {
                port,
                address,
                codes,
                packets,
            } => {
                let codes = ShownAsked(*codes);
                write!(f, "sent {port} {address} {codes} packets {packets}")
            }
            Visit::Cut { port, address } => write!(f, "cut {port} {address}"),
            Visit::Close {
                port,
                address,
                bytes,
                lost,
                is_cut,
            } => {
                write!(f, "close {port} {address} bytes {bytes}")?;
                put_end(f, *lost, *is_cut)
            }
            Visit::Feed { port, address } => write!(f, "feed {port} {address}"),
            Visit::Refused {
                port,
                record,
                refusal,
            } => put_refusal(f, *port, *record, refusal),
            Visit::FeedOver {
                port,
                address,
                records,
                refused,
            } => write!(
                f,
                "feed {port} over {address} records {records} refused {refused}"
            ),
        }
    }
}
