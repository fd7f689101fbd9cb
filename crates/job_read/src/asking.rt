//! When wants that a server refused are asked again: a connection on which one was refused ends after an hour, so that
//! the next one asks for it once more; after a minute if the server is not the first of the list, which is asked again
//! then. And how a connection is read that ends so, or for its silence.
ghost use Rattle.std.specs.Prelude.{◌≡◌};
ghost use Rattle.std.specs.Io.{ReadsAtMost};
ghost use Rattle.job_read.specs.Asking.{left_after};
ghost use Rattle.job_read.specs.Waiting.{told_after};

use crate::inlet::Inlet;
use crate::patience::{Awaited, Patience, shorter};
use files::milliseconds;
use std::cell::Cell;
use std::fmt::{self, Display, Formatter, Write};
use std::io::{self, ErrorKind, Read};

/// How many milliseconds a connection lasts on which a want was refused.
const HOUR: u64 = 3_600_000;

/// The same of a server that is not the first of the list; and after how many of them it is told that nothing comes.
const MINUTE: u64 = 60_000;

/// The same of a server that owes something, and of a window.
const SOON: u64 = 10_000;

/// How many milliseconds are left of a connection on which a want was refused at a moment.
fn left_after(is_first: bool, refused: u64, now: u64) -> u64
    ensures { result ≡ left_after is_first refused now }
{
    let limit = if is_first { HOUR } else { MINUTE };
    limit.saturating_sub(now.saturating_sub(refused))
}

/// After how many milliseconds it is told that nothing comes, by what is waited for.
fn told_after(awaited: Awaited) -> u64
    ensures { result ≡ told_after awaited }
{
    match awaited {
        Awaited::Record => MINUTE,
        Awaited::Rest | Awaited::Packet | Awaited::WindowEnd => SOON,
    }
}

/// That nothing comes and what is waited for, as standard error is told.
fn silence_text(awaited: Awaited) -> &'static str {
    match awaited {
        Awaited::Record => "nothing has come for 60 s; waiting",
        Awaited::Rest => "the server owes an answer, and nothing has come for 10 s; waiting",
        Awaited::Packet =>
            "the server owes a packet or the end, and nothing has come for 10 s; waiting",
        Awaited::WindowEnd => "nothing more of the window has come for 10 s; waiting",
    }
}

/// The same, and for how many seconds at most.
#[derive(Clone, Copy)]
struct SilenceLine {
    awaited: Awaited,
    limit: Option<u64>,
}

impl Display for SilenceLine {
    fn fmt<W: Write>(&self, f: &mut Formatter<W>) -> fmt::Result {
        write!(f, "seedlinkd: {}", silence_text(self.awaited))?;
        match self.awaited {
            Awaited::Record | Awaited::Rest => Ok(()),
            Awaited::Packet | Awaited::WindowEnd => match self.limit {
                None => f.write_str(" (--timeout N ends that)"),
                Some(limit) => write!(f, " up to {limit} s (--timeout N)"),
            },
        }
    }
}

/// When the wants are asked again that are refused on the connection that is read.
#[derive(Drop)]
pub struct Renewal {
    is_retried: bool,
    /// Whether the server is the first of the list.
    is_first: Cell<bool>,
    /// When the first of them was refused, in milliseconds.
    refused: Cell<Option<u64>>,
}

impl Renewal {
    /// Before the first connection. If connections are not made again, nothing is asked again.
    pub fn new(is_retried: bool) -> Renewal {
        Renewal {
            is_retried,
            is_first: Cell::new(true),
            refused: Cell::new(None),
        }
    }

    /// Another connection is made, on which nothing was refused yet, to the first server of the list or not.
    pub fn begin(&self, is_first: bool) {
        self.is_first.set(is_first);
        self.refused.set(None);
    }

    /// A want is refused.
    pub fn refuse(&self, rt: &HostRuntime) {
        if self.is_retried && self.refused.get().is_none() {
            self.refused.set(Some(milliseconds(rt)));
        }
    }

    /// How many milliseconds the connection still lasts, if it ends so that wants are asked again.
    fn left(&self, rt: &HostRuntime) -> Option<u64> {
        let refused = self.refused.get()?;
        Some(left_after(self.is_first.get(), refused, milliseconds(rt)))
    }

    /// Whether it is over by that.
    pub fn is_over(&self, rt: &HostRuntime) -> bool {
        self.left(rt) == Some(0)
    }
}

/// Reads what comes at a connection until it is over. If nothing comes for a minute, or for ten seconds from a server
/// that owes something or for a window, that is told once.
#[derive(Drop)]
pub struct RenewedReader<'r> {
    inlet: &'r Inlet,
    rt: &'r HostRuntime,
    renewal: &'r Renewal,
    patience: &'r Patience,
    /// Whether it is to be told yet that nothing comes.
    is_told: bool,
}

impl<'r> RenewedReader<'r> {
    /// What comes at `inlet`. That nothing comes is told or not.
    pub fn new(
        inlet: &'r Inlet,
        rt: &'r HostRuntime,
        renewal: &'r Renewal,
        patience: &'r Patience,
        is_told: bool,
    ) -> RenewedReader<'r> {
        RenewedReader {
            inlet,
            rt,
            renewal,
            patience,
            is_told,
        }
    }

    /// How many milliseconds the connection still lasts if something is waited for since a moment.
    fn left(&self, since: u64, now: u64) -> Option<u64> {
        let silence = self.patience.left(since, now);
        shorter(self.renewal.left(self.rt), silence)
    }

    /// How many milliseconds there are until it is told that nothing has come since a moment. It is told if that is
    /// now.
    fn left_to_tell(&mut self, begun: u64, now: u64) -> Option<u64> {
        if !self.is_told {
            return None;
        }
        let awaited = self.patience.awaited();
        let left = told_after(awaited).saturating_sub(now.saturating_sub(begun));
        if left > 0 {
            return Some(left);
        }
        self.is_told = false;
        let limit = self.patience.seconds();
        let _ = eprintln!(self.rt; "{}", SilenceLine { awaited, limit });
        None
    }

    /// The connection is over.
    fn give_up(&self) -> io::Error {
        if !self.renewal.is_over(self.rt) {
            self.patience.give_up();
        }
        io::Error::from(ErrorKind::TimedOut)
    }
}

impl Read for RenewedReader<'_> {
    fn read(&mut self, block: &mut [u8]) -> io::Result<usize> {
        let count = self.read_in_time(block)?;
        self.patience.receive(count);
        Ok(count)
    }
}

impl RenewedReader<'_> {
    /// Reads what comes before the connection is over.
    fn read_in_time(&mut self, block: &mut [u8]) -> io::Result<usize>
        ensures { ReadsAtMost result block.new }
    {
        let begun = milliseconds(self.rt);
        let since = self.patience.since(begun);
        for _ in 0..u64::MAX {
            let now = milliseconds(self.rt);
            let left = self.left(since, now);
            if left == Some(0) {
                break;
            }
            let left = shorter(left, self.left_to_tell(begun, now));
            match self.inlet.read(block, left) {
                Err(reason) if reason.kind() == ErrorKind::WouldBlock => {}
                read => return read,
            }
        }
        Err(self.give_up())
    }
}
