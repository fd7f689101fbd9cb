//! How far a job is with a file of records, for a user at a terminal.
//!
//! How far a job is goes to standard error alone and only at a terminal, so that logs and mails of cron stay as they
//! are. `check` is silent while its lines go to the same terminal, since these show it.
ghost use Rattle.std.specs.Prelude.{◌≡◌};
ghost use Rattle.job_base.specs.Meters.{rate, share};

use crate::several::Several;
use files::milliseconds;
use protocol::limits::RECORD;
use std::fs::File;
use std::io::{self, Read};
use std::marker::Model;

/// Whether the standard error is a terminal.
pub fn is_terminal() -> bool {
    libc::isatty(libc::STDERR_FILENO) == 1
}

/// Whether the standard output is one.
pub fn is_output_terminal() -> bool {
    libc::isatty(libc::STDOUT_FILENO) == 1
}

/// How many bytes a file has, if it has an end that is known.
pub fn size_of(file: &File) -> Option<u64> {
    match file.metadata() {
        Ok(metadata) if metadata.is_file() => Some(metadata.len()),
        _ => None,
    }
}

/// How many bytes are read, and when that was shown last, in milliseconds.
#[derive(Clone, Copy, Drop)]
struct Meter {
    bytes: u64,
    shown: Option<u64>,
}

impl Model for Meter {
    ghost use Rattle.job_base.specs.Meters.{MeterValue};

    ghost Value = { MeterValue };

    ghost view = { λ m. record { bytes = m.bytes; shown = m.shown } };

    ghost inverse = { λ m. record { bytes = m.bytes; shown = m.shown } };
}

impl Meter {
    ghost use Rattle.std.specs.Prelude.{◌≡◌, ◌+◌, ◌-◌, ◌^◌, Some, min, if◌then◌else◌};
    ghost use Rattle.job_base.specs.Meters.{is_time};

    /// So many bytes more are read.
    fn add_bytes(&mut self, count: usize)
        ensures { self.new ≡ record self.old { bytes = min (self.old.bytes + count) (2 ^ 64 - 1) } }
    {
        self.bytes = self.bytes.saturating_add(count as u64);
    }

    /// Whether it is time to show it: it was not shown yet, or not for a tenth of a second. It then counts as shown.
    fn comes(&mut self, now: u64) -> bool
        ensures due { result ≡ is_time self.old.shown now }
        ensures shown { self.new ≡ (if is_time self.old.shown now
            then record self.old { shown = Some now } else self.old) }
    {
        let is_time = match self.shown {
            Some(last) => now.saturating_sub(last) >= 100,
            None => true,
        };
        if is_time {
            self.shown = Some(now);
        }
        is_time
    }
}

/// How many hundredths of so many bytes are read.
fn share(bytes: u64, size: u64) -> u64
    ensures { result ≡ share bytes size }
{
    if size <= bytes {
        return 100;
    }
    (bytes as u128 * 100 / size as u128) as u64
}

/// How many records a second so many are in so many milliseconds.
fn rate(records: u64, milliseconds: u64) -> u64
    ensures { result ≡ rate records milliseconds }
{
    records.saturating_mul(1_000) / milliseconds.max(1)
}

/// How far a job is that reads records, shown on the standard error at most ten times a second.
#[derive(Drop)]
pub struct Progress<'r> {
    rt: &'r HostRuntime,
    /// How many bytes there are to read, if that is known.
    size: Option<u64>,
    meter: Meter,
    /// When it began, in milliseconds.
    begun: u64,
    is_shown: bool,
}

impl<'r> Progress<'r> {
    /// Before the first byte of so many. It is shown only if `is_shown`.
    pub fn new(rt: &'r HostRuntime, size: Option<u64>, is_shown: bool) -> Progress<'r> {
        let begun = if is_shown { milliseconds(rt) } else { 0 };
        Progress {
            rt,
            size,
            meter: Meter {
                bytes: 0,
                shown: None,
            },
            begun,
            is_shown,
        }
    }

    /// Shows how far it is at a moment.
    fn show(&self, now: u64) {
        let bytes = self.meter.bytes;
        let records = bytes / RECORD as u64;
        let rate = rate(records, now.saturating_sub(self.begun));
        let records = Several::records(records);
        let _ = match self.size {
            Some(size) => eprint!(self.rt;
                "\r{records}, {bytes} of {size} bytes, {} %, {rate} records/s\x1b[K",
                share(bytes, size)
            ),
            None => eprint!(self.rt; "\r{records}, {bytes} bytes, {rate} records/s\x1b[K"),
        };
    }

    /// So many bytes more are read.
    pub fn add_bytes(&mut self, count: usize) {
        if !self.is_shown {
            return;
        }
        self.meter.add_bytes(count);
        let now = milliseconds(self.rt);
        if self.meter.comes(now) {
            self.show(now);
        }
    }

    /// Takes away what is shown, until it is shown again.
    pub fn clear(&self) {
        if self.is_shown && self.meter.shown.is_some() {
            let _ = eprint!(self.rt; "\r\x1b[K");
        }
    }
}

/// Passes on what is read of a file of records, and shows on the standard error how far that is, at most ten times a
/// second.
#[derive(Drop)]
pub struct Watched<'r, T> {
    inner: T,
    progress: Progress<'r>,
}

impl<'r, T> Watched<'r, T> {
    /// What is read of `inner`, of which so many bytes can be read. It is shown only if `is_shown`.
    pub fn new(rt: &'r HostRuntime, inner: T, size: Option<u64>, is_shown: bool) -> Watched<'r, T> {
        Watched {
            inner,
            progress: Progress::new(rt, size, is_shown),
        }
    }

    /// Takes away what is shown, and answers what was read of.
    pub fn end(self) -> T {
        self.progress.clear();
        self.inner
    }
}

impl<T: Read> Read for Watched<'_, T> {
    fn read(&mut self, block: &mut [u8]) -> io::Result<usize> {
        let count = self.inner.read(block)?;
        self.progress.add_bytes(count);
        Ok(count)
    }
}
