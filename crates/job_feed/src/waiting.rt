//! A connection whose server may take nothing for long, which is told once.
ghost use Rattle.std.specs.Prelude.{◌≡◌};
ghost use Rattle.job_feed.specs.Waiting.{first_wait, is_told, rest_of};

use job_base::line_start;
use std::io::{self, ErrorKind, Read, Write};
use std::net::TcpStream;
use std::time::Duration;

/// After how many seconds it is told that nothing was taken.
const MINUTE: u64 = 60;

/// After how many seconds a call ends by then, and how many such calls there are. One that took some of its bytes at
/// first says so only when it ends.
const STEP: u64 = 15;

const STEPS: u32 = 4;

/// How many milliseconds an answer is waited for that a feed port never gives.
const MOMENT: u64 = 50;

/// Whether it is told that nothing was taken: if somebody is shown it, and if the feed is not over by then.
fn is_told(is_shown: bool, limit: Option<u64>) -> bool
    ensures { result ≡ is_told is_shown limit }
{
    match limit {
        Some(limit) => is_shown && limit > MINUTE,
        None => is_shown,
    }
}

/// After how many seconds a call ends that took nothing, before it was told.
fn first_wait(is_told: bool, limit: Option<u64>) -> Option<u64>
    ensures { result ≡ first_wait is_told limit }
{
    if is_told { Some(STEP) } else { limit }
}

/// After how many more it ends once it was told.
fn rest_of(limit: Option<u64>) -> Option<u64>
    ensures { result ≡ rest_of limit }
{
    match limit {
        Some(limit) => Some(limit.saturating_sub(MINUTE)),
        None => None,
    }
}

/// Has the system end each call that waits for so many seconds.
fn bound(stream: &TcpStream, limit: Option<u64>) -> io::Result<()> {
    let time = match limit {
        Some(seconds) => Some(Duration::from_secs(seconds)),
        None => None,
    };
    stream.set_write_timeout(time)?;
    stream.set_read_timeout(time)
}

/// Whether a call ended by its time.
fn is_timed_out<T>(outcome: &io::Result<T>) -> bool {
    matches!(outcome, Err(reason) if reason.kind() == ErrorKind::WouldBlock)
}

/// A connection to which a feed is written. The first time that nothing is taken for a minute, that is told.
#[derive(Drop)]
pub struct WaitingStream<'r> {
    rt: &'r HostRuntime,
    stream: TcpStream,
    /// After how many seconds a call ends that takes nothing.
    limit: Option<u64>,
    /// Whether it is to be told yet that nothing is taken.
    is_told: bool,
}

impl<'r> WaitingStream<'r> {
    /// A connection. That nothing is taken is shown or not.
    pub fn new(
        rt: &'r HostRuntime,
        stream: TcpStream,
        limit: Option<u64>,
        is_shown: bool,
    ) -> io::Result<WaitingStream<'r>> {
        let is_told = is_told(is_shown, limit);
        bound(&stream, first_wait(is_told, limit))?;
        Ok(WaitingStream {
            rt,
            stream,
            limit,
            is_told,
        })
    }

    /// The connection itself.
    pub fn stream(&self) -> &TcpStream {
        &self.stream
    }

    /// Waits a moment for the server to say something, or to end the connection.
    pub fn await_answer(&self) -> io::Result<()> {
        self.stream
            .set_read_timeout(Some(Duration::from_millis(MOMENT)))?;
        let _answer = self.stream.peek(&mut [0; 1]);
        bound(&self.stream, first_wait(self.is_told, self.limit))
    }

    /// Tells that nothing was taken, and has the call that is made once more end after the rest of the time.
    fn tell(&mut self) -> io::Result<()> {
        self.is_told = false;
        let _ = eprintln!(self.rt;
            "{}seedlinkd: nothing was taken for 60 s; waiting",
            line_start()
        );
        bound(&self.stream, rest_of(self.limit))
    }
}

impl Write for WaitingStream<'_> {
    fn write(&mut self, bytes: &[u8]) -> io::Result<usize> {
        for _ in 0..STEPS {
            let taken = self.stream.write(bytes);
            if !self.is_told || !is_timed_out(&taken) {
                return taken;
            }
        }
        self.tell()?;
        let taken = self.stream.write(bytes);
        bound(&self.stream, self.limit)?;
        taken
    }

    fn flush(&mut self) -> io::Result<()> {
        self.stream.flush()
    }
}

impl Read for WaitingStream<'_> {
    fn read(&mut self, block: &mut [u8]) -> io::Result<usize> {
        for _ in 0..STEPS {
            let read = self.stream.read(block);
            if !self.is_told || !is_timed_out(&read) {
                return read;
            }
        }
        self.tell()?;
        let read = self.stream.read(block);
        bound(&self.stream, self.limit)?;
        read
    }
}
