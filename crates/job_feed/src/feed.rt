//! A feed under way: a connection, and how many bytes of records it has taken.
//!
//! `feed` asks its connection how it ended. Nothing is answered to a feed, so all that it has is the end. It shuts its
//! sending half after the last record and reads until the server ends the other. A server that goes or turns a feed
//! away can end its half in order too, before the records come to it; the system resets the connection only after that.
//! So `feed` looks for an end before it shuts, and takes a shut that fails for one. After the end it asks whether the
//! system still has a peer of the connection: it has none if the server's end came after the feed's own had arrived,
//! and still has one if both were on their way.
//!
//! A port for clients answers a line that it does not know, but not if the end comes with it. Of a few records it reads
//! both at once, so after these the end is sent a moment later.
ghost use Rattle.std.specs.Prelude.{◌≡◌, ◌+◌, ◌-◌, ◌^◌, ◌/◌, length, min, take, IfErr, IfOk, IfSome, OnErr, OnOk};
ghost use Rattle.feeder.specs.Sending.{whole_part};
ghost use Rattle.job_feed.specs.Handing.{CountsBeginning, counted_part};

use crate::fault::FeedFault;
use crate::feeding::await_end;
use crate::waiting::WaitingStream;
use feeder::{SendFault, send};
use protocol::limits::RECORD;
use sl_io::{DeviceFault, Outer, Sink, Source};
use std::io::{ErrorKind, Write};
use std::net::{Shutdown, TcpStream};

/// Whether a connection is over before this side has ended it: the server has ended its half, or the connection has
/// failed.
fn is_over(stream: &TcpStream) -> bool {
    if stream.set_nonblocking(true).is_err() {
        return true;
    }
    let is_open = match stream.peek(&mut [0; 1]) {
        Ok(count) => count > 0,
        Err(error) => error.kind() == ErrorKind::WouldBlock,
    };
    !is_open || stream.set_nonblocking(false).is_err()
}

/// Whether a connection of which both sides have ended their halves was closed in order: nothing that was sent was
/// refused, and this side's end had come to the server before the server ended its own. Then the system has no peer of
/// it any more.
fn is_closed(stream: &TcpStream) -> bool {
    matches!(stream.take_error(), Ok(None)) && stream.peer_addr().is_err()
}

/// How many records a port for clients may read together with the end.
const FEW: u64 = 4;

/// A feed of which all records were sent, and whose sending half is shut.
#[derive(Drop)]
pub struct SentFeed<'r> {
    stream: WaitingStream<'r>,
    /// How many records were sent.
    pub count: u64,
}

impl SentFeed<'_> {
    /// Waits for the server's end. If it comes in order, the server has read everything: then the answer is how many
    /// records were sent. It fails with 43 if the connection was reset, if the server ended it before it had read to
    /// the end, or if the end does not come in time, and with 52 if the server answered something.
    pub fn wait(self) -> Result<u64, FeedFault> {
        let SentFeed { stream, count } = self;
        let mut server = Outer::new(stream);
        let awaited = await_end(&mut server);
        let stream = server.into_inner();
        match awaited {
            Ok(()) if is_closed(stream.stream()) => Ok(count),
            Ok(()) => Err(FeedFault::Untaken),
            Err(FeedFault::Untaken) if !is_over(stream.stream()) => Err(FeedFault::Silent),
            Err(fault) => Err(fault),
        }
    }
}

/// The first bytes of a piece: as many as can be counted beside those that were taken.
fn countable(taken: u64, bytes: &[u8]) -> &[u8]
    ensures { result.now ≡ take (min (2 ^ 64 - 1 - taken) (length bytes.now)) bytes.now }
{
    let room = (u64::MAX - taken) as usize;
    &bytes[..room.min(bytes.len())]
}

/// A feed under way: a connection, and how many bytes it has taken. Of the bytes that the connection tells it tells the
/// last ones, as many as it has counted. It takes no more than 2^64 - 1.
#[derive(Drop)]
pub struct Feed<T> {
    stream: T,
    taken: u64,
    failures: u64,
    calls: u64,
    empty_writes: u64,
}

impl<T: Write> Sink for Feed<T> {
    ghost written = { λ s. counted_part s.taken (T.contents s.stream) };

    ghost failures = { λ s. s.failures };

    ghost calls = { λ s. s.calls };

    ghost empty_writes = { λ s. s.empty_writes };

    fn write(&mut self, bytes: &[u8]) -> Result<usize, DeviceFault> {
        self.calls = self.calls.wrapping_add(1);
        match self.stream.write(countable(self.taken, bytes)) {
            Ok(count) => {
                if count == 0 && !bytes.is_empty() {
                    self.empty_writes = self.empty_writes.wrapping_add(1);
                }
                self.taken += count as u64;
                Ok(count)
            }
            Err(_) => {
                self.failures = self.failures.wrapping_add(1);
                Err(DeviceFault)
            }
        }
    }
}

impl<T: Write + Drop> Feed<T> {
    /// Before the first record.
    pub fn new(stream: T) -> Feed<T>
        ensures { result.taken ≡ 0 }
    {
        Feed {
            stream,
            taken: 0,
            failures: 0,
            calls: 0,
            empty_writes: 0,
        }
    }

    /// Sends the whole records that are left of a reader, and counts the bytes that the connection takes, also at a
    /// fault. It fails as `feeder::send` does.
    pub fn send<S: Source>(&mut self, records: &mut S) -> Result<(), SendFault>
        ensures all { OnOk result (IfSome (S.left records.old) (λ bytes.
            IfSome (counted_part self.old.taken (T.contents self.old.stream)) (λ _.
            self.new.taken ≡ self.old.taken + length (whole_part bytes)))) }
        ensures counted { IfSome (S.left records.old) (λ bytes.
            IfSome (counted_part self.old.taken (T.contents self.old.stream)) (λ before.
            CountsBeginning self.old.taken self.new.taken before
            (counted_part self.new.taken (T.contents self.new.stream)) (whole_part bytes))) }
    {
        send(records, self)?;
        Ok(())
    }

    /// How many records the connection has taken whole.
    pub fn records(&self) -> u64
        ensures { result ≡ self.now.taken / 512 }
    {
        self.taken / RECORD as u64
    }
}

impl<'r> Feed<WaitingStream<'r>> {
    /// Whether the connection is still there: a write that failed has ended by its time.
    pub fn is_open(&self) -> bool {
        !is_over(self.stream.stream())
    }

    /// Shuts the sending half. It fails with 43 if the server ended the connection before.
    pub fn shut(self) -> Result<SentFeed<'r>, FeedFault>
        ensures { IfOk result (λ sent. sent.count ≡ self.entry.taken / 512) }
    {
        let count = self.records();
        let Feed { stream, .. } = self;
        if count <= FEW && stream.await_answer().is_err() {
            return Err(FeedFault::Untaken);
        }
        let open = stream.stream();
        if is_over(open) || open.shutdown(Shutdown::Write).is_err() {
            return Err(FeedFault::Untaken);
        }
        Ok(SentFeed { stream, count })
    }
}
