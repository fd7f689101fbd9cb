//! The connection that is read: by whoever lists what comes, and ahead of that by whoever keeps a state once nothing
//! comes for a while. That wait is a read, whose bytes are held here until they are asked for: so no call of the system
//! only looks whether there is something to read.
ghost use Rattle.std.specs.Prelude.{◌≡◌};
ghost use Rattle.std.specs.Io.{ReadsAtMost};
ghost use Rattle.job_read.specs.Waiting.{is_within};

use crate::sent::SentPiece;
use std::alloc::Global;
use std::cell::{Cell, RefCell};
use std::io::{self, BufRead, BufReader, ErrorKind, Read};
use std::net::TcpStream;
use std::time::Duration;

/// How many bytes are read ahead at most: as many as a reading asks for at once.
const AHEAD: usize = 65_536;

/// The connection that is read, if there is one.
#[derive(Drop)]
pub struct Inlet {
    /// What comes over it, with what was read ahead.
    stream: RefCell<Option<BufReader<TcpStream>>>,
    /// After how many milliseconds the system ends a read that brings nothing, as it was told last; never if that is
    /// None.
    limit: Cell<Option<u64>>,
    /// The beginning of what came last.
    sent: Cell<SentPiece>,
}

/// Whether a read that ends after one time has ended by another one.
fn is_within(one: Option<u64>, other: Option<u64>) -> bool
    ensures { result ≡ is_within one other }
{
    match (one, other) {
        (Some(one), Some(other)) => one <= other,
        (None, Some(_)) => false,
        (_, None) => true,
    }
}

/// Whether a read ended by its time.
fn is_timed_out(reason: &io::Error) -> bool {
    reason.kind() == ErrorKind::WouldBlock
}

impl Inlet {
    /// No connection yet.
    pub fn new() -> Inlet {
        Inlet {
            stream: RefCell::new(None),
            limit: Cell::new(None),
            sent: Cell::new(SentPiece::none()),
        }
    }

    /// The beginning of what came last, also once the connection is over.
    pub fn sent(&self) -> SentPiece {
        self.sent.get()
    }

    /// The connection is over.
    pub fn close(&self) {
        if let Ok(mut held) = self.stream.try_borrow_mut() {
            *held = None;
        }
    }

    /// Another connection is read.
    pub fn open(&self, alloc: Global, stream: TcpStream) -> io::Result<()> {
        let reader = BufReader::with_capacity(alloc, AHEAD, stream)?;
        if let Ok(mut held) = self.stream.try_borrow_mut() {
            *held = Some(reader);
        }
        self.limit.set(None);
        self.sent.set(SentPiece::none());
        Ok(())
    }

    /// Has the system end each read after so many milliseconds. Where that can't be set a read waits on.
    fn set_limit(&self, stream: &TcpStream, limit: Option<u64>) {
        if self.limit.get() == limit {
            return;
        }
        let time = match limit {
            Some(limit) => Some(Duration::from_millis(limit)),
            None => None,
        };
        if stream.set_read_timeout(time).is_ok() {
            self.limit.set(limit);
        }
    }

    /// Reads what comes next. It may end with `WouldBlock`, at the latest after so many milliseconds if some are given.
    pub fn read(&self, block: &mut [u8], left: Option<u64>) -> io::Result<usize>
        ensures { ReadsAtMost result block.new }
    {
        let Ok(mut held) = self.stream.try_borrow_mut() else {
            return Err(io::Error::from(ErrorKind::ResourceBusy));
        };
        let Some(stream) = held.as_mut() else {
            return Err(io::Error::from(ErrorKind::NotConnected));
        };
        if !is_within(self.limit.get(), left) {
            self.set_limit(stream.get_ref(), left);
        }
        match stream.read(block) {
            Err(reason) if is_timed_out(&reason) => {
                self.set_limit(stream.get_ref(), None);
                Err(reason)
            }
            Ok(count) => {
                self.note(block, count);
                Ok(count)
            }
            Err(reason) => Err(reason),
        }
    }

    /// Keeps the beginning of so many bytes that came.
    fn note(&self, block: &[u8], count: usize) {
        if count > 0 && count <= block.len() {
            self.sent.set(SentPiece::of(&block[..count]));
        }
    }

    /// Whether nothing comes for so many milliseconds. What comes is read ahead. A connection that can't be read brings
    /// nothing; one that is over brings its end.
    pub fn is_silent(&self, milliseconds: u64) -> bool {
        let Ok(mut held) = self.stream.try_borrow_mut() else {
            return true;
        };
        let Some(stream) = held.as_mut() else {
            return true;
        };
        self.set_limit(stream.get_ref(), Some(milliseconds));
        let is_silent = match stream.fill_buf() {
            Ok(_) => false,
            Err(reason) => is_timed_out(&reason),
        };
        if is_silent {
            self.set_limit(stream.get_ref(), None);
        }
        is_silent
    }
}
