//! Bytes of feeds that were read ahead of whoever takes them.
//!
//! Room to read feeds ahead is made at the start for sixteen feeds, as many as the loop lets be open, and lent at a
//! feed's first read. So a feed that is turned away unread costs none, and no read needs memory.
ghost use Rattle.std.specs.Prelude.{◌≡◌, [], IfOk, IfSome, drop, length, min, take};
ghost use Rattle.std.specs.List.{All};
ghost use Rattle.ports_socket.specs.Receipts.{IsFilled, IsReceived};

use crate::socket_io::{Receipt, receive};
use mio::net::TcpStream;
use protocol::limits::FEEDS;
use std::alloc::{AllocError, Global};
use std::marker::Model;

/// How many bytes are read ahead at most.
pub const BLOCK: usize = 65_536;

/// Bytes that were read and not taken yet. In a contract it is these bytes, in the order in which they came.
#[derive(Drop)]
pub struct ReadAhead {
    bytes: Vec<u8>,
    /// The first that was not taken, and the one after the last that was read.
    start: usize,
    end: usize,
}

impl Model for ReadAhead {
    ghost use Rattle.std.specs.Prelude.{ℕ, ◌≡◌, ◌≤◌, List, drop, take, vec_len};

    ghost Value = { List ℕ };

    ghost view = { λ a. drop a.start (take a.end a.bytes.items) };

    ghost invariant = { λ a. (a.start ≤ a.end) × (a.end ≤ 65536) × (vec_len a.bytes ≡ 65536) };
}

impl ReadAhead {
    fn new(alloc: Global) -> Result<ReadAhead, AllocError>
        ensures { IfOk result (λ ahead. ahead ≡ []) }
    {
        Ok(ReadAhead {
            bytes: Vec::from_elem(alloc, 0u8, BLOCK)?,
            start: 0,
            end: 0,
        })
    }

    /// Moves the first bytes, as many as there are and as fit, to the beginning of the buffer.
    pub fn move_into(&mut self, buffer: &mut [u8]) -> usize
        ensures count { result ≡ min (length self.old) (length buffer.new) }
        ensures given { take result buffer.new ≡ take result self.old }
        ensures left { self.new ≡ drop result self.old }
    {
        let start = self.start;
        let count = (self.end - start).min(buffer.len());
        buffer[..count].copy_from_slice(&self.bytes.as_slice()[start..start + count]);
        self.start = start + count;
        count
    }

    /// Reads once from the system, as much as there is room for, once all are taken.
    pub fn receive(&mut self, stream: &TcpStream) -> Receipt
        requires { self.old ≡ [] }
        ensures received { IsReceived result BLOCK }
        ensures filled { IsFilled result self.new }
    {
        self.start = 0;
        self.end = 0;
        let receipt = receive(stream, self.bytes.as_mut_slice());
        if let Receipt::Bytes(count) = receipt {
            self.end = count;
        }
        receipt
    }

    /// Drops all.
    fn clear(&mut self)
        ensures { self.new ≡ [] }
    {
        self.start = 0;
        self.end = 0;
    }
}

/// The room to read ahead that no feed has now. All of it is made at the start. A feed has some from its first read on,
/// so that one that is turned away unread costs none.
#[derive(Drop)]
pub struct AheadPool {
    free: Vec<ReadAhead>,
    ghost empty: { All (λ ahead. ahead ≡ []) free.items },
}

impl AheadPool {
    pub fn new(alloc: Global) -> Result<AheadPool, AllocError> {
        let mut free = Vec::with_capacity(alloc, FEEDS)?;
        'feeds: for _ in 0..FEEDS {
            free.push(ReadAhead::new(alloc)?)?;
        }
        Ok(AheadPool { free })
    }

    /// Room to read ahead, with nothing in it; none while sixteen feeds have some.
    pub fn lend(&mut self) -> Option<ReadAhead>
        ensures { IfSome result (λ ahead. ahead ≡ []) }
    {
        self.free.pop()
    }

    /// A feed is over, and what was read ahead of it is dropped.
    pub fn take_back(&mut self, mut ahead: ReadAhead) {
        ahead.clear();
        // There is room for all that were lent.
        let _ = self.free.push(ahead);
    }
}
