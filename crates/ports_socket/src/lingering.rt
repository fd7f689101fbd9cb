//! Connections that the loop has shut, and that stay until their last bytes have gone to the peer.
//!
//! A connection that is closed with bytes unread would make the system drop what is on its way to the peer. So a shut
//! port that took bytes lingers: its last bytes are sent, the peer is told the end, and what it still sends is passed
//! over until it ends too. At most 1,024 linger; the oldest goes first, also if the system has no descriptor for a new
//! connection.
ghost use Rattle.std.specs.Prelude.{◌≡◌, ◌==◌, ◌∷◌, ◌++◌, [], IfNone, IfOk, IfSome, length, not};
ghost use Rattle.std.specs.List.{filter};

use crate::ahead::AheadPool;
use crate::connection::Connection;
use crate::kept_connection::KeptConnection;
use crate::pool::BufferPool;
use crate::socket_io::{Receipt, receive};
use std::alloc::{AllocError, Global};
use std::marker::Model;
use std::net::Shutdown;

/// How many connections linger at most; beyond that the oldest is dropped.
const MOST: usize = 1_024;

/// How many blocks of a peer that goes on sending are passed over.
const BLOCKS: u8 = 16;

impl KeptConnection {
    /// The loop has shut it. Its room to read ahead is given back. Whether it has something to wait for: one that took
    /// no bytes has nothing.
    pub fn end(&mut self, pool: &mut BufferPool, aheads: &mut AheadPool) -> bool
        ensures { self.new.is_open ≡ self.old.is_open }
    {
        if let Some(ahead) = self.connection.take_ahead() {
            aheads.take_back(ahead);
        }
        self.connection.has_taken() && self.lingers(pool)
    }

    /// An event came of it once it was shut: the system may take bytes again. Whether it still has something to wait
    /// for.
    pub fn go_on(&mut self, is_writable: bool, pool: &mut BufferPool) -> bool
        ensures { self.new.is_open ≡ self.old.is_open }
    {
        if is_writable {
            let _ = self.connection.resume(pool);
        }
        self.lingers(pool)
    }

    /// Whether a connection that was shut still has something to wait for. Once all is sent the peer is told the end,
    /// and what it sends is passed over: a connection that is closed with bytes unread would lose those that are on
    /// their way to the peer.
    fn lingers(&mut self, pool: &mut BufferPool) -> bool
        ensures { self.new.is_open ≡ self.old.is_open }
    {
        let _ = self.connection.flush(pool);
        if self.connection.has_failed() {
            return false;
        }
        if self.connection.unsent_count() > 0 {
            return true;
        }
        self.tells_the_end() && goes_on(&self.connection)
    }

    /// Tells the peer the end, where that was not done yet. Whether it has been told.
    fn tells_the_end(&mut self) -> bool
        ensures { self.new.is_open ≡ self.old.is_open }
    {
        if !self.is_told {
            self.is_told = self.connection.stream.shutdown(Shutdown::Write).is_ok();
        }
        self.is_told
    }
}

/// Whether the peer has not ended yet. One that goes on sending is not waited for.
fn goes_on(connection: &Connection) -> bool {
    let mut block = [0u8; 4_096];
    for _ in 0..BLOCKS {
        match receive(&connection.stream, &mut block) {
            Receipt::Bytes(_) => {}
            Receipt::WouldBlock => return true,
            Receipt::Closed => return false,
            Receipt::Failed => return false,
        }
    }
    false
}

/// The keys of the connections that linger, in the order in which they were shut. There is room for as many as linger
/// at most.
#[derive(Drop)]
pub struct Lingering {
    keys: Vec<usize>,
}

impl Model for Lingering {
    ghost use Rattle.std.specs.Prelude.{ℕ, ◌≤◌, List, length};
    ghost use Rattle.std.specs.Vec.{vec_capacity};

    ghost Value = { List ℕ };

    ghost view = { λ l. l.keys.items };

    ghost invariant = { λ l. (1024 ≤ vec_capacity l.keys) × (length l.keys.items ≤ 1024) };
}

impl Lingering {
    /// None yet. It fails only for want of memory.
    pub fn new(alloc: Global) -> Result<Lingering, AllocError>
        ensures { IfOk result (λ lingering. lingering ≡ []) }
    {
        let keys = Vec::with_capacity(alloc, MOST)?;
        Ok(Lingering { keys })
    }

    /// One more lingers. If as many do as may, the oldest does no more, and is answered.
    pub fn add(&mut self, key: usize) -> Option<usize>
        ensures none { IfNone result (self.new ≡ self.old ++ key ∷ []) }
        ensures oldest { IfSome result (λ oldest. oldest ∷ self.new ≡ self.old ++ key ∷ []) }
        ensures full { IfSome result (λ oldest. length self.old ≡ 1024) }
    {
        if self.keys.len() < MOST {
            self.keys.push_reserved(key);
            return None;
        }
        let oldest = self.keys.remove(0);
        self.keys.push_reserved(key);
        Some(oldest)
    }

    /// The oldest, which lingers no more.
    pub fn take_oldest(&mut self) -> Option<usize>
        ensures none { IfNone result ((self.old ≡ []) × (self.new ≡ [])) }
        ensures oldest { IfSome result (λ oldest. oldest ∷ self.new ≡ self.old) }
    {
        if self.keys.is_empty() {
            return None;
        }
        Some(self.keys.remove(0))
    }

    /// One lingers no more.
    pub fn remove(&mut self, key: usize)
        ensures { self.new ≡ filter (λ other. not (other == key)) self.old }
    {
        self.keys.retain(|other| *other != key);
    }
}
