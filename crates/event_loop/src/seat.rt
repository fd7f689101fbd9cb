//! Ports that are open, and whose they are.
ghost use Rattle.std.specs.Prelude.{◌≡◌, [], true, IfOk};
ghost use Rattle.event_loop.specs.Hearing.{is_client, is_of, joining};

use feeder::FeedCutter;
use server_core::Client;
use std::alloc::{AllocError, Global};
use std::marker::Model;

/// The bytes of a feed's unfinished record. They are kept apart from the feed's seat, so that a client's seat, of which
/// there may be thousands, has no room for them. In a contract it is these bytes.
#[derive(Drop)]
pub struct FeedRest {
    pub cutter: Box<FeedCutter>,
}

impl Model for FeedRest {
    ghost use Rattle.std.specs.Prelude.{ℕ, List};

    ghost Value = { List ℕ };

    ghost view = { λ r. r.cutter.value };
}

impl FeedRest {
    /// No byte. Only memory can lack.
    pub fn new(alloc: Global) -> Result<FeedRest, AllocError>
        ensures { IfOk result (λ rest. rest ≡ []) }
    {
        let cutter = Box::new(alloc, FeedCutter::new())?;
        Ok(FeedRest { cutter })
    }
}

/// Whose a port is.
#[derive(Drop)]
pub enum Role {
    /// A client's.
    Client(Client),
    /// A feed's, with the bytes of its unfinished record.
    Feed(FeedRest),
}

impl Role {
    /// Whether the port is a client's.
    pub fn is_client(&self) -> bool
        ensures { result ≡ is_client self.now }
    {
        match self {
            Role::Client(_) => true,
            Role::Feed(_) => false,
        }
    }

    /// Whether the port is that of the client with a number.
    pub fn is_of(&self, number: usize) -> bool
        ensures { result ≡ is_of number self.now }
    {
        if let Role::Client(client) = self {
            return client.number() == number;
        }
        false
    }
}

/// A port that is open.
#[derive(Drop)]
pub struct Seat {
    pub port: u64,
    pub role: Role,
    /// It may be read: it was told so, and no read was answered Later since.
    pub readable: bool,
    /// It may be written to: it was told so, and no write was answered Later since.
    pub writable: bool,
}

impl Seat {
    /// The seat of a port that has just joined: it may be read and written to.
    pub fn joining(port: u64, role: Role) -> Seat
        ensures { result ≡ joining port role }
    {
        Seat {
            port,
            role,
            readable: true,
            writable: true,
        }
    }
}
