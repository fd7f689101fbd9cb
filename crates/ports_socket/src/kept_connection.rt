//! A connection where it is kept.
ghost use Rattle.std.specs.Prelude.{◌≡◌, ◌↔◌, IsTrue, true};

use crate::connection::Connection;

/// A connection where it is kept, from its join until its last bytes have gone.
#[derive(Drop)]
pub struct KeptConnection {
    pub connection: Connection,
    /// The loop has not shut it.
    pub is_open: bool,
    /// Its peer was told the end. That is done once: each time would be an event again.
    pub is_told: bool,
}

impl KeptConnection {
    /// A connection that joins.
    pub fn new(connection: Connection) -> KeptConnection
        ensures connection { result.connection ≡ connection }
        ensures open { result.is_open ≡ true }
    {
        KeptConnection {
            connection,
            is_open: true,
            is_told: false,
        }
    }

    /// Whether this is the open connection with a number.
    pub fn is_port(&self, number: u64) -> bool
        ensures { IsTrue result ↔ ((self.now.is_open ≡ true) × (self.now.connection.number ≡ number)) }
    {
        self.is_open && self.connection.number == number
    }
}
