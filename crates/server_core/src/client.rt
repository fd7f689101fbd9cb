//! Clients by their numbers, and why one is not answered.
ghost use Rattle.std.specs.Prelude.{◌≡◌, codes};
ghost use Rattle.server_core.specs.Refusals.{refusal_reason};

use protocol::reason::Reason;
use std::marker::Model;

/// A client of a server: how many opened before it. No server gives a number twice, and one that closed has it for
/// good. Contracts see the number alone. Beside it stands the slot in which the client's session should be, so that a
/// call compares one number and searches for none. A client whose slot is another one's by now is found by its number.
#[derive(Drop)]
pub struct Client {
    number: usize,
    slot: usize,
}

impl Model for Client {
    ghost use Rattle.std.specs.Prelude.{ℕ};

    ghost Value = { ℕ };

    ghost view = { λ c. c.number };
}

impl Client {
    /// The client with a number, whose session should be in a slot.
    pub(crate) fn new(number: usize, slot: usize) -> Client
        ensures { result ≡ number }
    {
        Client { number, slot }
    }

    /// The client with a number. Its slot is a guess: clients are in slots by their numbers until the first one closes.
    pub(crate) fn numbered(number: usize) -> Client
        ensures { result ≡ number }
    {
        Client::new(number, number)
    }

    /// The same client.
    pub fn same(&self) -> Client
        ensures { result ≡ self.now }
    {
        Client::new(self.number, self.slot)
    }

    /// Its number.
    pub fn number(&self) -> usize
        ensures { result ≡ self.now }
    {
        self.number
    }

    /// The slot in which its session should be.
    pub(crate) fn slot(&self) -> usize {
        self.slot
    }
}

/// What an offer finds.
#[derive(Clone, Copy, PartialEq, Eq)]
pub enum Offer {
    /// Bytes wait to be handed.
    Bytes,
    /// Nothing waits, and the connection is over.
    Ended,
    /// Nothing waits, and nothing can wait now.
    Idle,
}

/// No open client of this server has the number.
#[derive(Clone, Copy, Debug, PartialEq, Eq, Drop)]
pub struct Gone;

impl Gone {
    /// The reason by which the program reports it: 30 Gone.
    pub fn reason(self) -> Reason
        ensures { result ≡ Reason.Gone }
    {
        Reason::Gone
    }
}

/// What a fill did.
#[derive(Clone, Copy)]
pub struct Filled {
    /// How many packets it handed.
    pub count: usize,
    /// What the offer after them found.
    pub found: Result<Offer, Gone>,
}

/// Why bytes of a client are not taken. Then nothing changes.
#[derive(Clone, Copy, Debug, PartialEq, Eq, Drop)]
pub enum ReceiveRefusal {
    /// No open client of this server has the number.
    Gone,
    /// There are more bytes than there is room for: 1,024 less the unread ones.
    NoRoom,
}

impl ReceiveRefusal {
    /// The reason by which the program reports it: 30 or 31.
    pub fn reason(self) -> Reason
        ensures { result ≡ refusal_reason self }
    {
        match self {
            ReceiveRefusal::Gone => Reason::Gone,
            ReceiveRefusal::NoRoom => Reason::NoRoom,
        }
    }
}

/// A new configuration differs from the one in force in more than who may use which station. Then nothing changes.
#[derive(Clone, Copy, Drop)]
pub struct ReloadFault;

impl ReloadFault {
    /// The reason by which the program reports it: 34 Different.
    pub fn reason(self) -> Reason
        ensures { result ≡ Reason.Different }
    {
        Reason::Different
    }
}
