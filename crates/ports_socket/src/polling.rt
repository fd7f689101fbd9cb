//! What the system says happened at the sockets, and which ports are told though it says nothing.
//!
//! After a turn in which bytes were handed on, the next poll does not wait, although mostly nothing is left to do. The
//! ports can't tell whether a pass ended because nothing more waited or because it had made its last write. Nor does
//! the system report again what it reported before, so a client whose bytes had no room could wait for 100 ms, with the
//! rest of them unread. The poll costs one system call for a lone record that all readers have.
ghost use Rattle.std.specs.Prelude.{◌≡◌, ◌+◌, ◌<◌, ◌^◌, [], IfNone, IfSome, length};

use crate::connections::ConnectionPlace;
use crate::fault::ListenError;
use crate::peer::PeerKind;
use mio::event::Event;
use mio::net::TcpStream;
use mio::{Events, Interest, Poll, Token};
use ports::PortFault;
use std::alloc::{AllocError, Global};
use std::collections::VecDeque;
use std::time::Duration;

/// How many events one poll gives at most.
pub const EVENTS: usize = 1_024;

/// The key above those of all ports.
pub const LAST: usize = (1 << 63) - 1;

/// What an event came of.
#[derive(Clone, Copy, Drop)]
pub enum Origin {
    Listener(PeerKind),
    /// The connection that is kept under a key.
    Port(usize),
}

/// The token under which the connection at a key is registered. The sockets that are listened on have those of the last
/// key.
pub fn token_of(key: usize, kind: PeerKind) -> Token
    requires { key < 2 ^ 63 }
{
    match kind {
        PeerKind::Client => Token(key * 2),
        PeerKind::Feed => Token(key * 2 + 1),
    }
}

/// Of whom a token is.
pub fn kind_of(token: Token) -> PeerKind {
    if token.0 % 2 == 0 {
        PeerKind::Client
    } else {
        PeerKind::Feed
    }
}

/// What a token is of.
pub fn origin_of(token: Token) -> Origin {
    let key = token.0 / 2;
    if key == LAST {
        Origin::Listener(kind_of(token))
    } else {
        Origin::Port(key)
    }
}

/// The system's reports of what happened.
#[derive(Drop)]
pub struct Polling {
    poll: Poll,
    events: Events,
    /// The events of the last poll that were not answered yet. There is room for all events of a poll.
    pub happened: Vec<Event>,
}

impl Polling {
    pub fn new(rt: &HostRuntime, alloc: Global) -> Result<Polling, ListenError> {
        let events = Events::with_capacity(alloc, EVENTS).map_err(|_| ListenError::OutOfMemory)?;
        let happened = Vec::with_capacity(alloc, EVENTS).map_err(|_| ListenError::OutOfMemory)?;
        let poll = Poll::new(rt).map_err(ListenError::Clients)?;
        Ok(Polling {
            poll,
            events,
            happened,
        })
    }

    /// Where sockets are registered that are listened on.
    pub fn poll(&self) -> &Poll {
        &self.poll
    }

    /// Has the system report when a connection can be read or written to. Whether it will. All events of the last poll
    /// are answered by then, so that none is left of a connection that had the token before.
    pub fn watch(&self, stream: &mut TcpStream, token: Token) -> bool
        requires { self.now.happened.items ≡ [] }
    {
        let both = Interest::READABLE | Interest::WRITABLE;
        self.poll.registry().register(stream, token, both).is_ok()
    }

    /// Asks the system what happened, and waits for something at most so many milliseconds.
    pub fn ask(&mut self, wait: u64) -> Result<(), PortFault> {
        self.happened.clear();
        let wait = Some(Duration::from_millis(wait));
        if self.poll.poll(&mut self.events, wait).is_err() {
            return Err(PortFault);
        }
        // The last are answered first.
        self.keep_events(PeerKind::Client);
        self.keep_events(PeerKind::Feed);
        Ok(())
    }

    /// Keeps the events of clients, or those of feeds.
    fn keep_events(&mut self, kind: PeerKind) {
        for event in self.events.iter() {
            if kind_of(event.token()) == kind {
                let _ = self.happened.push(*event);
            }
        }
    }

    /// The next event that was not answered yet. Those of feeds come first.
    pub fn next(&mut self) -> Option<Event>
        ensures none { IfNone result (self.new.happened.items ≡ []) }
        ensures less { IfSome result (λ event. length self.new.happened.items + 1 ≡ length self.old.happened.items) }
    {
        self.happened.pop()
    }
}

/// Ports that are told after the next poll, in the order in which they were added.
#[derive(Drop)]
pub struct ToldPorts {
    places: VecDeque<ConnectionPlace>,
    /// How many of the first are told before the next poll: they were added before the last one.
    due: usize,
}

impl ToldPorts {
    pub fn new(alloc: Global) -> ToldPorts {
        ToldPorts {
            places: VecDeque::new(alloc),
            due: 0,
        }
    }

    /// Makes room for so many ports beside those that are here. If that is done for all ports that are open as each of
    /// them joins, there is room whenever one is added.
    pub fn reserve(&mut self, ports: usize) -> Result<(), AllocError> {
        self.places.reserve(ports)
    }

    /// Adds a port. Whether there was room.
    pub fn add(&mut self, place: ConnectionPlace) -> bool {
        self.places.push_back(place).is_ok()
    }

    /// Nothing is added, and no port that was is told.
    pub fn is_empty(&self) -> bool {
        self.places.is_empty()
    }

    /// A poll was made: all that were added are told before the next one.
    pub fn begin(&mut self) {
        self.due = self.places.len();
    }

    /// The next port that is told before the next poll.
    pub fn next(&mut self) -> Option<ConnectionPlace> {
        if self.due == 0 {
            return None;
        }
        self.due -= 1;
        self.places.pop_front()
    }

    /// Forgets all.
    pub fn clear(&mut self) {
        self.places.clear();
        self.due = 0;
    }

    /// How many are told before the next poll.
    pub fn due(&self) -> usize {
        self.due
    }
}
