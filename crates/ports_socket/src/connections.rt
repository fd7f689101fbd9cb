//! The connections, each under a key of its own, and the open ones among them by their numbers.
//!
//! A connection is found once in a port's turn, by halving over the numbers of the open ones, and then by its key: a
//! pass writes up to 64 packets to one port, and among 5,000 connections a halving has thirteen steps. Connections
//! stand in a slab, so that none is moved when another ends. A new one is registered only once no event of the last
//! poll is left: so none of these can reach it by a key that a closed connection had.
ghost use Rattle.std.specs.Prelude.{◌≡◌, ◌-◌, ◌<◌, ◌≤◌, ◌++◌, ◌∷◌, [], IfNone, IfOk, IfSome, None, Ok, length, take};
ghost use Rattle.std.specs.Prelude.{true};
ghost use Rattle.std.specs.Bool.{OnFalse, OnTrue};
ghost use Rattle.std.specs.List.{Contains};
ghost use Rattle.std.specs.Vec.{vec_capacity};
ghost use Rattle.slab.specs.Slab.{Updates, get};
ghost use Rattle.ports.specs.Calls.{IsGiven, IsTaken};
ghost use Rattle.ports.specs.declared.answers.Put.TheVariants.{Took};
ghost use Rattle.ports_socket.specs.Connections.{OnlySends, ReadsFrom, WritesTo, all_but, numbers, room_at, sockets_of};
ghost use Rattle.ports_socket.specs.Connections.{value_of};
ghost use Rattle.ports_socket.specs.Places.{AreBelow, AreOthers, IsPlaceOf, Rise, closed_from, numbers_of};
ghost use Rattle.ports_socket.specs.Reads.{given_bytes};

use crate::ahead::AheadPool;
use crate::connection::Connection;
use crate::kept_connection::KeptConnection;
use crate::lingering::Lingering;
use crate::pool::BufferPool;
use crate::readiness::{PortNews, Readiness};
use ports::{Got, PortFault, Put};
use slab::Slab;
use std::alloc::{AllocError, Global};
use std::marker::Model;

/// Where a connection is found: its number, and the key under which it is kept.
#[derive(Clone, Copy, Drop)]
pub struct ConnectionPlace {
    pub number: u64,
    pub key: usize,
}

/// The connections that are kept: the open ones, each with a number of its own, and those that linger. In a contract
/// they are what each open one holds, by rising number.
#[derive(Drop)]
pub struct Connections {
    slots: Slab<KeptConnection>,
    /// The open ones, by rising number.
    opened: Vec<ConnectionPlace>,
    lingering: Lingering,
}

impl Model for Connections {
    ghost use Rattle.std.specs.Prelude.{List};
    ghost use Rattle.ports_socket.specs.Connections.{ConnectionValue, values};
    ghost use Rattle.ports_socket.specs.Places.{IsTable, connections_at};

    ghost Value = { List ConnectionValue };

    ghost view = { λ c. values (connections_at c.slots c.opened.items) };

    ghost invariant = { λ c. IsTable c.slots c.opened.items };
}

/// Which of the open connections has a number, by halving.
fn place_of(places: &[ConnectionPlace], number: u64) -> Option<usize>
    requires { Rise (numbers_of places.now) }
    ensures found { IfSome result (IsPlaceOf number (numbers_of places.now)) }
    ensures absent { IfNone result (AreOthers number (numbers_of places.now)) }
{
    match places.binary_search_by_key(&number, |place| place.number) {
        Ok(at) => Some(at),
        Err(_) => None,
    }
}

/// Whether a number is above those of all open connections.
fn is_above(number: u64, places: &[ConnectionPlace]) -> bool
    requires { Rise (numbers_of places.now) }
    ensures { result ≡ true → AreBelow number (numbers_of places.now) }
{
    match places.last() {
        Some(last) => last.number < number,
        None => true,
    }
}

/// What is kept under a key goes.
fn free(slots: &mut Slab<KeptConnection>, key: usize)
    ensures { Updates slots.old slots.new key None }
{
    let _gone = slots.try_remove(key);
}

/// What is kept under a key is not open any more.
fn close(slots: &mut Slab<KeptConnection>, key: usize)
    ensures { Updates slots.old slots.new key (closed_from (get slots.old key)) }
{
    if let Some(held) = slots.get_mut(key) {
        held.is_open = false;
    }
}

impl Connections {
    /// None are open. It fails only for want of memory.
    pub fn new(alloc: Global) -> Result<Connections, AllocError>
        ensures { IfOk result (λ connections. connections ≡ []) }
    {
        let lingering = Lingering::new(alloc)?;
        Ok(Connections {
            slots: Slab::new(alloc),
            opened: Vec::new(alloc),
            lingering,
        })
    }

    /// How many are open.
    pub fn len(&self) -> usize
        ensures { result ≡ length self.now }
    {
        self.opened.len()
    }

    /// The key that the next connection will have. No other is kept under it.
    pub fn next_key(&self) -> usize {
        self.slots.vacant_key()
    }

    /// Where the open connection with a number is.
    pub fn find(&self, number: u64) -> Option<ConnectionPlace>
        ensures number { IfSome result (λ place. place.number ≡ number) }
        ensures open { IfSome result (λ place. Contains (numbers self.now) number) }
        ensures absent { IfNone result (all_but number self.now ≡ self.now) }
    {
        let at = place_of(self.opened.as_slice(), number)?;
        Some(self.opened[at])
    }

    /// Whether the connection at a place is open.
    pub fn contains(&self, place: ConnectionPlace) -> bool
        ensures { result ≡ true → Contains (numbers self.now) place.number }
    {
        match self.slots.get(place.key) {
            Some(held) => held.is_port(place.number),
            None => false,
        }
    }

    /// Adds a connection under the next key, if its number is above those of all others, and if there is memory for it.
    /// Whether that is done.
    pub fn push(&mut self, connection: Connection) -> bool
        ensures added { OnTrue result (self.new ≡ self.old ++ value_of connection ∷ []) }
        ensures refused { OnFalse result (self.new ≡ self.old) }
    {
        let number = connection.number;
        if !is_above(number, self.opened.as_slice()) {
            return false;
        }
        if self.opened.reserve(1).is_err() || self.slots.reserve(1).is_err() {
            return false;
        }
        let key = self.slots.insert_reserved(KeptConnection::new(connection));
        self.opened.push_reserved(ConnectionPlace { number, key });
        true
    }

    /// Drops the last one.
    pub fn pop(&mut self)
        ensures { self.new ≡ take (length self.old - 1) self.old }
    {
        let Some(place) = self.opened.pop() else {
            return;
        };
        free(&mut self.slots, place.key);
    }

    /// Ends the connection with a number. It lingers, if it took bytes, until the last of them have gone.
    pub fn shut(&mut self, number: u64, pool: &mut BufferPool, aheads: &mut AheadPool)
        ensures { self.new ≡ all_but number self.old }
    {
        if let Some(key) = self.leave(number) {
            self.linger(key, pool, aheads);
        }
    }

    /// The connection with a number is not open any more. The key under which it is kept.
    fn leave(&mut self, number: u64) -> Option<usize>
        ensures { self.new ≡ all_but number self.old }
    {
        let at = place_of(self.opened.as_slice(), number)?;
        let key = self.opened.remove(at).key;
        close(&mut self.slots, key);
        Some(key)
    }

    /// A connection that was shut lingers from now on, if it has something to wait for. Its room to read ahead is given
    /// back.
    fn linger(&mut self, key: usize, pool: &mut BufferPool, aheads: &mut AheadPool)
        ensures { self.new ≡ self.old }
    {
        let Some(held) = self.slots.get_mut(key) else {
            return;
        };
        if held.is_open {
            return;
        }
        if !held.end(pool, aheads) {
            self.drop_shut(key);
            return;
        }
        if let Some(oldest) = self.lingering.add(key) {
            self.drop_shut(oldest);
        }
    }

    /// Drops a connection that was shut.
    fn drop_shut(&mut self, key: usize)
        ensures { self.new ≡ self.old }
    {
        let Some(held) = self.slots.get(key) else {
            return;
        };
        if held.is_open {
            return;
        }
        free(&mut self.slots, key);
    }

    /// Drops the connection that lingers longest, so that its descriptor is free.
    pub fn drop_oldest(&mut self)
        ensures { self.new ≡ self.old }
    {
        if let Some(oldest) = self.lingering.take_oldest() {
            self.drop_shut(oldest);
        }
    }

    /// Reads from the connection at a place, after so many polls. One that is not open is over.
    pub fn read(
        &mut self,
        place: ConnectionPlace,
        buffer: &mut [u8],
        polls: u64,
        aheads: &mut AheadPool,
    ) -> Result<Got, PortFault>
        requires { 0 < length buffer.old }
        ensures bound { IsGiven result (length buffer.new) }
        ensures reads { ReadsFrom place.number result (given_bytes result buffer.new) self.old self.new }
        ensures sockets { sockets_of self.new ≡ sockets_of self.old }
    {
        let Some(held) = self.slots.get_mut(place.key) else {
            return Ok(Got::Closed);
        };
        if !held.is_port(place.number) {
            return Ok(Got::Closed);
        }
        held.connection.read(buffer, polls, aheads)
    }

    /// Has the connection at a place take bytes, after so many polls. One that is not open takes none.
    pub fn write(
        &mut self,
        place: ConnectionPlace,
        bytes: &[u8],
        polls: u64,
        pool: &mut BufferPool,
    ) -> Result<Put, PortFault>
        ensures bound { IsTaken result (length bytes.now) }
        ensures writes { WritesTo place.number bytes.now result self.old self.new }
        ensures sockets { sockets_of self.new ≡ sockets_of self.old }
    {
        let Some(held) = self.slots.get_mut(place.key) else {
            return Ok(Put::Later);
        };
        if !held.is_port(place.number) {
            return Ok(Put::Later);
        }
        held.connection.write(bytes, polls, pool)
    }

    /// Makes room for bytes at the connection at a place, and says for how many there is some. One that is not open has
    /// none.
    pub fn make_room(&mut self, place: ConnectionPlace, most: usize, pool: &mut BufferPool) -> usize
        ensures room { result ≤ room_at place.number self.new }
        ensures most { result ≤ most }
        ensures sends { OnlySends self.old self.new }
        ensures sockets { sockets_of self.new ≡ sockets_of self.old }
    {
        let Some(held) = self.slots.get_mut(place.key) else {
            return 0;
        };
        if !held.is_port(place.number) {
            return 0;
        }
        held.connection.reserve(most, pool)
    }

    /// Has the open connection with a number take all of some bytes, for which it has room, after so many polls.
    pub fn take_all(&mut self, number: u64, bytes: &mut Vec<u8>, polls: u64)
        requires some { 0 < length bytes.old.items }
        requires room { length bytes.old.items ≤ room_at number self.old }
        ensures writes { WritesTo number bytes.old.items (Ok (Took (length bytes.old.items))) self.old self.new }
        ensures capacity { vec_capacity bytes.old ≤ vec_capacity bytes.new }
        ensures sockets { sockets_of self.new ≡ sockets_of self.old }
    {
        let Some(at) = place_of(self.opened.as_slice(), number) else {
            return;
        };
        let key = self.opened[at].key;
        let Some(held) = self.slots.get_mut(key) else {
            return;
        };
        held.connection.take_all(bytes, polls);
    }

    /// Sends what waits at the connection at a place, as far as the system takes it. If that fails, the next read or
    /// write tells it.
    pub fn flush(&mut self, place: ConnectionPlace, pool: &mut BufferPool)
        ensures sends { OnlySends self.old self.new }
        ensures sockets { sockets_of self.new ≡ sockets_of self.old }
    {
        let Some(held) = self.slots.get_mut(place.key) else {
            return;
        };
        if !held.is_port(place.number) {
            return;
        }
        let _ = held.connection.flush(pool);
    }

    /// Notes what happened to the connection under a key, after so many polls: where it is, if it is open, and what is
    /// to be told of it.
    pub fn mark(
        &mut self,
        key: usize,
        event: Readiness,
        polls: u64,
        pool: &mut BufferPool,
    ) -> Option<(ConnectionPlace, PortNews)>
        ensures open { IfSome result (λ told. Contains (numbers self.new) told.0.number) }
        ensures sends { OnlySends self.old self.new }
        ensures sockets { sockets_of self.new ≡ sockets_of self.old }
    {
        let held = self.slots.get_mut(key)?;
        if !held.is_open {
            self.go_on(key, event.is_writable, pool);
            return None;
        }
        let number = held.connection.number;
        let told = held.connection.mark(event, polls, pool);
        Some((ConnectionPlace { number, key }, told))
    }

    /// An event came of a connection that was shut. The system may take bytes again.
    fn go_on(&mut self, key: usize, is_writable: bool, pool: &mut BufferPool)
        ensures { self.new ≡ self.old }
    {
        let Some(held) = self.slots.get_mut(key) else {
            return;
        };
        if held.is_open {
            return;
        }
        if held.go_on(is_writable, pool) {
            return;
        }
        self.lingering.remove(key);
        self.drop_shut(key);
    }

    /// Whether the connection at a place is to be listed: there may be more to be read after the next poll though no
    /// event comes, and it is not listed yet.
    pub fn is_due(&self, place: ConnectionPlace, polls: u64) -> bool {
        match self.slots.get(place.key) {
            Some(held) => {
                held.is_port(place.number)
                    && !held.connection.is_listed()
                    && held.connection.is_due(polls)
            }
            None => false,
        }
    }

    /// Notes whether the connection at a place is listed. Whether it is open.
    pub fn set_listed(&mut self, place: ConnectionPlace, is_listed: bool) -> bool
        ensures open { result ≡ true → Contains (numbers self.new) place.number }
        ensures same { self.new ≡ self.old }
    {
        let Some(held) = self.slots.get_mut(place.key) else {
            return false;
        };
        if !held.is_port(place.number) {
            return false;
        }
        held.connection.set_listed(is_listed);
        true
    }

    /// How many bytes they have not sent, those that linger with them.
    pub fn unsent_count(&self) -> usize {
        let mut count = 0usize;
        for (_, held) in self.slots.iter() {
            count = count.saturating_add(held.connection.unsent_count());
        }
        count
    }
}
