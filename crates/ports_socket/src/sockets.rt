//! Connections by numbers that are never used again, and what happens to them.
ghost use Rattle.std.specs.Prelude.{◌≡◌, ◌<◌, ◌≤◌, [], IfNone, IfOk, IfSome, Ok, length, true};
ghost use Rattle.std.specs.List.{Contains};
ghost use Rattle.std.specs.Vec.{vec_capacity};
ghost use Rattle.ports.specs.Calls.{IsGiven, IsTaken};
ghost use Rattle.ports.specs.declared.answers.Put.TheVariants.{Took};
ghost use Rattle.ports_socket.specs.Connections.{KeepsSockets, OnlySends, ReadsFrom, WritesTo, all_but, numbers};
ghost use Rattle.ports_socket.specs.Connections.{room_at, sockets_of};
ghost use Rattle.ports_socket.specs.Departures.{HaveReasons, TellsAway};
ghost use Rattle.ports_socket.specs.Doors.{IsPolled, RationsJoins, joins_by};
ghost use Rattle.ports_socket.specs.Numbers.{TellsOpenPorts};
ghost use Rattle.ports_socket.specs.Peers.{Admits, without};
ghost use Rattle.ports_socket.specs.Reads.{given_bytes};

mod joining;

use crate::admission::Admission;
use crate::ahead::AheadPool;
use crate::connections::{ConnectionPlace, Connections};
use crate::departures::Departures;
use crate::fault::ListenError;
use crate::joins::Joins;
use crate::listeners::Listeners;
use crate::peers::Peers;
use crate::polling::{EVENTS, Origin, Polling, ToldPorts, origin_of};
use crate::pool::BufferPool;
use crate::readiness::{PortNews, Readiness};
use mio::event::Event;
use ports::{Got, Happening, PortFault, Put};
use std::alloc::{AllocError, Global};
use std::net::SocketAddrV4;

/// How long a poll waits, in milliseconds, if there is nothing to be done.
const WAIT: u64 = 100;

/// How many polls the last bytes are waited for at the end.
const LAST_POLLS: u8 = 50;

#[derive(Drop)]
pub struct Sockets {
    polling: Polling,
    /// How many polls were made.
    pub polls: u64,
    /// The events of the last poll are being answered.
    is_polled: bool,
    /// A port joined, or bytes went, since the last poll.
    is_busy: bool,
    listeners: Listeners,
    /// The ports that joined, and whose they are.
    pub peers: Peers,
    /// How many connections were taken since the last poll.
    pub joins: Joins,
    /// The open ports' connections, and those that linger.
    pub connections: Connections,
    pool: BufferPool,
    aheads: AheadPool,
    /// The port whose turn it is.
    turn: Option<ConnectionPlace>,
    /// It was given bytes that are sent when the next one has its turn.
    is_gathering: bool,
    /// The ports that are told readable though no event comes of them.
    listing: ToldPorts,
    /// A port that is to be told writable next.
    writable: Option<ConnectionPlace>,
}

/// Buffers for bytes that wait to be sent, and for those that are read ahead.
fn buffers(alloc: Global) -> Result<(BufferPool, AheadPool), AllocError> {
    let pool = BufferPool::new(alloc)?;
    let aheads = AheadPool::new(alloc)?;
    Ok((pool, aheads))
}

impl Sockets {
    pub fn listen(
        rt: &HostRuntime,
        alloc: Global,
        clients: SocketAddrV4,
        feeds: SocketAddrV4,
        admission: Admission,
    ) -> Result<Sockets, ListenError>
        ensures peers { IfOk result (λ sockets. sockets.peers
            ≡ record { admission = admission; joined = 0; opened = [] }) }
        ensures connections { IfOk result (λ sockets. sockets.connections ≡ []) }
    {
        let Ok((pool, aheads)) = buffers(alloc) else {
            return Err(ListenError::OutOfMemory);
        };
        let connections = Connections::new(alloc).map_err(|_| ListenError::OutOfMemory)?;
        let polling = Polling::new(rt, alloc)?;
        let listeners = Listeners::listen(rt, polling.poll(), clients, feeds)?;
        Ok(Sockets {
            polling,
            polls: 0,
            is_polled: false,
            is_busy: false,
            listeners,
            peers: Peers::new(alloc, admission),
            joins: Joins::new(),
            connections,
            pool,
            aheads,
            turn: None,
            is_gathering: false,
            listing: ToldPorts::new(alloc),
            writable: None,
        })
    }

    pub fn bound(&self) -> Result<(u16, u16), ListenError> {
        self.listeners.bound()
    }

    /// What happened next: the happenings of one poll one after the other, up to sixteen ports that join, and then
    /// Quiet. A poll waits at most 100 ms, and not at all if bytes went, a port joined or one is to be told since the
    /// last one. The connections that were turned away meanwhile are told.
    #[tactic(auto, using(crate::proofs::SocketLemmas::sends))]
    pub fn next(&mut self, away: &mut Departures) -> Result<Happening, PortFault>
        requires { away.old ≡ [] }
        ensures reasons { HaveReasons self.old.peers.admission self.old.peers.opened away.new }
        ensures all_told { TellsAway self.old.polls self.old.joins.away self.new.polls self.new.joins.away away.new }
        ensures numbers { TellsOpenPorts self.old.peers.joined self.new.peers.joined
            (numbers self.new.connections) result }
        ensures admits { Admits self.old.peers self.new.peers result }
        ensures rationed { RationsJoins self.old.polls self.old.joins.count self.new.polls self.new.joins.count result }
        ensures sends { OnlySends self.old.connections self.new.connections }
        ensures sockets { KeepsSockets result (sockets_of self.old.connections) (sockets_of self.new.connections) }
    {
        self.send_gathered();
        self.poll_if_due()?;
        if let Some(happening) = self.pending() {
            return Ok(happening);
        }
        if let Some(happening) = self.join(away) {
            return Ok(happening);
        }
        self.is_polled = false;
        Ok(Happening::Quiet)
    }

    /// Asks the system what happened, once all that it said before is answered.
    fn poll_if_due(&mut self) -> Result<(), PortFault>
        ensures peers { self.new.peers ≡ self.old.peers }
        ensures polls { IsPolled self.old.polls self.old.joins.count self.new.polls self.new.joins.count }
        ensures away { IsPolled self.old.polls self.old.joins.away self.new.polls self.new.joins.away }
        ensures connections { self.new.connections ≡ self.old.connections }
    {
        if self.is_polled {
            return Ok(());
        }
        self.poll()?;
        self.is_polled = true;
        Ok(())
    }

    /// Asks the system what happened.
    fn poll(&mut self) -> Result<(), PortFault>
        ensures peers { self.new.peers ≡ self.old.peers }
        ensures polls { IsPolled self.old.polls self.old.joins.count self.new.polls self.new.joins.count }
        ensures away { IsPolled self.old.polls self.old.joins.away self.new.polls self.new.joins.away }
        ensures connections { self.new.connections ≡ self.old.connections }
    {
        let Some(polls) = self.polls.checked_add(1) else {
            return Err(PortFault);
        };
        let wait = if self.is_busy || !self.listing.is_empty() {
            0
        } else {
            WAIT
        };
        self.polls = polls;
        self.joins = Joins::new();
        self.is_busy = false;
        self.listing.begin();
        self.polling.ask(wait)
    }

    /// What is still to be told of the last poll.
    #[tactic(auto, using(crate::proofs::SocketLemmas::sends))]
    fn pending(&mut self) -> Option<Happening>
        ensures some { IfSome result (λ h. TellsOpenPorts self.old.peers.joined self.new.peers.joined
            (numbers self.new.connections) (Ok h)) }
        ensures admits { IfSome result (λ h. Admits self.old.peers self.new.peers (Ok h)) }
        ensures none { IfNone result (self.new.peers ≡ self.old.peers) }
        ensures no_join { IfSome result (λ h. joins_by (Ok h) ≡ 0) }
        ensures polls { self.new.polls ≡ self.old.polls }
        ensures joins { self.new.joins ≡ self.old.joins }
        ensures sends { OnlySends self.old.connections self.new.connections }
        ensures sockets { sockets_of self.new.connections ≡ sockets_of self.old.connections }
        ensures told { IfNone result (self.new.polling.happened.items ≡ []) }
    {
        if let Some(place) = self.writable.take() {
            if self.connections.contains(place) {
                return Some(Happening::Writable(place.number));
            }
        }
        if let Some((place, told)) = self.next_told() {
            return Some(self.tell(place, told));
        }
        let place = self.next_due()?;
        Some(Happening::Readable(place.number))
    }

    /// Tells what an event says of an open port, whose turn it is from now on.
    fn tell(&mut self, place: ConnectionPlace, told: PortNews) -> Happening
        requires { Contains (numbers self.old.connections) place.number }
        ensures open { TellsOpenPorts self.old.peers.joined self.new.peers.joined
            (numbers self.new.connections) (Ok result) }
        ensures admits { Admits self.old.peers self.new.peers (Ok result) }
        ensures no_join { joins_by (Ok result) ≡ 0 }
        ensures polls { self.new.polls ≡ self.old.polls }
        ensures joins { self.new.joins ≡ self.old.joins }
        ensures connections { self.new.connections ≡ self.old.connections }
    {
        self.turn = Some(place);
        if !told.readable {
            return Happening::Writable(place.number);
        }
        if told.writable {
            self.writable = Some(place);
        }
        Happening::Readable(place.number)
    }

    /// The next port of which an event tells something.
    #[tactic(auto, using(crate::proofs::SocketLemmas::sends))]
    fn next_told(&mut self) -> Option<(ConnectionPlace, PortNews)>
        ensures open { IfSome result (λ told. Contains (numbers self.new.connections) told.0.number) }
        ensures none { IfNone result (self.new.polling.happened.items ≡ []) }
        ensures peers { self.new.peers ≡ self.old.peers }
        ensures polls { self.new.polls ≡ self.old.polls }
        ensures joins { self.new.joins ≡ self.old.joins }
        ensures sends { OnlySends self.old.connections self.new.connections }
        ensures sockets { sockets_of self.new.connections ≡ sockets_of self.old.connections }
    {
        'events: while let Some(event) = self.polling.next() {
            match origin_of(event.token()) {
                Origin::Listener(kind) => self.listeners.mark(kind),
                Origin::Port(key) => {
                    if let Some(told) = self.mark(key, event) {
                        return Some(told);
                    }
                }
            }
        }
        None
    }

    /// An event of the connection under a key came. Where that is, if something is to be told of it.
    #[tactic(auto, using(crate::proofs::SocketLemmas::sends))]
    fn mark(&mut self, key: usize, event: Event) -> Option<(ConnectionPlace, PortNews)>
        ensures open { IfSome result (λ told. Contains (numbers self.new.connections) told.0.number) }
        ensures polling { self.new.polling ≡ self.old.polling }
        ensures peers { self.new.peers ≡ self.old.peers }
        ensures polls { self.new.polls ≡ self.old.polls }
        ensures joins { self.new.joins ≡ self.old.joins }
        ensures sends { OnlySends self.old.connections self.new.connections }
        ensures sockets { sockets_of self.new.connections ≡ sockets_of self.old.connections }
    {
        let readiness = Readiness {
            is_readable: event.is_readable(),
            is_over: event.is_read_closed() || event.is_error(),
            is_writable: event.is_writable(),
        };
        let (place, told) = self
            .connections
            .mark(key, readiness, self.polls, &mut self.pool)?;
        if told.readable || told.writable {
            Some((place, told))
        } else {
            None
        }
    }

    /// The next port that is told though no event came of it.
    fn next_due(&mut self) -> Option<ConnectionPlace>
        ensures open { IfSome result (λ place. Contains (numbers self.new.connections) place.number) }
        ensures polling { self.new.polling ≡ self.old.polling }
        ensures peers { self.new.peers ≡ self.old.peers }
        ensures polls { self.new.polls ≡ self.old.polls }
        ensures joins { self.new.joins ≡ self.old.joins }
        ensures connections { self.new.connections ≡ self.old.connections }
    {
        'due: for _ in 0..self.listing.due() {
            let place = self.listing.next()?;
            // It may be listed again.
            if self.connections.set_listed(place, false) {
                return Some(place);
            }
        }
        None
    }

    /// Where a port's connection is. Its turn begins, and what another one gathered is sent.
    #[tactic(auto, using(crate::proofs::SocketLemmas::sends))]
    fn turn_to(&mut self, port: u64) -> Option<ConnectionPlace>
        ensures number { IfSome result (λ place. place.number ≡ port) }
        ensures peers { self.new.peers ≡ self.old.peers }
        ensures polls { self.new.polls ≡ self.old.polls }
        ensures sends { OnlySends self.old.connections self.new.connections }
        ensures sockets { sockets_of self.new.connections ≡ sockets_of self.old.connections }
    {
        match self.turn {
            Some(turn) if turn.number == port => Some(turn),
            _ => {
                self.send_gathered();
                self.turn = self.connections.find(port);
                self.turn
            }
        }
    }

    /// Sends what the last port took. If that fails, the port is told.
    #[tactic(auto, using(crate::proofs::SocketLemmas::sends))]
    fn send_gathered(&mut self)
        ensures peers { self.new.peers ≡ self.old.peers }
        ensures polls { self.new.polls ≡ self.old.polls }
        ensures joins { self.new.joins ≡ self.old.joins }
        ensures sends { OnlySends self.old.connections self.new.connections }
        ensures sockets { sockets_of self.new.connections ≡ sockets_of self.old.connections }
    {
        if !self.is_gathering {
            return;
        }
        self.is_gathering = false;
        let Some(place) = self.turn else {
            return;
        };
        self.connections.flush(place, &mut self.pool);
        self.list_if_due(place);
    }

    /// Has a port told after the next poll, if there may be more to be read by then though no event comes.
    fn list_if_due(&mut self, place: ConnectionPlace)
        ensures peers { self.new.peers ≡ self.old.peers }
        ensures polls { self.new.polls ≡ self.old.polls }
        ensures joins { self.new.joins ≡ self.old.joins }
        ensures connections { self.new.connections ≡ self.old.connections }
    {
        if self.connections.is_due(place, self.polls) {
            let is_listed = self.listing.add(place);
            let _ = self.connections.set_listed(place, is_listed);
        }
    }

    /// Reads from a port: what was read ahead from it, and then what comes from the system.
    #[tactic(auto, using(crate::proofs::SocketLemmas::reads_on))]
    pub fn read(&mut self, port: u64, buffer: &mut [u8]) -> Result<Got, PortFault>
        requires { 0 < length buffer.old }
        ensures bound { IsGiven result (length buffer.new) }
        ensures peers { self.new.peers ≡ self.old.peers }
        ensures reads { ReadsFrom port result (given_bytes result buffer.new)
            self.old.connections self.new.connections }
        ensures sockets { sockets_of self.new.connections ≡ sockets_of self.old.connections }
    {
        let Some(place) = self.turn_to(port) else {
            return Ok(Got::Closed);
        };
        let got = self
            .connections
            .read(place, buffer, self.polls, &mut self.aheads);
        match &got {
            Ok(Got::Bytes(_)) => self.is_busy = true,
            Ok(Got::Later) => self.list_if_due(place),
            Ok(Got::Closed) | Err(PortFault) => {}
        }
        got
    }

    /// Has a port take bytes. They wait at that port, and at no other.
    pub fn write(&mut self, port: u64, bytes: &[u8]) -> Result<Put, PortFault>
        ensures bound { IsTaken result (length bytes.now) }
        ensures peers { self.new.peers ≡ self.old.peers }
        ensures writes { WritesTo port bytes.now result self.old.connections self.new.connections }
        ensures sockets { sockets_of self.new.connections ≡ sockets_of self.old.connections }
    {
        let Some(place) = self.turn_to(port) else {
            return Ok(Put::Later);
        };
        let put = self
            .connections
            .write(place, bytes, self.polls, &mut self.pool);
        self.is_busy = self.is_busy || matches!(&put, Ok(Put::Took(_)));
        self.is_gathering = true;
        put
    }

    /// Makes room for bytes at a port, and says for how many there is some. What is borrowed for them is given back
    /// when the next port has its turn.
    #[tactic(auto, using(crate::proofs::SocketLemmas::sends))]
    pub fn make_room(&mut self, port: u64, most: usize) -> usize
        ensures room { result ≤ room_at port self.new.connections }
        ensures most { result ≤ most }
        ensures peers { self.new.peers ≡ self.old.peers }
        ensures sends { OnlySends self.old.connections self.new.connections }
        ensures sockets { sockets_of self.new.connections ≡ sockets_of self.old.connections }
    {
        let Some(place) = self.turn_to(port) else {
            return 0;
        };
        self.is_gathering = true;
        self.connections.make_room(place, most, &mut self.pool)
    }

    /// Has a port take all of some bytes, for which it has room. They wait at that port, and at no other.
    pub fn take_all(&mut self, port: u64, bytes: &mut Vec<u8>)
        requires some { 0 < length bytes.old.items }
        requires room { length bytes.old.items ≤ room_at port self.old.connections }
        ensures peers { self.new.peers ≡ self.old.peers }
        ensures writes { WritesTo port bytes.old.items (Ok (Took (length bytes.old.items)))
            self.old.connections self.new.connections }
        ensures capacity { vec_capacity bytes.old ≤ vec_capacity bytes.new }
        ensures sockets { sockets_of self.new.connections ≡ sockets_of self.old.connections }
    {
        self.connections.take_all(port, bytes, self.polls);
        let _place = self.turn_to(port);
        self.is_busy = true;
        self.is_gathering = true;
    }

    /// Ends a port. Its last bytes are still sent.
    pub fn shut(&mut self, port: u64)
        ensures peers { self.new.peers ≡ record self.old.peers { opened = without port self.old.peers.opened } }
        ensures connections { self.new.connections ≡ all_but port self.old.connections }
    {
        self.peers.remove(port);
        self.connections
            .shut(port, &mut self.pool, &mut self.aheads);
    }

    /// Takes the events of the last poll, and tells nobody.
    #[tactic(auto, using(crate::proofs::SocketLemmas::sends))]
    fn take_events(&mut self)
        ensures peers { self.new.peers ≡ self.old.peers }
        ensures sends { OnlySends self.old.connections self.new.connections }
        ensures sockets { sockets_of self.new.connections ≡ sockets_of self.old.connections }
    {
        self.listing.clear();
        'events: for _ in 0..EVENTS {
            if self.next_told().is_none() {
                return;
            }
        }
    }

    /// Sends what was gathered, as long as somebody takes it, for five seconds at most.
    #[tactic(auto, using(crate::proofs::SocketLemmas::sends))]
    pub fn finish(&mut self)
        ensures peers { self.new.peers ≡ self.old.peers }
        ensures sends { OnlySends self.old.connections self.new.connections }
        ensures sockets { sockets_of self.new.connections ≡ sockets_of self.old.connections }
    {
        self.send_gathered();
        'polls: for _ in 0..LAST_POLLS {
            if self.connections.unsent_count() == 0 || self.poll().is_err() {
                return;
            }
            self.take_events();
        }
    }
}
