//! Ports over sockets.
//!
//! Ports over sockets keep no runtime. The runtime opens sockets, and what is open reads, writes and waits by itself.
//! Why an address can't be listened on is a `ListenError`, with the system's reason, and its `fault` is the number that
//! is reported.
ghost use Rattle.std.specs.Prelude.{◌≡◌, ◌<◌, ◌≤◌, List, [], ◌∷◌, ℕ, false, length, map, IfOk, None, Ok};
ghost use Rattle.std.specs.List.{All, concat};
ghost use Rattle.std.specs.Vec.{vec_capacity};
ghost use Rattle.sl_io.specs.Counts.{CountsFailure};
ghost use Rattle.ports.specs.Calls.{Tells, given, whole_write, IsGiven, IsTaken};
ghost use Rattle.ports.specs.Calls.Call.{Next, Read, Write, Shut};
ghost use Rattle.ports.specs.declared.answers.Put.TheVariants.{Took};
ghost use Rattle.ports_socket.specs.Connections.{KeepsSockets, OnlySends, ReadsFrom, WritesTo, all_but, numbers};
ghost use Rattle.ports_socket.specs.Connections.{room_at, sockets_of};
ghost use Rattle.ports_socket.specs.Departures.{HaveReasons, TellsAway};
ghost use Rattle.ports_socket.specs.Doors.{RationsJoins};
ghost use Rattle.ports_socket.specs.Numbers.{TellsOpenPorts};
ghost use Rattle.ports_socket.specs.Peers.{Admits, address_at, without};
ghost use Rattle.ports_socket.specs.Reads.{given_bytes};

use crate::admission::Admission;
use crate::departures::Departures;
use crate::fault::ListenError;
use crate::sockets::Sockets;
use ports::{Decision, Got, Happening, PortFault, Ports, Put};
use ports_logged::{Away, Doors};
use std::alloc::Global;
use std::net::{Ipv4Addr, SocketAddrV4};

/// Ports over sockets. They tell nothing of their calls.
#[derive(Drop)]
pub struct MioPorts {
    sockets: Sockets,
    /// The connections that the last call of `next` turned away.
    away: Departures,
    bound: (u16, u16),
    failures: u64,
}

impl MioPorts {
    /// Listens at two addresses, for clients and for feeds, and takes all connections. For port 0 the system chooses
    /// one.
    ///
    /// It fails with OutOfMemory only if there is no memory, and else with the address that can't be listened on and
    /// what the system says of it.
    pub fn listen(
        rt: &HostRuntime,
        alloc: Global,
        clients: SocketAddrV4,
        feeds: SocketAddrV4,
    ) -> Result<MioPorts, ListenError>
        ensures peers { IfOk result (λ ports. ports.sockets.peers
            ≡ record { admission = record { feed_from = None; per_address = None }; joined = 0; opened = [] }) }
        ensures connections { IfOk result (λ ports. ports.sockets.connections ≡ []) }
    {
        MioPorts::listen_to(rt, alloc, clients, feeds, Admission::of_all())
    }

    /// The same, but takes the connections that are admitted alone: the others are closed with no byte.
    pub fn listen_to(
        rt: &HostRuntime,
        alloc: Global,
        clients: SocketAddrV4,
        feeds: SocketAddrV4,
        admission: Admission,
    ) -> Result<MioPorts, ListenError>
        ensures peers { IfOk result (λ ports. ports.sockets.peers
            ≡ record { admission = admission; joined = 0; opened = [] }) }
        ensures connections { IfOk result (λ ports. ports.sockets.connections ≡ []) }
    {
        let away = Departures::new(alloc).map_err(|_| ListenError::OutOfMemory)?;
        let sockets = Sockets::listen(rt, alloc, clients, feeds, admission)?;
        MioPorts::over(sockets, away)
    }

    /// Ports over sockets that are listened on.
    fn over(sockets: Sockets, away: Departures) -> Result<MioPorts, ListenError>
        ensures { IfOk result (λ ports. ports.sockets ≡ sockets) }
    {
        let bound = sockets.bound()?;
        Ok(MioPorts {
            sockets,
            away,
            bound,
            failures: 0,
        })
    }

    /// The ports that are listened on, for clients and for feeds.
    pub fn bound(&self) -> (u16, u16)
        ensures { result ≡ self.now.bound }
    {
        self.bound
    }

    /// Sends the bytes that were taken and not sent yet, as long as somebody takes them, for five seconds at most.
    pub fn finish(&mut self)
        ensures failures { self.new.failures ≡ self.old.failures }
        ensures peers { self.new.sockets.peers ≡ self.old.sockets.peers }
        ensures sends { OnlySends self.old.sockets.connections self.new.sockets.connections }
        ensures sockets { sockets_of self.new.sockets.connections ≡ sockets_of self.old.sockets.connections }
    {
        self.sockets.finish();
    }
}

impl Ports for MioPorts {
    ghost calls = { λ _. None };

    ghost failures = { λ s. s.failures };

    ghost decided = { λ _. None };

    ghost room = { λ s port. room_at port s.sockets.connections };

    ghost listening = { λ _. false };

    /// What happened next. A new port has a number that no port had before: the count of those that joined, which no
    /// other call changes. Readable and Writable are told of open ports alone. At most sixteen ports join between two
    /// polls, and those alone that are admitted. All that are not admitted are told.
    fn next(&mut self) -> Result<Happening, PortFault>
        ensures call { Tells None None (Next result ∷ []) }
        ensures failure { CountsFailure self.old.failures self.new.failures result }
        ensures numbers { TellsOpenPorts self.old.sockets.peers.joined self.new.sockets.peers.joined
            (numbers self.new.sockets.connections) result }
        ensures admits { Admits self.old.sockets.peers self.new.sockets.peers result }
        ensures rationed { RationsJoins self.old.sockets.polls self.old.sockets.joins.count
            self.new.sockets.polls self.new.sockets.joins.count result }
        ensures reasons { HaveReasons self.old.sockets.peers.admission self.old.sockets.peers.opened self.new.away }
        ensures all_told { TellsAway self.old.sockets.polls self.old.sockets.joins.away
            self.new.sockets.polls self.new.sockets.joins.away self.new.away }
        ensures sends { OnlySends self.old.sockets.connections self.new.sockets.connections }
        ensures sockets { KeepsSockets result (sockets_of self.old.sockets.connections)
            (sockets_of self.new.sockets.connections) }
    {
        self.away.clear();
        let answer = self.sockets.next(&mut self.away);
        if answer.is_err() {
            self.failures = self.failures.wrapping_add(1);
        }
        answer
    }

    fn read(&mut self, port: u64, buffer: &mut [u8]) -> Result<Got, PortFault>
        requires { 0 < length buffer.old }
        ensures bound { IsGiven result (length buffer.new) }
        ensures call { Tells None None (Read port (length buffer.new) (given result buffer.new) ∷ []) }
        ensures failure { CountsFailure self.old.failures self.new.failures result }
        ensures peers { self.new.sockets.peers ≡ self.old.sockets.peers }
        ensures reads { ReadsFrom port result (given_bytes result buffer.new)
            self.old.sockets.connections self.new.sockets.connections }
        ensures sockets { sockets_of self.new.sockets.connections ≡ sockets_of self.old.sockets.connections }
    {
        let answer = self.sockets.read(port, buffer);
        if answer.is_err() {
            self.failures = self.failures.wrapping_add(1);
        }
        answer
    }

    fn write(&mut self, port: u64, bytes: &[u8]) -> Result<Put, PortFault>
        requires { 0 < length bytes.now }
        ensures bound { IsTaken result (length bytes.now) }
        ensures call { Tells None None (Write port bytes.now result ∷ []) }
        ensures failure { CountsFailure self.old.failures self.new.failures result }
        ensures peers { self.new.sockets.peers ≡ self.old.sockets.peers }
        ensures writes { WritesTo port bytes.now result self.old.sockets.connections self.new.sockets.connections }
        ensures sockets { sockets_of self.new.sockets.connections ≡ sockets_of self.old.sockets.connections }
    {
        let answer = self.sockets.write(port, bytes);
        if answer.is_err() {
            self.failures = self.failures.wrapping_add(1);
        }
        answer
    }

    fn make_room(&mut self, port: u64, most: usize) -> usize
        ensures room { result ≤ room_at port self.new.sockets.connections }
        ensures most { result ≤ most }
        ensures failures { self.new.failures ≡ self.old.failures }
        ensures peers { self.new.sockets.peers ≡ self.old.sockets.peers }
        ensures sends { OnlySends self.old.sockets.connections self.new.sockets.connections }
        ensures sockets { sockets_of self.new.sockets.connections ≡ sockets_of self.old.sockets.connections }
    {
        self.sockets.make_room(port, most)
    }

    /// The buffer of the bytes is kept and an empty one given for it, if none wait at the port. Else they are copied.
    fn write_pieces(&mut self, port: u64, bytes: &mut Vec<u8>, size: usize)
        requires room { length bytes.old.items ≤ room_at port self.old.sockets.connections }
        requires size { 0 < size }
        ensures call { (pieces : List (List ℕ)) → bytes.old.items ≡ concat pieces →
            All (λ p. length p ≡ size) pieces → Tells None None (map (whole_write port) pieces) }
        ensures capacity { vec_capacity bytes.old ≤ vec_capacity bytes.new }
        ensures failures { self.new.failures ≡ self.old.failures }
        ensures peers { self.new.sockets.peers ≡ self.old.sockets.peers }
        ensures writes { 0 < length bytes.old.items →
            WritesTo port bytes.old.items (Ok (Took (length bytes.old.items)))
            self.old.sockets.connections self.new.sockets.connections }
        ensures nothing { bytes.old.items ≡ [] → self.new ≡ self.old }
        ensures sockets { sockets_of self.new.sockets.connections ≡ sockets_of self.old.sockets.connections }
    {
        if !bytes.is_empty() {
            self.sockets.take_all(port, bytes);
        }
    }

    fn shut(&mut self, port: u64)
        ensures call { Tells None None (Shut port ∷ []) }
        ensures failures { self.new.failures ≡ self.old.failures }
        ensures left { self.new.sockets.peers
            ≡ record self.old.sockets.peers { opened = without port self.old.sockets.peers.opened } }
        ensures connections { self.new.sockets.connections ≡ all_but port self.old.sockets.connections }
    {
        self.sockets.shut(port);
    }

    /// Nothing is noted here.
    fn tell(&mut self, _port: u64, _decision: Decision) {}

    /// Nobody hears what is said: it is answered without a look at anything.
    fn listens(&self) -> bool {
        false
    }
}

impl Doors for MioPorts {
    ghost turned_away = { λ s. s.away };

    ghost address = { λ s port. address_at port s.sockets.peers.opened };

    fn turned_away(&self) -> &[Away] {
        self.away.as_slice()
    }

    /// The address that the system reported for the port's connection, or 0.0.0.0 if the port is not open.
    fn address(&self, port: u64) -> Ipv4Addr {
        self.sockets.peers.address(port)
    }
}
