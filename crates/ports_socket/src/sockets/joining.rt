//! Which connections are taken, and how they join.
ghost use Rattle.std.specs.Prelude.{◌≡◌, ◌<◌, ◌+◌, ◌^◌, [], IfNone, IfSome, Ok, length, true};
ghost use Rattle.ports_socket.specs.Admissions.{IsAdmitted};
ghost use Rattle.ports_socket.specs.Connections.{KeepsSockets, OnlySends, Opens, numbers, sockets_of};
ghost use Rattle.ports_socket.specs.Departures.{HaveReasons, IfAway, IsReason, away_of};
ghost use Rattle.ports_socket.specs.Doors.{joins_by};
ghost use Rattle.ports_socket.specs.Numbers.{TellsOpenPorts};
ghost use Rattle.ports_socket.specs.Peers.{Admits, IfJoined, IfNotJoined, IsJoined, happening_of};

use super::Sockets;
use crate::connection::Connection;
use crate::departures::Departures;
use crate::listeners::Accepted;
use crate::peer::PeerKind;
use crate::polling::{LAST, token_of};
use mio::net::TcpStream;
use ports::{AwayReason, Happening};
use ports_logged::Away;
use std::net::{Ipv4Addr, SocketAddr};

/// How many connections are taken at most between two polls.
const CONNECTIONS: u8 = 16;

/// How many ports join at most.
const NUMBERS: u64 = 1 << 63;

/// What came of taking a connection.
#[derive(Drop)]
enum Taken {
    /// It joined.
    Joined(Happening),
    /// It may not join, or there was nothing by which it could be held. It is closed.
    Away(Away),
    /// None waits.
    Nothing,
}

/// How it is told that a port of a kind joined.
fn joined(kind: PeerKind, number: u64, address: Ipv4Addr) -> Happening
    ensures { result ≡ happening_of kind number address }
{
    match kind {
        PeerKind::Client => Happening::Joined(number, address),
        PeerKind::Feed => Happening::JoinedFeed(number),
    }
}

/// Why a connection of a kind may not join.
fn away_of(kind: PeerKind, address: Ipv4Addr) -> Away
    ensures { result ≡ away_of kind address }
{
    let reason = match kind {
        PeerKind::Client => AwayReason::PerAddress,
        PeerKind::Feed => AwayReason::FeedFrom,
    };
    Away { address, reason }
}

fn address_of(peer: SocketAddr) -> Option<Ipv4Addr> {
    match peer {
        SocketAddr::V4(peer) => Some(*peer.ip()),
        SocketAddr::V6(_) => None,
    }
}

impl Sockets {
    /// The next connection that waits. If the system has no descriptor left, the connection that lingers longest makes
    /// room.
    fn accept(&mut self) -> Option<(PeerKind, TcpStream, SocketAddr)>
        ensures peers { self.new.peers ≡ self.old.peers }
        ensures polls { self.new.polls ≡ self.old.polls }
        ensures joins { self.new.joins ≡ self.old.joins }
        ensures connections { self.new.connections ≡ self.old.connections }
        ensures polling { self.new.polling ≡ self.old.polling }
    {
        match self.listeners.accept() {
            Accepted::Connection(kind, stream, peer) => {
                self.is_busy = true;
                Some((kind, stream, peer))
            }
            Accepted::Nothing => None,
            Accepted::Refused => {
                self.connections.drop_oldest();
                None
            }
        }
    }

    /// A new port, of a client or of a feed, unless sixteen connections were taken since the last poll. A connection of
    /// somebody who may not join, or that can't be held, is closed with no byte, and told.
    pub(super) fn join(&mut self, away: &mut Departures) -> Option<Happening>
        requires none { away.old ≡ [] }
        requires told { self.old.polling.happened.items ≡ [] }
        ensures reasons { HaveReasons self.old.peers.admission self.old.peers.opened away.new }
        ensures all_told { self.new.joins.away ≡ self.old.joins.away + length away.new }
        ensures some { IfSome result (λ h. TellsOpenPorts self.old.peers.joined self.new.peers.joined
            (numbers self.new.connections) (Ok h)) }
        ensures admits { IfSome result (λ h. Admits self.old.peers self.new.peers (Ok h)) }
        ensures none { IfNone result (self.new.peers ≡ self.old.peers) }
        ensures polls { self.new.polls ≡ self.old.polls }
        ensures counts { IfSome result (λ h. self.new.joins.count ≡ self.old.joins.count + joins_by (Ok h)) }
        ensures no_count { IfNone result (self.new.joins.count ≡ self.old.joins.count) }
        ensures sends { OnlySends self.old.connections self.new.connections }
        ensures opens { IfSome result (λ h. KeepsSockets (Ok h) (sockets_of self.old.connections)
            (sockets_of self.new.connections)) }
        ensures no_open { IfNone result (self.new.connections ≡ self.old.connections) }
    {
        'waiting: for _ in 0..CONNECTIONS {
            if self.joins.is_full() {
                return None;
            }
            match self.accept_next() {
                Taken::Joined(happening) => return Some(happening),
                Taken::Away(one) => {
                    self.joins.turn_away();
                    away.push(one);
                }
                Taken::Nothing => return None,
            }
        }
        None
    }

    /// Takes the next connection that waits.
    fn accept_next(&mut self) -> Taken
        requires room { self.old.joins.count + self.old.joins.away < 16 }
        requires told { self.old.polling.happened.items ≡ [] }
        ensures joined { IfJoined result (λ h. TellsOpenPorts self.old.peers.joined self.new.peers.joined
            (numbers self.new.connections) (Ok h)) }
        ensures admits { IfJoined result (λ h. Admits self.old.peers self.new.peers (Ok h)) }
        ensures counts { IfJoined result (λ h. self.new.joins.count ≡ self.old.joins.count + joins_by (Ok h)) }
        ensures others { IfNotJoined result ((self.new.peers ≡ self.old.peers) × (self.new.joins ≡ self.old.joins)) }
        ensures joins_away { self.new.joins.away ≡ self.old.joins.away }
        ensures away { IfAway result (λ one.
            IsReason self.old.peers.admission self.old.peers.opened one.address one.reason) }
        ensures polls { self.new.polls ≡ self.old.polls }
        ensures sends { OnlySends self.old.connections self.new.connections }
        ensures opens { IfJoined result (λ h. KeepsSockets (Ok h) (sockets_of self.old.connections)
            (sockets_of self.new.connections)) }
        ensures no_open { IfNotJoined result (self.new.connections ≡ self.old.connections) }
        ensures polling { self.new.polling ≡ self.old.polling }
    {
        let Some((kind, stream, peer)) = self.accept() else {
            return Taken::Nothing;
        };
        let Some(address) = address_of(peer) else {
            return Taken::Nothing;
        };
        if !self.peers.admits(kind, address) {
            return Taken::Away(away_of(kind, address));
        }
        match self.hold(kind, address, stream) {
            Some(number) => Taken::Joined(joined(kind, number, address)),
            None => Taken::Away(Away {
                address,
                reason: AwayReason::Memory,
            }),
        }
    }

    /// Makes ready for a new connection under a number: the system will report what happens at it by the key that it
    /// will have, and there is room to list it. Whether that is done.
    fn prepare(&mut self, number: u64, kind: PeerKind, stream: &mut TcpStream) -> bool
        requires told { self.old.polling.happened.items ≡ [] }
        ensures number { result ≡ true → number < 2 ^ 63 }
        ensures peers { self.new.peers ≡ self.old.peers }
        ensures polls { self.new.polls ≡ self.old.polls }
        ensures joins { self.new.joins ≡ self.old.joins }
        ensures connections { self.new.connections ≡ self.old.connections }
        ensures polling { self.new.polling ≡ self.old.polling }
    {
        let key = self.connections.next_key();
        if number >= NUMBERS || key >= LAST || stream.set_nodelay(true).is_err() {
            return false;
        }
        if !self.polling.watch(stream, token_of(key, kind)) {
            return false;
        }
        let open = self.connections.len().saturating_add(1);
        self.listing.reserve(open).is_ok()
    }

    /// Holds a new connection under the next number.
    fn hold(&mut self, kind: PeerKind, address: Ipv4Addr, mut stream: TcpStream) -> Option<u64>
        requires room { self.old.joins.count + self.old.joins.away < 16 }
        requires admitted { IsAdmitted self.old.peers.admission self.old.peers.opened kind address }
        requires told { self.old.polling.happened.items ≡ [] }
        ensures some { IfSome result (λ n. IsJoined kind n address self.old.peers self.new.peers
            × (self.new.joins.count ≡ self.old.joins.count + 1)) }
        ensures away { self.new.joins.away ≡ self.old.joins.away }
        ensures none { IfNone result ((self.new.peers ≡ self.old.peers) × (self.new.joins ≡ self.old.joins)) }
        ensures polls { self.new.polls ≡ self.old.polls }
        ensures opens { IfSome result (λ n. Opens n self.old.connections self.new.connections) }
        ensures no_open { IfNone result (self.new.connections ≡ self.old.connections) }
        ensures polling { self.new.polling ≡ self.old.polling }
    {
        let number = self.peers.joined();
        if !self.prepare(number, kind, &mut stream) {
            return None;
        }
        let connection = Connection::new(number, kind, stream);
        if !self.connections.push(connection) {
            return None;
        }
        match self.peers.add(kind, address) {
            Ok(number) => {
                self.joins.add();
                Some(number)
            }
            Err(_) => {
                self.connections.pop();
                None
            }
        }
    }
}
