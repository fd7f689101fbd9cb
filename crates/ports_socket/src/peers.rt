//! The ports that joined, and whose the open ones are.
//!
//! Who may connect is decided before a port joins, in `ports_socket`: the loop and its contract know nothing of it. Who
//! may feed is a list of the command line and not of the configuration, so that it stands where the feed port does and
//! no reread changes it. Whose the open ports are is kept beside the connections, by rising number, in entries of 24
//! bytes, of which one is found by halving. The clients of an address are counted by halving too, among the addresses
//! of all clients, which stand there in order, each as often as it has clients: to go over all open ports at each join
//! took 12 instructions a port. Connections that are turned away count among the sixteen between two polls, so a crowd
//! at the feed port costs no more than one that joins.
ghost use Rattle.std.specs.Prelude.{◌≡◌, ◌<◌, ◌^◌, ◌↔◌, [], IsTrue, IfErr, IfOk, OnErr, OnOk, true};
ghost use Rattle.std.specs.Net.Addr.{ipv4_bits};
ghost use Rattle.ports_socket.specs.Admissions.{IsAdmitted, is_client};
ghost use Rattle.ports_socket.specs.Hosts.{CountsIn, CountsOut, clients_of};
ghost use Rattle.ports_socket.specs.Peers.{IsGapFor, IsJoined, IsPeerAt, Rise, address_at, without};

use crate::admission::Admission;
use crate::hosts::Hosts;
use crate::peer::{Peer, PeerKind};
use std::alloc::{AllocError, Global};
use std::marker::Model;
use std::net::Ipv4Addr;

/// The ports that joined. In a contract it is whose connections are taken, how many ports joined, and whose the open
/// ones are, by rising number.
#[derive(Drop)]
pub struct Peers {
    admission: Admission,
    joined: u64,
    opened: Vec<Peer>,
    /// How many clients of each address are among the open ones.
    hosts: Hosts,
}

impl Model for Peers {
    ghost use Rattle.ports_socket.specs.Hosts.{CountsClients};
    ghost use Rattle.ports_socket.specs.Peers.{PeersValue, AreBelow, Rise};

    ghost Value = { PeersValue };

    ghost view = { λ p. record { admission = p.admission; joined = p.joined; opened = p.opened.items } };

    ghost invariant = { λ p. Rise p.opened.items × AreBelow p.joined p.opened.items
        × CountsClients p.hosts p.opened.items };
}

impl Peers {
    /// No port has joined.
    pub fn new(alloc: Global, admission: Admission) -> Peers
        ensures { result ≡ record { admission = admission; joined = 0; opened = [] } }
    {
        Peers {
            admission,
            joined: 0,
            opened: Vec::new(alloc),
            hosts: Hosts::new(alloc),
        }
    }

    /// How many ports joined: the number of the next one.
    pub fn joined(&self) -> u64
        ensures { result ≡ self.now.joined }
    {
        self.joined
    }

    /// Whether a connection from an address may join.
    pub fn admits(&self, kind: PeerKind, address: Ipv4Addr) -> bool
        ensures { IsTrue result ↔ IsAdmitted self.now.admission self.now.opened kind address }
    {
        let _ = &self.opened;
        match kind {
            PeerKind::Client => {
                let clients = self.hosts.count(address.to_bits());
                self.admission.takes_client_beside(clients)
            }
            PeerKind::Feed => self.admission.takes_feeds_from(address),
        }
    }

    /// A connection joins under the next number, which is answered. Only memory can lack, and then nothing changes.
    pub fn add(&mut self, kind: PeerKind, address: Ipv4Addr) -> Result<u64, AllocError>
        requires room { self.old.joined < 2 ^ 63 }
        requires admitted { IsAdmitted self.old.admission self.old.opened kind address }
        ensures ok { IfOk result (λ number. IsJoined kind number address self.old self.new) }
        ensures err { OnErr result (self.new ≡ self.old) }
    {
        let number = self.joined;
        let peer = Peer {
            number,
            kind,
            address,
        };
        if self.opened.reserve(1).is_err() {
            return Err(AllocError);
        }
        match count_in(&mut self.hosts, peer) {
            Ok(()) => {
                self.opened.push_reserved(peer);
                self.joined = number + 1;
                Ok(number)
            }
            Err(_) => Err(AllocError),
        }
    }

    /// The address of an open port; 0.0.0.0 if it is not open.
    pub fn address(&self, number: u64) -> Ipv4Addr
        ensures { result ≡ address_at number self.now.opened }
    {
        match place_of(self.opened.as_slice(), number) {
            Ok(at) => self.opened[at].address,
            Err(_) => Ipv4Addr::UNSPECIFIED,
        }
    }

    /// A port is shut: it is not open any more.
    pub fn remove(&mut self, number: u64)
        ensures { self.new ≡ record self.old { opened = without number self.old.opened } }
    {
        if let Ok(at) = place_of(self.opened.as_slice(), number) {
            let gone = self.opened.remove(at);
            count_out(&mut self.hosts, gone);
        }
    }
}

/// A port opens: if it is a client's, its address has one client more. Only memory can lack, and then nothing changes.
fn count_in(hosts: &mut Hosts, peer: Peer) -> Result<(), AllocError>
    ensures ok { OnOk result (CountsIn peer hosts.old hosts.new) }
    ensures err { OnErr result (hosts.new ≡ hosts.old) }
{
    match peer.kind {
        PeerKind::Client => hosts.add(peer.address.to_bits()),
        PeerKind::Feed => Ok(()),
    }
}

/// A port is shut: if it is a client's, its address has one client less.
fn count_out(hosts: &mut Hosts, peer: Peer)
    requires { is_client peer.kind ≡ true → 0 < clients_of (ipv4_bits peer.address) hosts.old }
    ensures { CountsOut peer hosts.old hosts.new }
{
    if peer.kind == PeerKind::Client {
        hosts.remove(peer.address.to_bits());
    }
}

/// The place of a port, or the place where it belongs.
fn place_of(opened: &[Peer], number: u64) -> Result<usize, usize>
    requires { Rise opened.now }
    ensures found { IfOk result (λ at. IsPeerAt opened.now number at) }
    ensures absent { IfErr result (λ at. IsGapFor opened.now number at) }
{
    opened.binary_search_by_key(&number, |peer| peer.number)
}
