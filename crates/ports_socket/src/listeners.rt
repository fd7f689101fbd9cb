//! The two sockets that are listened on: one for clients and one for feeds.
ghost use Rattle.std.specs.Prelude.{◌≡◌};
ghost use Rattle.ports_socket.specs.Doors.{GivesOf, IfConnection, PassesOver, TakesTurns, listener_of, other_kind};

use crate::fault::ListenError;
use crate::peer::PeerKind;
use crate::polling::{LAST, token_of};
use mio::net::{TcpListener, TcpStream};
use mio::{Interest, Poll};
use socket_options::{limit_unsent, notice_silence};
use std::io;
use std::io::ErrorKind;
use std::net::{SocketAddr, SocketAddrV4};

/// How many connections that ended before they were taken are passed over at once.
const ABORTED: u8 = 64;

/// What came of taking a connection.
#[derive(Drop)]
pub enum Accepted {
    Connection(PeerKind, TcpStream, SocketAddr),
    /// None waits.
    Nothing,
    /// One waits, and the system has no descriptor or no memory for it now.
    Refused,
}

#[derive(Drop)]
pub struct Listener {
    socket: TcpListener,
    /// Connections may wait to be taken.
    pub is_ready: bool,
}

#[derive(Drop)]
pub struct Listeners {
    pub clients: Listener,
    pub feeds: Listener,
    /// Whose connection is taken next, if one waits.
    pub first: PeerKind,
}

fn listen_on(
    rt: &HostRuntime,
    poll: &Poll,
    address: SocketAddrV4,
    kind: PeerKind,
) -> io::Result<Listener> {
    let mut socket = TcpListener::bind(rt, SocketAddr::V4(address))?;
    notice_silence(&socket)?;
    limit_unsent(&socket)?;
    poll.registry()
        .register(&mut socket, token_of(LAST, kind), Interest::READABLE)?;
    Ok(Listener {
        socket,
        is_ready: true,
    })
}

fn port_of(listener: &Listener) -> io::Result<u16> {
    Ok(listener.socket.local_addr()?.port())
}

impl Listener {
    fn accept(&mut self, kind: PeerKind) -> Accepted
        ensures { GivesOf kind self.new result }
    {
        if !self.is_ready {
            return Accepted::Nothing;
        }
        for _ in 0..ABORTED {
            match self.socket.accept() {
                Ok((stream, address)) => return Accepted::Connection(kind, stream, address),
                Err(error) => match error.kind() {
                    ErrorKind::ConnectionAborted => {}
                    ErrorKind::Interrupted => {}
                    ErrorKind::WouldBlock => {
                        self.is_ready = false;
                        return Accepted::Nothing;
                    }
                    _ => return Accepted::Refused,
                },
            }
        }
        Accepted::Refused
    }
}

impl Listeners {
    pub fn listen(
        rt: &HostRuntime,
        poll: &Poll,
        clients: SocketAddrV4,
        feeds: SocketAddrV4,
    ) -> Result<Listeners, ListenError> {
        let clients = listen_on(rt, poll, clients, PeerKind::Client).map_err(ListenError::Clients)?;
        let feeds = listen_on(rt, poll, feeds, PeerKind::Feed).map_err(ListenError::Feeds)?;
        Ok(Listeners {
            clients,
            feeds,
            first: PeerKind::Client,
        })
    }

    /// The ports that are listened on, for clients and for feeds.
    pub fn bound(&self) -> Result<(u16, u16), ListenError> {
        let clients = port_of(&self.clients).map_err(ListenError::Clients)?;
        let feeds = port_of(&self.feeds).map_err(ListenError::Feeds)?;
        Ok((clients, feeds))
    }

    /// Connections may wait from now on.
    pub fn mark(&mut self, kind: PeerKind) {
        match kind {
            PeerKind::Client => self.clients.is_ready = true,
            PeerKind::Feed => self.feeds.is_ready = true,
        }
    }

    /// The next connection. Clients and feeds take turns, so that none of them waits for all of the others.
    pub fn accept(&mut self) -> Accepted
        ensures { TakesTurns self.old self.new result }
    {
        match self.accept_in_turn() {
            Accepted::Connection(kind, stream, address) => {
                self.first = kind.other();
                Accepted::Connection(kind, stream, address)
            }
            Accepted::Nothing => Accepted::Nothing,
            Accepted::Refused => Accepted::Refused,
        }
    }

    /// The next connection of the kind whose turn it is, or else of the other one.
    fn accept_in_turn(&mut self) -> Accepted
        ensures passes_over { IfConnection result (PassesOver self.new self.old.first) }
        ensures first { self.new.first ≡ self.old.first }
    {
        let first = self.first;
        match self.accept_of(first) {
            Accepted::Nothing => self.accept_of(first.other()),
            accepted => accepted,
        }
    }

    fn accept_of(&mut self, kind: PeerKind) -> Accepted
        ensures gives { GivesOf kind (listener_of self.new kind) result }
        ensures other { listener_of self.new (other_kind kind) ≡ listener_of self.old (other_kind kind) }
        ensures first { self.new.first ≡ self.old.first }
    {
        match kind {
            PeerKind::Client => self.clients.accept(kind),
            PeerKind::Feed => self.feeds.accept(kind),
        }
    }
}
