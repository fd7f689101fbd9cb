//! From where connections to the status port are taken, and by which name the server is asked.
ghost use Rattle.std.specs.Prelude.{◌≡◌, IfOk};
ghost use Rattle.std.specs.Net.Addr.{ipv4_bits};
ghost use Rattle.status_ports.specs.Doors.{LetsIn, askers_of, may_ask};

use access_list::AccessList;
use mio::net::{TcpListener, TcpStream};
use std::io;
use std::marker::Model;
use std::net::{Ipv4Addr, SocketAddr, SocketAddrV4};

/// Who may ask.
#[derive(Drop)]
pub struct Askers {
    /// From where; this machine alone without a list.
    pub list: Option<AccessList>,
    /// By which name, besides addresses and `localhost`; empty if by no other.
    pub name: Vec<u8>,
}

/// A connection of somebody who may ask.
#[derive(Drop)]
pub struct Visitor {
    pub stream: TcpStream,
    /// From where it came.
    pub from: Ipv4Addr,
}

/// Who waits to be taken.
#[derive(Drop)]
pub enum Arrival {
    Nobody,
    /// Somebody who may not ask: the connection is closed with no byte.
    Refused,
    Welcome(Visitor),
}

/// Whether the status port may be asked from an address: by a list, or from this machine alone without one.
pub fn may_ask(list: &Option<AccessList>, address: Ipv4Addr) -> bool
    ensures { result ≡ may_ask list.now (ipv4_bits address) }
{
    match list {
        Some(list) => list.allows(address),
        None => address.to_bits() / (1 << 24) == 127,
    }
}

/// A status port that is listened on. In a contract it is who may ask.
#[derive(Drop)]
pub struct Door {
    listener: TcpListener,
    askers: Askers,
}

impl Model for Door {
    ghost use Rattle.status_ports.specs.Doors.{AskersValue, askers_of};

    ghost Value = { AskersValue };

    ghost view = { λ d. askers_of d.askers };
}

impl Door {
    /// Listens at an address. It fails with what the system says of the address.
    pub fn open(rt: &HostRuntime, address: SocketAddrV4, askers: Askers) -> io::Result<Door>
        ensures { IfOk result (λ door. door ≡ askers_of askers) }
    {
        let listener = TcpListener::bind(rt, SocketAddr::V4(address))?;
        Ok(Door { listener, askers })
    }

    /// The port that is listened on.
    pub fn port(&self) -> io::Result<u16> {
        Ok(self.listener.local_addr()?.port())
    }

    /// By that name it may be asked too.
    pub fn take_name(&mut self, name: Vec<u8>)
        ensures { self.new ≡ record self.old { name = name.items } }
    {
        self.askers.name = name;
    }

    /// By which name it may be asked.
    pub fn name(&self) -> &[u8]
        ensures { result.now ≡ self.now.name }
    {
        self.askers.name.as_slice()
    }

    /// Takes a connection if one waits. Whoever may not ask is refused.
    pub fn next(&self) -> Arrival
        ensures { LetsIn self.now result }
    {
        match self.listener.accept() {
            Ok((stream, SocketAddr::V4(from))) => {
                let from = *from.ip();
                if may_ask(&self.askers.list, from) {
                    Arrival::Welcome(Visitor { stream, from })
                } else {
                    Arrival::Refused
                }
            }
            Ok(_) => Arrival::Refused,
            Err(_) => Arrival::Nobody,
        }
    }
}
