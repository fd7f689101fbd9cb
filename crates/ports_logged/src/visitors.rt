//! Who is connected.
//!
//! Who is at the open ports is kept in one table, by rising number of the ports, in which one is found by halving. Its
//! room is made at the start: `max_connections`, and 16. The records of a feed are the bytes that it gave, divided by
//! 512. The address of a connection is not kept here, since the inner ports have it as long as the port is open.
ghost use Rattle.std.specs.Prelude.{◌≡◌, ◌≤◌, ◌<◌, [], None, IfErr, IfOk, find, map};
ghost use Rattle.ports_logged.specs.Visitors.{IsGapFor, IsVisitorAt, Rise, is_at, is_next, with_traffic, with_visitor};
ghost use Rattle.ports_logged.specs.Visitors.{without};

use crate::traffic::Traffic;
use crate::visitor::Visitor;
use std::alloc::{AllocError, Global};
use std::marker::Model;

/// Who is connected, by rising number of their ports. In a contract it is for how many there is room, the last port
/// that was added, and who is there. There is room for so many when it is made, and no call allocates.
#[derive(Drop)]
pub struct Visitors {
    last: Option<u64>,
    present: Vec<Visitor>,
}

impl Model for Visitors {
    ghost use Rattle.std.specs.Vec.{vec_capacity};
    ghost use Rattle.ports_logged.specs.Visitors.{AreUpTo, Rise, VisitorsValue};

    ghost Value = { VisitorsValue };

    ghost view = { λ v. record { room = vec_capacity v.present; last = v.last; present = v.present.items } };

    ghost invariant = { λ v. Rise v.present.items × AreUpTo v.last v.present.items };
}

/// Whether a port is above the last one.
pub fn is_next(last: Option<u64>, port: u64) -> bool
    ensures { result ≡ is_next last port }
{
    match last {
        Some(last) => last < port,
        None => true,
    }
}

/// The place of a port, or the place where it belongs.
fn place_of(present: &[Visitor], port: u64) -> Result<usize, usize>
    requires { Rise present.now }
    ensures found { IfOk result (λ at. IsVisitorAt present.now port at) }
    ensures absent { IfErr result (λ at. IsGapFor present.now port at) }
{
    present.binary_search_by_key(&port, |visitor| visitor.port)
}

/// More went over a port.
fn count(present: &mut [Visitor], port: u64, more: Traffic)
    requires { Rise present.old }
    ensures { present.new ≡ map (with_traffic port more) present.old }
{
    if let Ok(at) = place_of(present, port) {
        let visitor = &mut present[at];
        visitor.traffic = visitor.traffic.and(more);
    }
}

impl Visitors {
    /// Nobody, with room for so many. It fails only for want of memory.
    pub fn new(alloc: Global, room: usize) -> Result<Visitors, AllocError>
        ensures { IfOk result (λ made. made ≡ record { room = room; last = None; present = [] }) }
    {
        let present = Vec::with_capacity(alloc, room)?;
        Ok(Visitors {
            last: None,
            present,
        })
    }

    /// One more is there, if its port is above all that were added and there is room for it.
    pub fn add(&mut self, visitor: Visitor)
        ensures { self.new ≡ with_visitor visitor self.old }
    {
        if is_next(self.last, visitor.port) && self.present.len() < self.present.capacity() {
            self.last = Some(visitor.port);
            self.present.push_reserved(visitor);
        }
    }

    /// More went over a port, if somebody is there.
    pub fn count(&mut self, port: u64, more: Traffic)
        ensures { self.new ≡ record self.old { present = map (with_traffic port more) self.old.present } }
    {
        count(self.present.as_mut_slice(), port, more);
    }

    /// Who is at a port, if somebody is.
    pub fn find(&self, port: u64) -> Option<Visitor>
        ensures { result ≡ find (is_at port) self.now.present }
    {
        match place_of(self.present.as_slice(), port) {
            Ok(at) => Some(self.present[at]),
            Err(_) => None,
        }
    }

    /// Who was at a port, if somebody was. Nobody is there any more.
    pub fn remove(&mut self, port: u64) -> Option<Visitor>
        ensures visitor { result ≡ find (is_at port) self.old.present }
        ensures left { self.new ≡ record self.old { present = without port self.old.present } }
    {
        match place_of(self.present.as_slice(), port) {
            Ok(at) => Some(self.present.remove(at)),
            Err(_) => None,
        }
    }
}
