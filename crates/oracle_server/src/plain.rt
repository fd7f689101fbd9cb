//! The plain server: all clients over one history.
use crate::history::History;
use crate::records::Arrival;
use crate::sites::{Centre, Seen};
use crate::visitor::Visitor;
use std::alloc::{AllocError, Global};

/// What waits for a client.
#[derive(Drop)]
pub enum Waiting {
    Bytes(Vec<u8>),
    Nothing,
    /// Nothing, and the connection is over.
    TheEnd,
}

#[derive(Drop)]
pub struct Plain {
    alloc: Global,
    title: &'static [u8],
    history: History,
    /// Who may use the stations.
    seen: Seen,
    visitors: Vec<Visitor>,
}

impl Plain {
    pub fn new(alloc: Global, centre: &Centre) -> Self {
        Plain {
            alloc,
            title: centre.title,
            history: History::new(alloc, centre.sites),
            seen: centre.seen,
            visitors: Vec::new(alloc),
        }
    }

    /// A client connects from one of the three addresses. The answer is its number.
    pub fn connect(&mut self, address: usize) -> Result<usize, AllocError> {
        let number = self.visitors.len();
        let visitor = Visitor::new(self.alloc, address, self.seen);
        self.visitors.push(visitor)?;
        Ok(number)
    }

    /// How many bytes a client may send.
    pub fn room(&self, client: usize) -> usize {
        match self.visitors.get(client) {
            Some(visitor) => visitor.room(),
            None => 0,
        }
    }

    pub fn receive(&mut self, client: usize, bytes: &[u8]) -> Result<(), AllocError> {
        match self.visitors.get_mut(client) {
            Some(visitor) => visitor.receive(&self.history, self.title, bytes),
            None => Ok(()),
        }
    }

    /// What waits for a client, once it is offered something.
    pub fn waiting(&mut self, client: usize) -> Result<Waiting, AllocError> {
        match self.visitors.get_mut(client) {
            Some(visitor) => visitor.waiting(&self.history),
            None => Ok(Waiting::TheEnd),
        }
    }

    /// At most so many of the bytes that wait for a client, and whether it is told the end.
    pub fn take(&mut self, client: usize, count: usize) -> Result<(Vec<u8>, bool), AllocError> {
        match self.visitors.get_mut(client) {
            Some(visitor) => visitor.take(&self.history, self.title, count),
            None => Ok((Vec::new(self.alloc), true)),
        }
    }

    pub fn close(&mut self, client: usize) {
        if let Some(visitor) = self.visitors.get_mut(client) {
            visitor.close();
        }
    }

    /// A record comes. Whether it is a station's.
    pub fn arrive(&mut self, arrival: &Arrival) -> Result<bool, AllocError> {
        self.history.add(arrival)
    }
}
