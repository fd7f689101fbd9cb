//! Ports as the plain loop has them.
use super::scripts::{Finds, Happens, Line, Scene, Takes};
use std::alloc::{AllocError, Global};
use std::collections::VecDeque;

/// A port: what its reads will find and what will come of its writes, and what it gave and took so far.
#[derive(Drop)]
pub struct PlainPort {
    number: u64,
    reads: VecDeque<Finds>,
    writes: VecDeque<Takes>,
    pub given: Vec<u8>,
    pub taken: Vec<u8>,
    pub is_shut: bool,
}

#[derive(Drop)]
pub struct PlainPorts {
    alloc: Global,
    happens: VecDeque<Happens>,
    ports: Vec<PlainPort>,
    due: u64,
}

/// The port that joins.
fn joining(happens: Happens) -> Option<u64> {
    match happens {
        Happens::Joins(port, _) | Happens::FeedJoins(port) => Some(port),
        _ => None,
    }
}

/// The happenings of a script, but for those by which a port would join again.
fn happenings(alloc: Global, lines: &[Line]) -> Result<VecDeque<Happens>, AllocError> {
    let mut all = VecDeque::new(alloc);
    let mut joined: Vec<u64> = Vec::new(alloc);
    for line in lines {
        let Line::Happens(happens) = line else {
            continue;
        };
        match joining(*happens) {
            Some(port) if joined.as_slice().contains(&port) => {}
            Some(port) => {
                joined.push(port)?;
                all.push_back(*happens)?;
            }
            None => all.push_back(*happens)?,
        }
    }
    Ok(all)
}

impl PlainPorts {
    pub fn new(alloc: Global, scene: &Scene) -> Result<PlainPorts, AllocError> {
        let mut all = PlainPorts {
            alloc,
            happens: happenings(alloc, scene.lines.as_slice())?,
            ports: Vec::new(alloc),
            due: scene.due,
        };
        for line in scene.lines.as_slice() {
            match line {
                Line::Happens(_) => {}
                Line::Reads(port, finds) => {
                    let finds = finds.copy(alloc)?;
                    all.port(*port)?.reads.push_back(finds)?;
                }
                Line::Writes(port, takes) => all.port(*port)?.writes.push_back(*takes)?,
            }
        }
        Ok(all)
    }

    /// The place of a port, which is made where there is none.
    fn place(&mut self, number: u64) -> Result<usize, AllocError> {
        for (place, port) in self.ports.iter().enumerate() {
            if port.number == number {
                return Ok(place);
            }
        }
        self.ports.push(PlainPort {
            number,
            reads: VecDeque::new(self.alloc),
            writes: VecDeque::new(self.alloc),
            given: Vec::new(self.alloc),
            taken: Vec::new(self.alloc),
            is_shut: false,
        })?;
        Ok(self.ports.len().saturating_sub(1))
    }

    pub fn port(&mut self, number: u64) -> Result<&mut PlainPort, AllocError> {
        let place = self.place(number)?;
        self.ports.get_mut(place).ok_or(AllocError)
    }

    /// Whether this call is the one that fails.
    fn is_due(&mut self) -> bool {
        let fails = self.due == 1;
        self.due = self.due.saturating_sub(1);
        fails
    }

    /// What happened next; none if the call fails.
    pub fn next(&mut self) -> Option<Happens> {
        if self.is_due() {
            return None;
        }
        Some(self.happens.pop_front().unwrap_or(Happens::Quiet))
    }

    /// A read of at most so many bytes.
    pub fn read(&mut self, number: u64, most: usize) -> Result<Finds, AllocError> {
        if self.is_due() {
            return Ok(Finds::Failure);
        }
        let alloc = self.alloc;
        self.port(number)?.read(alloc, most)
    }

    /// A write of bytes.
    pub fn write(&mut self, number: u64, bytes: &[u8]) -> Result<Takes, AllocError> {
        if self.is_due() {
            return Ok(Takes::Failure);
        }
        self.port(number)?.write(bytes)
    }

    pub fn shut(&mut self, number: u64) -> Result<(), AllocError> {
        self.port(number)?.is_shut = true;
        Ok(())
    }
}

impl PlainPort {
    fn read(&mut self, alloc: Global, most: usize) -> Result<Finds, AllocError> {
        match self.reads.pop_front() {
            Some(Finds::Bytes(bytes)) => {
                let all = bytes.as_slice();
                let count = all.len().min(most);
                let piece = all.get(..count).unwrap_or(b"").to_vec(alloc)?;
                let left = all.get(count..).unwrap_or(b"").to_vec(alloc)?;
                if !left.is_empty() {
                    self.reads.push_front(Finds::Bytes(left))?;
                }
                self.given.extend_from_slice(piece.as_slice())?;
                Ok(Finds::Bytes(piece))
            }
            Some(other) => Ok(other),
            None => Ok(Finds::Later),
        }
    }

    fn write(&mut self, bytes: &[u8]) -> Result<Takes, AllocError> {
        let takes = self.writes.pop_front().unwrap_or(Takes::Upto(bytes.len()));
        match takes {
            Takes::Upto(most) => {
                let count = most.min(bytes.len());
                self.taken
                    .extend_from_slice(bytes.get(..count).unwrap_or(b""))?;
                Ok(Takes::Upto(count))
            }
            other => Ok(other),
        }
    }
}
