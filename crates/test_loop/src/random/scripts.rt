//! Scripts of ports: what happens, what each port gives, and what it takes.
use oracle_server::records::Arrival;
use oracle_server::sites::Centre;
use std::alloc::{AllocError, Global};

/// What happens at some port.
#[derive(Clone, Copy, Drop)]
pub enum Happens {
    /// A client joins from one of the three addresses.
    Joins(u64, usize),
    FeedJoins(u64),
    MayBeRead(u64),
    MayBeWritten(u64),
    Quiet,
}

/// What a read of a port finds.
#[derive(Drop)]
pub enum Finds {
    Bytes(Vec<u8>),
    Later,
    TheEnd,
    Failure,
}

/// What comes of a write.
#[derive(Clone, Copy, Drop)]
pub enum Takes {
    /// At most so many bytes are taken.
    Upto(usize),
    Later,
    Failure,
}

/// A line of a script.
#[derive(Drop)]
pub enum Line {
    Happens(Happens),
    Reads(u64, Finds),
    Writes(u64, Takes),
}

/// A script, and what it is played on.
#[derive(Drop)]
pub struct Scene {
    pub centre: Centre,
    /// How many clients may be connected.
    pub most: usize,
    pub turns: usize,
    /// How many happenings a turn has at most, and how many reads and writes a port has in it.
    pub limit: usize,
    /// Which call fails, counted from 1, or 0 if none does.
    pub due: u64,
    pub lines: Vec<Line>,
    /// The records of which the feeds are made.
    pub arrivals: Vec<Arrival>,
}

impl Finds {
    pub fn copy(&self, alloc: Global) -> Result<Finds, AllocError> {
        Ok(match self {
            Finds::Bytes(bytes) => Finds::Bytes(bytes.as_slice().to_vec(alloc)?),
            Finds::Later => Finds::Later,
            Finds::TheEnd => Finds::TheEnd,
            Finds::Failure => Finds::Failure,
        })
    }
}
