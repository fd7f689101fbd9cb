//! What the connections of a reading, its files and its state have to say to each other.
use std::cell::Cell;

/// How many connections were begun, and whether a state is to be kept at once.
#[derive(Drop)]
pub struct Moment {
    connections: Cell<u64>,
    is_urgent: Cell<bool>,
}

impl Moment {
    /// Before the first connection.
    pub fn new() -> Moment {
        Moment {
            connections: Cell::new(0),
            is_urgent: Cell::new(false),
        }
    }

    /// A connection is begun.
    pub fn connect(&self) {
        self.connections.set(self.connections.get().wrapping_add(1));
    }

    /// A number of the connection that is read.
    pub fn connection(&self) -> u64 {
        self.connections.get()
    }

    /// A state is to be kept at once.
    pub fn hurry(&self) {
        self.is_urgent.set(true);
    }

    /// Whether a state is to be kept at once, which is done then.
    pub fn take_hurry(&self) -> bool {
        self.is_urgent.replace(false)
    }
}
