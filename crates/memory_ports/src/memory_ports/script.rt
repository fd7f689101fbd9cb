//! What ports in memory are to answer. At the end of a list nothing more happens, a read finds nothing for now, and a
//! write takes all.
ghost use Rattle.std.specs.Prelude.{◌≡◌, length, ◌<◌, ◌≤◌};
ghost use Rattle.ports.specs.Calls.{IsGiven, IsTaken};

use ports::{Got, Happening, PortFault, Put};

/// What a read is to answer.
#[derive(Drop)]
pub enum ReadAnswer {
    /// These bytes, in as many reads as they take; none is Later.
    Piece(Vec<u8>),
    Later,
    Closed,
    Fail,
}

/// What a write is to answer.
#[derive(Clone, Copy, Drop)]
pub enum WriteAnswer {
    /// It takes at most so many bytes.
    Upto(usize),
    Later,
    Fail,
}

/// What a port is to answer.
#[derive(Drop)]
pub struct PortScript {
    pub port: u64,
    pub reads: Vec<ReadAnswer>,
    pub writes: Vec<WriteAnswer>,
    next_read: usize,
    /// How many bytes of the present piece were given.
    given: usize,
    next_write: usize,
}

/// What happens, and what each port is to answer.
#[derive(Drop)]
pub struct Script {
    pub happenings: Vec<Happening>,
    pub ports: Vec<PortScript>,
    next: usize,
}

// A beginning of the piece, from `from` on, in the buffer.
fn give(piece: &[u8], from: usize, buffer: &mut [u8]) -> usize
    ensures { result ≤ length buffer.new }
{
    let left = piece.len() - from.min(piece.len());
    let count = left.min(buffer.len());
    let start = from.min(piece.len());
    buffer[..count].copy_from_slice(&piece[start..start + count]);
    count
}

// The port that joins.
fn joins(happening: Happening) -> Option<u64> {
    match happening {
        Happening::Joined(port, _) => Some(port),
        Happening::JoinedFeed(port) => Some(port),
        _ => None,
    }
}

// A port joins that joined among the earlier happenings.
fn joined_before(earlier: &[Happening], happening: Happening) -> bool {
    match joins(happening) {
        Some(port) => earlier.iter().any(|other| joins(*other) == Some(port)),
        None => false,
    }
}

impl PortScript {
    /// The answers of a port.
    pub fn new(port: u64, reads: Vec<ReadAnswer>, writes: Vec<WriteAnswer>) -> PortScript
        ensures port { result.port ≡ port }
        ensures reads { result.reads ≡ reads }
        ensures writes { result.writes ≡ writes }
    {
        PortScript {
            port,
            reads,
            writes,
            next_read: 0,
            given: 0,
            next_write: 0,
        }
    }

    fn read(&mut self, buffer: &mut [u8]) -> Result<Got, PortFault>
        requires { 0 < length buffer.old }
        ensures { IsGiven result (length buffer.new) }
    {
        let Some(answer) = self.reads.get(self.next_read) else {
            return Ok(Got::Later);
        };
        match answer {
            ReadAnswer::Piece(piece) => {
                let count = give(piece.as_slice(), self.given, buffer);
                let given = self.given.saturating_add(count);
                if piece.len() <= given {
                    self.next_read = self.next_read.saturating_add(1);
                    self.given = 0;
                } else {
                    self.given = given;
                }
                if count == 0 {
                    Ok(Got::Later)
                } else {
                    Ok(Got::Bytes(count))
                }
            }
            ReadAnswer::Later => {
                self.next_read = self.next_read.saturating_add(1);
                Ok(Got::Later)
            }
            ReadAnswer::Closed => {
                self.next_read = self.next_read.saturating_add(1);
                Ok(Got::Closed)
            }
            ReadAnswer::Fail => {
                self.next_read = self.next_read.saturating_add(1);
                Err(PortFault)
            }
        }
    }

    fn write(&mut self, count: usize) -> Result<Put, PortFault>
        ensures { IsTaken result count }
    {
        let Some(answer) = self.writes.get(self.next_write) else {
            return Ok(Put::Took(count));
        };
        let answer = *answer;
        self.next_write = self.next_write.saturating_add(1);
        match answer {
            WriteAnswer::Upto(most) => Ok(Put::Took(count.min(most))),
            WriteAnswer::Later => Ok(Put::Later),
            WriteAnswer::Fail => Err(PortFault),
        }
    }

    // Every write takes all from now on.
    fn takes_all(&self) -> bool {
        self.next_write >= self.writes.len()
    }
}

impl Script {
    /// The happenings, and the answers of each port.
    pub fn new(happenings: Vec<Happening>, ports: Vec<PortScript>) -> Script
        ensures happenings { result.happenings ≡ happenings }
        ensures ports { result.ports ≡ ports }
    {
        Script {
            happenings,
            ports,
            next: 0,
        }
    }

    // What happens next; a port that joined before doesn't join again. At the end nothing more happens.
    pub(crate) fn next(&mut self) -> Happening {
        for at in self.next..self.happenings.len() {
            let happening = self.happenings[at];
            self.next = at + 1;
            if !joined_before(&self.happenings[..at], happening) {
                return happening;
            }
        }
        Happening::Quiet
    }

    pub(crate) fn read(&mut self, port: u64, buffer: &mut [u8]) -> Result<Got, PortFault>
        requires { 0 < length buffer.old }
        ensures { IsGiven result (length buffer.new) }
    {
        for script in self.ports.iter_mut() {
            if script.port == port {
                return script.read(buffer);
            }
        }
        Ok(Got::Later)
    }

    pub(crate) fn write(&mut self, port: u64, count: usize) -> Result<Put, PortFault>
        ensures { IsTaken result count }
    {
        for script in self.ports.iter_mut() {
            if script.port == port {
                return script.write(count);
            }
        }
        Ok(Put::Took(count))
    }

    // Every write to a port takes all from now on.
    pub(crate) fn takes_all(&self, port: u64) -> bool {
        for script in &self.ports {
            if script.port == port {
                return script.takes_all();
            }
        }
        true
    }
}
