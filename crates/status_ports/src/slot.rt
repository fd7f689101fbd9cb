//! One place of the status port: a connection that is held there, and its request and answer.
ghost use Rattle.std.specs.Prelude.{◌≡◌, IfOk};
ghost use Rattle.status_ports.specs.Doors.{AskersValue, IsAllowed, IsHeldFor};

use crate::door::Visitor;
use crate::exchange::Exchange;
use mio::net::TcpStream;
use status_page::{StatusRequest, Templates};
use std::alloc::{AllocError, Global};
use std::io::{self, ErrorKind, Read, Write};
use std::net::Shutdown;

/// How many bytes a read asks for.
const READ: usize = 1_024;

/// How many bytes a write hands over at most, so that no answer holds up a turn.
const WRITE: usize = 262_144;

/// What a connection is in the middle of.
#[derive(Clone, Copy, Drop)]
pub enum Stage {
    /// Its request comes.
    Reading,
    /// Its request waits for an answer.
    Asked(StatusRequest),
    /// Its answer goes.
    Sending,
    /// All was sent; what it still sends is dropped until it closes.
    Ending,
}

/// What a read or a write came to.
#[derive(Clone, Copy, Drop)]
enum Step {
    Bytes(usize),
    Later,
    Over,
}

/// What an answer of the system is.
fn step_of(answer: io::Result<usize>) -> Step {
    match answer {
        Ok(0) => Step::Over,
        Ok(count) => Step::Bytes(count),
        Err(error) => match error.kind() {
            ErrorKind::WouldBlock | ErrorKind::Interrupted => Step::Later,
            _ => Step::Over,
        },
    }
}

/// Sends what is still to be sent, as much as is taken at once. Whether the connection stays.
fn send(stream: &TcpStream, stage: &mut Stage, exchange: &mut Exchange) -> bool {
    let mut to = stream;
    let rest = exchange.rest();
    let piece = &rest[..rest.len().min(WRITE)];
    let count = match to.write(piece) {
        Ok(count) => count.min(piece.len()),
        Err(error) => {
            return matches!(error.kind(), ErrorKind::WouldBlock | ErrorKind::Interrupted);
        }
    };
    exchange.sent(count);
    if exchange.rest().is_empty() {
        *stage = Stage::Ending;
        return stream.shutdown(Shutdown::Write).is_ok();
    }
    true
}

/// Reads what came of the request of a server of a name, once. Whether the connection stays.
fn receive(stream: &TcpStream, stage: &mut Stage, exchange: &mut Exchange, name: &[u8]) -> bool {
    let mut buffer = [0u8; READ];
    let mut from = stream;
    let count = match step_of(from.read(&mut buffer)) {
        Step::Bytes(count) => count.min(READ),
        Step::Later => return true,
        Step::Over => return false,
    };
    if exchange.add(&buffer[..count]).is_err() {
        return false;
    }
    if let Some(request) = exchange.asked(name) {
        *stage = Stage::Asked(request);
    }
    true
}

/// Drops what still comes, a read of it. Whether the connection stays.
fn drain(stream: &TcpStream) -> bool {
    let mut buffer = [0u8; READ];
    let mut from = stream;
    !matches!(step_of(from.read(&mut buffer)), Step::Over)
}

/// A place. Its buffers are kept for the connections that follow.
#[derive(Drop)]
pub struct Slot {
    pub visitor: Option<Visitor>,
    pub stage: Stage,
    pub exchange: Exchange,
}

impl Slot {
    /// A place where no connection is. Only memory can lack.
    pub fn new(alloc: Global) -> Result<Slot, AllocError>
        ensures { IfOk result (λ slot. (a : AskersValue) → IsHeldFor a slot) }
    {
        Ok(Slot {
            visitor: None,
            stage: Stage::Reading,
            exchange: Exchange::new(alloc)?,
        })
    }

    /// A connection comes, and takes the place of the one before it.
    pub fn begin(&mut self, visitor: Visitor, now: u64)
        ensures { (a : AskersValue) → IsAllowed a visitor → IsHeldFor a self.new }
    {
        self.visitor = Some(visitor);
        self.stage = Stage::Reading;
        self.exchange.begin(now);
    }

    /// Whether the connection stays after one more step, for a server of a name.
    fn goes_on(&mut self, now: u64, name: &[u8]) -> bool
        ensures { self.new.visitor ≡ self.old.visitor }
    {
        let Some(visitor) = &self.visitor else {
            return false;
        };
        if self.exchange.is_late(now) {
            return false;
        }
        let stream = &visitor.stream;
        match self.stage {
            Stage::Reading => receive(stream, &mut self.stage, &mut self.exchange, name),
            Stage::Asked(_) => true,
            Stage::Sending => send(stream, &mut self.stage, &mut self.exchange),
            Stage::Ending => drain(stream),
        }
    }

    /// One step, for a server of a name.
    pub fn step(&mut self, now: u64, name: &[u8])
        ensures { (a : AskersValue) → IsHeldFor a self.old → IsHeldFor a self.new }
    {
        if !self.goes_on(now, name) {
            self.visitor = None;
        }
    }

    /// What is asked, if that waits for an answer.
    pub fn asked(&self) -> Option<StatusRequest> {
        match (&self.visitor, self.stage) {
            (Some(_), Stage::Asked(request)) => Some(request),
            _ => None,
        }
    }

    /// The answer is to be sent: a body, before which stands its head. Another text is used for single values. Without
    /// memory for it, the connection is closed.
    pub fn answer(
        &mut self,
        value: &mut Vec<u8>,
        templates: &Templates,
        request: StatusRequest,
        is_silent: bool,
        body: &[u8],
    )
        ensures { (a : AskersValue) → IsHeldFor a self.old → IsHeldFor a self.new }
    {
        let written = self
            .exchange
            .answer(value, templates, request, is_silent, body);
        if written.is_err() {
            self.visitor = None;
        }
        self.stage = Stage::Sending;
    }
}
