//! A connection with the bytes that it took and has not sent, and those of a feed that were read ahead.
ghost use Rattle.std.specs.Prelude.{◌≡◌, ◌<◌, ◌≤◌, ◌↔◌, ◌||◌, ◌++◌, [], IsTrue, None, Ok, drop, is_none, length};
ghost use Rattle.std.specs.Prelude.{take, true};
ghost use Rattle.std.specs.Vec.{vec_capacity};
ghost use Rattle.ports.specs.Calls.{IsGiven, IsTaken};
ghost use Rattle.ports.specs.declared.answers.Put.TheVariants.{Took};
ghost use Rattle.ports_socket.specs.Admissions.{is_client};
ghost use Rattle.ports_socket.specs.Ends.{IsNoted};
ghost use Rattle.ports_socket.specs.Receipts.{IsReceived};
ghost use Rattle.ports_socket.specs.declared.peer.PeerKind.TheVariants.{Client, Feed};

use crate::ahead::{AheadPool, BLOCK, ReadAhead};
use crate::inflow::{PeerEnd, Ration};
use crate::peer::PeerKind;
use crate::pool::{BufferPool, ROOM, append, remove_front};
use crate::readiness::{PortNews, Readiness};
use crate::socket_io::{Receipt, SendOutcome, is_short, receive, send};
use mio::net::TcpStream;
use ports::{Got, PortFault, Put};

#[derive(Drop)]
pub struct Connection {
    pub number: u64,
    pub kind: PeerKind,
    pub stream: TcpStream,
    /// Bytes that were taken and are not sent yet; a buffer is here only while there are some, or until the port's turn
    /// is over.
    pub unsent: Option<Vec<u8>>,
    /// Bytes of a feed that were read ahead.
    pub ahead: Option<ReadAhead>,
    /// How much of a client's bytes was given since the last poll.
    pub ration: Ration,
    /// The end of what a client sends.
    pub end: PeerEnd,
    /// The system takes no more for now.
    pub is_full: bool,
    /// A write was answered Later, and Writable was not told since.
    pub owes_writable: bool,
    /// All that the system had was read.
    is_drained: bool,
    /// The peer sends no more.
    is_over: bool,
    pub has_failed: bool,
    /// It is told after the next poll.
    is_listed: bool,
    ghost of_feeds: { is_client kind ≡ true → is_none ahead ≡ true },
}

impl Connection {
    ghost use Rattle.ports_socket.specs.Connections.{ahead_in, socket_of, value_of};
    ghost use Rattle.ports_socket.specs.Reads.{GivesInOrder, IsOver, ReadsBy, given_bytes, received_bytes};
    ghost use Rattle.ports_socket.specs.Waiting.{HaveGone, IsSettled, TakesInOrder, room_in, waiting_in};

    /// Nothing waits, and nothing was read ahead.
    pub fn new(number: u64, kind: PeerKind, stream: TcpStream) -> Connection
        ensures { value_of result ≡ record { number = number; stream = stream; waiting = []; room = 0; ahead = [] } }
    {
        Connection {
            number,
            kind,
            stream,
            unsent: None,
            ahead: None,
            ration: Ration::new(),
            end: PeerEnd::new(),
            is_full: false,
            owes_writable: false,
            is_drained: false,
            is_over: false,
            has_failed: false,
            is_listed: false,
        }
    }

    /// An event came, after so many polls. What waits is sent as far as the system takes it.
    pub fn mark(&mut self, event: Readiness, polls: u64, pool: &mut BufferPool) -> PortNews
        ensures gone { HaveGone (waiting_in self.old.unsent) (waiting_in self.new.unsent) }
        ensures socket { socket_of self.new ≡ socket_of self.old }
        ensures ahead { self.new.ahead ≡ self.old.ahead }
    {
        let comes = event.is_readable || event.is_over;
        if comes {
            self.is_drained = false;
        }
        self.is_over = self.is_over || event.is_over;
        if event.is_writable && self.resume(pool) > 0 {
            self.end.note_move(polls);
        }
        let writable = event.is_writable && self.owes_writable && !self.is_full;
        if writable {
            self.owes_writable = false;
        }
        PortNews {
            readable: comes || self.has_failed || self.end.is_found(),
            writable,
        }
    }

    /// Reads after so many polls. What was read ahead is given first. A client's connection gives no more than its
    /// ration, and its end only once nothing moved to it from one poll to the next. A feed's is read ahead, from its
    /// first read on.
    pub fn read(
        &mut self,
        buffer: &mut [u8],
        polls: u64,
        aheads: &mut AheadPool,
    ) -> Result<Got, PortFault>
        requires { 0 < length buffer.old }
        ensures given { IsGiven result (length buffer.new) }
        ensures by { ReadsBy self.old.kind polls self.old self.new result }
        ensures gives { GivesInOrder (ahead_in self.old.ahead) (given_bytes result buffer.new)
            (ahead_in self.new.ahead) }
        ensures socket { socket_of self.new ≡ socket_of self.old }
        ensures unsent { self.new.unsent ≡ self.old.unsent }
    {
        if self.has_failed {
            return Err(PortFault);
        }
        match self.kind {
            PeerKind::Client => self.read_client(buffer, polls),
            PeerKind::Feed => self.read_feed(buffer, aheads),
        }
    }

    fn read_client(&mut self, buffer: &mut [u8], polls: u64) -> Result<Got, PortFault>
        requires { 0 < length buffer.old }
        ensures given { IsGiven result (length buffer.new) }
        ensures by { ReadsBy Client polls self.old self.new result }
        ensures ahead { self.new.ahead ≡ self.old.ahead }
        ensures socket { socket_of self.new ≡ socket_of self.old }
        ensures unsent { self.new.unsent ≡ self.old.unsent }
    {
        let most = self.ration.left(polls).min(buffer.len());
        if most == 0 || self.has_nothing() {
            return Ok(Got::Later);
        }
        let receipt = receive(&self.stream, &mut buffer[..most]);
        self.is_drained = is_short(receipt, most);
        match receipt {
            Receipt::Bytes(count) => {
                self.ration.give(polls, count);
                Ok(Got::Bytes(count))
            }
            Receipt::WouldBlock => Ok(Got::Later),
            Receipt::Closed => Ok(self.find_end(polls)),
            Receipt::Failed => Err(PortFault),
        }
    }

    /// The system has nothing more to be read, and no end.
    fn has_nothing(&self) -> bool {
        self.is_drained && !self.is_over
    }

    /// The client sends no more. Whether that is told already.
    fn find_end(&mut self, polls: u64) -> Got
        ensures given { IsGiven (Ok result) 0 }
        ensures by { ReadsBy Client polls self.old self.new (Ok result) }
        ensures ahead { self.new.ahead ≡ self.old.ahead }
        ensures socket { socket_of self.new ≡ socket_of self.old }
        ensures unsent { self.new.unsent ≡ self.old.unsent }
    {
        if self.is_finished(polls) {
            return Got::Closed;
        }
        self.end.find(polls);
        Got::Later
    }

    fn is_finished(&self, polls: u64) -> bool
        ensures { IsTrue result ↔ IsOver self.now polls }
    {
        self.unsent.is_none() && !self.owes_writable && self.end.is_past(polls)
    }

    fn read_feed(&mut self, buffer: &mut [u8], aheads: &mut AheadPool) -> Result<Got, PortFault>
        requires room { 0 < length buffer.old }
        requires feed { self.old.kind ≡ Feed }
        ensures given { IsGiven result (length buffer.new) }
        ensures gives { GivesInOrder (ahead_in self.old.ahead) (given_bytes result buffer.new)
            (ahead_in self.new.ahead) }
        ensures socket { socket_of self.new ≡ socket_of self.old }
        ensures unsent { self.new.unsent ≡ self.old.unsent }
    {
        let count = self.give_ahead(buffer, aheads);
        if count > 0 {
            return Ok(Got::Bytes(count));
        }
        if self.has_nothing() {
            return Ok(Got::Later);
        }
        match self.receive_ahead(buffer) {
            Receipt::Bytes(count) => Ok(Got::Bytes(count)),
            Receipt::WouldBlock => Ok(Got::Later),
            Receipt::Closed => Ok(Got::Closed),
            Receipt::Failed => Err(PortFault),
        }
    }

    /// Gives the first of what was read ahead, as much as there is and as fits. From now on there is room to read ahead
    /// if there is any.
    fn give_ahead(&mut self, buffer: &mut [u8], aheads: &mut AheadPool) -> usize
        requires room { 0 < length buffer.old }
        requires feed { self.old.kind ≡ Feed }
        ensures count { result ≤ length buffer.new }
        ensures none { result ≡ 0 → ahead_in self.old.ahead ≡ [] }
        ensures given { take result buffer.new ≡ take result (ahead_in self.old.ahead) }
        ensures left { ahead_in self.new.ahead ≡ drop result (ahead_in self.old.ahead) }
        ensures kind { self.new.kind ≡ self.old.kind }
        ensures socket { socket_of self.new ≡ socket_of self.old }
        ensures unsent { self.new.unsent ≡ self.old.unsent }
    {
        if let Some(ahead) = &mut self.ahead {
            return ahead.move_into(buffer);
        }
        self.ahead = aheads.lend();
        0
    }

    /// Reads once from the system, and as far ahead as there is room for.
    fn receive_ahead(&mut self, buffer: &mut [u8]) -> Receipt
        requires room { 0 < length buffer.old }
        requires feed { self.old.kind ≡ Feed }
        requires none { ahead_in self.old.ahead ≡ [] }
        ensures received { IsReceived result (length buffer.new) }
        ensures gives { GivesInOrder [] (received_bytes result buffer.new) (ahead_in self.new.ahead) }
        ensures socket { socket_of self.new ≡ socket_of self.old }
        ensures unsent { self.new.unsent ≡ self.old.unsent }
    {
        let asked = buffer.len();
        let Some(ahead) = &mut self.ahead else {
            let receipt = receive(&self.stream, buffer);
            self.is_drained = is_short(receipt, asked);
            return receipt;
        };
        let receipt = ahead.receive(&self.stream);
        self.is_drained = is_short(receipt, BLOCK);
        match receipt {
            Receipt::Bytes(_) => Receipt::Bytes(ahead.move_into(buffer)),
            Receipt::WouldBlock => Receipt::WouldBlock,
            Receipt::Closed => Receipt::Closed,
            Receipt::Failed => Receipt::Failed,
        }
    }

    /// Takes bytes, after so many polls. They are sent later, or at once if there is no buffer for them.
    pub fn write(
        &mut self,
        bytes: &[u8],
        polls: u64,
        pool: &mut BufferPool,
    ) -> Result<Put, PortFault>
        ensures taken { IsTaken result (length bytes.now) }
        ensures moved { IsNoted result self.new.end polls }
        ensures order { TakesInOrder (waiting_in self.old.unsent) bytes.now result (waiting_in self.new.unsent) }
        ensures socket { socket_of self.new ≡ socket_of self.old }
        ensures ahead { self.new.ahead ≡ self.old.ahead }
    {
        let put = self.put_bytes(bytes, pool);
        match put {
            Ok(Put::Took(_)) => self.end.note_move(polls),
            Ok(Put::Later) => self.owes_writable = true,
            Err(PortFault) => {}
        }
        put
    }

    fn put_bytes(&mut self, bytes: &[u8], pool: &mut BufferPool) -> Result<Put, PortFault>
        ensures taken { IsTaken result (length bytes.now) }
        ensures order { TakesInOrder (waiting_in self.old.unsent) bytes.now result (waiting_in self.new.unsent) }
        ensures socket { socket_of self.new ≡ socket_of self.old }
        ensures ahead { self.new.ahead ≡ self.old.ahead }
    {
        self.make_room(bytes.len(), pool);
        if self.has_failed {
            return Err(PortFault);
        }
        self.gather(bytes, pool)
    }

    /// Sends what waits, if so many bytes have no room beside it.
    fn make_room(&mut self, count: usize, pool: &mut BufferPool)
        ensures gone { HaveGone (waiting_in self.old.unsent) (waiting_in self.new.unsent) }
        ensures socket { socket_of self.new ≡ socket_of self.old }
        ensures ahead { self.new.ahead ≡ self.old.ahead }
    {
        if self.unsent_count().saturating_add(count) > ROOM {
            self.flush(pool);
        }
    }

    /// Adds as many bytes as there is room for to those that wait.
    fn gather(&mut self, bytes: &[u8], pool: &mut BufferPool) -> Result<Put, PortFault>
        ensures taken { IsTaken result (length bytes.now) }
        ensures order { TakesInOrder (waiting_in self.old.unsent) bytes.now result (waiting_in self.new.unsent) }
        ensures socket { socket_of self.new ≡ socket_of self.old }
        ensures ahead { self.new.ahead ≡ self.old.ahead }
    {
        if self.unsent.is_none() {
            self.unsent = pool.lend();
        }
        let Some(unsent) = &mut self.unsent else {
            return self.write_now(bytes);
        };
        let room = ROOM - unsent.len().min(ROOM);
        let count = room.min(bytes.len());
        if count == 0 || unsent.extend_from_slice(&bytes[..count]).is_err() {
            return Ok(Put::Later);
        }
        Ok(Put::Took(count))
    }

    /// Makes room for bytes beside those that wait, and says for how many there is some: none where a write may have to
    /// wait. An empty buffer that is borrowed for that is given back when what waits is sent.
    pub fn reserve(&mut self, most: usize, pool: &mut BufferPool) -> usize
        ensures room { result ≤ room_in self.new.unsent }
        ensures most { result ≤ most }
        ensures gone { HaveGone (waiting_in self.old.unsent) (waiting_in self.new.unsent) }
        ensures socket { socket_of self.new ≡ socket_of self.old }
        ensures ahead { self.new.ahead ≡ self.old.ahead }
    {
        self.make_room(most, pool);
        if self.has_failed || self.owes_writable {
            return 0;
        }
        self.borrow(pool);
        self.room().min(most)
    }

    /// Borrows a buffer, if there is none and the system takes bytes.
    fn borrow(&mut self, pool: &mut BufferPool)
        ensures waiting { waiting_in self.new.unsent ≡ waiting_in self.old.unsent }
        ensures socket { socket_of self.new ≡ socket_of self.old }
        ensures ahead { self.new.ahead ≡ self.old.ahead }
    {
        if self.unsent.is_none() && !self.is_full {
            self.unsent = pool.lend();
        }
    }

    /// How many bytes have room in the buffer.
    fn room(&self) -> usize
        ensures { result ≡ room_in self.now.unsent }
    {
        match &self.unsent {
            Some(unsent) => unsent.capacity().saturating_sub(unsent.len()),
            None => 0,
        }
    }

    /// Takes all of some bytes, for which there is room, after so many polls. Nothing is copied if none wait: their
    /// buffer is kept then, and the empty one is given for it.
    pub fn take_all(&mut self, bytes: &mut Vec<u8>, polls: u64)
        requires some { 0 < length bytes.old.items }
        requires room { length bytes.old.items ≤ room_in self.old.unsent }
        ensures taken { waiting_in self.new.unsent ≡ waiting_in self.old.unsent ++ bytes.old.items }
        ensures capacity { vec_capacity bytes.old ≤ vec_capacity bytes.new }
        ensures moved { IsNoted (Ok (Took (length bytes.old.items))) self.new.end polls }
        ensures socket { socket_of self.new ≡ socket_of self.old }
        ensures ahead { self.new.ahead ≡ self.old.ahead }
    {
        if let Some(unsent) = &mut self.unsent {
            append(unsent, bytes);
        }
        self.end.note_move(polls);
    }

    /// Sends bytes that there is no buffer for.
    fn write_now(&mut self, bytes: &[u8]) -> Result<Put, PortFault>
        ensures taken { IsTaken result (length bytes.now) }
        ensures unsent { self.new.unsent ≡ self.old.unsent }
        ensures socket { socket_of self.new ≡ socket_of self.old }
        ensures ahead { self.new.ahead ≡ self.old.ahead }
    {
        let count = if self.is_full { 0 } else { self.send(bytes) };
        if self.has_failed {
            return Err(PortFault);
        }
        if count == 0 {
            return Ok(Put::Later);
        }
        Ok(Put::Took(count))
    }

    /// One write to the system, and how many bytes it took.
    fn send(&mut self, bytes: &[u8]) -> usize
        ensures count { result ≤ length bytes.now }
        ensures stuck { result < length bytes.now → (self.new.is_full || self.new.has_failed) ≡ true }
        ensures unsent { self.new.unsent ≡ self.old.unsent }
        ensures socket { socket_of self.new ≡ socket_of self.old }
        ensures ahead { self.new.ahead ≡ self.old.ahead }
    {
        match send(&self.stream, bytes) {
            SendOutcome::Took(count) => {
                self.is_full = count < bytes.len();
                count
            }
            SendOutcome::WouldBlock => {
                self.is_full = true;
                0
            }
            SendOutcome::Failed => {
                self.has_failed = true;
                0
            }
        }
    }

    /// The system takes bytes again. How many of those that wait it took.
    pub fn resume(&mut self, pool: &mut BufferPool) -> usize
        ensures gone { HaveGone (waiting_in self.old.unsent) (waiting_in self.new.unsent) }
        ensures socket { socket_of self.new ≡ socket_of self.old }
        ensures ahead { self.new.ahead ≡ self.old.ahead }
    {
        self.is_full = false;
        self.flush(pool)
    }

    /// Sends what waits, as far as the system takes it, and answers how many bytes went. A failure is told by the next
    /// read or write.
    pub fn flush(&mut self, pool: &mut BufferPool) -> usize
        ensures count { result ≤ length (waiting_in self.old.unsent) }
        ensures others_wait { waiting_in self.new.unsent ≡ drop result (waiting_in self.old.unsent) }
        ensures settled { IsSettled self.new }
        ensures socket { socket_of self.new ≡ socket_of self.old }
        ensures ahead { self.new.ahead ≡ self.old.ahead }
    {
        if self.is_full || self.has_failed {
            return 0;
        }
        let Some(mut unsent) = self.unsent.take() else {
            return 0;
        };
        if unsent.is_empty() {
            pool.take_back(unsent);
            return 0;
        }
        let count = self.send(unsent.as_slice());
        if count >= unsent.len() {
            pool.take_back(unsent);
            return count;
        }
        remove_front(&mut unsent, count);
        self.unsent = Some(unsent);
        count
    }

    pub fn unsent_count(&self) -> usize {
        match &self.unsent {
            Some(unsent) => unsent.len(),
            None => 0,
        }
    }

    /// Whether bytes wait until the system takes more.
    fn is_stuck(&self) -> bool {
        self.owes_writable || (self.is_full && self.unsent.is_some())
    }

    /// Whether there may be more to be read after the next poll, though nothing new comes: what is beyond the ration, a
    /// failure, or an end that was not told.
    pub fn is_due(&self, polls: u64) -> bool {
        self.has_failed
            || (self.ration.left(polls) == 0 && !self.has_nothing())
            || (self.end.is_found() && !self.is_stuck())
    }

    /// Whether it is told after the next poll.
    pub fn is_listed(&self) -> bool {
        self.is_listed
    }

    pub fn set_listed(&mut self, is_listed: bool)
        ensures { value_of self.new ≡ value_of self.old }
    {
        self.is_listed = is_listed;
    }

    /// The room to read ahead, if it has some. What was read ahead is dropped.
    pub fn take_ahead(&mut self) -> Option<ReadAhead>
        ensures { socket_of self.new ≡ socket_of self.old }
    {
        self.ahead.take()
    }

    pub fn has_failed(&self) -> bool {
        self.has_failed
    }

    pub fn has_taken(&self) -> bool {
        self.end.has_moved()
    }
}
