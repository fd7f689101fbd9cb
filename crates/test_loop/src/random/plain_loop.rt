//! A plain loop over plain ports, written from docs/PROFILE.md and docs/DEFINITIONS.md alone. It can be told to make a
//! slip, so that it is seen whether the comparison would notice one.
use super::plain_ports::PlainPorts;
use super::scripts::{Finds, Happens, Scene, Takes};
use oracle_server::Plain;
use oracle_server::plain::Waiting;
use oracle_server::records::Arrival;
use std::alloc::{AllocError, Global};

/// Ports have lower numbers.
pub const PORTS: u64 = 40;

/// How many feeds may be open.
const FEEDS: usize = 16;

/// What the plain loop does wrong.
#[derive(Clone, Copy, Drop, PartialEq, Eq)]
pub enum Slip {
    Nothing,
    /// A port that had nothing to read goes on being read.
    StaysReadable,
    /// A port that took nothing goes on being written to.
    StaysWritable,
    ReadsOnceMore,
    WritesOnceMore,
    /// What a client sends is taken for the first client's.
    WrongClient,
    /// A port that ended or failed is neither shut nor forgotten.
    StaysOpen,
    /// The beginning of a record is forgotten at the end of a turn.
    LosesTheRest,
    /// The passes are made by falling number.
    FallsByNumber,
    OneClientMore,
    OneFeedMore,
    /// A client is read without regard to its room.
    AsksForMore,
    /// A port that may be written to is taken for one that may be read.
    MarksTheOther,
    /// A turn that heard a failure makes its passes all the same.
    PassesAfterFailure,
    /// A write of which nothing was taken is made again at once.
    WritesAgain,
    /// The connection of a client whose transfer is over stays.
    StaysAtTheEnd,
    /// A record that is refused is not counted.
    CountsNoRefusal,
    /// What a port took is handed to it again.
    TakesNothingAway,
}

/// All slips.
pub static SLIPS: [Slip; 17] = [
    Slip::StaysReadable,
    Slip::StaysWritable,
    Slip::ReadsOnceMore,
    Slip::WritesOnceMore,
    Slip::WrongClient,
    Slip::StaysOpen,
    Slip::LosesTheRest,
    Slip::FallsByNumber,
    Slip::OneClientMore,
    Slip::OneFeedMore,
    Slip::AsksForMore,
    Slip::MarksTheOther,
    Slip::PassesAfterFailure,
    Slip::WritesAgain,
    Slip::StaysAtTheEnd,
    Slip::CountsNoRefusal,
    Slip::TakesNothingAway,
];

/// What is seen of a turn.
#[derive(Clone, Copy, Drop, PartialEq, Eq)]
pub struct Seen {
    /// The ports could not say what happened.
    pub has_failed: bool,
    pub happenings: usize,
    pub quiet: bool,
    /// How many records were refused.
    pub refused: u64,
    pub clients: usize,
    pub feeds: usize,
}

/// A port that is open.
#[derive(Drop)]
struct PlainSeat {
    port: u64,
    /// The number of its client; none of a feed.
    client: Option<usize>,
    /// The beginning of a record, of a feed.
    rest: Vec<u8>,
    readable: bool,
    writable: bool,
}

#[derive(Drop)]
pub struct PlainLoop {
    alloc: Global,
    plain: Plain,
    pub ports: PlainPorts,
    seats: Vec<PlainSeat>,
    most: usize,
    limit: usize,
    slip: Slip,
}

impl PlainLoop {
    pub fn new(alloc: Global, scene: &Scene, slip: Slip) -> Result<PlainLoop, AllocError> {
        Ok(PlainLoop {
            alloc,
            plain: Plain::new(alloc, &scene.centre),
            ports: PlainPorts::new(alloc, scene)?,
            seats: Vec::new(alloc),
            most: scene.most,
            limit: scene.limit,
            slip,
        })
    }

    /// A number, or one more where this slip is made.
    fn more(&self, number: usize, slip: Slip) -> usize {
        if self.slip == slip {
            number.saturating_add(1)
        } else {
            number
        }
    }

    fn clients(&self) -> usize {
        let mut count: usize = 0;
        for seat in self.seats.as_slice() {
            if seat.client.is_some() {
                count = count.saturating_add(1);
            }
        }
        count
    }

    fn feeds(&self) -> usize {
        self.seats.len().saturating_sub(self.clients())
    }

    /// The place of an open port.
    fn place(&self, port: u64) -> Option<usize> {
        for (place, seat) in self.seats.iter().enumerate() {
            if seat.port == port {
                return Some(place);
            }
        }
        None
    }

    fn sit(&mut self, port: u64, client: Option<usize>) -> Result<(), AllocError> {
        self.seats.push(PlainSeat {
            port,
            client,
            rest: Vec::new(self.alloc),
            readable: true,
            writable: true,
        })?;
        Ok(())
    }

    fn join(&mut self, port: u64, address: usize) -> Result<(), AllocError> {
        if self.clients() >= self.more(self.most, Slip::OneClientMore) {
            return self.ports.shut(port);
        }
        let client = self.plain.connect(address)?;
        self.sit(port, Some(client))
    }

    fn join_feed(&mut self, port: u64) -> Result<(), AllocError> {
        if self.feeds() >= self.more(FEEDS, Slip::OneFeedMore) {
            return self.ports.shut(port);
        }
        self.sit(port, None)
    }

    /// An open port may be written to, or read.
    fn mark(&mut self, port: u64, is_writable: bool) {
        for seat in self.seats.as_mut_slice() {
            if seat.port == port && is_writable {
                seat.writable = true;
            } else if seat.port == port {
                seat.readable = true;
            }
        }
    }

    fn happened(&mut self, happens: Happens) -> Result<(), AllocError> {
        match happens {
            Happens::Joins(port, address) => self.join(port, address)?,
            Happens::FeedJoins(port) => self.join_feed(port)?,
            Happens::MayBeRead(port) => self.mark(port, false),
            Happens::MayBeWritten(port) => {
                let is_writable = self.slip != Slip::MarksTheOther;
                self.mark(port, is_writable);
            }
            Happens::Quiet => {}
        }
        Ok(())
    }

    fn hear(&mut self, seen: &mut Seen) -> Result<(), AllocError> {
        for _ in 0..self.limit {
            match self.ports.next() {
                None => {
                    seen.has_failed = true;
                    return Ok(());
                }
                Some(Happens::Quiet) => {
                    seen.quiet = true;
                    return Ok(());
                }
                Some(happens) => {
                    seen.happenings = seen.happenings.saturating_add(1);
                    self.happened(happens)?;
                }
            }
        }
        Ok(())
    }

    /// A client's port is over. Whether it stays open.
    fn ends(&mut self, port: u64, client: usize) -> Result<bool, AllocError> {
        if self.slip == Slip::StaysOpen {
            return Ok(true);
        }
        self.ports.shut(port)?;
        self.plain.close(client);
        Ok(false)
    }

    /// The reads of a pass over a client's port. Whether it stays open.
    fn read_client(&mut self, seat: &mut PlainSeat, client: usize) -> Result<bool, AllocError> {
        for _ in 0..self.more(self.limit, Slip::ReadsOnceMore) {
            let room = self.plain.room(client);
            if !seat.readable || room == 0 {
                return Ok(true);
            }
            let most = if self.slip == Slip::AsksForMore {
                1024
            } else {
                room
            };
            match self.ports.read(seat.port, most)? {
                Finds::Bytes(bytes) => {
                    let sender = if self.slip == Slip::WrongClient {
                        0
                    } else {
                        client
                    };
                    self.plain.receive(sender, bytes.as_slice())?;
                }
                Finds::Later => {
                    seat.readable = self.slip == Slip::StaysReadable;
                    return Ok(true);
                }
                Finds::TheEnd | Finds::Failure => return self.ends(seat.port, client),
            }
        }
        Ok(true)
    }

    /// So many bytes were taken. Whether the pass goes on.
    fn took(&mut self, client: usize, count: usize) -> Result<bool, AllocError> {
        if self.slip != Slip::TakesNothingAway {
            let _handed = self.plain.take(client, count)?;
        }
        Ok(count > 0 || self.slip == Slip::WritesAgain)
    }

    /// The writes of a pass over a client's port. Whether it stays open.
    fn write_client(&mut self, seat: &mut PlainSeat, client: usize) -> Result<bool, AllocError> {
        for _ in 0..self.more(self.limit, Slip::WritesOnceMore) {
            if !seat.writable {
                return Ok(true);
            }
            let bytes = match self.plain.waiting(client)? {
                Waiting::Bytes(bytes) => bytes,
                Waiting::Nothing => return Ok(true),
                Waiting::TheEnd if self.slip == Slip::StaysAtTheEnd => return Ok(true),
                Waiting::TheEnd => return self.ends(seat.port, client),
            };
            match self.ports.write(seat.port, bytes.as_slice())? {
                Takes::Upto(count) => {
                    if !self.took(client, count)? {
                        return Ok(true);
                    }
                }
                Takes::Later => {
                    seat.writable = self.slip == Slip::StaysWritable;
                    return Ok(true);
                }
                Takes::Failure => return self.ends(seat.port, client),
            }
        }
        Ok(true)
    }

    /// A record came. It is refused if it was not made for the scene, is broken or is no station's.
    fn came(
        &mut self,
        whole: &[u8],
        arrivals: &[Arrival],
        seen: &mut Seen,
    ) -> Result<(), AllocError> {
        let mut is_taken = false;
        for arrival in arrivals {
            if arrival.bytes.as_slice() == whole {
                is_taken = self.plain.arrive(arrival)?;
                break;
            }
        }
        if !is_taken && self.slip != Slip::CountsNoRefusal {
            seen.refused = seen.refused.saturating_add(1);
        }
        Ok(())
    }

    /// More bytes of a feed came, at most as many as a record has.
    fn fed(
        &mut self,
        seat: &mut PlainSeat,
        arrivals: &[Arrival],
        seen: &mut Seen,
    ) -> Result<(), AllocError> {
        let Some((whole, left)) = seat.rest.as_slice().split_at_checked(512) else {
            return Ok(());
        };
        self.came(whole, arrivals, seen)?;
        seat.rest = left.to_vec(self.alloc)?;
        Ok(())
    }

    /// A feed's port is over. Whether it stays open.
    fn feed_ends(&mut self, port: u64) -> Result<bool, AllocError> {
        if self.slip == Slip::StaysOpen {
            return Ok(true);
        }
        self.ports.shut(port)?;
        Ok(false)
    }

    /// The reads of a pass over a feed's port. Whether it stays open.
    fn read_feed(
        &mut self,
        seat: &mut PlainSeat,
        arrivals: &[Arrival],
        seen: &mut Seen,
    ) -> Result<bool, AllocError> {
        for _ in 0..self.more(self.limit, Slip::ReadsOnceMore) {
            if !seat.readable {
                return Ok(true);
            }
            match self.ports.read(seat.port, 512)? {
                Finds::Bytes(bytes) => {
                    seat.rest.extend_from_slice(bytes.as_slice())?;
                    self.fed(seat, arrivals, seen)?;
                }
                Finds::Later => seat.readable = self.slip == Slip::StaysReadable,
                Finds::TheEnd | Finds::Failure => return self.feed_ends(seat.port),
            }
        }
        Ok(true)
    }

    /// The pass over a port. Whether it stays open.
    fn pass(
        &mut self,
        seat: &mut PlainSeat,
        arrivals: &[Arrival],
        seen: &mut Seen,
    ) -> Result<bool, AllocError> {
        if let Some(client) = seat.client {
            return Ok(self.read_client(seat, client)? && self.write_client(seat, client)?);
        }
        let stays = self.read_feed(seat, arrivals, seen)?;
        if self.slip == Slip::LosesTheRest {
            seat.rest.clear();
        }
        Ok(stays)
    }

    /// The passes over all ports that are open, by rising number.
    fn passes(&mut self, arrivals: &[Arrival], seen: &mut Seen) -> Result<(), AllocError> {
        for number in 0..PORTS {
            let port = if self.slip == Slip::FallsByNumber {
                PORTS.saturating_sub(number).saturating_sub(1)
            } else {
                number
            };
            let place = self.place(port).unwrap_or(self.seats.len());
            if place < self.seats.len() {
                let mut seat = self.seats.remove(place);
                if self.pass(&mut seat, arrivals, seen)? {
                    self.seats.push(seat)?;
                }
            }
        }
        Ok(())
    }

    /// A turn.
    pub fn turn(&mut self, arrivals: &[Arrival]) -> Result<Seen, AllocError> {
        let mut seen = Seen {
            has_failed: false,
            happenings: 0,
            quiet: false,
            refused: 0,
            clients: 0,
            feeds: 0,
        };
        self.hear(&mut seen)?;
        if !seen.has_failed || self.slip == Slip::PassesAfterFailure {
            self.passes(arrivals, &mut seen)?;
        }
        if seen.has_failed {
            seen.happenings = 0;
        }
        seen.clients = self.clients();
        seen.feeds = self.feeds();
        Ok(seen)
    }
}
