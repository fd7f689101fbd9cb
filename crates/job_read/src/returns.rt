//! Numbers of stations that don't follow on each other: the server is behind another one, or numbers anew, and may hand
//! records once more.
//!
//! A jump forth at the beginning of a connection is one, too, if all records of the station are asked for: a server
//! that numbers for itself may be ahead. To take one for such a server costs that files are read once, not to do so
//! doubles records. The first packet of a station is one in an archive, which may have records of it, and none in one
//! file: what stands there before is left as it is.
//!
//! A return is one of a station: the files of others are not read for it. But a station that is asked for by patterns
//! has numbers that always jump, so a jump forth of it can't be seen: it returns, too, with its next packet, once
//! another one does. One file has the records of all stations, so all of it is tail from the first return on, and a
//! station whose packets have not come since needs none.
ghost use Rattle.std.specs.Prelude.{◌≡◌, ◌≢◌, ◌<◌, IfSome, Some, ℕ, false, true, length, map, option_map};
ghost use Rattle.std.specs.Prelude.{slice_get};
ghost use Rattle.job_read.specs.Returns.{is_jump, is_return, jumps, mark_after, marked_if, passed};
ghost use Rattle.job_read.specs.Rows.{is_full, row_after};

use crate::hearing::are_whole;
use crate::rows::{MOST_HELD, Row};
use sl_packet::Seq;
use slreader::{GivenPacket, LastPacket, Want, last_at};
use std::alloc::{AllocError, Global};
use std::marker::Model;

/// How the next packet of a station is taken.
#[derive(Clone, Copy, Drop)]
pub enum Mark {
    /// By its number.
    Usual,
    /// It is no return: all is tail since another one.
    Returned,
    /// It is a return, whatever its number is.
    Awaited,
}

/// A station that is wanted, and the number of its last packet.
#[derive(Drop)]
struct Numbered {
    network: Vec<u8>,
    station: Vec<u8>,
    /// Whether its first packet is a jump.
    is_first: bool,
    /// Whether each number that is not the next one is a jump, at the beginning of a connection.
    is_each: bool,
    /// The connection over which the last packet came.
    connection: u64,
    last: Option<Seq>,
    mark: Mark,
    /// How many of its records were added one after the other.
    row: Row,
}

impl Model for Numbered {
    ghost use Rattle.job_read.specs.Returns.{NumberedValue};

    ghost Value = { NumberedValue };

    ghost view = { λ n. record {
      network = n.network.items;
      station = n.station.items;
      is_first = n.is_first;
      is_each = n.is_each;
      connection = n.connection;
      last = n.last;
      mark = n.mark;
      row = n.row;
    } };
}

/// What a packet does to the tails of files.
#[derive(Clone, Copy, Drop)]
pub struct Noted {
    /// The place of its station.
    pub at: usize,
    /// Whether all of each file of its station is to be tail: records that stand there may come once more.
    pub is_return: bool,
}

/// How a station is taken after another one returned.
fn mark_after(is_archive: bool, is_each: bool, mark: Mark) -> Mark
    ensures { result ≡ mark_after is_archive is_each mark }
{
    match (is_archive, is_each) {
        (false, _) => Mark::Returned,
        (true, true) => mark,
        (true, false) => Mark::Awaited,
    }
}

impl Numbered {
    ghost use Rattle.std.specs.Prelude.{◌≡◌};
    ghost use Rattle.job_read.specs.Returns.{is_return, jumps, marked_if, passed};
    ghost use Rattle.job_read.specs.Rows.{is_full, row_after};

    /// Whether it has these codes.
    fn is(&self, network: &[u8], station: &[u8]) -> bool {
        self.station.as_slice() == station && self.network.as_slice() == network
    }

    /// Whether a packet with that number, over that connection, doesn't follow on the last one.
    fn jumps(&self, connection: u64, number: Seq) -> bool
        ensures { result ≡ jumps self.now connection number }
    {
        let is_each = self.is_each && self.connection != connection;
        match self.mark {
            Mark::Usual => is_jump(self.is_first, is_each, self.last, number),
            Mark::Returned | Mark::Awaited => false,
        }
    }

    /// Whether all of each of its files is to be tail with that packet.
    fn returns(&self, connection: u64, number: Seq) -> bool
        ensures { result ≡ is_return self.now connection number }
    {
        match self.mark {
            Mark::Awaited => true,
            Mark::Usual | Mark::Returned => self.jumps(connection, number),
        }
    }

    /// After that packet.
    fn pass(&mut self, connection: u64, number: Seq, is_return: bool)
        ensures { self.new ≡ passed self.old connection number is_return }
    {
        self.connection = connection;
        self.last = Some(number);
        self.mark = Mark::Usual;
        if is_return {
            self.row.begin();
        }
    }

    /// After another station returned, if one did.
    fn mark_if(&mut self, is_jump: bool, is_archive: bool)
        ensures { self.new ≡ marked_if is_jump is_archive self.old }
    {
        if is_jump {
            self.mark = mark_after(is_archive, self.is_each, self.mark);
        }
    }

    /// A record of it was added or passed over. Answers whether the row is full.
    fn count(&mut self, is_passed: bool) -> bool
        ensures full { result ≡ is_full self.old.row is_passed }
        ensures row { self.new ≡ record self.old { row = row_after self.old.row is_passed } }
    {
        self.row.note(is_passed)
    }
}

/// Whether a packet with that number doesn't follow on the last one of its station.
fn is_jump(is_first: bool, is_each: bool, last: Option<Seq>, number: Seq) -> bool
    ensures { result ≡ is_jump is_first is_each last number }
{
    match last {
        Some(last) => {
            number.value() != last.next().value() && (is_each || number.value() <= last.value())
        }
        None => is_first,
    }
}

/// After a station returned, if one did: others, and that one.
fn mark_all(all: &mut Vec<Numbered>, is_jump: bool, is_archive: bool)
    ensures { all.new.items ≡ map (marked_if is_jump is_archive) all.old.items }
{
    for one in all.iter_mut() {
        one.mark_if(is_jump, is_archive);
    }
}

/// The numbers of the last packets of stations.
#[derive(Drop)]
pub struct LastNumbers {
    all: Vec<Numbered>,
    /// Whether each station has files of its own.
    is_archive: bool,
    /// How many records were added one after the other to the one file of all stations.
    row: Row,
}

impl LastNumbers {
    /// Of no station.
    pub fn none(alloc: Global) -> LastNumbers {
        LastNumbers {
            all: Vec::new(alloc),
            is_archive: true,
            row: Row::new(MOST_HELD),
        }
    }

    /// Those of the stations of wants, as a state has them; for an archive, or for one file.
    pub fn new(
        alloc: Global,
        wants: &[Want<'_>],
        lasts: &[LastPacket],
        is_archive: bool,
    ) -> Result<LastNumbers, AllocError> {
        let mut all = Vec::new(alloc);
        for want in wants {
            let reached = last_at(want.network, want.station, lasts);
            let is_each = are_whole(want.network, want.station, wants);
            all.push(Numbered {
                network: Vec::from_slice(alloc, want.network)?,
                station: Vec::from_slice(alloc, want.station)?,
                is_first: is_each && is_archive,
                is_each,
                connection: 0,
                last: reached.map(|reached| reached.number),
                mark: Mark::Usual,
                row: Row::new(MOST_HELD),
            })?;
        }
        let limit = MOST_HELD.saturating_mul(wants.len() as u64);
        let row = Row::new(limit);
        Ok(LastNumbers {
            all,
            is_archive,
            row,
        })
    }

    /// The place of the station with these codes.
    fn place_of(&self, network: &[u8], station: &[u8]) -> Option<usize>
        ensures { IfSome result (λ at. at < length self.now.all.items) }
    {
        for (at, one) in self.all.iter().enumerate() {
            if one.is(network, station) {
                return Some(at);
            }
        }
        None
    }

    /// A packet with that number came, of the station at a place. Answers whether all of each of its files is to be
    /// tail.
    fn note_at(&mut self, at: usize, connection: u64, number: Seq) -> bool
        requires { at < length self.old.all.items }
        ensures returns { IfSome (slice_get self.old.all.items at) (λ n. (result ≡ is_return n connection number)
            × (slice_get self.new.all.items at ≡ Some (passed n connection number result))) }
        ensures others { IfSome (slice_get self.old.all.items at) (λ n. (k : ℕ) → k ≢ at
            → slice_get self.new.all.items k ≡ option_map (marked_if (jumps n connection number) self.old.is_archive)
            (slice_get self.old.all.items k)) }
        ensures len { length self.new.all.items ≡ length self.old.all.items }
    {
        let is_jump = self.all[at].jumps(connection, number);
        let is_return = self.all[at].returns(connection, number);
        mark_all(&mut self.all, is_jump, self.is_archive);
        self.all[at].pass(connection, number, is_return);
        if is_return {
            self.row.begin();
        }
        is_return
    }

    /// A packet came over that connection. Answers what it does to the tails of files, if it is of one of the stations.
    pub fn note(&mut self, packet: &GivenPacket<'_>, connection: u64) -> Option<Noted>
        ensures { IfSome result (λ noted. noted.at < length self.new.all.items) }
    {
        let number = Seq::parse(&packet.bytes()[2..8]);
        let (Some(number), Some(header)) = (number, packet.header()) else {
            return None;
        };
        let at = self.place_of(header.network(), header.station())?;
        let is_return = self.note_at(at, connection, number);
        Some(Noted { at, is_return })
    }

    /// A record of the station at a place was added or passed over. Answers whether none comes any more that stands in
    /// a tail: of its files, or of the one file of all stations.
    pub fn count(&mut self, at: usize, is_passed: bool) -> bool
        ensures one { self.old.is_archive ≡ false → (result ≡ is_full self.old.row is_passed)
            × (self.new.row ≡ row_after self.old.row is_passed) }
        ensures own { self.old.is_archive ≡ true → IfSome (slice_get self.old.all.items at) (λ n.
            (result ≡ is_full n.row is_passed)
            × (slice_get self.new.all.items at ≡ Some (record n { row = row_after n.row is_passed }))) }
    {
        if !self.is_archive {
            return self.row.note(is_passed);
        }
        match self.all.get_mut(at) {
            Some(one) => one.count(is_passed),
            None => false,
        }
    }
}
