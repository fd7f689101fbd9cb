//! Ports over ports that note who comes and goes.
//!
//! Who comes and goes is noted by ports over ports (`ports_logged`), so that `serve` without `--log` runs over the
//! sockets themselves. They note what the loop says, and add what the loop doesn't know: the address of each
//! connection, when it came and how many bytes went over its port, and who was turned away before a port joined (the
//! trait `Doors`).
ghost use Rattle.std.specs.Prelude.{◌≡◌, ◌<◌, ◌≤◌, List, [], ◌∷◌, ℕ, IfOk, None, find, length, map};
ghost use Rattle.std.specs.List.{All, concat};
ghost use Rattle.std.specs.Vec.{vec_capacity};
ghost use Rattle.sl_io.specs.Counts.{CountsFailure};
ghost use Rattle.ports.specs.Calls.{Tells, given, taken, whole_write, IsGiven, IsTaken};
ghost use Rattle.ports.specs.Calls.Call.{Next, Read, Write, Shut};
ghost use Rattle.ports.specs.Decisions.{Decides};
ghost use Rattle.ports.specs.declared.decisions.Decision.TheVariants.{Cut, LetIn};
ghost use Rattle.ports_logged.specs.Decided.{count_of_read, counted_at, decided_notes, decided_visitors};
ghost use Rattle.ports_logged.specs.Decided.{over_if, present_of};
ghost use Rattle.ports_logged.specs.Visitors.{cutting, giving, is_at, taking, without};
ghost use Rattle.ports_logged.specs.Visits.{Notes, Passes};

use crate::traffic::Traffic;
use crate::visit::{Away, Sent, Visit};
use crate::visitor::{Visitor, is_uncut, present_of, records_given};
use crate::visitors::Visitors;
use crate::{Doors, Journal};
use ports::{Decision, Got, Happening, Party, PortFault, Ports, PresentClient, Put};
use std::alloc::{AllocError, Global};
use std::net::Ipv4Addr;

/// Ports over others. Each call is passed on with its answer, and what is decided of a port is noted: who is let in or
/// turned away, and at the end how many bytes a client took, or how many whole records a feed gave, and how many of
/// them were refused.
///
/// Ports join at rising numbers. One that does not, or for which there is no room, is let in without being followed,
/// and its end is not noted.
#[derive(Drop)]
pub struct LoggedPorts<P, J> {
    inner: P,
    visitors: Visitors,
    journal: J,
    /// When the ports said last what happened, by the journal's clock, in milliseconds since the server began.
    time: u64,
}

/// Notes connections that were turned away.
fn note_all<J: Journal>(journal: &mut J, away: &[Away])
    ensures notes { Notes (J.noted journal.old) (J.noted journal.new) (map Visit.Away away.now) }
    ensures passed { J.passed journal.new ≡ J.passed journal.old }
{
    for one in away {
        journal.note(Visit::Away(*one));
    }
}

/// Who is let in is followed, and noted.
fn let_in<J: Journal>(
    visitors: &mut Visitors,
    journal: &mut J,
    port: u64,
    party: Party,
    address: Ipv4Addr,
    now: u64,
)
    ensures visitors { visitors.new ≡ decided_visitors port (LetIn party) now visitors.old }
    ensures notes { Notes (J.noted journal.old) (J.noted journal.new)
        (decided_notes port (LetIn party) address visitors.old) }
    ensures passed { J.passed journal.new ≡ J.passed journal.old }
{
    visitors.add(Visitor::new(port, party, now));
    journal.note(match party {
        Party::Client => Visit::Open { port, address },
        Party::Feed => Visit::Feed { port, address },
    });
}

/// Whoever was at a port is gone, and it is noted what went over it.
fn let_go<J: Journal>(visitors: &mut Visitors, journal: &mut J, port: u64, address: Ipv4Addr)
    ensures visitors { visitors.new ≡ record visitors.old { present = without port visitors.old.present } }
    ensures notes { Notes (J.noted journal.old) (J.noted journal.new)
        (over_if address (find (is_at port) visitors.old.present)) }
    ensures passed { J.passed journal.new ≡ J.passed journal.old }
{
    match visitors.remove(port) {
        Some(gone) => journal.note(gone.end(address)),
        None => {}
    }
}

/// A client is cut, which is noted the first time.
fn cut<J: Journal>(visitors: &mut Visitors, journal: &mut J, port: u64, address: Ipv4Addr)
    ensures visitors { visitors.new ≡ counted_at port cutting visitors.old }
    ensures notes { Notes (J.noted journal.old) (J.noted journal.new)
        (decided_notes port Cut address visitors.old) }
    ensures passed { J.passed journal.new ≡ J.passed journal.old }
{
    let is_first = is_uncut(visitors.find(port));
    visitors.count(port, Traffic::one_cut());
    if is_first {
        journal.note(Visit::Cut { port, address });
    }
}

/// What is decided of a port, whose connection came from an address, is noted.
fn decide<J: Journal>(
    visitors: &mut Visitors,
    journal: &mut J,
    port: u64,
    decision: Decision,
    address: Ipv4Addr,
    now: u64,
)
    ensures visitors { visitors.new ≡ decided_visitors port decision now visitors.old }
    ensures notes { Notes (J.noted journal.old) (J.noted journal.new)
        (decided_notes port decision address visitors.old) }
    ensures passed { J.passed journal.new ≡ J.passed journal.old }
{
    match decision {
        Decision::LetIn(party) => let_in(visitors, journal, port, party, address, now),
        Decision::TurnedAway(reason) => journal.note(Visit::Away(Away { address, reason })),
        Decision::Ends(_) => let_go(visitors, journal, port, address),
        Decision::Refused(refusal) => {
            let record = records_given(visitors.find(port));
            visitors.count(port, Traffic::refused_record());
            journal.note(Visit::Refused {
                port,
                record,
                refusal,
            });
        }
        Decision::NoStation(codes) => journal.note(Visit::NoStation {
            port,
            address,
            codes,
        }),
        Decision::Reads(codes, mode) => journal.note(Visit::Reads {
            port,
            address,
            codes,
            mode,
        }),
        Decision::Begins => journal.note(Visit::Begins { port, address }),
        Decision::Sent(codes, packets) => journal.note(Visit::Packets {
            port,
            address,
            codes,
            packets,
        }),
        Decision::Lost(records) => visitors.count(port, Traffic::records_lost(records)),
        Decision::Cut => cut(visitors, journal, port, address),
    }
}

impl<P, J> LoggedPorts<P, J> {
    /// Ports over others, at which nobody is, where so many connections can be followed. It fails only for want of
    /// memory.
    pub fn new(
        alloc: Global,
        inner: P,
        room: usize,
        journal: J,
    ) -> Result<LoggedPorts<P, J>, AllocError>
    where
        P: Drop,
        J: Drop,
        ensures inner { IfOk result (λ ports. ports.inner ≡ inner) }
        ensures visitors { IfOk result (λ ports. ports.visitors
            ≡ record { room = room; last = None; present = [] }) }
        ensures journal { IfOk result (λ ports. ports.journal ≡ journal) }
    {
        let visitors = Visitors::new(alloc, room)?;
        Ok(LoggedPorts {
            inner,
            visitors,
            journal,
            time: 0,
        })
    }

    /// The inner ports and the journal.
    pub fn into_parts(self) -> (P, J)
        ensures inner { result.0 ≡ self.inner }
        ensures journal { result.1 ≡ self.journal }
    {
        let LoggedPorts {
            inner,
            visitors: _,
            journal,
            time: _,
        } = self;
        (inner, journal)
    }
}

impl<P: Doors, J: Journal> Ports for LoggedPorts<P, J> {
    ghost calls = { λ s. P.calls s.inner };

    ghost failures = { λ s. P.failures s.inner };

    ghost decided = { λ s. P.decided s.inner };

    ghost room = { λ s port. P.room s.inner port };

    ghost listening = { λ s. J.listening s.journal };

    fn next(&mut self) -> Result<Happening, PortFault>
        ensures call { Tells (P.calls self.old.inner) (P.calls self.new.inner) (Next result ∷ []) }
        ensures failure { CountsFailure (P.failures self.old.inner) (P.failures self.new.inner) result }
        ensures decided { P.decided self.new.inner ≡ P.decided self.old.inner }
        ensures visitors { self.new.visitors ≡ self.old.visitors }
        ensures notes { Notes (J.noted self.old.journal) (J.noted self.new.journal)
            (map Visit.Away (P.turned_away self.new.inner)) }
        ensures passed { J.passed self.new.journal ≡ J.passed self.old.journal }
    {
        let answer = self.inner.next();
        self.time = self.journal.heard();
        note_all(&mut self.journal, self.inner.turned_away());
        answer
    }

    fn read(&mut self, port: u64, buffer: &mut [u8]) -> Result<Got, PortFault>
        requires { 0 < length buffer.old }
        ensures bound { IsGiven result (length buffer.new) }
        ensures call { Tells (P.calls self.old.inner) (P.calls self.new.inner)
            (Read port (length buffer.new) (given result buffer.new) ∷ []) }
        ensures failure { CountsFailure (P.failures self.old.inner) (P.failures self.new.inner) result }
        ensures decided { P.decided self.new.inner ≡ P.decided self.old.inner }
        ensures visitors { self.new.visitors ≡ counted_at port (giving (count_of_read result)) self.old.visitors }
        ensures journal { self.new.journal ≡ self.old.journal }
    {
        let answer = self.inner.read(port, buffer);
        let count = match answer {
            Ok(Got::Bytes(count)) => count,
            _ => 0,
        };
        self.visitors.count(port, Traffic::bytes_given(count));
        answer
    }

    fn write(&mut self, port: u64, bytes: &[u8]) -> Result<Put, PortFault>
        requires { 0 < length bytes.now }
        ensures bound { IsTaken result (length bytes.now) }
        ensures call { Tells (P.calls self.old.inner) (P.calls self.new.inner) (Write port bytes.now result ∷ []) }
        ensures failure { CountsFailure (P.failures self.old.inner) (P.failures self.new.inner) result }
        ensures decided { P.decided self.new.inner ≡ P.decided self.old.inner }
        ensures visitors { self.new.visitors ≡ counted_at port (taking (taken result)) self.old.visitors }
        ensures notes { J.noted self.new.journal ≡ J.noted self.old.journal }
        ensures passed { Passes (J.passed self.old.journal) (J.passed self.new.journal)
            (record { port = port; bytes = taken result } ∷ []) }
    {
        let answer = self.inner.write(port, bytes);
        let count = match answer {
            Ok(Put::Took(count)) => count,
            _ => 0,
        };
        self.visitors.count(port, Traffic::bytes_taken(count));
        self.journal.took(Sent {
            port,
            bytes: count as u64,
        });
        answer
    }

    fn make_room(&mut self, port: u64, most: usize) -> usize
        ensures room { result ≤ P.room self.new.inner port }
        ensures most { result ≤ most }
        ensures calls { P.calls self.new.inner ≡ P.calls self.old.inner }
        ensures failures { P.failures self.new.inner ≡ P.failures self.old.inner }
        ensures decided { P.decided self.new.inner ≡ P.decided self.old.inner }
        ensures visitors { self.new.visitors ≡ self.old.visitors }
        ensures journal { self.new.journal ≡ self.old.journal }
    {
        self.inner.make_room(port, most)
    }

    /// The journal is told once of all pieces.
    fn write_pieces(&mut self, port: u64, bytes: &mut Vec<u8>, size: usize)
        requires room { length bytes.old.items ≤ P.room self.old.inner port }
        requires size { 0 < size }
        ensures call { (pieces : List (List ℕ)) → bytes.old.items ≡ concat pieces →
            All (λ p. length p ≡ size) pieces →
            Tells (P.calls self.old.inner) (P.calls self.new.inner) (map (whole_write port) pieces) }
        ensures capacity { vec_capacity bytes.old ≤ vec_capacity bytes.new }
        ensures failures { P.failures self.new.inner ≡ P.failures self.old.inner }
        ensures decided { P.decided self.new.inner ≡ P.decided self.old.inner }
        ensures visitors { self.new.visitors ≡ counted_at port (taking (length bytes.old.items)) self.old.visitors }
        ensures notes { J.noted self.new.journal ≡ J.noted self.old.journal }
        ensures passed { Passes (J.passed self.old.journal) (J.passed self.new.journal)
            (record { port = port; bytes = length bytes.old.items } ∷ []) }
    {
        let count = bytes.len();
        self.inner.write_pieces(port, bytes, size);
        self.visitors.count(port, Traffic::bytes_taken(count));
        let all = count as u64;
        self.journal.took(Sent { port, bytes: all });
    }

    fn shut(&mut self, port: u64)
        ensures call { Tells (P.calls self.old.inner) (P.calls self.new.inner) (Shut port ∷ []) }
        ensures failures { P.failures self.new.inner ≡ P.failures self.old.inner }
        ensures decided { P.decided self.new.inner ≡ P.decided self.old.inner }
        ensures visitors { self.new.visitors ≡ self.old.visitors }
        ensures journal { self.new.journal ≡ self.old.journal }
    {
        self.inner.shut(port);
    }

    fn tell(&mut self, port: u64, decision: Decision)
        ensures calls { P.calls self.new.inner ≡ P.calls self.old.inner }
        ensures failures { P.failures self.new.inner ≡ P.failures self.old.inner }
        ensures decides { Decides (P.decided self.old.inner) (P.decided self.new.inner) ((port, decision) ∷ []) }
        ensures visitors { self.new.visitors
            ≡ decided_visitors port decision self.old.time self.old.visitors }
        ensures notes { Notes (J.noted self.old.journal) (J.noted self.new.journal)
            (decided_notes port decision (P.address self.old.inner port) self.old.visitors) }
        ensures passed { J.passed self.new.journal ≡ J.passed self.old.journal }
    {
        let address = self.inner.address(port);
        self.inner.tell(port, decision);
        decide(
            &mut self.visitors,
            &mut self.journal,
            port,
            decision,
            address,
            self.time,
        );
    }

    /// The journal does, or not.
    fn listens(&self) -> bool
        ensures { result ≡ J.listening self.now.journal }
    {
        self.journal.listens()
    }

    /// By the one table of who is there, and the inner ports, which know each connection's address.
    fn present(&self, port: u64) -> Option<PresentClient>
        ensures { result ≡ present_of (P.address self.now.inner port) (find (is_at port) self.now.visitors.present) }
    {
        present_of(self.visitors.find(port), self.inner.address(port))
    }
}
