//! Runs of packets: where there is one request alone, records that it wants are handed one after the other.
//!
//! In a run the next record of the ring is looked at alone, and the session stays as it is; the request passes all of
//! the records at the end.
ghost use Rattle.std.specs.Prelude.{◌≡◌, ◌≤◌, ◌<◌, ◌+◌, ◌*◌, ◌++◌, ℕ, IfSome, List, Some, true, length};
ghost use Rattle.std.specs.Prelude.{slice_get, vec_capacity, vec_len};
ghost use Rattle.protocol.specs.Packet.{packet};
ghost use Rattle.protocol.specs.Pattern.{passes};
ghost use Rattle.station_ring.specs.Rings.{held_at, number_at};
ghost use Rattle.session_state.specs.NamedValues.{Choice, entry_of};
ghost use Rattle.session_state.specs.Choices.{chosen_of};
ghost use Rattle.session_state.specs.Sessions.{but_for_cursors, sent_at};
ghost use Rattle.session_state.specs.declared.session.State.TheVariants.{Transfer};
ghost use Rattle.transfer.specs.Choosing.{HoldsThere, IsAtCursor};
ghost use Rattle.transfer.specs.Cursors.{ArePassed, OfAll, RestsIn};
ghost use Rattle.transfer.specs.Runs.{HasSent, IsRun};
ghost use Rattle.transfer.specs.Wanting.{facts_of, wants_held};

use crate::choosing::cursor_after;
use crate::wanting::{Candidate, wants_too};
use session_state::{Entry, Session};
use sl_packet::{Seq, header};
use station_ring::{Held, Ring, Rings, arrivals_by_place};

/// Packets that were handed in one run.
#[derive(Clone, Copy)]
pub(crate) struct Run<'a> {
    /// How many they were.
    pub count: usize,
    /// The record of the last of them.
    pub last: Candidate<'a>,
}

/// The packet of a record is appended to bytes that have room for it.
#[inline(always)]
fn append_packet(out: &mut Vec<u8>, number: Seq, bytes: &[u8; 512])
    requires room { vec_len out.old + 520 ≤ vec_capacity out.old }
    ensures items { out.new.items ≡ out.old.items ++ packet number bytes.now }
    ensures size { length (packet number bytes.now) ≡ 520 }
    ensures len { vec_len out.new ≡ vec_len out.old + 520 }
    ensures room { vec_capacity out.old ≤ vec_capacity out.new }
{
    let _header = out.extend_from_slice(&header(number));
    let _record = out.extend_from_slice(bytes);
}

/// The packet of the record that a ring holds at a place is appended to bytes that have room for it.
#[inline(always)]
fn append_held(out: &mut Vec<u8>, ring: &Ring, place: u64, held: &Held)
    requires room { vec_len out.old + 520 ≤ vec_capacity out.old }
    ensures items { out.new.items ≡ out.old.items ++ packet (number_at ring.now place) held.now.bytes }
    ensures size { length (packet (number_at ring.now place) held.now.bytes) ≡ 520 }
    ensures len { vec_len out.new ≡ vec_len out.old + 520 }
    ensures room { vec_capacity out.old ≤ vec_capacity out.new }
{
    append_packet(out, ring.number_at(place), &held.bytes);
}

/// Whether there is one request alone.
fn is_alone(session: &Session) -> bool
    ensures { result ≡ true → length (chosen_of session.now.mode) ≡ 1 }
{
    session.choices().len() == 1
}

/// The record after the one at a place of a ring, which was sent: if it is of the same stream and wanted.
#[inline(always)]
fn after<'a>(
    entry: &Entry,
    rings: &Rings,
    ring: &'a Ring,
    place: u64,
    sent: &Held,
) -> Option<&'a Held>
    requires there { HoldsThere rings.now ring.now place sent.now }
    ensures there { IfSome result (λ x. HoldsThere rings.now ring.now (place + 1) x.now) }
    ensures wanted { IfSome result (λ x. (c : Choice) → entry_of c ≡ entry.now
        → passes c.patterns (facts_of sent.now.summary) ≡ true → wants_held c (sent.now.stamp + 1) x.now ≡ true) }
{
    let _arrivals = rings.arrivals();
    ring.holds_its_last();
    let _end = ring.pushes();
    let next = sent.stamp + 1;
    let held = ring.get(place + 1)?;
    if !wants_too(entry, next, &sent.summary, held) {
        return None;
    }
    Some(held)
}

/// Whether there is one request alone, and the record after one that was sent is of the same stream and wanted.
#[inline(always)]
fn goes_on(session: &Session, rings: &Rings, sent: Candidate<'_>) -> bool
    requires there { HoldsThere rings.now sent.ring.now sent.place sent.held.now }
    requires index { sent.index < length (chosen_of session.now.mode) }
    ensures { result ≡ true → length (chosen_of session.now.mode) ≡ 1 }
{
    if !is_alone(session) {
        return false;
    }
    let entry = session.choice(sent.index);
    after(entry, rings, sent.ring, sent.place, sent.held).is_some()
}

/// The packets of the records after one that was sent, while they are of its stream and wanted, are appended to bytes:
/// at most so many, for which there is room. It is kept out of its caller, which leaves its loop more registers.
#[inline(never)]
fn hand_rest<'a>(
    session: &Session,
    rings: &Rings,
    sent: Candidate<'a>,
    most: usize,
    out: &mut Vec<u8>,
) -> Run<'a>
    requires there { HoldsThere rings.now sent.ring.now sent.place sent.held.now }
    requires index { sent.index < length (chosen_of session.now.mode) }
    requires alone { length (chosen_of session.now.mode) ≡ 1 }
    requires room { vec_len out.old + most * 520 ≤ vec_capacity out.old }
    ensures most { result.count ≤ most }
    ensures index { result.last.index ≡ sent.entry.index }
    ensures there { HoldsThere rings.now result.last.ring.now result.last.place result.last.held.now }
    ensures run { (stamp count : ℕ) (before : List ℕ) → IsRun rings.now (chosen_of session.now.mode) sent.entry.index
        sent.entry.ring.now stamp before sent.entry.place sent.entry.held.now count out.old.items →
        IsRun rings.now (chosen_of session.now.mode) result.last.index result.last.ring.now stamp before
        result.last.place result.last.held.now (count + result.count) out.new.items }
    ensures len { vec_len out.new ≡ vec_len out.old + result.count * 520 }
    ensures room { vec_capacity out.old ≤ vec_capacity out.new }
{
    arrivals_by_place();
    let entry = session.choice(sent.index);
    let ring = sent.ring;
    ring.holds_its_last();
    let _end = ring.pushes();
    let mut place = sent.place;
    let mut held = sent.held;
    let mut count = 0;
    'packets: while count < most {
        let Some(next) = after(entry, rings, ring, place, held) else {
            break;
        };
        place += 1;
        held = next;
        append_held(out, ring, place, held);
        count += 1;
    }
    Run {
        count,
        last: Candidate {
            index: sent.index,
            ring,
            place,
            held,
        },
    }
}

/// The packet of the record that comes next is appended to bytes, and those of the records after it that come next one
/// after the other, at most so many; there is room for them.
#[inline(always)]
pub(crate) fn hand_run<'a>(
    session: &Session,
    rings: &Rings,
    found: Candidate<'a>,
    most: usize,
    out: &mut Vec<u8>,
) -> Run<'a>
    requires there { HoldsThere rings.now found.ring.now found.place found.held.now }
    requires index { found.index < length (chosen_of session.now.mode) }
    requires cursor { IsAtCursor rings.now (chosen_of session.now.mode) found.index found.ring.now found.place }
    requires some { 0 < most }
    requires room { vec_len out.old + most * 520 ≤ vec_capacity out.old }
    ensures some { 0 < result.count }
    ensures most { result.count ≤ most }
    ensures index { result.last.index ≡ found.entry.index }
    ensures there { HoldsThere rings.now result.last.ring.now result.last.place result.last.held.now }
    ensures run { IsRun rings.now (chosen_of session.now.mode) result.last.index result.last.ring.now
        found.entry.held.now.stamp out.old.items result.last.place result.last.held.now result.count out.new.items }
    ensures len { vec_len out.new ≡ vec_len out.old + result.count * 520 }
    ensures room { vec_capacity out.old ≤ vec_capacity out.new }
{
    arrivals_by_place();
    found.ring.holds_its_last();
    append_held(out, found.ring, found.place, found.held);
    if !goes_on(session, rings, found) {
        return Run {
            count: 1,
            last: found,
        };
    }
    let rest = hand_rest(session, rings, found, most - 1, out);
    Run {
        count: rest.count + 1,
        last: rest.last,
    }
}

/// A transfer goes on after the last record of a run, and its request passes those records, whose count is given, and
/// what it doesn't want after them.
#[inline(always)]
pub(crate) fn pass_run(session: &mut Session, rings: &Rings, last: Candidate<'_>, count: usize)
    requires there { HoldsThere rings.now last.ring.now last.place last.held.now }
    requires index { last.index < length (chosen_of session.old.mode) }
    ensures session { but_for_cursors session.new ≡ but_for_cursors
        (record session.old { state = Transfer (last.entry.held.now.stamp + 1) }) }
    ensures passed { (q : ℕ) → q ≤ last.entry.held.now.stamp → session.old.looked ≡ Some rings.now.arrivals
        → OfAll (RestsIn rings.now q) (chosen_of session.old.mode)
        → HasSent rings.now (chosen_of session.old.mode) last.entry.index last.entry.ring.now last.entry.place
        last.entry.held.now → ArePassed rings.now session.new }
    ensures packets { session.new.packets ≡ sent_at last.entry.index count session.old.packets }
{
    let _arrivals = rings.arrivals();
    let next = last.held.stamp + 1;
    session.choose_from(next);
    let cursor = cursor_after(session, last, next);
    session.move_cursor(last.index, cursor, count);
}
