//! Which held records a request wants.
ghost use Rattle.std.specs.Prelude.{◌≡◌, ◌≤◌, ◌<◌, ℕ, find, length, option_map, slice_get, IfSome, Some, None, is_some};
ghost use Rattle.std.specs.Prelude.{true};
ghost use Rattle.std.specs.List.{list_any};
ghost use Rattle.protocol.specs.History.{ends_from, starts_by};
ghost use Rattle.protocol.specs.Pattern.{passes};
ghost use Rattle.session_state.specs.Choices.{chosen_of};
ghost use Rattle.session_state.specs.NamedValues.{Choice, ahead_of, entry_of};
ghost use Rattle.station_ring.specs.declared.held.Held.{Held as HeldValue};
ghost use Rattle.station_ring.specs.Briefs.{stream_of};
ghost use Rattle.station_ring.specs.Rings.{held_at};
ghost use Rattle.transfer.specs.Wanting.{facts_of, is_in_window_of, wants_held};
ghost use Rattle.transfer.specs.Cursors.{is_after_end, is_late, HasPassed};
ghost use Rattle.transfer.specs.Founds.{found_of};

use session_state::{Action, Cursor, Entry, Session};
use sl_time::Tick;
use station_ring::{Held, Ring, Summary};

/// Whether a record's end is not before a moment, where one is given.
fn ends_from(begin: Option<Tick>, summary: &Summary) -> bool
    ensures { result ≡ ends_from begin (facts_of summary.now) }
{
    match begin {
        Some(begin) => begin.value() <= summary.stop.value(),
        None => true,
    }
}

/// Whether a record's start is not after a moment, where one is given.
fn starts_by(last: Option<Tick>, summary: &Summary) -> bool
    ensures { result ≡ starts_by last (facts_of summary.now) }
{
    match last {
        Some(last) => summary.start.value() <= last.value(),
        None => true,
    }
}

/// Whether a record lies within what is asked of its station; where nothing is asked none does.
fn is_in_window(entry: &Entry, summary: &Summary) -> bool
    ensures { result ≡ is_in_window_of entry.now.action (facts_of summary.now) }
{
    match entry.action.to_option() {
        None => false,
        Some(Action::Data { begin, .. }) => ends_from(begin, summary),
        Some(Action::Fetch { begin, .. }) => ends_from(begin, summary),
        Some(Action::Time { begin, last }) => ends_from(begin, summary) && starts_by(last, summary),
    }
}

/// Whether the request for the i-th named station, whose entry is given, wants a held record, where `next` is the first
/// arrival that may still be sent.
fn wants(session: &Session, i: usize, entry: &Entry, next: u64, held: &Held) -> bool
    requires { i < length (chosen_of session.now.mode) }
    ensures { (c : Choice) → slice_get (chosen_of session.now.mode) i ≡ Some c → entry_of c ≡ entry.now
        → result ≡ wants_held c next held.now }
{
    let summary = &held.summary;
    next <= held.stamp
        && entry.first <= held.stamp
        && session.passes(i, &summary.location, &summary.channel, summary.kind)
        && is_in_window(entry, summary)
}

/// Whether two locations are the same. Their bytes are compared at once: few differ.
fn is_same_location(one: &[u8; 2], other: &[u8; 2]) -> bool
    ensures { result ≡ true → one.now ≡ other.now }
{
    let [a, b] = *one;
    let [x, y] = *other;
    (a == x) & (b == y)
}

/// Whether two channels are the same, as `is_same_location` compares.
fn is_same_channel(one: &[u8; 3], other: &[u8; 3]) -> bool
    ensures { result ≡ true → one.now ≡ other.now }
{
    let [a, b, c] = *one;
    let [x, y, z] = *other;
    (a == x) & (b == y) & (c == z)
}

/// Whether two records are of the same stream.
fn is_same_stream(one: &Summary, other: &Summary) -> bool
    ensures { result ≡ true → stream_of one.now ≡ stream_of other.now }
{
    is_same_location(&one.location, &other.location)
        & is_same_channel(&one.channel, &other.channel)
        & (one.kind == other.kind)
}

/// Whether it is known without its patterns that a request wants a held record: it is of the stream of one that passes
/// them. `next` is the first arrival that may still be sent.
#[inline(always)]
pub(crate) fn wants_too(entry: &Entry, next: u64, passed: &Summary, held: &Held) -> bool
    ensures { (c : Choice) → entry_of c ≡ entry.now → passes c.patterns (facts_of passed.now) ≡ true → result ≡ true
        → wants_held c next held.now ≡ true }
{
    next <= held.stamp
        && entry.first <= held.stamp
        && is_same_stream(passed, &held.summary)
        && is_in_window(entry, &held.summary)
}

/// A held record that a request wants: the request's index among the named stations, the ring of its station, the
/// record's place there, and the record.
#[derive(Clone, Copy)]
pub struct Candidate<'a> {
    pub index: usize,
    pub ring: &'a Ring,
    pub place: u64,
    pub held: &'a Held,
}

/// Whether a record starts after a moment, if one is given.
pub(crate) fn is_late(last: Option<Tick>, start: Tick) -> bool
    ensures { result ≡ is_late last start }
{
    match last {
        Some(last) => last.value() < start.value(),
        None => false,
    }
}

/// Whether a record starts after the end of TIME, where one is asked.
fn is_after_end(entry: &Entry, summary: &Summary) -> bool
    ensures { (x : HeldValue) → x.summary ≡ summary.now → result ≡ is_after_end entry.now.action x }
{
    is_late(entry.action.end(), summary.start)
}

/// What a request finds at a place of its ring.
#[derive(Clone, Copy)]
pub(crate) enum Found {
    /// A record that it wants, with its stamp.
    Wanted(u64),
    /// A record that it doesn't want, and that starts after the end of TIME.
    AfterEnd,
    /// Another record that it doesn't want.
    Unwanted,
}

#[inline(always)]
pub(crate) fn found_at(
    ring: &Ring,
    place: u64,
    session: &Session,
    i: usize,
    entry: &Entry,
    next: u64,
) -> Found
    requires { i < length (chosen_of session.now.mode) }
    ensures { (c : Choice) (x : HeldValue) → slice_get (chosen_of session.now.mode) i ≡ Some c
        → entry_of c ≡ entry.now → held_at ring.now place ≡ Some x → result ≡ found_of c next x }
{
    let Some(held) = ring.get(place) else {
        return Found::Unwanted;
    };
    if wants(session, i, entry, next, held) {
        Found::Wanted(held.stamp)
    } else if is_after_end(entry, &held.summary) {
        Found::AfterEnd
    } else {
        Found::Unwanted
    }
}

/// The cursor of a named station that is asked for nothing.
pub fn unasked() -> Cursor
    ensures { ahead_of result ≡ None }
{
    Cursor {
        ring_place: 0,
        ended: 0,
        seen: 0,
        stamp: 0,
    }
}

/// The cursor of a request that has passed all.
pub(crate) fn at_end(ring: &Ring, ended: u64) -> Cursor
    ensures { result ≡ record { ring_place = ring.now.pushes; ended = ended; seen = ring.now.pushes; stamp = 0 } }
{
    Cursor {
        ring_place: ring.pushes(),
        ended,
        seen: ring.pushes(),
        stamp: 0,
    }
}

/// The cursor of a request at a place of its ring, by the stamp of the record there.
pub(crate) fn at_record(ring: &Ring, place: u64, ended: u64, stamp: u64) -> Cursor
    ensures { result ≡ record { ring_place = place; ended = ended; seen = ring.now.pushes; stamp = stamp } }
{
    Cursor {
        ring_place: place,
        ended,
        seen: ring.pushes(),
        stamp,
    }
}

/// Whether a record is held that starts after the end of TIME, of a request that has passed all.
pub fn has_passed_its_end(ring: &Ring, entry: &Entry) -> bool
    ensures { (c : Choice) → entry_of c ≡ entry.now → (next : ℕ) → HasPassed ring.now next c c.cursor
        → c.cursor.ring_place ≡ ring.now.pushes →
        result ≡ list_any (is_after_end c.action) ring.now.held }
{
    ring.holds_its_last();
    match ring.oldest() {
        Some(oldest) => oldest < entry.cursor.ended,
        None => false,
    }
}
