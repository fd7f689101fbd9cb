//! Which request comes first.
//!
//! A request's cursor keeps the stamp of the record ahead of it, and the session keeps in which order those came. It
//! also keeps how many records had arrived when all of its requests had last looked at their rings. If no record has
//! arrived since, nothing was pushed to any ring, so the session tells which request comes first, and no ring is
//! looked at (`look_ahead`). If all that arrived went to one of the rings, the request for that station alone looks
//! again (`catch_up`). Else all requests are walked over, and those look again to whose rings something was pushed
//! (`rest_all`).
ghost use Rattle.std.specs.Prelude.{◌≡◌, ◌≢◌, ◌≤◌, ◌<◌, List, ℕ, length, map, slice_get, option_map};
ghost use Rattle.std.specs.Prelude.{IfSome, Some, None, true};
ghost use Rattle.session_state.specs.NamedValues.{Choice, entry_of};
ghost use Rattle.session_state.specs.Entries.{TellsAhead};
ghost use Rattle.session_state.specs.declared.choices.Ahead.TheVariants.{Nobody};
ghost use Rattle.session_state.specs.Choices.{chosen_of};
ghost use Rattle.session_state.specs.Sessions.{but_for_cursors};
ghost use Rattle.transfer.specs.Cursors.{HasLooked, HasPassedAll, OfAll, PassedIn, RestsIn, lost_of, with_lost};
ghost use Rattle.transfer.specs.Firsts.{Glances, IsBest, IsOverview, LeadsSoFar, best_of, earlier, is_unsent};
ghost use Rattle.transfer.specs.Choosing.{comes_before};

use crate::reaching::{cursor_in, start_of};
use crate::wanting::unasked;
use session_state::{Cursor, Entry, First, Session};
use station_ring::Rings;

/// Whether a record that a request knows of may still be sent.
fn is_unsent(ahead: Option<u64>, next: u64) -> bool
    ensures { result ≡ is_unsent next ahead }
{
    match ahead {
        Some(stamp) => next <= stamp,
        None => true,
    }
}

/// Whether the cursor of a named station still tells what its request is to send: nothing was pushed to the
/// station's ring since it was looked at, and the record at the cursor was not sent. No record is looked at.
fn is_fresh(entry: &Entry, rings: &Rings, next: u64) -> bool
    ensures { result ≡ true → (c : Choice) → entry_of c ≡ entry.now → PassedIn rings.now next c
        → RestsIn rings.now next c }
{
    match rings.ring(entry.station) {
        Some(ring) if entry.cursor.seen == ring.pushes() => is_unsent(entry.cursor.ahead(), next),
        Some(_ring) => entry.action.is_none(),
        None => false,
    }
}

/// How far the request for the i-th named station comes that passes what it doesn't want. The records that it lost are
/// counted.
fn cursor_of(session: &mut Session, i: usize, rings: &Rings, next: u64) -> Cursor
    requires { i < length (chosen_of session.old.mode) }
    ensures cursor { (c : Choice) → slice_get (chosen_of session.old.mode) i ≡ Some c → PassedIn rings.now next c
        → RestsIn rings.now next (record c { cursor = result }) }
    ensures lost { (c : Choice) → slice_get (chosen_of session.old.mode) i ≡ Some c
        → session.new ≡ with_lost session.old (lost_of rings.now c) }
    ensures same { but_for_cursors session.new ≡ but_for_cursors session.old }
    ensures mode { session.new.mode ≡ session.old.mode }
    ensures looked { session.new.looked ≡ session.old.looked }
    ensures packets { session.new.packets ≡ session.old.packets }
{
    let entry = session.choice(i);
    if entry.action.is_none() {
        return unasked();
    }
    match rings.ring(entry.station) {
        Some(ring) => {
            let start = start_of(session, i, ring);
            cursor_in(ring, session, i, next, start)
        }
        None => unasked(),
    }
}

/// Whether a record came before the one that was found so far, where one was.
fn comes_before(stamp: u64, best: &Option<First>) -> bool
    ensures { result ≡ comes_before (option_map (λ f. f.stamp) best.now) stamp }
{
    match best {
        Some(best) => stamp < best.stamp,
        None => true,
    }
}

/// What comes first once one more request was looked at.
fn earlier(best: Option<First>, index: usize, ahead: Option<u64>) -> Option<First>
    ensures { result ≡ earlier best index ahead }
{
    match ahead {
        Some(stamp) if comes_before(stamp, &best) => Some(First { index, stamp }),
        Some(_stamp) => best,
        None => best,
    }
}

/// What a look over requests comes to.
#[derive(Clone, Copy)]
enum Overview {
    /// The request with this index has to look at its ring again; of those before it, this one's record ahead came
    /// first.
    Stale(usize, Option<First>),
    /// All have passed what they don't want, and this one's record ahead came first, where one has one.
    Fresh(Option<First>),
}

/// Looks over the requests from an index on, and at no record. Of those before it, `before` came first.
fn look(entries: &[Entry], rings: &Rings, next: u64, from: usize, before: Option<First>) -> Overview
    requires { from ≤ length entries.now }
    ensures { (cs : List Choice) → map entry_of cs ≡ entries.now → IsOverview rings.now next cs from before result }
{
    let mut best = before;
    for index in from..entries.len() {
        let entry = &entries[index];
        if !is_fresh(entry, rings, next) {
            return Overview::Stale(index, best);
        }
        best = earlier(best, index, entry.cursor.ahead());
    }
    Overview::Fresh(best)
}

/// What the cursors alone tell, while nothing was pushed to a ring since each request looked at its own. It comes to
/// Stale at a record that was sent.
fn look_ahead(session: &Session, next: u64) -> Overview
    ensures { Glances next (chosen_of session.now.mode) result }
{
    match session.earliest() {
        None => Overview::Fresh(None),
        Some(first) => {
            if first.stamp < next {
                Overview::Stale(first.index, None)
            } else {
                Overview::Fresh(Some(first))
            }
        }
    }
}

/// The one request whose ring got all that arrived since all had looked at theirs, where it is known which one that is.
fn alone(session: &Session, rings: &Rings) -> Option<usize>
    ensures index { IfSome result (λ i. i < length (chosen_of session.now.mode)) }
    ensures others { IfSome result (λ i. (next : ℕ) → HasPassedAll rings.now next session.now → (j : ℕ) (c : Choice)
        → j ≢ i → slice_get (chosen_of session.now.mode) j ≡ Some c → HasLooked rings.now c) }
{
    let looked = session.looked()?;
    let index = session.find(rings.latest())?;
    let entry = session.choice(index);
    let ring = rings.ring(entry.station)?;
    let pushed = ring.pushes().checked_sub(entry.cursor.seen)?;
    let arrived = rings.arrivals().checked_sub(looked)?;
    if pushed == arrived && entry.action.is_some() {
        Some(index)
    } else {
        None
    }
}

/// Where all that arrived since all requests had looked at their rings went to the ring of one of them, that one passes
/// what it doesn't want, and so all have looked again.
#[inline(always)]
fn catch_up(session: &mut Session, rings: &Rings, next: u64)
    ensures same { but_for_cursors session.new ≡ but_for_cursors session.old }
    ensures passed { HasPassedAll rings.now next session.old → HasPassedAll rings.now next session.new }
    ensures packets { session.new.packets ≡ session.old.packets }
{
    if session.has_looked_at(rings.arrivals()) {
        return;
    }
    if let Some(index) = alone(session, rings) {
        let cursor = cursor_of(session, index, rings, next);
        session.move_cursor(index, cursor, 0);
        session.keep_look(rings.arrivals());
    }
}

/// Each request passes what it doesn't want, and the one whose record came first is told. Where no record arrived
/// since all of them did so, or all to one station, the cursors tell it, and no other ring is looked at.
#[inline(always)]
pub(crate) fn rest(session: &mut Session, rings: &Rings, next: u64) -> Option<First>
    ensures same { but_for_cursors session.new ≡ but_for_cursors session.old }
    ensures rest { HasPassedAll rings.now next session.old
        → OfAll (RestsIn rings.now next) (chosen_of session.new.mode) }
    ensures first { LeadsSoFar rings.now (chosen_of session.new.mode) (length (chosen_of session.new.mode)) result }
    ensures looked { session.new.looked ≡ Some rings.now.arrivals }
    ensures packets { session.new.packets ≡ session.old.packets }
{
    catch_up(session, rings, next);
    let first = leader(session, rings, next);
    keep_quiet(session, &first);
    first
}

/// Keeps that no request has a record ahead, where none came first.
fn keep_quiet(session: &mut Session, first: &Option<First>)
    requires { first.now ≡ None → TellsAhead Nobody (map entry_of (chosen_of session.old.mode)) }
    ensures { session.new ≡ session.old }
{
    if first.is_none() {
        session.keep_quiet();
    }
}

/// The request whose record came first. Where all have looked at their rings since the last record arrived, the cursors
/// tell it; else each passes what it doesn't want.
#[inline(always)]
fn leader(session: &mut Session, rings: &Rings, next: u64) -> Option<First>
    ensures same { but_for_cursors session.new ≡ but_for_cursors session.old }
    ensures rest { HasPassedAll rings.now next session.old
        → OfAll (RestsIn rings.now next) (chosen_of session.new.mode) }
    ensures best { IsBest (chosen_of session.new.mode) result }
    ensures looked { session.new.looked ≡ Some rings.now.arrivals }
    ensures packets { session.new.packets ≡ session.old.packets }
{
    if session.has_looked_at(rings.arrivals()) {
        if let Overview::Fresh(first) = look_ahead(session, next) {
            return first;
        }
    }
    let first = rest_all(session, rings, next);
    session.keep_look(rings.arrivals());
    first
}

/// Each request passes what it doesn't want, where something may have come to its ring, and the one whose record
/// came first is told. All requests are walked over once.
#[inline(never)]
fn rest_all(session: &mut Session, rings: &Rings, next: u64) -> Option<First>
    ensures same { but_for_cursors session.new ≡ but_for_cursors session.old }
    ensures rest { OfAll (PassedIn rings.now next) (chosen_of session.old.mode)
        → OfAll (RestsIn rings.now next) (chosen_of session.new.mode) }
    ensures best { result ≡ best_of (chosen_of session.new.mode) }
    ensures packets { session.new.packets ≡ session.old.packets }
{
    let count = session.choices().len();
    let mut best = None;
    let mut from = 0;
    for _i in 0..count {
        match look(session.choices(), rings, next, from, best) {
            Overview::Fresh(first) => return first,
            Overview::Stale(index, before) => {
                let cursor = cursor_of(session, index, rings, next);
                session.move_cursor(index, cursor, 0);
                best = earlier(before, index, cursor.ahead());
                from = index + 1;
            }
        }
    }
    best
}
