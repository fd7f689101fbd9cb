//! How far a request comes in its ring when it looks again.
//!
//! A ring that is full lets its oldest record go for each new one, also if a request hasn't come to it yet, as that of
//! a client that takes its bytes slowly. The request then goes on at the oldest record, and the session counts those
//! that it lost (`start_of`).
ghost use Rattle.std.specs.Prelude.{◌≡◌, ◌≤◌, ◌<◌, ◌-◌, ℕ, length, max, slice_get, Some};
ghost use Rattle.session_state.specs.Choices.{chosen_of};
ghost use Rattle.session_state.specs.NamedValues.{Choice};
ghost use Rattle.session_state.specs.Sessions.{but_for_cursors};
ghost use Rattle.station_ring.specs.Rings.{first_place};
ghost use Rattle.transfer.specs.Cursors.{HasPassed, RestsAt, lost_at, with_lost};

use crate::searching::{SearchReached, search_from};
use crate::wanting::{Found, at_end, at_record, found_at};
use session_state::{Cursor, Session};
use station_ring::Ring;

/// The place from which the request for the i-th named station looks: its cursor, or the oldest record if the ring has
/// let that go which the cursor was at. The records between the two are counted as lost.
#[inline(always)]
pub(crate) fn start_of(session: &mut Session, i: usize, ring: &Ring) -> u64
    requires { i < length (chosen_of session.old.mode) }
    ensures low { first_place ring.now ≤ result }
    ensures place { (c : Choice) → slice_get (chosen_of session.old.mode) i ≡ Some c
        → result ≡ max c.cursor.ring_place (first_place ring.now) }
    ensures lost { (c : Choice) → slice_get (chosen_of session.old.mode) i ≡ Some c
        → session.new ≡ with_lost session.old (lost_at ring.now c.cursor) }
    ensures same { but_for_cursors session.new ≡ but_for_cursors session.old }
    ensures mode { session.new.mode ≡ session.old.mode }
    ensures looked { session.new.looked ≡ session.old.looked }
    ensures packets { session.new.packets ≡ session.old.packets }
{
    let place = session.choice(i).cursor.ring_place;
    let first = ring.first_place();
    if place < first {
        session.lose(first - place);
        first
    } else {
        place
    }
}

/// How far the request for the i-th named station comes that passes what it doesn't want: to the first record from a
/// place on that it wants, else to the end. Mostly the record at the cursor was just sent and the next one is wanted,
/// so that these two are looked at themselves, and only those after them by their briefs.
pub(crate) fn cursor_in(ring: &Ring, session: &Session, i: usize, next: u64, start: u64) -> Cursor
    requires index { i < length (chosen_of session.now.mode) }
    requires low { first_place ring.now ≤ start }
    ensures { (c : Choice) → slice_get (chosen_of session.now.mode) i ≡ Some c
        → start ≡ max c.cursor.ring_place (first_place ring.now) → HasPassed ring.now next c c.cursor
        → RestsAt ring.now next c result }
{
    ring.holds_its_last();
    let entry = session.choice(i);
    let ended = entry.cursor.ended;
    if start >= ring.pushes() {
        return at_end(ring, ended);
    }
    match found_at(ring, start, session, i, entry, next) {
        Found::Wanted(stamp) => at_record(ring, start, ended, stamp),
        Found::AfterEnd => search_from(
            ring,
            session,
            i,
            next,
            SearchReached {
                place: start + 1,
                ended: start + 1,
            },
        ),
        Found::Unwanted => search_from(
            ring,
            session,
            i,
            next,
            SearchReached {
                place: start + 1,
                ended,
            },
        ),
    }
}
