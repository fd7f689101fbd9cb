//! The first record from a place on that a request wants.
//!
//! A lone record is looked for at its station alone. Of two stations' rings together no more is pushed than arrives
//! (`GrowByOne`), so if one ring got as many records as arrived since a session's last look, no other ring got any
//! (`HaveLookedAt`). Which ring that may be is told by the rings, as a hint with no contract: the station of the last
//! record. The counts decide, so a wrong hint costs a walk and no answer. The request of that station is found by its
//! place, in a table of bytes that each session has for the places in its view (`Entries::find`). So a client that
//! follows 255 stations costs a lone record what one that follows a single station does. A session also keeps which
//! requests may have a record ahead (`Ahead`), as part of what it says of itself and not of what others see: with none,
//! or one alone, an offer compares no cursors.
ghost use Rattle.std.specs.Prelude.{◌≡◌, ◌≤◌, ◌<◌, ◌+◌, ℕ, List, Some, length, slice_get};
ghost use Rattle.session_state.specs.Choices.{chosen_of};
ghost use Rattle.session_state.specs.NamedValues.{Choice, entry_of};
ghost use Rattle.station_ring.specs.declared.held.Held.{Held as HeldValue};
ghost use Rattle.station_ring.specs.declared.held.Stream.{Stream as StreamValue};
ghost use Rattle.station_ring.specs.Briefs.{Tells};
ghost use Rattle.station_ring.specs.Rings.{first_place, held_at};
ghost use Rattle.transfer.specs.Cursors.{HasPassed, RestsAt};
ghost use Rattle.transfer.specs.Filters.{IsFilter, TellAt};
ghost use Rattle.transfer.specs.Founds.{found_of};
ghost use Rattle.transfer.specs.Searches.{IsPassed, at_place};

use crate::filters::{Filter, Sight};
use crate::wanting::{Found, at_end, at_record, found_at};
use session_state::{Cursor, Session};
use station_ring::{Brief, Ring};

/// What a request finds at a place of its ring, by the record itself. If the record is not wanted, the patterns are
/// asked of its stream, and the filter keeps what they say.
#[inline(never)]
fn found_in_full(
    ring: &Ring,
    place: u64,
    session: &Session,
    i: usize,
    next: u64,
    brief: &Brief,
    filter: &mut Filter,
) -> Found
    requires { i < length (chosen_of session.now.mode) }
    ensures found { (c : Choice) (x : HeldValue) → slice_get (chosen_of session.now.mode) i ≡ Some c
        → held_at ring.now place ≡ Some x → result ≡ found_of c next x }
    ensures filter { (streams : List StreamValue) (c : Choice) → slice_get (chosen_of session.now.mode) i ≡ Some c
        → ((x : HeldValue) → held_at ring.now place ≡ Some x → Tells streams x brief.now)
        → IsFilter filter.old streams c → IsFilter filter.new streams c }
{
    let found = found_at(ring, place, session, i, session.choice(i), next);
    if let Some(held) = ring.get(place) {
        if !matches!(found, Found::Wanted(_)) {
            filter.ask(session, i, &held.summary, brief.stream);
        }
    }
    found
}

/// What a request finds at a place of its ring, by the brief of the record there if that tells it.
#[inline]
fn found_by(
    ring: &Ring,
    place: u64,
    session: &Session,
    i: usize,
    next: u64,
    brief: &Brief,
    filter: &mut Filter,
) -> Found
    requires { i < length (chosen_of session.now.mode) }
    ensures found { (streams : List StreamValue) (c : Choice) (x : HeldValue)
        → slice_get (chosen_of session.now.mode) i ≡ Some c → IsFilter filter.old streams c
        → held_at ring.now place ≡ Some x → Tells streams x brief.now → result ≡ found_of c next x }
    ensures filter { (streams : List StreamValue) (c : Choice) → slice_get (chosen_of session.now.mode) i ≡ Some c
        → ((x : HeldValue) → held_at ring.now place ≡ Some x → Tells streams x brief.now)
        → IsFilter filter.old streams c → IsFilter filter.new streams c }
{
    match filter.sight(brief) {
        Sight::AfterEnd => Found::AfterEnd,
        Sight::Unwanted => Found::Unwanted,
        Sight::Open => found_in_full(ring, place, session, i, next, brief, filter),
    }
}

/// How far a search has come.
#[derive(Clone, Copy)]
pub(crate) struct SearchReached {
    /// The place before which nothing is wanted.
    pub place: u64,
    /// As in a cursor.
    pub ended: u64,
}

/// What a search through some records comes to.
#[derive(Clone, Copy)]
enum Passed {
    /// The cursor of the request at the first record that it wants.
    Found(Cursor),
    /// None is wanted. The number is `ended`, as in a cursor.
    All(u64),
}

/// Passes the records that the request for the i-th named station doesn't want, by their briefs, up to the first that
/// it wants.
fn pass_briefs(
    ring: &Ring,
    briefs: &[Brief],
    session: &Session,
    i: usize,
    next: u64,
    from: SearchReached,
    filter: &mut Filter,
) -> Passed
    requires index { i < length (chosen_of session.now.mode) }
    requires low { first_place ring.now ≤ from.place }
    requires high { from.place + length briefs.now ≤ ring.now.pushes }
    ensures passed { (streams : List StreamValue) (c : Choice) → slice_get (chosen_of session.now.mode) i ≡ Some c
        → TellAt ring.now from.place streams briefs.now → IsFilter filter.old streams c
        → HasPassed ring.now next c (at_place from.place from.ended)
        → IsPassed ring.now next c (from.place + length briefs.now) result }
    ensures filter { (streams : List StreamValue) (c : Choice) → slice_get (chosen_of session.now.mode) i ≡ Some c
        → TellAt ring.now from.place streams briefs.now → IsFilter filter.old streams c
        → IsFilter filter.new streams c }
{
    ring.holds_its_last();
    let _end = ring.pushes();
    let mut ended = from.ended;
    for (k, brief) in briefs.iter().enumerate() {
        let place = from.place + k as u64;
        match found_by(ring, place, session, i, next, brief, filter) {
            Found::Wanted(stamp) => return Passed::Found(at_record(ring, place, ended, stamp)),
            Found::AfterEnd => ended = place + 1,
            Found::Unwanted => {}
        }
    }
    Passed::All(ended)
}

/// How far the request for the i-th named station comes from a place on: to the first record that it wants, else to the
/// end.
#[inline(never)]
pub(crate) fn search(
    ring: &Ring,
    session: &Session,
    i: usize,
    next: u64,
    from: SearchReached,
) -> Cursor
    requires index { i < length (chosen_of session.now.mode) }
    requires low { first_place ring.now ≤ from.place }
    requires high { from.place ≤ ring.now.pushes }
    ensures { (c : Choice) → slice_get (chosen_of session.now.mode) i ≡ Some c
        → HasPassed ring.now next c (at_place from.place from.ended) → RestsAt ring.now next c result }
{
    ring.holds_its_last();
    let _end = ring.pushes();
    let briefs = ring.briefs_from(from.place);
    let mut filter = Filter::of(session.choice(i));
    if filter.refuses_all(session, i, briefs.streams) {
        return at_end(ring, from.ended);
    }
    match pass_briefs(ring, briefs.older, session, i, next, from, &mut filter) {
        Passed::Found(cursor) => cursor,
        Passed::All(ended) => {
            let reached = SearchReached {
                place: from.place + briefs.older.len() as u64,
                ended,
            };
            match pass_briefs(ring, briefs.newer, session, i, next, reached, &mut filter) {
                Passed::Found(cursor) => cursor,
                Passed::All(ended) => at_end(ring, ended),
            }
        }
    }
}

/// The same, of which the first record is looked at itself: mostly that one is wanted, and no filter is needed.
#[inline(always)]
pub(crate) fn search_from(
    ring: &Ring,
    session: &Session,
    i: usize,
    next: u64,
    from: SearchReached,
) -> Cursor
    requires index { i < length (chosen_of session.now.mode) }
    requires low { first_place ring.now ≤ from.place }
    requires high { from.place ≤ ring.now.pushes }
    ensures { (c : Choice) → slice_get (chosen_of session.now.mode) i ≡ Some c
        → HasPassed ring.now next c (at_place from.place from.ended) → RestsAt ring.now next c result }
{
    ring.holds_its_last();
    let place = from.place;
    if place >= ring.pushes() {
        return at_end(ring, from.ended);
    }
    match found_at(ring, place, session, i, session.choice(i), next) {
        Found::Wanted(stamp) => at_record(ring, place, from.ended, stamp),
        Found::AfterEnd => search(
            ring,
            session,
            i,
            next,
            SearchReached {
                place: place + 1,
                ended: place + 1,
            },
        ),
        Found::Unwanted => search(
            ring,
            session,
            i,
            next,
            SearchReached {
                place: place + 1,
                ended: from.ended,
            },
        ),
    }
}
