//! Where a transfer starts.
//!
//! `start` and `choose` take the rings of all stations as one value (`station_ring::Rings`), with the count of all
//! arrivals, and `choose` the configuration, where a slice of rings could be thought of. A stamp is the count of all
//! arrivals before, which is the position in the definitions' history; so `DATA` without a number needs that count, and
//! one equation (`rings ≡ holdings_of config history`) says what is held.
ghost use Rattle.std.specs.Prelude.{◌≡◌, ◌≤◌, List, slice_get, Some};
ghost use Rattle.protocol.specs.Catalog.{Config as ProtocolConfig};
ghost use Rattle.protocol.specs.History.{Arrival, first_wanted};
ghost use Rattle.catalog.specs.Places.{station_at};
ghost use Rattle.station_ring.specs.Rings.{RingValue, first_place};
ghost use Rattle.station_ring.specs.HeldRecords.{IsBefore, holdings_of, place_from};
ghost use Rattle.session_state.specs.NamedValues.{Choice, entry_of};
ghost use Rattle.session_state.specs.Choices.{action_value, chosen_of};
ghost use Rattle.session_state.specs.Sessions.{client_in, but_for_cursors, HasFirst};
ghost use Rattle.transfer.specs.Cursors.{ArePassed, BeginsIn, IsAtBegin, OfAll, StartsIn, begin_place};
ghost use Rattle.session_state.specs.declared.session.State.TheVariants.{Starting, Transfer};

use crate::wanting::unasked;
use session_state::{Action, Cursor, Entry, Session};
use sl_packet::Seq;
use station_ring::{Ring, Rings, places_found};

/// The position from which on a request that starts now wants records of the station at a place: with the number of a
/// held record, that record; else, for DATA without a number and for the number that is to come, the next arrival; else
/// the oldest held record.
fn first_wanted(rings: &Rings, place: usize, action: Action) -> u64
    ensures before { (r : RingValue) → slice_get rings.now.rings place ≡ Some r
        → IsBefore r (begin_place r action) result }
    ensures first { (config : ProtocolConfig) (h : List Arrival) → rings.now ≡ holdings_of config h →
        result ≡ first_wanted (station_at config.entries place) h (action_value action) }
{
    match action {
        Action::Data {
            number: None,
            begin: _begin,
        } => rings.arrivals(),
        Action::Data {
            number: Some(number),
            begin: _begin,
        } => rings.from_number(place, number),
        Action::Fetch {
            number: None,
            begin: _begin,
        } => rings.oldest_held(place),
        Action::Fetch {
            number: Some(number),
            begin: _begin,
        } => rings.from_number(place, number),
        Action::Time {
            begin: _begin,
            last: _last,
        } => rings.oldest_held(place),
    }
}

/// The place in its ring at which a request begins: that of the next record, of a number, or of the oldest record.
fn begin_place(ring: &Ring, action: Action) -> u64
    ensures place { result ≡ begin_place ring.now action }
    ensures within { result ≤ ring.now.pushes }
{
    ring.holds_its_last();
    match action {
        Action::Data {
            number: None,
            begin: _begin,
        } => ring.pushes(),
        Action::Data {
            number: Some(number),
            begin: _begin,
        } => place_from(ring, number),
        Action::Fetch {
            number: None,
            begin: _begin,
        } => oldest_place(ring),
        Action::Fetch {
            number: Some(number),
            begin: _begin,
        } => place_from(ring, number),
        Action::Time {
            begin: _begin,
            last: _last,
        } => oldest_place(ring),
    }
}

/// The place of the oldest record, or of the next one where none is held.
fn oldest_place(ring: &Ring) -> u64
    ensures place { result ≡ first_place ring.now }
    ensures within { result ≤ ring.now.pushes }
{
    ring.holds_its_last();
    match ring.oldest() {
        Some(oldest) => oldest,
        None => ring.pushes(),
    }
}

/// The held place with a number; else that of the next record, if it is to have the number; else that of the oldest
/// record.
fn place_from(ring: &Ring, number: Seq) -> u64
    ensures place { result ≡ place_from ring.now number }
    ensures within { result ≤ ring.now.pushes }
{
    ring.holds_its_last();
    places_found();
    match ring.find(number) {
        Some(place) => place,
        None if ring.next_number() == number => ring.pushes(),
        None => oldest_place(ring),
    }
}

/// The cursor of a request that begins in a ring.
fn begin_in(ring: &Ring, action: Action) -> Cursor
    ensures { IsAtBegin ring.now action result }
{
    ring.holds_its_last();
    Cursor {
        ring_place: begin_place(ring, action),
        ended: 0,
        seen: 0,
        stamp: 0,
    }
}

/// The cursor of the request for a named station that begins.
fn cursor_of(entry: &Entry, rings: &Rings) -> Cursor
    ensures { (c : Choice) → entry_of c ≡ entry.now → StartsIn rings.now (record c { cursor = result }) }
{
    let Some(action) = entry.action.to_option() else {
        return unasked();
    };
    match rings.ring(entry.station) {
        Some(ring) => begin_in(ring, action),
        None => unasked(),
    }
}

/// The cursor of each request is put to the place at which it begins.
fn place_cursors(session: &mut Session, rings: &Rings)
    ensures same { but_for_cursors session.new ≡ but_for_cursors session.old }
    ensures looked { session.new.looked ≡ session.old.looked }
    ensures starts { OfAll (StartsIn rings.now) (chosen_of session.new.mode) }
    ensures begin { OfAll (BeginsIn rings.now) (chosen_of session.old.mode)
        → OfAll (BeginsIn rings.now) (chosen_of session.new.mode) }
{
    let count = session.choices().len();
    for i in 0..count {
        let cursor = cursor_of(session.choice(i), rings);
        session.move_cursor(i, cursor, 0);
    }
}

/// The position from which on a request for a named station wants records, where something is asked of it.
fn first_of(entry: &Entry, rings: &Rings) -> u64
    ensures before { (c : Choice) → entry_of c ≡ entry.now → BeginsIn rings.now (record c { first = result }) }
    ensures first { (c : Choice) → entry_of c ≡ entry.now → (config : ProtocolConfig) (h : List Arrival)
        → rings.now ≡ holdings_of config h →
        HasFirst config h (record c { first = result }) }
{
    match entry.action.to_option() {
        Some(action) => first_wanted(rings, entry.station, action),
        None => entry.first,
    }
}

/// A transfer that was asked for starts: it is kept from which arrival on each request wants records, and its cursor is
/// put to the place of that arrival in its station's ring. None of what is held is gone through.
#[tactic(auto, using(crate::proofs::KeptLemmas::start_lemmas))]
pub fn start(session: &mut Session, rings: &Rings)
    requires { session.old.state ≡ Starting }
    ensures client { (config : ProtocolConfig) (h : List Arrival) → rings.now ≡ holdings_of config h →
        client_in config h session.new ≡ client_in config h session.old }
    ensures state { session.new.state ≡ Transfer 0 }
    ensures places { session.new.places ≡ session.old.places }
    ensures unread { session.new.unread ≡ session.old.unread }
    ensures waiting { session.new.waiting ≡ session.old.waiting }
    ensures starts { OfAll (StartsIn rings.now) (chosen_of session.new.mode) }
    ensures passed { ArePassed rings.now session.new }
{
    let _ = session.state();
    let count = session.choices().len();
    for i in 0..count {
        let first = first_of(session.choice(i), rings);
        session.begin_at(i, first);
    }
    session.enter();
    place_cursors(session, rings);
}
