//! What is sent next.
//!
//! The position in the definitions' history from which a transfer goes on stays a number in the session's state, since
//! the definitions have it. It only rises when a packet is chosen, so what was unwanted stays unwanted.
//!
//! What is done for each packet is marked to be inlined into `choose` and `choose_into`, which takes 80 instructions of
//! a packet's 400.
//!
//! Where `choose` answers Nothing the session is as it was but for its cursors (`but_for_cursors`). No client can tell
//! the difference: the client that the session is doesn't depend on them.
ghost use Rattle.std.specs.Prelude.{◌≡◌, ◌≢◌, ◌≤◌, ◌<◌, ◌+◌, [], ◌∷◌, List, ℕ, codes, length, map, slice_get};
ghost use Rattle.std.specs.Prelude.{filter_map, option_map, IfSome, Some, None, true, false, not, ℤ, Option};
ghost use Rattle.std.specs.List.{list_all};
ghost use Rattle.protocol.specs.Catalog.{Config as ProtocolConfig};
ghost use Rattle.protocol.specs.History.{Arrival, next as next_position, is_over, holds_after};
ghost use Rattle.protocol.specs.Client.{is_nothing, offered};
ghost use Rattle.catalog.specs.Places.{station_at};
ghost use Rattle.protocol.specs.Packet.{packet};
ghost use Rattle.protocol.specs.Pattern.{passes};
ghost use Rattle.station_ring.specs.Rings.{held_at, number_at};
ghost use Rattle.station_ring.specs.HeldRecords.{RingsValue, holdings_of};
ghost use Rattle.sl_lines.specs.declared.actions.Action.TheVariants.{Time};
ghost use Rattle.session_state.specs.NamedValues.{Choice, entry_of};
ghost use Rattle.session_state.specs.Choices.{all_at_start, chosen_of, request_in};
ghost use Rattle.session_state.specs.Sessions.{client_in, but_for_cursors, sent_at};
ghost use Rattle.session_state.specs.declared.session.State.TheVariants.{Starting, Transfer, Ending};
ghost use Rattle.transfer.specs.declared.choosing.Chosen.TheVariants.{Packet, Nothing, Complete};
ghost use Rattle.transfer.specs.Cursors.{ArePassed, HasPassed, HasPassedAll, IsReached, OfAll, RestsAt, RestsIn};
ghost use Rattle.transfer.specs.Searches.{at_place};
ghost use Rattle.transfer.specs.Wanting.{facts_of};
ghost use Rattle.transfer.specs.Firsts.{IsAhead};
ghost use Rattle.transfer.specs.Sleeping.{HasNothing, MayCome, MoreMayCome, Sleeps, starts_after};
ghost use Rattle.transfer.specs.Choosing.{answer_of, is_over_of, is_transfer, HoldsThere, IsAtCursor, IsCounted};

use crate::overview::rest;
use crate::searching::{SearchReached, search_from};
use crate::wanting::{Candidate, at_end, at_record, has_passed_its_end, wants_too};
use catalog::Config;
use session_state::{Action, Cursor, Entry, First, Session, State};
use sl_packet::Seq;
use station_ring::{Rings, arrivals_by_place};

/// What an offer in a transfer leads to.
#[derive(Clone, Copy, PartialEq, Eq)]
pub enum Chosen {
    /// A packet waits.
    Packet,
    /// There is nothing to send now.
    Nothing,
    /// All was sent: `END` waits, and the session is in its end.
    Complete,
}

/// The record ahead of a request, as it is held.
fn candidate<'a>(session: &Session, first: First, rings: &'a Rings) -> Option<Candidate<'a>>
    requires { IsAhead (chosen_of session.now.mode) first.index first.stamp }
    ensures index { IfSome result (λ c. c.index < length (chosen_of session.now.mode)) }
    ensures held { IfSome result (λ c. HoldsThere rings.now c.ring.now c.place c.held.now) }
    ensures cursor { IfSome result (λ c.
        IsAtCursor rings.now (chosen_of session.now.mode) c.index c.ring.now c.place) }
    ensures position { (next : ℕ) → OfAll (RestsIn rings.now next) (chosen_of session.now.mode)
        → option_map (λ c. c.held.now.stamp) result ≡ Some first.stamp }
{
    let entry = session.choice(first.index);
    let ring = rings.ring(entry.station)?;
    let held = ring.get(entry.cursor.ring_place)?;
    Some(Candidate {
        index: first.index,
        ring,
        place: entry.cursor.ring_place,
        held,
    })
}

/// Of all held records that some request wants, from the arrival `next` on, the one that came first.
#[inline(always)]
pub fn found_next<'a>(session: &mut Session, rings: &'a Rings, next: u64) -> Option<Candidate<'a>>
    ensures same { but_for_cursors session.new ≡ but_for_cursors session.old }
    ensures rest { HasPassedAll rings.now next session.old
        → OfAll (RestsIn rings.now next) (chosen_of session.new.mode) }
    ensures index { IfSome result (λ c. c.index < length (chosen_of session.new.mode)) }
    ensures held { IfSome result (λ c. HoldsThere rings.now c.ring.now c.place c.held.now) }
    ensures cursor { IfSome result (λ c.
        IsAtCursor rings.now (chosen_of session.new.mode) c.index c.ring.now c.place) }
    ensures position { HasPassedAll rings.now next session.old
        → (config : ProtocolConfig) (h : List Arrival) → rings.now ≡ holdings_of config h →
        option_map (λ c. c.held.now.stamp) result
        ≡ next_position h (filter_map (request_in config) (chosen_of session.new.mode)) next }
    ensures late { HasPassedAll rings.now next session.old
        → IfSome result (λ c. next ≤ c.held.now.stamp) }
    ensures none { HasPassedAll rings.now next session.old → result ≡ None
        → OfAll (HasNothing rings.now next) (chosen_of session.new.mode) }
    ensures looked { session.new.looked ≡ Some rings.now.arrivals }
    ensures packets { session.new.packets ≡ session.old.packets }
{
    match rest(session, rings, next) {
        Some(first) => candidate(session, first, rings),
        None => None,
    }
}

/// Whether nothing more can come for a named station whose request has passed all: it is asked for nothing, by
/// FETCH, or by TIME with an end after which a held record of the station starts.
fn is_over(entry: &Entry, rings: &Rings) -> bool
    ensures more { (c : Choice) → entry_of c ≡ entry.now → (next : ℕ) → RestsIn rings.now next c
        → IsReached rings.now c
        → result ≡ false → MayCome rings.now c }
    ensures over { (c : Choice) → entry_of c ≡ entry.now → (next : ℕ) → RestsIn rings.now next c
        → IsReached rings.now c
        → (config : ProtocolConfig) (h : List Arrival) → rings.now ≡ holdings_of config h →
        result ≡ is_over_of h (station_at config.entries c.station) c.action }
{
    match entry.action.to_option() {
        None => true,
        Some(Action::Data { .. }) => false,
        Some(Action::Fetch { .. }) => true,
        Some(Action::Time { last: None, .. }) => false,
        Some(Action::Time { last: Some(_), .. }) => is_past_its_end(entry, rings),
    }
}

/// Whether a record of a named station is held that starts after the end of TIME, where its request has passed all.
fn is_past_its_end(entry: &Entry, rings: &Rings) -> bool
    ensures ring { (c : Choice) → entry_of c ≡ entry.now → (next : ℕ) (begin : Option ℤ) (last : ℤ)
        → c.action ≡ Some (Time begin (Some last)) → RestsIn rings.now next c → IsReached rings.now c →
        result ≡ starts_after (slice_get rings.now.rings c.station) begin last }
    ensures history { (c : Choice) → entry_of c ≡ entry.now → (next : ℕ) (begin : Option ℤ) (last : ℤ)
        → c.action ≡ Some (Time begin (Some last)) → RestsIn rings.now next c → IsReached rings.now c
        → (config : ProtocolConfig) (h : List Arrival) → rings.now ≡ holdings_of config h →
        result ≡ holds_after (station_at config.entries c.station) last h }
{
    match rings.ring(entry.station) {
        Some(ring) => has_passed_its_end(ring, entry),
        None => false,
    }
}

/// Whether nothing more can come for any request, where all have passed all.
fn is_complete(entries: &[Entry], rings: &Rings) -> bool
    ensures more { (cs : List Choice) → map entry_of cs ≡ entries.now → (next : ℕ)
        → OfAll (RestsIn rings.now next) cs
        → OfAll (IsReached rings.now) cs → result ≡ false → MoreMayCome rings.now cs }
    ensures complete { (cs : List Choice) → map entry_of cs ≡ entries.now → (next : ℕ)
        → OfAll (RestsIn rings.now next) cs → OfAll (IsReached rings.now) cs
        → (config : ProtocolConfig) (h : List Arrival) → rings.now ≡ holdings_of config h →
        result ≡ list_all (is_over h) (filter_map (request_in config) cs) }
{
    for entry in entries {
        if !is_over(entry, rings) {
            return false;
        }
    }
    true
}

/// How far a request comes from the record after the one that it wanted, as `search_from` says. It is kept out of its
/// caller, which mostly finds that the next record is of the same stream.
#[inline(never)]
fn search_after(session: &Session, found: Candidate<'_>, next: u64) -> Cursor
    requires there { held_at found.ring.now found.place ≡ Some found.held.now }
    requires index { found.index < length (chosen_of session.now.mode) }
    ensures { (c : Choice) → slice_get (chosen_of session.now.mode) found.entry.index ≡ Some c
        → HasPassed found.entry.ring.now next c (at_place (found.entry.place + 1) c.cursor.ended)
        → RestsAt found.entry.ring.now next c result }
{
    found.ring.holds_its_last();
    let _end = found.ring.pushes();
    let from = SearchReached {
        place: found.place + 1,
        ended: session.choice(found.index).cursor.ended,
    };
    search_from(found.ring, session, found.index, next, from)
}

/// How far a request comes from the record after one whose stream passes its patterns. Where the next record is of that
/// stream too, the patterns are not asked again.
#[inline(always)]
pub(crate) fn cursor_after(session: &Session, found: Candidate<'_>, next: u64) -> Cursor
    requires there { held_at found.ring.now found.place ≡ Some found.held.now }
    requires index { found.index < length (chosen_of session.now.mode) }
    ensures { (c : Choice) → slice_get (chosen_of session.now.mode) found.entry.index ≡ Some c
        → passes c.patterns (facts_of found.entry.held.now.summary) ≡ true
        → HasPassed found.entry.ring.now next c (at_place (found.entry.place + 1) c.cursor.ended)
        → RestsAt found.entry.ring.now next c result }
{
    found.ring.holds_its_last();
    let entry = session.choice(found.index);
    let _end = found.ring.pushes();
    let place = found.place + 1;
    match found.ring.get(place) {
        Some(held) if wants_too(entry, next, &found.held.summary, held) => at_record(
            found.ring,
            place,
            entry.cursor.ended,
            held.stamp,
        ),
        Some(_held) => search_after(session, found, next),
        None => at_end(found.ring, entry.cursor.ended),
    }
}

/// The request whose record ahead was sent passes that one, which is not looked at again, and what it doesn't want
/// after it.
#[inline(always)]
fn pass_sent(session: &mut Session, found: Candidate<'_>, next: u64)
    requires there { held_at found.ring.now found.place ≡ Some found.held.now }
    requires index { found.index < length (chosen_of session.old.mode) }
    requires sent { found.held.now.stamp < next }
    ensures same { but_for_cursors session.new ≡ but_for_cursors session.old }
    ensures passed { (rings : RingsValue) (from : ℕ) → from ≤ found.entry.held.now.stamp
        → IsAtCursor rings (chosen_of session.old.mode) found.entry.index found.entry.ring.now found.entry.place
        → OfAll (RestsIn rings from) (chosen_of session.old.mode)
        → HasPassedAll rings next session.old → HasPassedAll rings next session.new }
    ensures packets { session.new.packets ≡ sent_at found.entry.index 1 session.old.packets }
{
    let cursor = cursor_after(session, found, next);
    session.move_cursor(found.index, cursor, 1);
}

/// A transfer goes on after a held record, which its request passes. It answers the number of the record's packet.
#[inline(always)]
pub fn go_past(session: &mut Session, rings: &Rings, found: Candidate<'_>) -> Seq
    requires there { HoldsThere rings.now found.ring.now found.place found.held.now }
    requires index { found.index < length (chosen_of session.old.mode) }
    requires cursor { IsAtCursor rings.now (chosen_of session.old.mode) found.index found.ring.now found.place }
    ensures number { result ≡ number_at found.entry.ring.now found.entry.place }
    ensures session { but_for_cursors session.new ≡ but_for_cursors
        (record session.old { state = Transfer (found.entry.held.now.stamp + 1) }) }
    ensures capacity { 1 ≤ found.entry.ring.now.capacity }
    ensures passed { (next : ℕ) → next ≤ found.entry.held.now.stamp → session.old.looked ≡ Some rings.now.arrivals
        → OfAll (RestsIn rings.now next) (chosen_of session.old.mode) → ArePassed rings.now session.new }
    ensures packets { session.new.packets ≡ sent_at found.entry.index 1 session.old.packets }
{
    let _arrivals = rings.arrivals();
    found.ring.holds_its_last();
    let number = found.ring.number_at(found.place);
    let next = found.held.stamp + 1;
    session.choose_from(next);
    pass_sent(session, found, next);
    number
}

/// The packet of a held record is made to wait, and its request passes it.
fn send(session: &mut Session, rings: &Rings, found: Candidate<'_>)
    requires there { HoldsThere rings.now found.ring.now found.place found.held.now }
    requires index { found.index < length (chosen_of session.old.mode) }
    requires cursor { IsAtCursor rings.now (chosen_of session.old.mode) found.index found.ring.now found.place }
    ensures session { but_for_cursors session.new ≡ but_for_cursors
        (record session.old {
          state = Transfer (found.entry.held.now.stamp + 1);
          waiting = packet (number_at found.entry.ring.now found.entry.place) found.entry.held.now.bytes;
        }) }
    ensures capacity { 1 ≤ found.entry.ring.now.capacity }
    ensures passed { (next : ℕ) → next ≤ found.entry.held.now.stamp → session.old.looked ≡ Some rings.now.arrivals
        → OfAll (RestsIn rings.now next) (chosen_of session.old.mode) → ArePassed rings.now session.new }
    ensures packets { session.new.packets ≡ sent_at found.entry.index 1 session.old.packets }
{
    let number = go_past(session, rings, found);
    session.put_packet(number, &found.held.bytes);
}

/// In a transfer, while nothing waits: of all held records that some request wants, and that arrived after the last
/// one that was sent, the packet of the one that arrived first is made to wait. Where there is none and nothing
/// more can come, `END` is made to wait, and the session is in its end. Else, and in another state, nothing changes
/// but how far the requests have come.
///
/// It looks at no record before a request's cursor, and moves each cursor up to the next record that is wanted.
/// Where nothing was pushed to the ring of a request since that was last looked at, it looks at none of its
/// records. What was passed before has to be unwanted, as it is after `start` and after `choose`, and stays so
/// while records arrive.
pub fn choose(session: &mut Session, config: &Config, rings: &Rings) -> Chosen
    requires { session.old.waiting ≡ [] }
    ensures client { is_transfer session.old.state ≡ true → ArePassed rings.now session.old → (h : List Arrival)
        → rings.now ≡ holdings_of config.now h →
        client_in config.now h session.new ≡ offered h (client_in config.now h session.old) }
    ensures answer { (h : List Arrival) (q : ℕ) → rings.now ≡ holdings_of config.now h
        → session.old.state ≡ Transfer q
        → ArePassed rings.now session.old →
        let requests = filter_map (request_in config.now) (chosen_of session.old.mode) in
        result ≡ answer_of (next_position h requests q) (list_all (is_over h) requests) }
    ensures elsewhere { is_transfer session.old.state ≡ false → result ≡ Nothing }
    ensures unchanged { result ≡ Nothing → but_for_cursors session.new ≡ but_for_cursors session.old }
    ensures passed { ArePassed rings.now session.old → ArePassed rings.now session.new }
    ensures reached { is_transfer session.old.state ≡ true → ArePassed rings.now session.old → result ≡ Nothing
        → OfAll (IsReached rings.now) (chosen_of session.new.mode) }
    ensures sleeps { is_transfer session.old.state ≡ true → ArePassed rings.now session.old → result ≡ Nothing
        → Sleeps rings.now session.new }
    ensures something { result ≢ Nothing → is_nothing session.new.waiting ≡ false }
    ensures requests { all_at_start session.new.mode ≡ all_at_start session.old.mode }
    ensures settled { session.old.state ≢ Starting → session.new.state ≢ Starting }
    ensures places { session.new.places ≡ session.old.places }
    ensures counted { result ≡ Packet → IsCounted 1 session.old session.new }
    ensures uncounted { result ≢ Packet → session.new.packets ≡ session.old.packets }
{
    let State::Transfer(next) = session.state() else {
        return Chosen::Nothing;
    };
    config.codes_are_distinct();
    arrivals_by_place();
    match found_next(session, rings, next) {
        Some(found) => {
            send(session, rings, found);
            Chosen::Packet
        }
        None => end_if_complete(session, rings),
    }
}

/// Whether `choose` would find something, in a transfer while nothing waits: a packet, or the end. Nothing changes
/// but how far the requests have come.
pub fn finds(session: &mut Session, rings: &Rings) -> bool
    requires { session.old.waiting ≡ [] }
    ensures answer { is_transfer session.old.state ≡ true → ArePassed rings.now session.old
        → (config : ProtocolConfig) (h : List Arrival) → rings.now ≡ holdings_of config h →
        result ≡ not (is_nothing (offered h (client_in config h session.old)).waiting) }
    ensures elsewhere { is_transfer session.old.state ≡ false → result ≡ false }
    ensures same { but_for_cursors session.new ≡ but_for_cursors session.old }
    ensures passed { ArePassed rings.now session.old → ArePassed rings.now session.new }
    ensures sleeps { is_transfer session.old.state ≡ true → ArePassed rings.now session.old → result ≡ false
        → Sleeps rings.now session.new }
{
    let State::Transfer(next) = session.state() else {
        return false;
    };
    match found_next(session, rings, next) {
        Some(_found) => true,
        None => is_complete(session.choices(), rings),
    }
}

/// Where nothing more can come, a transfer ends.
pub fn end_if_complete(session: &mut Session, rings: &Rings) -> Chosen
    ensures complete { (next : ℕ) → OfAll (RestsIn rings.now next) (chosen_of session.old.mode)
        → OfAll (IsReached rings.now) (chosen_of session.old.mode) → (config : ProtocolConfig) (h : List Arrival)
        → rings.now ≡ holdings_of config h →
        result ≡ answer_of None (list_all (is_over h) (filter_map (request_in config) (chosen_of session.old.mode))) }
    ensures ended { result ≡ Complete →
        session.new ≡ record session.old { state = Ending; unread = []; waiting = codes "END" } }
    ensures unchanged { result ≡ Nothing → session.new ≡ session.old }
    ensures nothing_chosen { result ≢ Packet }
    ensures more { (next : ℕ) → OfAll (RestsIn rings.now next) (chosen_of session.old.mode)
        → OfAll (IsReached rings.now) (chosen_of session.old.mode) → result ≡ Nothing →
        MoreMayCome rings.now (chosen_of session.old.mode) }
    ensures mode { session.new.mode ≡ session.old.mode }
    ensures packets { session.new.packets ≡ session.old.packets }
{
    if is_complete(session.choices(), rings) {
        session.finish();
        Chosen::Complete
    } else {
        Chosen::Nothing
    }
}
