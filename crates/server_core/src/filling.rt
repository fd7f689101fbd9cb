//! Packets that a client is handed one after the other.
ghost use Rattle.std.specs.Prelude.{◌≡◌, ◌≤◌, ◌<◌, ◌+◌, ◌*◌, ◌++◌, IfSome, List, None, Some, length, true};
ghost use Rattle.std.specs.Prelude.{vec_capacity, vec_len};
ghost use Rattle.protocol.specs.Client.{offered};
ghost use Rattle.protocol.specs.History.{Arrival};
ghost use Rattle.session_state.specs.Sessions.{but_for_cursors, client_in};
ghost use Rattle.session_state.specs.declared.session.Settled.TheVariants.{Rest};
ghost use Rattle.transfer.specs.Runs.{AreHanded};
ghost use Rattle.server_core.specs.Handing.{HandsPackets, OnlySends, offered_open_of};
ghost use Rattle.server_core.specs.Marks.{IsIdle, KeepsRequests};
ghost use Rattle.server_core.specs.Refusals.{offer_of};
ghost use Rattle.server_core.specs.ServerValues.{HoldsOf, IsSettled, open_client_of};
ghost use Rattle.server_core.specs.declared.client.Offer.TheVariants.{Idle};

use crate::client::Offer;
use crate::slots::{offer, took};
use catalog::Config;
use session_state::{Session, Settled, State};
use sl_packet::PACKET;
use station_ring::Rings;
use transfer::{Chosen, choose_into};

/// What packets that were handed one after the other led to.
#[derive(Clone, Copy)]
pub(crate) struct Filling {
    /// How many they were.
    pub count: usize,
    /// Whether a transfer started after the last of them.
    pub settled: Settled,
    /// What the offer after it found.
    pub found: Offer,
}

/// What packets that were handed after the first one led to.
#[derive(Clone, Copy)]
struct Handed {
    /// How many they were.
    count: usize,
    /// What the offer after them found.
    found: Offer,
}

/// Whether a whole packet waits.
fn is_whole(session: &Session) -> bool
    ensures { result ≡ true → length session.now.waiting ≡ 520 }
{
    session.waiting().len() == PACKET
}

/// Whether a session is in a transfer in which nothing waits and nothing is unread.
fn only_sends(session: &Session) -> bool
    ensures { result ≡ true → OnlySends session.now }
{
    match session.state() {
        State::Transfer(_) => session.is_empty() && !session.has_unread(),
        State::Negotiating => false,
        State::Listing(_) => false,
        State::Starting => false,
        State::Ending => false,
    }
}

/// What waits is appended to bytes that have room for it.
fn append_waiting(session: &Session, out: &mut Vec<u8>)
    requires room { vec_len out.old + length session.now.waiting ≤ vec_capacity out.old }
    ensures bytes { out.new.items ≡ out.old.items ++ session.now.waiting }
    ensures len { vec_len out.new ≡ vec_len out.old + length session.now.waiting }
    ensures room { vec_capacity out.old ≤ vec_capacity out.new }
{
    let _appended = out.extend_from_slice(session.waiting());
}

/// A whole packet that waits is appended to bytes that have room for it, and is handed. It answers whether a transfer
/// started.
fn hand_first(config: &Config, rings: &Rings, session: &mut Session, out: &mut Vec<u8>) -> Settled
    requires settled { IsSettled config.now rings.now session.old }
    requires whole { length session.old.waiting ≡ 520 }
    requires room { vec_len out.old + 520 ≤ vec_capacity out.old }
    ensures hands { (h : List Arrival) → HoldsOf config.now rings.now h
        → HandsPackets h (Some (open_client_of config.now h session.old))
        (Some (offered_open_of config.now h session.new)) 1 out.old.items out.new.items }
    ensures kept { result ≡ Rest → KeepsRequests session.old session.new }
    ensures settled { IsSettled config.now rings.now session.new }
    ensures len { vec_len out.new ≡ vec_len out.old + 520 }
    ensures room { vec_capacity out.old ≤ vec_capacity out.new }
{
    append_waiting(session, out);
    took(config, rings, session, PACKET)
}

/// What came next in a transfer.
#[derive(Clone, Copy)]
struct Next {
    /// How many packets were handed.
    count: usize,
    /// What an offer found, where none was.
    found: Option<Offer>,
}

/// Packets that come next in a transfer, one or more and at most so many, are appended to bytes that have room for
/// them, and are handed one after the other, without waiting in the session. Where there is none, it answers what an
/// offer found.
fn hand_next(
    config: &Config,
    rings: &Rings,
    session: &mut Session,
    most: usize,
    out: &mut Vec<u8>,
) -> Next
    requires settled { IsSettled config.now rings.now session.old }
    requires sends { OnlySends session.old }
    requires some { 0 < most }
    requires room { vec_len out.old + most * 520 ≤ vec_capacity out.old }
    ensures most { result.count ≤ most }
    ensures some { result.found ≡ None → 0 < result.count }
    ensures none { IfSome result.found (λ found. result.count ≡ 0) }
    ensures handed { result.found ≡ None → (h : List Arrival) → HoldsOf config.now rings.now h
        → AreHanded config.now h session.old out.old.items session.new.state result.count out.new.items }
    ensures same { result.found ≡ None → but_for_cursors session.new
        ≡ but_for_cursors (record session.old { state = session.new.state }) }
    ensures sends { result.found ≡ None → OnlySends session.new }
    ensures offered { IfSome result.found (λ found. (h : List Arrival) → HoldsOf config.now rings.now h
        → client_in config.now h session.new ≡ offered h (client_in config.now h session.old)) }
    ensures found { IfSome result.found (λ found. (h : List Arrival) → HoldsOf config.now rings.now h
        → found ≡ offer_of (client_in config.now h session.new)) }
    ensures idle { IfSome result.found (λ found. found ≡ Idle → IsIdle config.now rings.now session.new) }
    ensures kept { KeepsRequests session.old session.new }
    ensures places { session.new.places ≡ session.old.places }
    ensures settled { IsSettled config.now rings.now session.new }
    ensures unchanged { IfSome result.found (λ found. out.new ≡ out.old) }
    ensures len { vec_len out.new ≡ vec_len out.old + result.count * 520 }
    ensures room { vec_capacity out.old ≤ vec_capacity out.new }
{
    let handing = choose_into(session, config, rings, most, out);
    let found = match handing.chosen {
        Chosen::Packet => None,
        Chosen::Nothing => Some(Offer::Idle),
        Chosen::Complete => Some(Offer::Bytes),
    };
    Next {
        count: handing.count,
        found,
    }
}

/// The packets that come next in a transfer are appended to bytes and handed one after the other, at most so many; and
/// what comes next is made to wait.
fn hand_more(
    config: &Config,
    rings: &Rings,
    session: &mut Session,
    most: usize,
    out: &mut Vec<u8>,
) -> Handed
    requires settled { IsSettled config.now rings.now session.old }
    requires sends { 0 < most → OnlySends session.old }
    requires room { vec_len out.old + most * 520 ≤ vec_capacity out.old }
    ensures most { result.count ≤ most }
    ensures hands { (h : List Arrival) → HoldsOf config.now rings.now h
        → HandsPackets h (Some (offered_open_of config.now h session.old))
        (Some (open_client_of config.now h session.new)) result.count out.old.items out.new.items }
    ensures found { (h : List Arrival) → HoldsOf config.now rings.now h
        → result.found ≡ offer_of (client_in config.now h session.new) }
    ensures idle { result.found ≡ Idle → IsIdle config.now rings.now session.new }
    ensures kept { KeepsRequests session.old session.new }
    ensures settled { IsSettled config.now rings.now session.new }
    ensures len { vec_len out.new ≡ vec_len out.old + result.count * 520 }
    ensures room { vec_capacity out.old ≤ vec_capacity out.new }
{
    let mut count = 0;
    'packets: while count < most {
        let next = hand_next(config, rings, session, most - count, out);
        match next.found {
            None => count += next.count,
            Some(found) => return Handed { count, found },
        }
    }
    let found = offer(config, rings, session);
    Handed { count, found }
}

/// A whole packet that waits, and those that come next in a transfer, are appended to bytes and handed one after the
/// other, at most so many.
pub(crate) fn hand_packets(
    config: &Config,
    rings: &Rings,
    session: &mut Session,
    most: usize,
    out: &mut Vec<u8>,
) -> Filling
    requires settled { IsSettled config.now rings.now session.old }
    requires room { vec_len out.old + most * 520 ≤ vec_capacity out.old }
    ensures most { result.count ≤ most }
    ensures some { 0 < result.count → length session.old.waiting ≡ 520 }
    ensures hands { (h : List Arrival) → HoldsOf config.now rings.now h
        → HandsPackets h (Some (open_client_of config.now h session.old))
        (Some (open_client_of config.now h session.new)) result.count out.old.items out.new.items }
    ensures found { 0 < result.count → (h : List Arrival) → HoldsOf config.now rings.now h
        → result.found ≡ offer_of (client_in config.now h session.new) }
    ensures idle { result.found ≡ Idle → IsIdle config.now rings.now session.new }
    ensures kept { result.settled ≡ Rest → KeepsRequests session.old session.new }
    ensures unchanged { result.count ≡ 0 → session.new ≡ session.old }
    ensures settled { IsSettled config.now rings.now session.new }
    ensures len { vec_len out.new ≡ vec_len out.old + result.count * 520 }
    ensures room { vec_capacity out.old ≤ vec_capacity out.new }
{
    if most == 0 || !is_whole(session) {
        return Filling {
            count: 0,
            settled: Settled::Rest,
            found: Offer::Bytes,
        };
    }
    let settled = hand_first(config, rings, session, out);
    let left = if only_sends(session) { most - 1 } else { 0 };
    let more = hand_more(config, rings, session, left, out);
    Filling {
        count: more.count + 1,
        settled,
        found: more.found,
    }
}
