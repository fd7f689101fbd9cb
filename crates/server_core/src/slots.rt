//! What the server does with the session in a slot, and with its marks.
ghost use Rattle.std.specs.Prelude.{◌≡◌, ◌≢◌, ◌≤◌, ◌<◌, IfOk, OnErr, List, length, not, take, Some};
ghost use Rattle.std.specs.Prelude.{true, false, Ok, is_ok, is_some, IsSome, option_map, ◌+◌, ◌*◌, ℕ};
ghost use Rattle.std.specs.Prelude.{vec_capacity, vec_len, None};
ghost use Rattle.std.specs.Result.{result_ok};
ghost use Rattle.protocol.specs.Catalog.{Config as ProtocolConfig};
ghost use Rattle.protocol.specs.History.{Arrival};
ghost use Rattle.protocol.specs.Client.{Client as ProtocolClient, received, offered, after_take, is_ending, is_nothing};
ghost use Rattle.slab.specs.Slab.{get};
ghost use Rattle.server_core.specs.Rows.{bit_of};
ghost use Rattle.session_state.specs.Sessions.{SessionValue, client_in, session_view, Comes, HasPlaces};
ghost use Rattle.session_state.specs.declared.session.State.TheVariants.{Starting, Ending};
ghost use Rattle.session_state.specs.declared.session.Settled.TheVariants.{Rest, Start};
ghost use Rattle.transfer.specs.Cursors.{ArePassed};
ghost use Rattle.server_core.specs.Refusals.{is_idle, receipt, receipt_in, offer_of};
ghost use Rattle.server_core.specs.Reloads.{HasHistory};
ghost use Rattle.server_core.specs.Marks.{AreMarked, Elsewhere, IsIdle, Keeps, KeepsRequests};
ghost use Rattle.server_core.specs.declared.client.Offer.TheVariants.{Idle};
ghost use Rattle.server_core.specs.ServerValues.{AreSettled, HoldsOf, IsSettled, SlotGoesOn, StayOpen, client_of_open};
ghost use Rattle.server_core.specs.ServerValues.{goes_on, handing, news_of, open_client, taking};
ghost use Rattle.server_core.specs.Handing.{HandsPackets};

use crate::client::{Filled, Gone, Offer, ReceiveRefusal};
use crate::filling::hand_packets;
use crate::marks::Marks;
use catalog::Config;
use session_state::{News, Session, Settled, State};
use slab::Slab;
use station_ring::Rings;
use transfer::{choose, finds, start};

/// A session that settled goes on with its transfer, where one is to start.
#[tactic(auto, using(crate::proofs::OfferLemmas::proceed_lemmas))]
fn proceed(config: &Config, rings: &Rings, session: &mut Session, settled: Settled)
    requires places { HasPlaces config.now session.old }
    requires starting { settled ≡ Start → session.old.state ≡ Starting }
    requires rest { settled ≡ Rest → session.old.state ≢ Starting }
    requires passed { ArePassed rings.now session.old }
    ensures client { (h : List Arrival) → HoldsOf config.now rings.now h → (c : ProtocolClient)
        → Comes settled config.now h session.old c → client_in config.now h session.new ≡ c }
    ensures places { session.new.places ≡ session.old.places }
    ensures settled { IsSettled config.now rings.now session.new }
    ensures rests { settled ≡ Rest → session.new ≡ session.old }
{
    match settled {
        Settled::Rest => {}
        Settled::Start => {
            start(session, rings);
            let _settled = session.settle(config);
        }
    }
}

/// Bytes come; where there is no room for all of them they are refused as a whole, and nothing changes. It answers
/// whether a transfer started.
#[tactic(auto, using(crate::proofs::OfferLemmas::receive_lemmas))]
fn receive(
    config: &Config,
    rings: &Rings,
    session: &mut Session,
    bytes: &[u8],
) -> Result<Settled, ReceiveRefusal>
    requires { IsSettled config.now rings.now session.old }
    ensures client { (h : List Arrival) → HoldsOf config.now rings.now h → client_in config.now h session.new
        ≡ received (session_view config.now session.old) h bytes.now (client_in config.now h session.old) }
    ensures answer { (h : List Arrival) →
        receipt_in result ≡ receipt (length bytes.now) (Some (client_in config.now h session.old)) }
    ensures kept { IfOk result (λ settled. settled ≡ Rest → KeepsRequests session.old session.new) }
    ensures refused { OnErr result (session.new ≡ session.old) }
    ensures places { session.new.places ≡ session.old.places }
    ensures settled { IsSettled config.now rings.now session.new }
{
    match session.receive(config, bytes) {
        Ok(settled) => {
            proceed(config, rings, session, settled);
            Ok(settled)
        }
        Err(_) => Err(ReceiveRefusal::NoRoom),
    }
}

/// Where nothing waits, what comes next is made to wait.
#[tactic(auto, using(crate::proofs::OfferLemmas::fill_lemmas))]
fn fill(config: &Config, rings: &Rings, session: &mut Session)
    requires { IsSettled config.now rings.now session.old }
    ensures client { (h : List Arrival) → HoldsOf config.now rings.now h
        → client_in config.now h session.new ≡ offered h (client_in config.now h session.old) }
    ensures idle { is_nothing session.new.waiting ≡ true → session.new.state ≢ Ending →
        IsIdle config.now rings.now session.new }
    ensures kept { KeepsRequests session.old session.new }
    ensures places { session.new.places ≡ session.old.places }
    ensures settled { IsSettled config.now rings.now session.new }
{
    if !session.is_empty() {
        return;
    }
    match session.state() {
        State::Negotiating => {}
        State::Listing(_) => session.next_line(config),
        State::Starting => {}
        State::Transfer(_) => {
            let _chosen = choose(session, config, rings);
        }
        State::Ending => {}
    }
}

/// Where nothing waits, what comes next is made to wait; and what is found then.
pub(crate) fn offer(config: &Config, rings: &Rings, session: &mut Session) -> Offer
    requires { IsSettled config.now rings.now session.old }
    ensures client { (h : List Arrival) → HoldsOf config.now rings.now h
        → client_in config.now h session.new ≡ offered h (client_in config.now h session.old) }
    ensures found { (h : List Arrival) → HoldsOf config.now rings.now h
        → result ≡ offer_of (offered h (client_in config.now h session.old)) }
    ensures idle { result ≡ Idle → IsIdle config.now rings.now session.new }
    ensures kept { KeepsRequests session.old session.new }
    ensures places { session.new.places ≡ session.old.places }
    ensures settled { IsSettled config.now rings.now session.new }
{
    fill(config, rings, session);
    if !session.is_empty() {
        Offer::Bytes
    } else if session.is_ending() {
        Offer::Ended
    } else {
        Offer::Idle
    }
}

/// Whether an offer would find something. Nothing changes but how far the requests have come. It is kept out of its
/// caller, which mostly finds that a client is not marked.
#[inline(never)]
fn is_ready(rings: &Rings, session: &mut Session) -> bool
    ensures client { (config : ProtocolConfig) (h : List Arrival) → IsSettled config rings.now session.old →
        HoldsOf config rings.now h →
        client_in config h session.new ≡ client_in config h session.old }
    ensures answer { (config : ProtocolConfig) (h : List Arrival) → IsSettled config rings.now session.old →
        HoldsOf config rings.now h →
        result ≡ not (is_idle (offer_of (offered h (client_in config h session.old)))) }
    ensures spared { (config : ProtocolConfig) (h : List Arrival) → IsSettled config rings.now session.old →
        HoldsOf config rings.now h →
        result ≡ false → offered h (client_in config h session.old) ≡ client_in config h session.old }
    ensures kept { KeepsRequests session.old session.new }
    ensures state { session.new.state ≡ session.old.state }
    ensures places { session.new.places ≡ session.old.places }
    ensures settled { (config : ProtocolConfig) → IsSettled config rings.now session.old →
        IsSettled config rings.now session.new }
{
    if !session.is_empty() {
        return true;
    }
    match session.state() {
        State::Negotiating => false,
        State::Listing(_) => session.has_line(),
        State::Starting => false,
        State::Transfer(_) => finds(session, rings),
        State::Ending => true,
    }
}

/// The first bytes that wait, 1 to all of them, were handed. It answers whether a transfer started.
#[tactic(auto, using(crate::proofs::OfferLemmas::proceed_lemmas))]
pub(crate) fn took(config: &Config, rings: &Rings, session: &mut Session, count: usize) -> Settled
    requires settled { IsSettled config.now rings.now session.old }
    requires some { 0 < count }
    requires waiting { count ≤ length session.old.waiting }
    ensures client { (h : List Arrival) → HoldsOf config.now rings.now h → client_in config.now h session.new
        ≡ after_take (session_view config.now session.old) h (client_in config.now h session.old) count }
    ensures kept { result ≡ Rest → KeepsRequests session.old session.new }
    ensures places { session.new.places ≡ session.old.places }
    ensures settled { IsSettled config.now rings.now session.new }
{
    let settled = session.took(config, count);
    proceed(config, rings, session, settled);
    settled
}

/// Bytes come from a client.
pub fn receive_in(
    config: &Config,
    rings: &Rings,
    slots: &mut Slab<Session>,
    marks: &mut Marks,
    slot: usize,
    bytes: &[u8],
) -> Result<(), ReceiveRefusal>
    requires settled { AreSettled config.now rings.now slots.old }
    requires marked { AreMarked config.now rings.now marks.old slots.old }
    ensures changed { (h : List Arrival) → HoldsOf config.now rings.now h
        → SlotGoesOn config.now h slots.old slots.new slot (λ v c. received v h bytes.now c) }
    ensures settled { AreSettled config.now rings.now slots.new }
    ensures marked { AreMarked config.now rings.now marks.new slots.new }
    ensures stations { length marks.new.rows.items ≡ length marks.old.rows.items }
    ensures kept { StayOpen slots.old slots.new }
    ensures others { Keeps (Elsewhere slot) marks.old marks.new }
    ensures answer { (h : List Arrival)
        → result ≡ receipt (length bytes.now) (client_of_open (open_client config.now h (Some (get slots.old slot)))) }
{
    match slots.get_mut(slot) {
        Some(session) => {
            let settled = receive(config, rings, session, bytes)?;
            marks.heard(slot, session, settled);
            Ok(())
        }
        None => Err(ReceiveRefusal::Gone),
    }
}

/// Where nothing waits for a client, what comes next is made to wait.
pub fn offer_in(
    config: &Config,
    rings: &Rings,
    slots: &mut Slab<Session>,
    marks: &mut Marks,
    slot: usize,
) -> Result<Offer, Gone>
    requires settled { AreSettled config.now rings.now slots.old }
    requires marked { AreMarked config.now rings.now marks.old slots.old }
    requires history { HasHistory config.now rings.now }
    ensures changed { (h : List Arrival) → HoldsOf config.now rings.now h
        → SlotGoesOn config.now h slots.old slots.new slot (λ v c. offered h c) }
    ensures settled { AreSettled config.now rings.now slots.new }
    ensures marked { AreMarked config.now rings.now marks.new slots.new }
    ensures stations { length marks.new.rows.items ≡ length marks.old.rows.items }
    ensures kept { StayOpen slots.old slots.new }
    ensures others { Keeps (Elsewhere slot) marks.old marks.new }
    ensures answer { (h : List Arrival) → HoldsOf config.now rings.now h
        → result_ok result ≡ option_map (λ c. offer_of (offered h c))
        (client_of_open (open_client config.now h (Some (get slots.old slot)))) }
    ensures idle { result ≡ Ok Idle → bit_of marks.new.marked slot ≡ false }
{
    match slots.get_mut(slot) {
        Some(session) => {
            let found = offer(config, rings, session);
            marks.offered(slot, session, found);
            Ok(found)
        }
        None => Err(Gone),
    }
}

/// Whether an offer to a client would find something. Nothing changes but how far its requests have come.
pub fn is_ready_in(
    config: &Config,
    rings: &Rings,
    slots: &mut Slab<Session>,
    marks: &Marks,
    slot: usize,
) -> Result<bool, Gone>
    requires settled { AreSettled config.now rings.now slots.old }
    requires marked { AreMarked config.now rings.now marks.now slots.old }
    requires there { IsSome (get slots.old slot) }
    ensures changed { (h : List Arrival) → HoldsOf config.now rings.now h →
        SlotGoesOn config.now h slots.old slots.new slot (λ v c. c) }
    ensures settled { AreSettled config.now rings.now slots.new }
    ensures marked { AreMarked config.now rings.now marks.now slots.new }
    ensures kept { StayOpen slots.old slots.new }
    ensures answer { (h : List Arrival) → HoldsOf config.now rings.now h → result_ok result
        ≡ option_map (λ c. not (is_idle (offer_of (offered h c))))
        (client_of_open (open_client config.now h (Some (get slots.old slot)))) }
    ensures spared { (h : List Arrival) → HoldsOf config.now rings.now h → result ≡ Ok false → (c : ProtocolClient) →
        client_of_open (open_client config.now h (Some (get slots.old slot))) ≡ Some c → offered h c ≡ c }
{
    let _ = config;
    if !marks.is_marked(slot) {
        return Ok(false);
    }
    match slots.get_mut(slot) {
        Some(session) => Ok(is_ready(rings, session)),
        None => Err(Gone),
    }
}

/// The first bytes that wait for a client were handed.
pub fn took_in(
    config: &Config,
    rings: &Rings,
    slots: &mut Slab<Session>,
    marks: &mut Marks,
    slot: usize,
    count: usize,
) -> Result<(), Gone>
    requires settled { AreSettled config.now rings.now slots.old }
    requires marked { AreMarked config.now rings.now marks.old slots.old }
    requires count { (s : SessionValue) → get slots.old slot ≡ Some s → (0 < count) × (count ≤ length s.waiting) }
    ensures changed { (h : List Arrival) → HoldsOf config.now rings.now h
        → SlotGoesOn config.now h slots.old slots.new slot (taking h count) }
    ensures settled { AreSettled config.now rings.now slots.new }
    ensures marked { AreMarked config.now rings.now marks.new slots.new }
    ensures stations { length marks.new.rows.items ≡ length marks.old.rows.items }
    ensures kept { StayOpen slots.old slots.new }
    ensures others { Keeps (Elsewhere slot) marks.old marks.new }
    ensures answer { (h : List Arrival)
        → is_ok result ≡ is_some (client_of_open (open_client config.now h (Some (get slots.old slot)))) }
{
    match slots.get_mut(slot) {
        Some(session) => {
            let settled = took(config, rings, session, count);
            marks.took(slot, session, settled);
            Ok(())
        }
        None => Err(Gone),
    }
}

/// What there is to tell of a client's negotiation since this was asked last, if anything: the last of it.
pub fn take_news_in(
    config: &Config,
    rings: &Rings,
    slots: &mut Slab<Session>,
    marks: &Marks,
    slot: usize,
) -> Option<News>
    requires settled { AreSettled config.now rings.now slots.old }
    requires marked { AreMarked config.now rings.now marks.now slots.old }
    ensures news { result ≡ news_of (get slots.old slot) }
    ensures changed { (h : List Arrival) → SlotGoesOn config.now h slots.old slots.new slot (λ v c. c) }
    ensures taken { news_of (get slots.new slot) ≡ None }
    ensures settled { AreSettled config.now rings.now slots.new }
    ensures marked { AreMarked config.now rings.now marks.now slots.new }
    ensures kept { StayOpen slots.old slots.new }
{
    let _ = config;
    let _ = rings;
    let _ = marks;
    match slots.get_mut(slot) {
        Some(session) => session.take_news(),
        None => None,
    }
}

/// The first bytes that wait for a client were handed, and what comes next is made to wait.
pub fn go_on_in(
    config: &Config,
    rings: &Rings,
    slots: &mut Slab<Session>,
    marks: &mut Marks,
    slot: usize,
    count: usize,
) -> Result<Offer, Gone>
    requires settled { AreSettled config.now rings.now slots.old }
    requires marked { AreMarked config.now rings.now marks.old slots.old }
    requires count { (s : SessionValue) → get slots.old slot ≡ Some s → (0 < count) × (count ≤ length s.waiting) }
    ensures changed { (h : List Arrival) → HoldsOf config.now rings.now h
        → SlotGoesOn config.now h slots.old slots.new slot (handing h count) }
    ensures settled { AreSettled config.now rings.now slots.new }
    ensures marked { AreMarked config.now rings.now marks.new slots.new }
    ensures stations { length marks.new.rows.items ≡ length marks.old.rows.items }
    ensures kept { StayOpen slots.old slots.new }
    ensures others { Keeps (Elsewhere slot) marks.old marks.new }
    ensures answer { (h : List Arrival) → HoldsOf config.now rings.now h
        → result_ok result ≡ option_map (λ c. offer_of (offered h c))
        (client_of_open (goes_on (taking h count) (open_client config.now h (Some (get slots.old slot))))) }
    ensures idle { result ≡ Ok Idle → bit_of marks.new.marked slot ≡ false }
{
    match slots.get_mut(slot) {
        Some(session) => {
            let settled = took(config, rings, session, count);
            let found = offer(config, rings, session);
            marks.went_on(slot, session, settled, found);
            Ok(found)
        }
        None => Err(Gone),
    }
}

/// Whole packets that wait for a client that was offered something are appended to bytes and handed one after the
/// other, at most so many. It answers how many they were, and what the offer after them found.
pub fn fill_in(
    config: &Config,
    rings: &Rings,
    slots: &mut Slab<Session>,
    marks: &mut Marks,
    slot: usize,
    found: Result<Offer, Gone>,
    most: usize,
    out: &mut Vec<u8>,
) -> Filled
    requires settled { AreSettled config.now rings.now slots.old }
    requires marked { AreMarked config.now rings.now marks.old slots.old }
    requires there { IsSome (get slots.old slot) }
    requires room { vec_len out.old + most * 520 ≤ vec_capacity out.old }
    ensures most { result.count ≤ most }
    ensures hands { (h : List Arrival) → HoldsOf config.now rings.now h
        → HandsPackets h (open_client config.now h (Some (get slots.old slot)))
        (open_client config.now h (Some (get slots.new slot))) result.count out.old.items out.new.items }
    ensures elsewhere { (other : ℕ) → other ≢ slot → get slots.new other ≡ get slots.old other }
    ensures settled { AreSettled config.now rings.now slots.new }
    ensures marked { AreMarked config.now rings.now marks.new slots.new }
    ensures stations { length marks.new.rows.items ≡ length marks.old.rows.items }
    ensures kept { StayOpen slots.old slots.new }
    ensures others { Keeps (Elsewhere slot) marks.old marks.new }
    ensures answer { (h : List Arrival) → HoldsOf config.now rings.now h
        → result_ok found ≡ option_map offer_of (client_of_open (open_client config.now h (Some (get slots.old slot))))
        → result_ok result.found
        ≡ option_map offer_of (client_of_open (open_client config.now h (Some (get slots.new slot)))) }
    ensures idle { 0 < result.count → result.found ≡ Ok Idle → bit_of marks.new.marked slot ≡ false }
    ensures len { vec_len out.new ≡ vec_len out.old + result.count * 520 }
    ensures room { vec_capacity out.old ≤ vec_capacity out.new }
{
    match slots.get_mut(slot) {
        Some(session) => {
            let filling = hand_packets(config, rings, session, most, out);
            if filling.count == 0 {
                return Filled { count: 0, found };
            }
            marks.went_on(slot, session, filling.settled, filling.found);
            Filled {
                count: filling.count,
                found: Ok(filling.found),
            }
        }
        None => Filled { count: 0, found },
    }
}
