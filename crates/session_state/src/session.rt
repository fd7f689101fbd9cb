//! One client's side of the server.
//!
//! Three calls serve `transfer` alone: `keep` takes the first arrival that a request wants and its cursor, `put` takes
//! a packet with the position after it, and `state` tells which of its states a session is in without the data of it.
ghost use Rattle.std.specs.Prelude.{◌≡◌, ◌≢◌, ◌≤◌, ◌<◌, ◌+◌, ◌-◌, ◌&&◌, IfOk, IfSome, OnErr, List, [], ◌∷◌, ◌++◌};
ghost use Rattle.std.specs.Prelude.{IsTrue, length, drop};
ghost use Rattle.std.specs.Prelude.{◌↔◌, map, nat_lt, not, is_ok, is_some, true, false, codes, ℕ, Some, slice_get};
ghost use Rattle.protocol.specs.History.{Arrival};
ghost use Rattle.session_state.specs.Entries.{IsOnlyAt, TellsAhead};
ghost use Rattle.session_state.specs.Orders.{IsEarliest};
ghost use Rattle.session_state.specs.declared.choices.Ahead.TheVariants.{Nobody};
ghost use Rattle.protocol.specs.Client.{read_on, received, offered, after_take, cut, new_client, is_ending, is_nothing};

use crate::choices::{Cursor, Entry, First};
use crate::negotiation::Negotiation;
use crate::news::News;
use crate::refusals::NoRoom;
use crate::waiting::{Waiting, put_bytes, put_packet};
use arrayvec::ArrayVec;
use catalog::{Config, View};
use protocol::record::Kind;
use sl_lines::LineCutter;
use sl_packet::Seq;
use std::alloc::{AllocError, Global};
use std::marker::Model;

mod reading;

/// How many unread bytes there may be.
const INBOX: usize = 1024;

/// How many bytes the buffer of unread bytes holds, with those that were read and are not overwritten yet. Since it is
/// twice the inbox, bytes are moved to its front only after as many were read.
const BUFFER: usize = 2048;

/// How many stations a client can name, each of which may be a request.
const REQUESTS: usize = 255;

/// What a session is in the middle of.
#[derive(Clone, Copy)]
pub enum State {
    /// Commands are read while nothing waits.
    Negotiating,
    /// So many lines of CAT were made to wait.
    Listing(usize),
    /// A transfer is to start.
    Starting,
    /// A transfer, which may choose arrivals from this one on.
    Transfer(u64),
    /// The client said BYE, or all was sent.
    Ending,
}

/// Whether reading came to an end.
#[derive(Clone, Copy)]
pub enum Settled {
    /// All was read that may be read now.
    Rest,
    /// A transfer is to start; what follows is read once it has.
    Start,
}

/// A client's state.
#[derive(Drop)]
pub struct Session {
    view: View,
    mode: Negotiation,
    state: State,
    cutter: LineCutter,
    unread: ArrayVec<u8, BUFFER>,
    read: usize,
    waiting: Waiting,
    sent: usize,
    looked: Option<u64>,
    lost: u64,
    /// How many packets the request with each index was sent.
    packets: Vec<u64>,
    news: Option<News>,
}

impl Model for Session {
    ghost use Rattle.std.specs.Prelude.{◌≤◌, ◌+◌, drop, length};
    ghost use Rattle.session_state.specs.Sessions.{SessionValue};

    ghost Value = { SessionValue };

    ghost view = { λ s. record {
      places = s.view;
      mode = s.mode;
      state = s.state;
      open_line = s.cutter;
      unread = drop s.read s.unread.items;
      waiting = drop s.sent s.waiting;
      looked = s.looked;
      lost = s.lost;
      packets = s.packets.items;
      news = s.news;
    } };

    ghost invariant = { λ s. (s.read ≤ length s.unread.items) × (s.sent ≤ length s.waiting)
        × (length s.unread.items ≤ s.read + 1024) };
}

/// What others see of a session.
impl Session {
    ghost use Rattle.protocol.specs.Catalog.{Config as ProtocolConfig};
    ghost use Rattle.protocol.specs.Record.{Facts};
    ghost use Rattle.protocol.specs.Pattern.{passes};
    ghost use Rattle.session_state.specs.NamedValues.{Choice as ChoiceValue, entry_of};
    ghost use Rattle.session_state.specs.Choices.{chosen_of};
    ghost use Rattle.session_state.specs.Sessions.{client_in};
    ghost use Rattle.session_state.specs.declared.session.State.TheVariants.{Negotiating, Starting};

    /// The session of a client that has just come, with what it sees.
    ///
    /// All memory that it will need is taken here, and only for want of it this fails.
    pub fn new(alloc: Global, view: View) -> Result<Session, AllocError>
        ensures client { IfOk result (λ s. (config : ProtocolConfig) (h : List Arrival)
            → client_in config h s ≡ new_client) }
        ensures places { IfOk result (λ s. s.places ≡ view) }
        ensures settled { IfOk result (λ s. s.state ≢ Starting) }
        ensures negotiates { IfOk result (λ s. s.state ≡ Negotiating) }
        ensures lost { IfOk result (λ s. s.lost ≡ 0) }
        ensures news { IfOk result (λ s. s.news ≡ None) }
    {
        let mode = Negotiation::new(alloc, places_of(&view))?;
        let mut packets = Vec::with_capacity(alloc, REQUESTS)?;
        packets.resize(REQUESTS, 0)?;
        Ok(Session {
            view,
            mode,
            state: State::Negotiating,
            cutter: LineCutter::new(),
            unread: ArrayVec::new(),
            read: 0,
            waiting: Waiting::new(),
            sent: 0,
            looked: None,
            lost: 0,
            packets,
            news: None,
        })
    }

    /// How many bytes may be received, from 0 to 1,024.
    pub fn room(&self) -> usize
        ensures value { result ≡ 1024 - length self.now.unread }
        ensures whole { result + length self.now.unread ≡ 1024 }
    {
        INBOX - (self.unread.len() - self.read)
    }

    /// The bytes that wait, at most 520.
    pub fn waiting(&self) -> &[u8]
        ensures { result.now ≡ self.now.waiting }
    {
        &self.waiting.as_slice()[self.sent..]
    }

    /// What it sees.
    pub fn view(&self) -> &View
        ensures { result.now ≡ self.now.places }
    {
        &self.view
    }

    /// What it is in the middle of.
    pub fn state(&self) -> State
        ensures { result ≡ self.now.state }
    {
        self.state
    }

    /// The stations that were named, in that order, without their patterns. Those with an action are the requests of a
    /// transfer.
    pub fn choices(&self) -> &[Entry]
        ensures { result.now ≡ map entry_of (chosen_of self.now.mode) }
    {
        self.mode.choices()
    }

    /// The i-th of them.
    pub fn choice(&self, i: usize) -> &Entry
        requires { i < length (chosen_of self.now.mode) }
        ensures { (c : ChoiceValue) → slice_get (chosen_of self.now.mode) i ≡ Some c → result.now ≡ entry_of c }
    {
        &self.mode.choices()[i]
    }

    /// Whether a record with that location, channel and type passes the patterns of the i-th named station.
    pub fn passes(&self, i: usize, location: &[u8; 2], channel: &[u8; 3], kind: Kind) -> bool
        requires { i < length (chosen_of self.now.mode) }
        ensures { (c : ChoiceValue) (x : Facts) → slice_get (chosen_of self.now.mode) i ≡ Some c
            → x.location ≡ location.now → x.channel ≡ channel.now → x.kind ≡ kind →
            result ≡ passes c.patterns x }
    {
        self.mode.passes(i, location, channel, kind)
    }

    /// Whether all requests of its transfer have looked at their rings since so many records had arrived, as far as it
    /// was kept.
    pub fn has_looked_at(&self, arrivals: u64) -> bool
        ensures { IsTrue result ↔ (self.now.looked ≡ Some arrivals) }
    {
        self.looked == Some(arrivals)
    }

    /// Whether nothing waits.
    #[tactic(auto, using(crate::proofs::LineLemmas::nothing_drop))]
    pub fn is_empty(&self) -> bool
        ensures { result ≡ is_nothing self.now.waiting }
    {
        self.sent == self.waiting.len()
    }

    /// Whether the client said BYE, or all was sent.
    pub fn is_ending(&self) -> bool
        ensures { (config : ProtocolConfig) (h : List Arrival)
            → result ≡ is_ending (client_in config h self.now).state }
    {
        match self.state {
            State::Negotiating => false,
            State::Listing(_) => false,
            State::Starting => false,
            State::Transfer(_) => false,
            State::Ending => true,
        }
    }
}

/// What others do with a session.
impl Session {
    ghost use Rattle.protocol.specs.Catalog.{Config as ProtocolConfig, listing};
    ghost use Rattle.protocol.specs.Packet.{packet};
    ghost use Rattle.session_state.specs.NamedValues.{Choice as ChoiceValue, entry_of};
    ghost use Rattle.session_state.specs.Choices.{chosen_of, kept_in, passed_in};
    ghost use Rattle.session_state.specs.Sessions.{client_in, session_view, line_made, is_listing, HasPlaces};
    ghost use Rattle.session_state.specs.Sessions.{HasFirsts, Comes, KeepsTransfer, but_for_cursors, never_starts};
    ghost use Rattle.session_state.specs.Sessions.{lost_with, sent_at};
    ghost use Rattle.session_state.specs.NewsValues.{news_on, news_received, news_taken};
    ghost use Rattle.session_state.specs.declared.news.News.TheVariants.{Begins};
    ghost use Rattle.session_state.specs.declared.session.State.TheVariants.{Negotiating, Listing, Starting, Transfer};
    ghost use Rattle.session_state.specs.declared.session.State.TheVariants.{Ending};
    ghost use Rattle.session_state.specs.declared.session.Settled.TheVariants.{Rest, Start};

    fn settled(&self) -> Settled
        ensures start { result ≡ Start → self.now.state ≡ Starting }
        ensures rest { result ≡ Rest → self.now.state ≢ Starting }
    {
        match self.state {
            State::Starting => Settled::Start,
            State::Negotiating => Settled::Rest,
            State::Listing(_) => Settled::Rest,
            State::Transfer(_) => Settled::Rest,
            State::Ending => Settled::Rest,
        }
    }

    /// What was received is read as far as it may be, up to a command that starts a transfer.
    pub fn settle(&mut self, config: &Config) -> Settled
        requires { HasPlaces config.now self.old }
        ensures client { (h : List Arrival) → Comes result config.now h self.new
            (read_on (session_view config.now self.old) h self.old.unread (client_in config.now h self.old)) }
        ensures places { self.new.places ≡ self.old.places }
        ensures stays { never_starts self.old.state ≡ true → result ≡ Rest }
        ensures kept { KeepsTransfer self.old self.new }
        ensures starting { result ≡ Start → self.new.state ≡ Starting }
        ensures settled { result ≡ Rest → self.new.state ≢ Starting }
        ensures news { (h : List Arrival) → self.new.news ≡ news_on (session_view config.now self.old) h
            self.old.unread (client_in config.now h self.old) self.old.news }
    {
        while self.has_unread() && self.is_reading() {
            self.read_line(config);
        }
        self.drop_if_ending();
        self.settled()
    }

    /// Bytes come. Where there is no room for all of them they are refused as a whole, and nothing changes. In its end
    /// a session takes and drops them.
    #[tactic(auto, using(crate::proofs::ReceiveLemmas::receive_lemmas))]
    pub fn receive(&mut self, config: &Config, bytes: &[u8]) -> Result<Settled, NoRoom>
        requires { HasPlaces config.now self.old }
        ensures client { IfOk result (λ settled. (h : List Arrival) → Comes settled config.now h self.new
            (received (session_view config.now self.old) h bytes.now (client_in config.now h self.old))) }
        ensures refused { OnErr result
            ((h : List Arrival) → client_in config.now h self.new
            ≡ received (session_view config.now self.old) h bytes.now (client_in config.now h self.old)) }
        ensures unchanged { OnErr result (self.new ≡ self.old) }
        ensures starting { IfOk result (λ settled. settled ≡ Start → self.new.state ≡ Starting) }
        ensures settled { IfOk result (λ settled. settled ≡ Rest → self.new.state ≢ Starting) }
        ensures news { IfOk result (λ settled. (h : List Arrival) → self.new.news
            ≡ news_received (session_view config.now self.old) h bytes.now (client_in config.now h self.old)
            self.old.news) }
        ensures room { is_ok result ≡ not (nat_lt (1024 - length self.old.unread) (length bytes.now)) }
        ensures kept { KeepsTransfer self.old self.new }
        ensures places { self.new.places ≡ self.old.places }
    {
        if bytes.len() > self.room() {
            return Err(NoRoom);
        }
        if self.is_ending() {
            return Ok(Settled::Rest);
        }
        self.append(bytes);
        Ok(self.settle(config))
    }

    /// The transfer that was asked for starts, once it is kept from which arrival on each request wants records. What
    /// is unread stays so until the session settles.
    #[tactic(auto, using(crate::proofs::ReceiveLemmas::start_lemmas))]
    pub fn enter(&mut self)
        requires { self.old.state ≡ Starting }
        ensures state { self.new ≡ record self.old { state = Transfer 0; looked = None; news = Some Begins } }
        ensures client { (config : ProtocolConfig) (h : List Arrival) → HasFirsts config h self.old →
            client_in config h self.new ≡ client_in config h self.old }
    {
        self.tell(News::Begins);
        self.forget_look();
        self.turn_to(State::Transfer(0));
    }

    /// The first bytes that wait, 1 to all of them, were handed. When none is left, further lines are read.
    #[tactic(auto, using(crate::proofs::TookLemmas::took_lemmas))]
    pub fn took(&mut self, config: &Config, count: usize) -> Settled
        requires places { HasPlaces config.now self.old }
        requires some { 0 < count }
        requires waiting { count ≤ length self.old.waiting }
        ensures client { (h : List Arrival) → Comes result config.now h self.new
            (after_take (session_view config.now self.old) h (client_in config.now h self.old) count) }
        ensures starting { result ≡ Start → self.new.state ≡ Starting }
        ensures settled { result ≡ Rest → self.old.state ≢ Starting → self.new.state ≢ Starting }
        ensures kept { KeepsTransfer self.old self.new }
        ensures places { self.new.places ≡ self.old.places }
        ensures news { (h : List Arrival) → self.new.news
            ≡ news_taken (session_view config.now self.old) h (client_in config.now h self.old) count self.old.news }
    {
        self.skip(count);
        if self.is_empty() {
            self.end_listing();
            self.settle(config)
        } else {
            Settled::Rest
        }
    }

    /// The next line of a listing is made to wait, while nothing waits. In another state nothing changes.
    pub fn next_line(&mut self, config: &Config)
        requires places { HasPlaces config.now self.old }
        requires nothing_waits { self.old.waiting ≡ [] }
        ensures client { is_listing self.old.state ≡ true → (h : List Arrival)
            → client_in config.now h self.new ≡ offered h (client_in config.now h self.old) }
        ensures line { (made : ℕ) → self.old.state ≡ Listing made → self.new ≡ line_made config.now made self.old }
        ensures unchanged { is_listing self.old.state ≡ false → self.new ≡ self.old }
        ensures settled { self.old.state ≢ Starting → self.new.state ≢ Starting }
        ensures kept { KeepsTransfer self.old self.new }
        ensures places { self.new.places ≡ self.old.places }
    {
        if let State::Listing(made) = self.state {
            self.make_line(config, made);
        }
    }

    /// Whether a listing has a line more than were made to wait. In another state there is none.
    pub fn has_line(&self) -> bool
        ensures line { (config : ProtocolConfig) (made : ℕ) → self.now.state ≡ Listing made →
            result ≡ is_some (slice_get (listing (session_view config self.now)) made) }
        ensures elsewhere { is_listing self.now.state ≡ false → result ≡ false }
    {
        let all = self.view.places().len();
        match self.state {
            State::Listing(made) => made <= all,
            State::Negotiating => false,
            State::Starting => false,
            State::Transfer(_) => false,
            State::Ending => false,
        }
    }

    /// The packet of a record is made to wait.
    pub fn put_packet(&mut self, number: Seq, bytes: &[u8; 512])
        ensures { self.new ≡ record self.old { waiting = packet number bytes.now } }
    {
        put_packet(&mut self.waiting, number, bytes);
        self.sent = 0;
    }

    /// A transfer may choose arrivals from that one on.
    pub fn choose_from(&mut self, next: u64)
        ensures { self.new ≡ record self.old { state = Transfer next } }
    {
        self.state = State::Transfer(next);
    }

    /// All was sent: `END` is made to wait, and what is unread is dropped.
    pub fn finish(&mut self)
        ensures { self.new ≡ record self.old { state = Ending; unread = []; waiting = codes "END" } }
    {
        put_bytes(&mut self.waiting, b"END");
        self.sent = 0;
        self.read = self.unread.len();
        self.state = State::Ending;
    }

    /// It is cut: what waits is still handed, what is unread is dropped, and nothing is read or chosen any more.
    pub fn cut(&mut self)
        ensures value { self.new ≡ record self.old { state = Ending; unread = [] } }
        ensures client { (config : ProtocolConfig) (h : List Arrival) →
            client_in config h self.new ≡ cut (client_in config h self.old) }
    {
        self.read = self.unread.len();
        self.state = State::Ending;
    }

    /// Keeps from which arrival on the i-th named station's records are wanted.
    pub fn begin_at(&mut self, i: usize, first: u64)
        requires { i < length (chosen_of self.old.mode) }
        ensures { self.new ≡ record self.old { mode = kept_in self.old.mode i first } }
    {
        let _ = &self.state;
        self.mode.begin_at(i, first);
    }

    /// Keeps how far the transfer has come in the ring of the i-th named station, and counts the packets that it was
    /// sent on that way.
    pub fn move_cursor(&mut self, i: usize, cursor: Cursor, sent: usize)
        requires { i < length (chosen_of self.old.mode) }
        ensures same { but_for_cursors self.new ≡ but_for_cursors self.old }
        ensures here { (c : ChoiceValue) → slice_get (chosen_of self.old.mode) i ≡ Some c →
            slice_get (chosen_of self.new.mode) i ≡ Some (record c { cursor = cursor }) }
        ensures others { (j : ℕ) → j ≢ i
            → slice_get (chosen_of self.new.mode) j ≡ slice_get (chosen_of self.old.mode) j }
        ensures count { length (chosen_of self.new.mode) ≡ length (chosen_of self.old.mode) }
        ensures looked { self.new.looked ≡ self.old.looked }
        ensures packets { self.new.packets ≡ sent_at i sent self.old.packets }
    {
        self.put_cursor(i, cursor);
        self.count_packets(i, sent);
    }

    /// How far the transfer has come in the ring of the i-th named station.
    #[inline(always)]
    fn put_cursor(&mut self, i: usize, cursor: Cursor)
        requires { i < length (chosen_of self.old.mode) }
        ensures { self.new ≡ record self.old { mode = passed_in self.old.mode i cursor } }
    {
        let _ = &self.state;
        self.mode.move_cursor(i, cursor);
    }

    /// The i-th request was sent so many packets.
    #[inline(always)]
    fn count_packets(&mut self, i: usize, sent: usize)
        ensures { self.new ≡ record self.old { packets = sent_at i sent self.old.packets } }
    {
        let _ = &self.state;
        if sent > 0 && i < self.packets.len() {
            self.packets[i] = self.packets[i].saturating_add(sent as u64);
        }
    }

    /// How many packets the request with each index was sent, 0 to 2^64 - 1, where the count stays.
    pub fn packets(&self) -> &[u64]
        ensures { result.now ≡ self.now.packets }
    {
        let _ = &self.state;
        self.packets.as_slice()
    }

    /// Keeps that all requests have looked at their rings since so many records had arrived.
    pub fn keep_look(&mut self, arrivals: u64)
        ensures { self.new ≡ record self.old { looked = Some arrivals } }
    {
        let _ = &self.state;
        self.looked = Some(arrivals);
    }

    /// Counts records that its requests lost: they went out of their rings before a cursor came to them. The count is 0
    /// to 2^64 - 1, where it stays.
    pub fn lose(&mut self, records: u64)
        ensures { self.new ≡ record self.old { lost = lost_with self.old.lost records } }
    {
        let _ = &self.state;
        self.lost = self.lost.saturating_add(records);
    }

    /// How many records its requests lost so far.
    pub fn lost(&self) -> u64
        ensures { result ≡ self.now.lost }
    {
        let _ = &self.state;
        self.lost
    }

    /// What there is to tell since this was asked last, if anything: the last of it.
    pub fn take_news(&mut self) -> Option<News>
        ensures news { result ≡ self.old.news }
        ensures left { self.new ≡ record self.old { news = None } }
    {
        let _ = &self.state;
        let news = self.news;
        self.news = None;
        news
    }

    /// The index of the named station at a place, where it is found at once: there is no other at that place.
    pub fn find(&self, place: usize) -> Option<usize>
        ensures { IfSome result (λ i. IsOnlyAt (map entry_of (chosen_of self.now.mode)) place i) }
    {
        let _ = &self.state;
        self.mode.find(place)
    }

    /// The request whose record ahead came first, if one has any.
    pub fn earliest(&self) -> Option<First>
        ensures { IsEarliest (map entry_of (chosen_of self.now.mode)) result }
    {
        let _ = &self.state;
        self.mode.earliest()
    }

    /// Keeps that none has a record ahead.
    pub fn keep_quiet(&mut self)
        requires { TellsAhead Nobody (map entry_of (chosen_of self.old.mode)) }
        ensures { self.new ≡ self.old }
    {
        let _ = &self.state;
        self.mode.keep_quiet();
    }

    /// How many records had arrived when all requests were last found to have looked at their rings.
    pub fn looked(&self) -> Option<u64>
        ensures { result ≡ self.now.looked }
    {
        let _ = &self.state;
        self.looked
    }
}

/// How many places a view reaches over: one more than its last place.
fn places_of(view: &View) -> usize {
    match view.places().last() {
        Some(place) => usize::from(*place) + 1,
        None => 0,
    }
}
