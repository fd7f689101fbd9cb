//! The stations that a client named, with the patterns of each.
//!
//! A session takes all of its memory when it is made: room for 255 stations and one pool of 1,024 patterns, so that no
//! command of a client can fail for want of memory. The stations of a transfer are lent without their patterns, which
//! lie in the pool, and `Session::passes` asks those of one station alone. Uni-station mode is kept as one station that
//! has no place yet.
ghost use Rattle.std.specs.Prelude.{◌≡◌, ◌≢◌, ◌<◌, ◌∷◌, [], ℕ, None, Some, IfOk, IfSome, length, map, option_map};
ghost use Rattle.std.specs.Prelude.{◌==◌, slice_get, slice_set, filter_map, is_some, position};
ghost use Rattle.std.specs.List.{list_any};
ghost use Rattle.protocol.specs.Catalog.{Config as ProtocolConfig, has_codes};
ghost use Rattle.protocol.specs.Session.{act_multi, choose_known, choose_station, current_choice, end_with};
ghost use Rattle.protocol.specs.Session.{select_multi, wish_of};
ghost use Rattle.protocol.specs.Session.Negotiated.{Multi as NegotiatedMulti};
ghost use Rattle.protocol.specs.Record.{Facts};
ghost use Rattle.protocol.specs.Pattern.{passes};
ghost use Rattle.catalog.specs.Places.{station_at};
ghost use Rattle.session_state.specs.NamedValues.{Choice, blank, entry_of, begun, choice_of};
ghost use Rattle.session_state.specs.Choices.{action_value, choices_in, has_action, is_of_station, is_entry_of_station};
ghost use Rattle.session_state.specs.Choices.{kept_at, passed_at};
ghost use Rattle.session_state.specs.Entries.{IsIndexed, IsOnlyAt, TellsAhead};
ghost use Rattle.session_state.specs.Orders.{IsEarliest};
ghost use Rattle.session_state.specs.declared.choices.Ahead.TheVariants.{Nobody};
ghost use Rattle.session_state.specs.Changes.{all_patterns, outcome_after, selecting_in, widened, widening};

use crate::choices::{Ahead, Cursor, Entry, First, after_pass, put};
use crate::kept_action::KeptAction;
use crate::negotiation::Change;
use crate::order::{earliest, follow};
use catalog::Config;
use protocol::record::Kind;
use selector::{Pattern, Pool};
use sl_lines::Action;
use std::alloc::{AllocError, Global};
use std::marker::Model;

/// The network and station code at a place of the configuration; both are empty where nothing is there.
fn codes_at(config: &Config, place: usize) -> (&[u8], &[u8])
    ensures network { result.0.now ≡ (station_at config.now.entries place).network }
    ensures code { result.1.now ≡ (station_at config.now.entries place).code }
{
    match config.stations().get(place) {
        Some(station) => (station.network(), station.code()),
        None => (&[], &[]),
    }
}

/// Whether the station at a place has the codes of that at another.
fn is_same_station(config: &Config, named: usize, place: usize) -> bool
    ensures { result ≡ has_codes (station_at config.now.entries place).network
        (station_at config.now.entries place).code (station_at config.now.entries named) }
{
    let (network, code) = codes_at(config, place);
    let (other_network, other_code) = codes_at(config, named);
    other_network == network && other_code == code
}

/// The index of the station at a place, where one can be kept of that place.
fn set_index(indexes: &mut Vec<u8>, place: usize, index: u8)
    ensures { indexes.new.items ≡ slice_set indexes.old.items place index }
{
    if place < indexes.len() {
        indexes[place] = index;
    }
}

/// Where there can be one station alone at a place, with this index: whether there is.
fn only_at(entries: &[Entry], place: usize, i: usize) -> Option<usize>
    requires { (j : ℕ) (e : Entry) → slice_get entries.now j ≡ Some e → e.station ≡ place → j ≡ i }
    ensures value { result ≡ position (λ e. e.station == place) entries.now }
    ensures only { IfSome result (λ k. IsOnlyAt entries.now place k) }
{
    if i >= entries.len() {
        return None;
    }
    let entry = &entries[i];
    if entry.station == place {
        Some(i)
    } else {
        None
    }
}

/// The index of the first station at a place.
fn first_at(entries: &[Entry], indexes: &[u8], place: usize) -> Option<usize>
    requires { IsIndexed entries.now indexes.now }
    ensures { result ≡ position (λ e. e.station == place) entries.now }
{
    match indexes.get(place) {
        Some(i) => only_at(entries, place, usize::from(*i)),
        None => entries.iter().position(|entry| entry.station == place),
    }
}

/// The index of the first that is of the station at a place of the configuration. No two stations of a configuration
/// have the same codes, so that the place of one that is there tells it.
#[tactic(auto, using(crate::proofs::SameLemmas::same_lemmas))]
fn position_among(entries: &[Entry], indexes: &[u8], config: &Config, place: usize) -> Option<usize>
    requires { IsIndexed entries.now indexes.now }
    ensures { result ≡ position (is_entry_of_station config.now (station_at config.now.entries place)) entries.now }
{
    if place < config.stations().len() {
        config.codes_are_distinct();
        return first_at(entries, indexes, place);
    }
    entries
        .iter()
        .position(|entry| is_same_station(config, entry.station, place))
}

/// Whether some station has an action.
fn are_asked(entries: &[Entry]) -> bool
    ensures { result ≡ list_any (λ e. is_some e.action) entries.now }
{
    entries.iter().any(|entry| entry.action.is_some())
}

/// How many stations a client may name.
const CAPACITY: usize = 255;

/// The stations that a client named, each with its patterns, and which of them is the current one. There are at most
/// 255, with 64 patterns each and 1,024 together. Memory for all of them is taken when it is made, and not later.
#[derive(Drop)]
pub struct Named {
    entries: Vec<Entry>,
    // by a place of the configuration, the index of the station that is named there, if one is
    indexes: Vec<u8>,
    ahead: Ahead,
    // the index of each, in the order of their records ahead once several may have one
    order: Vec<u8>,
    current: Option<usize>,
    pool: Pool,
}

impl Model for Named {
    ghost use Rattle.std.specs.Prelude.{◌≤◌, length};
    ghost use Rattle.std.specs.Vec.{vec_capacity};
    ghost use Rattle.session_state.specs.Entries.{IsIndexed, TellsAhead};
    ghost use Rattle.session_state.specs.Orders.{HasSorted, IsOrder};
    ghost use Rattle.session_state.specs.NamedValues.{NamedValue, IsNamed, choices_with};

    ghost Value = { NamedValue };

    ghost view = { λ n. record { choices = choices_with n.entries.items n.pool; current = n.current } };

    ghost invariant = { λ n. IsNamed n.entries.items n.current n.pool (vec_capacity n.entries)
        × IsIndexed n.entries.items n.indexes.items × TellsAhead n.ahead n.entries.items
        × IsOrder n.order.items (length n.entries.items) × HasSorted n.ahead n.order.items n.entries.items
        × (255 ≤ vec_capacity n.order) };
}

impl Named {
    /// One station, as yet without a place, which is the current one. Those at places below `places` are found at once.
    /// Only for want of memory this fails.
    pub fn new(alloc: Global, places: usize) -> Result<Named, AllocError>
        ensures { IfOk result (λ n. n ≡ record { choices = blank ∷ []; current = Some 0 }) }
    {
        let mut entries = Vec::with_capacity(alloc, CAPACITY)?;
        let mut indexes = Vec::new(alloc);
        indexes.resize(places, 0)?;
        let mut order = Vec::with_capacity(alloc, CAPACITY)?;
        let pool = Pool::new(alloc)?;
        put(&mut entries, 0, None);
        order.push_reserved(0);
        set_index(&mut indexes, 0, 0);
        Ok(Named {
            entries,
            indexes,
            ahead: Ahead::Nobody,
            order,
            current: Some(0),
            pool,
        })
    }

    /// The stations without their patterns, in the order in which they were named.
    pub fn choices(&self) -> &[Entry]
        ensures { result.now ≡ map entry_of self.now.choices }
    {
        self.entries.as_slice()
    }

    /// Whether a record with that location, channel and type passes the patterns of the i-th station.
    pub fn passes(&self, i: usize, location: &[u8; 2], channel: &[u8; 3], kind: Kind) -> bool
        requires { i < length self.now.choices }
        ensures { (c : Choice) (x : Facts) → slice_get self.now.choices i ≡ Some c → x.location ≡ location.now
            → x.channel ≡ channel.now → x.kind ≡ kind →
            result ≡ passes c.patterns x }
    {
        let _ = &self.entries;
        self.pool.passes(i, location, channel, kind)
    }

    /// No station, in place of the one that there is.
    pub fn forget(&mut self)
        requires { length self.old.choices ≡ 1 }
        ensures { self.new ≡ record { choices = []; current = None } }
    {
        self.pool.clear(0);
        self.entries.clear();
        self.order.clear();
        self.ahead = Ahead::Nobody;
        self.current = None;
    }

    /// What there is of the one station, with a place and an action, while none is the current one.
    pub fn ask_alone(&mut self, place: usize, action: Action)
        requires { length self.old.choices ≡ 1 }
        ensures { (c : Choice) → slice_get self.old.choices 0 ≡ Some c →
            self.new ≡ record { choices = choice_of (begun place (Some action)) c.patterns ∷ []; current = None } }
    {
        let _ = &self.pool;
        self.entries[0] = Entry::new(place, Some(action));
        set_index(&mut self.indexes, place, 0);
        self.ahead = Ahead::Nobody;
        self.current = None;
    }

    /// The patterns of the i-th station are taken away.
    pub fn clear_at(&mut self, i: usize)
        requires { i < length self.old.choices }
        ensures { (c : Choice) → slice_get self.old.choices i ≡ Some c →
            self.new ≡ record self.old { choices = slice_set self.old.choices i (record c { patterns = [] }) } }
    {
        let _ = &self.entries;
        self.pool.clear(i);
    }

    /// The i-th station has a pattern more, where there is room.
    pub fn add_at(&mut self, i: usize, pattern: Pattern) -> Change
        requires { i < length self.old.choices }
        ensures new { (c : Choice) → slice_get self.old.choices i ≡ Some c →
            self.new ≡ record self.old {
              choices =
                  slice_set self.old.choices i
                  (record c { patterns = widened (all_patterns self.old.choices) c.patterns pattern });
            } }
        ensures change { (c : Choice) → slice_get self.old.choices i ≡ Some c
            → result ≡ widening (all_patterns self.old.choices) c.patterns }
    {
        let _ = &self.entries;
        match self.pool.add(i, pattern) {
            Ok(()) => Change::Done,
            Err(_) => Change::Refused,
        }
    }

    fn set_current(&mut self, current: Option<usize>)
        requires { IfSome current (λ i. i < length self.old.choices) }
        ensures { self.new ≡ record self.old { current = current } }
    {
        let _ = &self.entries;
        self.current = current;
    }

    /// A station that was not named before becomes the current one, where there is room.
    fn add(&mut self, place: usize) -> Change
        requires { (i : ℕ) (c : Choice) → slice_get self.old.choices i ≡ Some c → c.station ≢ place }
        ensures { (config : ProtocolConfig)
            → outcome_after result (NegotiatedMulti (choices_in config self.new.choices) self.new.current)
            ≡ choose_known (station_at config.entries place) (choices_in config self.old.choices) None }
    {
        let i = self.entries.len();
        if i >= CAPACITY {
            self.current = None;
            return Change::Refused;
        }
        put(&mut self.entries, place, None);
        set_index(&mut self.indexes, place, i as u8);
        self.order.push_reserved(i as u8);
        self.current = Some(i);
        Change::Done
    }

    /// The place among the stations of the first that is the station at a place of the configuration.
    fn position_of(&self, config: &Config, place: usize) -> Option<usize>
        ensures { result ≡ position (is_of_station config.now (station_at config.now.entries place)) self.now.choices }
    {
        let _ = &self.pool;
        position_among(
            self.entries.as_slice(),
            self.indexes.as_slice(),
            config,
            place,
        )
    }

    /// The station, where one was found, becomes the current one; else none is.
    #[tactic(auto, using(crate::proofs::ChoiceLemmas::naming_lemmas))]
    pub fn name(&mut self, config: &Config, found: Option<usize>) -> Change
        ensures { outcome_after result (NegotiatedMulti (choices_in config.now self.new.choices) self.new.current)
            ≡ choose_station (choices_in config.now self.old.choices)
            (option_map (station_at config.now.entries) found) }
    {
        let Some(place) = found else {
            self.set_current(None);
            return Change::Refused;
        };
        match self.position_of(config, place) {
            Some(i) => {
                self.set_current(Some(i));
                Change::Done
            }
            None => self.add(place),
        }
    }

    /// The current station's patterns are taken away.
    pub fn clear(&mut self) -> Change
        ensures { (config : ProtocolConfig)
            → outcome_after result (NegotiatedMulti (choices_in config self.new.choices) self.new.current)
            ≡ select_multi (choices_in config self.old.choices) self.old.current None
            (current_choice (choices_in config self.old.choices) self.old.current) }
    {
        match self.current {
            Some(i) => {
                self.clear_at(i);
                Change::Done
            }
            None => Change::Refused,
        }
    }

    /// The current station has a pattern more, where there is room.
    pub fn add_pattern(&mut self, pattern: Pattern) -> Change
        ensures { (config : ProtocolConfig)
            → outcome_after result (NegotiatedMulti (choices_in config self.new.choices) self.new.current)
            ≡ selecting_in (choices_in config self.old.choices) self.old.current (Some pattern)
            (current_choice (choices_in config self.old.choices) self.old.current) }
    {
        match self.current {
            Some(i) => self.add_at(i, pattern),
            None => Change::Refused,
        }
    }

    /// The i-th station's action, in place of an earlier one.
    fn act_for(&mut self, i: usize, action: Action)
        requires { i < length self.old.choices }
        ensures { (c : Choice) → slice_get self.old.choices i ≡ Some c →
            self.new ≡ record self.old { choices = slice_set self.old.choices i (record c { action = Some action }) } }
    {
        let _ = &self.pool;
        self.entries[i].action = KeptAction::of(Some(action));
    }

    /// The current station's action, in place of an earlier one.
    pub fn act(&mut self, action: Action) -> Change
        ensures { (config : ProtocolConfig)
            → outcome_after result (NegotiatedMulti (choices_in config self.new.choices) self.new.current)
            ≡ act_multi (choices_in config self.old.choices) self.old.current (action_value action)
            (current_choice (choices_in config self.old.choices) self.old.current) }
    {
        match self.current {
            Some(i) => {
                self.act_for(i, action);
                Change::Done
            }
            None => Change::Refused,
        }
    }

    /// Whether some station has an action.
    fn is_asked(&self) -> bool
        ensures { result ≡ list_any has_action self.now.choices }
    {
        are_asked(self.choices())
    }

    /// A transfer starts where a station has an action.
    pub fn finish(&self) -> Change
        ensures { (config : ProtocolConfig)
            → outcome_after result (NegotiatedMulti (choices_in config self.now.choices) self.now.current)
            ≡ end_with (choices_in config self.now.choices) self.now.current
            (filter_map wish_of (choices_in config self.now.choices)) }
    {
        if self.is_asked() {
            Change::Starts
        } else {
            Change::Refused
        }
    }

    /// Keeps from which arrival on the i-th station's records are wanted.
    pub fn begin_at(&mut self, i: usize, first: u64)
        requires { i < length self.old.choices }
        ensures { self.new ≡ record self.old {
          choices =
              kept_at i first self.old.choices (slice_get self.old.choices i);
        } }
    {
        let _ = &self.pool;
        self.entries[i].first = first;
    }

    /// Keeps how far the transfer has come in the ring of the i-th station.
    pub fn move_cursor(&mut self, i: usize, cursor: Cursor)
        requires { i < length self.old.choices }
        ensures { self.new ≡ record self.old {
          choices =
              passed_at i cursor self.old.choices (slice_get self.old.choices i);
        } }
    {
        let _ = &self.pool;
        let before = self.ahead;
        self.ahead = after_pass(before, i, cursor.ahead().is_some());
        self.entries[i].cursor = cursor;
        follow(
            &mut self.order,
            self.entries.as_slice(),
            before,
            self.ahead,
            i,
        );
    }

    /// The index of the station at a place, where it is found at once: there is no other at that place.
    pub fn find(&self, place: usize) -> Option<usize>
        ensures { IfSome result (λ i. IsOnlyAt (map entry_of self.now.choices) place i) }
    {
        let i = usize::from(*self.indexes.get(place)?);
        only_at(self.entries.as_slice(), place, i)
    }

    /// The request whose record ahead came first, if one has any.
    pub fn earliest(&self) -> Option<First>
        ensures { IsEarliest (map entry_of self.now.choices) result }
    {
        let _ = &self.pool;
        earliest(self.ahead, self.order.as_slice(), self.entries.as_slice())
    }

    /// Keeps that none has a record ahead.
    pub fn keep_quiet(&mut self)
        requires { TellsAhead Nobody (map entry_of self.old.choices) }
        ensures { self.new ≡ self.old }
    {
        let _ = &self.pool;
        self.ahead = Ahead::Nobody;
    }
}
