//! What was negotiated, in uni-station or multi-station mode, and what commands change of it.
//!
//! What a session is to do is one enum, `Instruction`, with a case for each thing that it can do, and `Session::answer`
//! does it. `Command` is what a line says, and stays apart from it: it names a station by its codes and a pattern by
//! its text. What DATA, FETCH and TIME ask is an `Action` in both. Whether the client sees that station, and whether
//! the pattern is valid, is decided when the `Command` becomes an `Instruction`. `Change` is a second enum, since an
//! instruction says what to do and carries the station or the pattern, while a change says what came of it (done,
//! refused, or a transfer starts), which depends on what was negotiated.
ghost use Rattle.std.specs.Prelude.{◌≡◌, ◌<◌, [], IfOk, IfSome, None, Some, length, map, option_map, slice_get};
ghost use Rattle.protocol.specs.Catalog.{Config as ProtocolConfig};
ghost use Rattle.protocol.specs.Session.{act, choices_of, choose_station, end_multi, select};
ghost use Rattle.catalog.specs.Places.{station_at, view_in};
ghost use Rattle.session_state.specs.Choices.{action_value, negotiated_in};
ghost use Rattle.session_state.specs.Entries.{IsOnlyAt, TellsAhead};
ghost use Rattle.session_state.specs.Orders.{IsEarliest};
ghost use Rattle.session_state.specs.declared.choices.Ahead.TheVariants.{Nobody};
ghost use Rattle.session_state.specs.Changes.{outcome_after, selecting};

use crate::choices::{Cursor, Entry, First};
use crate::named::Named;
use catalog::{Config, View};
use protocol::record::Kind;
use selector::Pattern;
use sl_lines::Action;
use std::alloc::{AllocError, Global};
use std::marker::Model;

/// What a command leads to that may change what was negotiated.
#[derive(Clone, Copy)]
pub enum Change {
    /// It was done, and is answered OK.
    Done,
    /// It is answered ERROR.
    Refused,
    /// A transfer of the named stations that have an action.
    Starts,
}

/// What was negotiated: in uni-station mode the patterns of one station, the first that the client sees; in
/// multi-station mode the stations that the client named.
#[derive(Drop)]
pub struct Negotiation {
    is_multi: bool,
    named: Named,
}

impl Model for Negotiation {
    ghost use Rattle.std.specs.Prelude.{◌≡◌, false};
    ghost use Rattle.session_state.specs.NamedValues.{IsAlone, ModeValue, mode_of};

    ghost Value = { ModeValue };

    ghost view = { λ m. mode_of m.is_multi m.named };

    ghost invariant = { λ m. m.is_multi ≡ false → IsAlone m.named };
}

impl Negotiation {
    ghost use Rattle.protocol.specs.Record.{Facts};
    ghost use Rattle.protocol.specs.Pattern.{passes};
    ghost use Rattle.session_state.specs.NamedValues.{Choice as ChoiceValue, entry_of};
    ghost use Rattle.session_state.specs.NamedValues.ModeValue.{Uni};
    ghost use Rattle.session_state.specs.Choices.{chosen_of, kept_in, passed_in};

    /// Uni-station mode without patterns. Memory is taken here alone, and only for want of it this fails.
    /// Stations at places below `places` are found at once when they were named.
    pub fn new(alloc: Global, places: usize) -> Result<Negotiation, AllocError>
        ensures { IfOk result (λ m. m ≡ Uni []) }
    {
        Ok(Negotiation {
            is_multi: false,
            named: Named::new(alloc, places)?,
        })
    }

    /// The stations that were named, in that order, without their patterns.
    pub fn choices(&self) -> &[Entry]
        ensures { result.now ≡ map entry_of (chosen_of self.now) }
    {
        if self.is_multi {
            self.named.choices()
        } else {
            &[]
        }
    }

    /// Whether a record with that location, channel and type passes the patterns of the i-th of them.
    pub fn passes(&self, i: usize, location: &[u8; 2], channel: &[u8; 3], kind: Kind) -> bool
        requires { i < length (chosen_of self.now) }
        ensures { (c : ChoiceValue) (x : Facts) → slice_get (chosen_of self.now) i ≡ Some c → x.location ≡ location.now
            → x.channel ≡ channel.now → x.kind ≡ kind →
            result ≡ passes c.patterns x }
    {
        self.is_multi && self.named.passes(i, location, channel, kind)
    }

    /// Keeps from which arrival on the i-th of them is wanted.
    pub fn begin_at(&mut self, i: usize, first: u64)
        requires { i < length (chosen_of self.old) }
        ensures { self.new ≡ kept_in self.old i first }
    {
        if self.is_multi {
            self.named.begin_at(i, first);
        }
    }

    /// Keeps how far the transfer has come in the ring of the i-th of them.
    pub fn move_cursor(&mut self, i: usize, cursor: Cursor)
        requires { i < length (chosen_of self.old) }
        ensures { self.new ≡ passed_in self.old i cursor }
    {
        if self.is_multi {
            self.named.move_cursor(i, cursor);
        }
    }

    /// The index of the station at a place, where it is found at once: there is no other at that place.
    pub fn find(&self, place: usize) -> Option<usize>
        ensures { IfSome result (λ i. IsOnlyAt (map entry_of (chosen_of self.now)) place i) }
    {
        if self.is_multi {
            self.named.find(place)
        } else {
            None
        }
    }

    /// The request whose record ahead came first, if one has any.
    pub fn earliest(&self) -> Option<First>
        ensures { IsEarliest (map entry_of (chosen_of self.now)) result }
    {
        if self.is_multi {
            self.named.earliest()
        } else {
            None
        }
    }

    /// Keeps that none has a record ahead.
    pub fn keep_quiet(&mut self)
        requires { TellsAhead Nobody (map entry_of (chosen_of self.old)) }
        ensures { self.new ≡ self.old }
    {
        if self.is_multi {
            self.named.keep_quiet();
        }
    }
}

/// What commands change of it.
impl Negotiation {
    /// STATION: the station that was found becomes the current one; without one, none is.
    pub fn name(&mut self, config: &Config, found: Option<usize>) -> Change
        ensures { outcome_after result (negotiated_in config.now self.new)
            ≡ choose_station (choices_of (negotiated_in config.now self.old))
            (option_map (station_at config.now.entries) found) }
    {
        if !self.is_multi {
            self.named.forget();
            self.is_multi = true;
        }
        self.named.name(config, found)
    }

    /// SELECT without a pattern.
    pub fn clear(&mut self) -> Change
        ensures { (config : ProtocolConfig)
            → outcome_after result (negotiated_in config self.new) ≡ select (negotiated_in config self.old) None }
    {
        if self.is_multi {
            self.named.clear()
        } else {
            self.named.clear_at(0);
            Change::Done
        }
    }

    /// SELECT with a pattern.
    pub fn add(&mut self, pattern: Pattern) -> Change
        ensures { (config : ProtocolConfig)
            → outcome_after result (negotiated_in config self.new)
            ≡ selecting (negotiated_in config self.old) (Some pattern) }
    {
        if self.is_multi {
            self.named.add_pattern(pattern)
        } else {
            self.named.add_at(0, pattern)
        }
    }

    /// DATA, FETCH or TIME. In uni-station mode the transfer of the first station starts at once.
    pub fn act(&mut self, view: &View, action: Action) -> Change
        ensures { (config : ProtocolConfig)
            → outcome_after result (negotiated_in config self.new)
            ≡ act (view_in config view.now) (negotiated_in config self.old) (action_value action) }
    {
        if self.is_multi {
            return self.named.act(action);
        }
        match view.places().first() {
            Some(place) => {
                self.named.ask_alone(usize::from(*place), action);
                self.is_multi = true;
                Change::Starts
            }
            None => Change::Refused,
        }
    }

    /// END.
    pub fn finish(&self) -> Change
        ensures { (config : ProtocolConfig)
            → outcome_after result (negotiated_in config self.now) ≡ end_multi (negotiated_in config self.now) }
    {
        if self.is_multi {
            self.named.finish()
        } else {
            Change::Refused
        }
    }
}
