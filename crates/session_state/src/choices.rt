//! The stations that a client names, and what it asks of each.
//!
//! Requests are the named stations that have an action (`Session::choices`), and no list of their own: a transfer in
//! uni-station mode is one named station. A request's first arrival is the count of all arrivals before it.
ghost use Rattle.std.specs.Prelude.{◌≡◌, ◌<◌, ◌++◌, ◌∷◌, []};
ghost use Rattle.std.specs.Vec.{vec_capacity, vec_len};
ghost use Rattle.session_state.specs.Entries.{after_pass};
ghost use Rattle.session_state.specs.NamedValues.{ahead_of, begun};

use crate::kept_action::KeptAction;
use sl_lines::Action;
use sl_packet::Seq;
use sl_time::Tick;

/// How far a request of a transfer has come in its station's ring.
#[derive(Clone, Copy, Default)]
pub struct Cursor {
    /// The place in the ring before which the request wants nothing more.
    pub ring_place: u64,
    /// For TIME with an end: the place after the last record before the cursor that starts after that end, or 0 if no
    /// such record was passed.
    pub ended: u64,
    /// How many records the ring had been given when it was last looked at.
    pub seen: u64,
    /// The stamp of the record at the cursor. There is one while the cursor is before the end that was seen.
    pub stamp: u64,
}

impl Cursor {
    /// The stamp of the record at the cursor, if one was there when the ring was last looked at.
    pub fn ahead(&self) -> Option<u64>
        ensures { result ≡ ahead_of self.now }
    {
        if self.ring_place < self.seen {
            Some(self.stamp)
        } else {
            None
        }
    }
}

/// A station that a client named, but for its patterns. It is a request of a transfer where it has an action.
#[derive(Clone, Copy)]
pub struct Entry {
    /// The station's place in the configuration.
    pub station: usize,
    /// What is asked of it.
    pub action: KeptAction,
    /// From which arrival at the server on a transfer wants its records, as a count of the arrivals before.
    pub first: u64,
    /// How far the transfer has come in the station's ring.
    pub cursor: Cursor,
}

impl Entry {
    /// A station of which this is asked, while no transfer has begun.
    pub fn new(station: usize, action: Option<Action>) -> Entry
        ensures { result ≡ begun station action }
    {
        Entry {
            station,
            action: KeptAction::of(action),
            first: 0,
            cursor: Cursor {
                ring_place: 0,
                ended: 0,
                seen: 0,
                stamp: 0,
            },
        }
    }
}

/// The request whose record ahead came first, by its index among the named stations, and that record's stamp.
#[derive(Clone, Copy)]
pub struct First {
    /// The index of the request's station.
    pub index: usize,
    /// The stamp of the record.
    pub stamp: u64,
}

/// Which requests of a transfer may have a record ahead.
#[derive(Clone, Copy)]
pub enum Ahead {
    /// None has.
    Nobody,
    /// None has but, perhaps, the one with this index.
    Only(usize),
    /// Some may.
    Several,
}

/// Which may have one once the i-th has a cursor that tells of one, or of none.
pub(crate) fn after_pass(ahead: Ahead, i: usize, has: bool) -> Ahead
    ensures { result ≡ after_pass ahead i has }
{
    match ahead {
        Ahead::Nobody => if has { Ahead::Only(i) } else { Ahead::Nobody },
        Ahead::Only(j) => {
            if has {
                if j == i {
                    Ahead::Only(i)
                } else {
                    Ahead::Several
                }
            } else if j == i {
                Ahead::Nobody
            } else {
                Ahead::Only(j)
            }
        }
        Ahead::Several => Ahead::Several,
    }
}

/// A station after the others.
pub(crate) fn put(entries: &mut Vec<Entry>, place: usize, action: Option<Action>)
    requires { vec_len entries.old < vec_capacity entries.old }
    ensures items { entries.new.items ≡ entries.old.items ++ begun place action ∷ [] }
    ensures capacity { vec_capacity entries.new ≡ vec_capacity entries.old }
{
    // the toolchain asks that a function names each type that lies in what it moves
    let _none: Option<(Seq, Tick)> = None;
    entries.push_reserved(Entry::new(place, action));
}
