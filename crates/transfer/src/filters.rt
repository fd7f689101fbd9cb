//! What a request makes of records by their briefs alone.
//!
//! A station whose streams are all refused is passed at once. While fewer than 64 streams of a station have a number,
//! each of its records has one of them. So a search asks the patterns of the streams first, up to one that passes, and
//! looks at no record if none does. It does so only without an end of TIME, since of records that start after that end
//! the last one has to be known.
ghost use Rattle.std.specs.Prelude.{◌≡◌, ◌<◌, ℕ, List, Some, None, IfSome, length, slice_get, slice_set, true, false};
ghost use Rattle.session_state.specs.Choices.{chosen_of};
ghost use Rattle.session_state.specs.NamedValues.{Choice, entry_of};
ghost use Rattle.station_ring.specs.declared.held.Held.{Held as HeldValue};
ghost use Rattle.station_ring.specs.declared.held.Stream.{Stream as StreamValue};
ghost use Rattle.station_ring.specs.Briefs.{Tells, stream_of};
ghost use Rattle.transfer.specs.Filters.{IsFilter, IsSight, IsWindow, RefusesAll, is_early};

use crate::wanting::is_late;
use session_state::{Entry, Session};
use sl_time::Tick;
use station_ring::{Brief, Stream, Summary};

/// While fewer streams of a station than these have a number, each of its records has one of them.
const NUMBERED: usize = 64;

/// When a record has to lie to be wanted.
#[derive(Clone, Copy)]
pub(crate) struct TimeWindow {
    /// It must not end before this moment.
    begin: Option<Tick>,
    /// For TIME with an end: it must not start after this moment.
    last: Option<Tick>,
}

/// The window of a named station.
#[tactic(auto, using(crate::proofs::FilterLemmas::window_lemmas))]
fn window_of(entry: &Entry) -> TimeWindow
    ensures { IsWindow result entry.now.action }
{
    TimeWindow {
        begin: entry.action.begin(),
        last: entry.action.end(),
    }
}

/// What is seen of a record by its brief.
#[derive(Clone, Copy)]
pub(crate) enum Sight {
    /// It is not wanted, and it starts after the end of TIME.
    AfterEnd,
    /// It is not wanted for another reason.
    Unwanted,
    /// It may be wanted.
    Open,
}

/// Whether a record ends before a moment, if one is given.
fn is_early(begin: Option<Tick>, stop: Tick) -> bool
    ensures { result ≡ is_early begin stop }
{
    match begin {
        Some(begin) => stop.value() < begin.value(),
        None => false,
    }
}

/// What a request asks of a record's brief: its window, and the streams of which it is known already that its patterns
/// refuse them. So the patterns are asked once a stream, and not once a record.
#[derive(Drop)]
pub(crate) struct Filter {
    window: TimeWindow,
    /// By the stream's number.
    refused: [bool; 256],
}

impl Filter {
    /// The filter of a named station, which knows of no stream yet.
    pub fn of(entry: &Entry) -> Filter
        ensures { (streams : List StreamValue) (c : Choice) → entry_of c ≡ entry.now → IsFilter result streams c }
    {
        Filter {
            window: window_of(entry),
            refused: [false; 256],
        }
    }

    /// Whether it is known that a stream is refused.
    fn is_refused(&self, stream: Option<u8>) -> bool
        ensures some { IfSome stream (λ k. slice_get self.now.refused k ≡ Some result) }
        ensures none { stream ≡ None → result ≡ false }
    {
        match stream {
            Some(number) => self.refused[usize::from(number)],
            None => false,
        }
    }

    /// What is seen of a record by its brief.
    #[inline]
    pub fn sight(&self, brief: &Brief) -> Sight
        ensures { (streams : List StreamValue) (c : Choice) (x : HeldValue) → IsFilter self.now streams c
            → Tells streams x brief.now → IsSight c x result }
    {
        if is_late(self.window.last, brief.start) {
            Sight::AfterEnd
        } else if is_early(self.window.begin, brief.stop) {
            Sight::Unwanted
        } else if self.is_refused(brief.stream) {
            Sight::Unwanted
        } else {
            Sight::Open
        }
    }

    /// The patterns refuse a stream.
    fn refuse(&mut self, number: u8)
        ensures { self.new ≡ record self.old { refused = slice_set self.old.refused number true } }
    {
        self.refused[usize::from(number)] = true;
    }

    /// Asks the patterns of the i-th named station of its streams, up to the first that passes. Whether no record of
    /// the station is wanted for that, and none starts after an end of TIME: all streams are refused, each record has
    /// one of them, and no end is asked.
    pub fn refuses_all(&mut self, session: &Session, i: usize, streams: &[Stream]) -> bool
        requires { i < length (chosen_of session.now.mode) }
        ensures filter { (c : Choice) → slice_get (chosen_of session.now.mode) i ≡ Some c
            → IsFilter self.old streams.now c → IsFilter self.new streams.now c }
        ensures all { (c : Choice) → slice_get (chosen_of session.now.mode) i ≡ Some c
            → IsFilter self.old streams.now c → result ≡ true → RefusesAll streams.now c }
    {
        if self.window.last.is_some() || streams.len() >= NUMBERED {
            return false;
        }
        for (number, stream) in streams.iter().enumerate() {
            if session.passes(i, &stream.location, &stream.channel, stream.kind) {
                return false;
            }
            self.refuse(number as u8);
        }
        true
    }

    /// Asks the patterns of the i-th named station of a stream that a record has, if it has a number.
    pub fn ask(&mut self, session: &Session, i: usize, summary: &Summary, stream: Option<u8>)
        requires { i < length (chosen_of session.now.mode) }
        ensures { (streams : List StreamValue) (c : Choice) → slice_get (chosen_of session.now.mode) i ≡ Some c
            → ((k : ℕ) → stream ≡ Some k → slice_get streams k ≡ Some (stream_of summary.now))
            → IsFilter self.old streams c → IsFilter self.new streams c }
    {
        if let Some(number) = stream {
            if !session.passes(i, &summary.location, &summary.channel, summary.kind) {
                self.refuse(number);
            }
        }
    }
}
