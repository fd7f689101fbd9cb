//! What the journal counts for the status port: how many bytes clients were sent, how often whom it turned away and
//! which records it refused, and how long turns took.
ghost use Rattle.std.specs.Prelude.{◌≡◌, ◌+◌, ◌-◌, ◌^◌, None, min};
ghost use Rattle.job_serve.specs.Turning.{begun_at, with_end};

use ports::{AwayReason, RecordRefusal};
use ports_logged::{Sent, Visit};
use protocol::reason::Reason;
use server_watch::Turns;
use status_page::NamedCount;
use std::alloc::{AllocError, Global};
use std::cell::{Ref, RefCell};

/// For what records are refused.
static REFUSALS: [Reason; 8] = [
    Reason::Sequence,
    Reason::Quality,
    Reason::Time,
    Reason::Blockettes,
    Reason::No1000,
    Reason::Length,
    Reason::UnknownStation,
    Reason::Exhausted,
];

/// For what connections are turned away.
static AWAY: [AwayReason; 5] = [
    AwayReason::MaxConnections,
    AwayReason::Feeds,
    AwayReason::Memory,
    AwayReason::FeedFrom,
    AwayReason::PerAddress,
];

/// What was counted.
#[derive(Drop)]
pub struct JournalCounts {
    /// How many records were refused, by reason.
    pub refusals: Vec<NamedCount<'static>>,
    /// How many connections were turned away, by reason.
    pub away: Vec<NamedCount<'static>>,
    /// How many bytes clients were sent, those who left too. It stays at 2^64 - 1.
    pub sent: u64,
    /// How many records clients lost who left since. It stays at 2^64 - 1.
    pub lost: u64,
    pub turns: Turns,
    /// When the turn under way began, in microseconds of the system's clock.
    begun: Option<u64>,
}

/// The name of a reason for which a connection is turned away.
fn name_of(reason: AwayReason) -> &'static str {
    match reason {
        AwayReason::MaxConnections => "max_connections",
        AwayReason::Feeds => "feeds",
        AwayReason::Memory => "memory",
        AwayReason::FeedFrom => "feed-from",
        AwayReason::PerAddress => "per-address",
    }
}

/// A name that was not counted yet.
fn uncounted(name: &'static str) -> NamedCount<'static> {
    NamedCount {
        name: name.as_bytes(),
        count: 0,
    }
}

/// Each reason for which a record is refused, not counted yet.
fn refusals_uncounted(alloc: Global) -> Result<Vec<NamedCount<'static>>, AllocError> {
    let mut counts = Vec::new(alloc);
    for reason in &REFUSALS {
        if counts.push(uncounted(reason.name())).is_err() {
            return Err(AllocError);
        }
    }
    Ok(counts)
}

/// Each reason for which a connection is turned away, not counted yet.
fn away_uncounted(alloc: Global) -> Result<Vec<NamedCount<'static>>, AllocError> {
    let mut counts = Vec::new(alloc);
    for reason in &AWAY {
        if counts.push(uncounted(name_of(*reason))).is_err() {
            return Err(AllocError);
        }
    }
    Ok(counts)
}

/// Counts one more by its name, if that is one of those that are counted.
fn count(counts: &mut [NamedCount<'static>], name: &'static str) {
    for one in counts.iter_mut() {
        if one.name == name.as_bytes() {
            one.count = one.count.saturating_add(1);
        }
    }
}

impl JournalCounts {
    /// Nothing was counted of any reason. Only memory can lack.
    fn new(alloc: Global) -> Result<JournalCounts, AllocError> {
        Ok(JournalCounts {
            refusals: refusals_uncounted(alloc)?,
            away: away_uncounted(alloc)?,
            sent: 0,
            lost: 0,
            turns: Turns::new(),
            begun: None,
        })
    }

    /// What happened of a visit.
    fn note(&mut self, visit: &Visit) {
        match visit {
            Visit::Away(away) => count(&mut self.away, name_of(away.reason)),
            Visit::Refused { refusal, .. } => count(&mut self.refusals, name_of_refusal(refusal)),
            Visit::Close { lost, .. } => self.lost = self.lost.saturating_add(*lost),
            _ => {}
        }
    }

    /// A port was written to.
    fn took(&mut self, sent: Sent)
        ensures sent { self.new.sent ≡ min (self.old.sent + sent.bytes) (2 ^ 64 - 1) }
        ensures turns { self.new.turns ≡ self.old.turns }
        ensures begun { self.new.begun ≡ self.old.begun }
    {
        self.sent = self.sent.saturating_add(sent.bytes);
    }

    /// The ports said what happened, at a time in microseconds: if no turn is under way, one begins.
    fn begin_turn(&mut self, now: u64)
        ensures begun { self.new.begun ≡ begun_at now self.old.begun }
        ensures turns { self.new.turns ≡ self.old.turns }
    {
        if self.begun.is_none() {
            self.begun = Some(now);
        }
    }

    /// The turn under way ends, if one is.
    fn end_turn(&mut self, now: u64)
        ensures turns { self.new.turns ≡ with_end now self.old.begun self.old.turns }
        ensures begun { self.new.begun ≡ None }
    {
        if let Some(begun) = self.begun.take() {
            self.turns.note(now.saturating_sub(begun));
        }
    }
}

/// The name of a reason for which a record is refused.
fn name_of_refusal(refusal: &RecordRefusal) -> &'static str {
    match refusal {
        RecordRefusal::Unknown(_) => Reason::UnknownStation.name(),
        RecordRefusal::Other(reason) => reason.name(),
    }
}

/// Counts that a journal and a status port share.
#[derive(Drop)]
pub struct SharedCounts {
    counts: RefCell<JournalCounts>,
}

impl SharedCounts {
    /// Nothing was counted. Only memory can lack.
    pub fn new(alloc: Global) -> Result<SharedCounts, AllocError> {
        Ok(SharedCounts {
            counts: RefCell::new(JournalCounts::new(alloc)?),
        })
    }

    /// What happened of a visit.
    pub fn note(&self, visit: &Visit) {
        if let Ok(mut counts) = self.counts.try_borrow_mut() {
            counts.note(visit);
        }
    }

    /// A port was written to.
    pub fn took(&self, sent: Sent) {
        if let Ok(mut counts) = self.counts.try_borrow_mut() {
            counts.took(sent);
        }
    }

    /// Whether no turn is under way.
    pub fn is_waiting(&self) -> bool {
        match self.counts.try_borrow() {
            Ok(counts) => counts.begun.is_none(),
            Err(_) => false,
        }
    }

    /// The ports said what happened, at a time in microseconds.
    pub fn begin_turn(&self, now: u64) {
        if let Ok(mut counts) = self.counts.try_borrow_mut() {
            counts.begin_turn(now);
        }
    }

    /// The turn under way ends.
    pub fn end_turn(&self, now: u64) {
        if let Ok(mut counts) = self.counts.try_borrow_mut() {
            counts.end_turn(now);
        }
    }

    /// What was counted, if nobody counts at the moment.
    pub fn counts(&self) -> Option<Ref<'_, JournalCounts>> {
        self.counts.try_borrow().ok()
    }
}
