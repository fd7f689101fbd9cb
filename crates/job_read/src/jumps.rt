//! The numbers of the packets of a station, and what is reported where they jump.
//!
//! A number that is not the next one may mean that records are missing, or that the server counts anew. The records say
//! which: if none of a stream's time is missing since its last packet, the numbers alone have jumped. A jump is seen at
//! one packet, and time may be missing in the streams of those behind it, so each stream is looked at once after a
//! jump.
ghost use Rattle.std.specs.Prelude.{◌≡◌, ◌+◌, ◌^◌, min};
ghost use Rattle.job_read.specs.Hearing.{allowed, event_at, is_jump_after, jump_told, jump_with, limit_after};
ghost use Rattle.job_read.specs.Hearing.{numbers_with};

use crate::unplaced::has_passed;
use sl_packet::Seq;
use slreader::Reached;
use std::marker::Model;

/// What is known of the time before a packet in its stream.
#[derive(Clone, Copy)]
pub enum TimeBefore {
    /// Nothing: no packet of the stream came before.
    Unknown,
    /// None of it is missing since the last one, or that came after the last jump.
    Whole,
    /// So many ticks of it are missing.
    Missing(u64),
}

/// What is reported of a jump: the two numbers, of which the second came right after the first.
#[derive(Clone, Copy)]
pub enum JumpEvent {
    /// Time is missing between them: so many ticks, if they are known.
    Gap {
        last: Seq,
        next: Seq,
        missing: Option<u64>,
    },
    /// No time is missing.
    Renumbered {
        last: Seq,
        next: Seq,
    },
}

/// A number right after which another one came that is not the next.
#[derive(Clone, Copy)]
struct Jump {
    last: Seq,
    next: Seq,
    /// Whether it was reported that time is missing between them.
    is_told: bool,
}

impl Model for Jump {
    ghost use Rattle.job_read.specs.Hearing.{JumpValue};

    ghost Value = { JumpValue };

    ghost view = { λ j. record { last = j.last; next = j.next; is_told = j.is_told } };

    ghost inverse = { λ j. record { last = j.last; next = j.next; is_told = j.is_told } };
}

/// Whether a packet with that number doesn't follow on the last one.
fn is_jump_after(last: Option<Seq>, number: Seq) -> bool
    ensures { result ≡ is_jump_after last number }
{
    match last {
        Some(last) => last.next().value() != number.value(),
        None => false,
    }
}

/// The last jump, with a packet.
fn jump_with(jump: Option<Jump>, last: Option<Seq>, number: Seq) -> Option<Jump>
    ensures { result ≡ jump_with jump last number }
{
    match last {
        Some(last) if last.next().value() != number.value() => Some(Jump {
            last,
            next: number,
            is_told: false,
        }),
        _ => jump,
    }
}

/// What is reported at a packet, by whether its number jumped, the time before it in its stream, and the last jump.
fn event_at(is_jump: bool, before: TimeBefore, jump: Option<Jump>) -> Option<JumpEvent>
    ensures { result ≡ event_at is_jump before jump }
{
    let Jump {
        last,
        next,
        is_told,
    } = jump?;
    match before {
        TimeBefore::Missing(ticks) if !is_told => Some(JumpEvent::Gap {
            last,
            next,
            missing: Some(ticks),
        }),
        TimeBefore::Unknown if is_jump => Some(JumpEvent::Gap {
            last,
            next,
            missing: None,
        }),
        TimeBefore::Whole if is_jump => Some(JumpEvent::Renumbered { last, next }),
        _ => None,
    }
}

/// The number of the last packet of a station, and its last jump.
#[derive(Clone, Copy, Drop)]
pub struct Numbers {
    last: Option<Seq>,
    jump: Option<Jump>,
}

impl Model for Numbers {
    ghost use Rattle.job_read.specs.Hearing.{NumbersValue};

    ghost Value = { NumbersValue };

    ghost view = { λ n. record { last = n.last; jump = n.jump } };

    ghost inverse = { λ n. record { last = n.last; jump = n.jump } };
}

impl Numbers {
    ghost use Rattle.std.specs.Prelude.{◌≡◌};
    ghost use Rattle.job_read.specs.Hearing.{begun_numbers, event_at, is_jump_after, jump_told, numbers_with};

    /// After the packet that was reached.
    pub fn after(reached: Option<Reached>) -> Numbers
        ensures { result ≡ begun_numbers reached }
    {
        match reached {
            Some(reached) => Numbers {
                last: Some(reached.number),
                jump: None,
            },
            None => Numbers {
                last: None,
                jump: None,
            },
        }
    }

    /// A packet with that number. Answers whether it doesn't follow on the last one.
    pub fn note(&mut self, number: Seq) -> bool
        ensures jump { result ≡ is_jump_after self.old.last number }
        ensures after { self.new ≡ numbers_with self.old number }
    {
        let is_jump = is_jump_after(self.last, number);
        self.jump = jump_with(self.jump, self.last, number);
        self.last = Some(number);
        is_jump
    }

    /// What is reported at the packet that was noted last, by whether its number jumped, and the time before it in its
    /// stream.
    pub fn event(&mut self, is_jump: bool, before: TimeBefore) -> Option<JumpEvent>
        ensures event { result ≡ event_at is_jump before self.old.jump }
        ensures after { self.new
            ≡ record self.old { jump = jump_told (event_at is_jump before self.old.jump) self.old.jump } }
    {
        let event = event_at(is_jump, before, self.jump);
        if let Some(JumpEvent::Gap { .. }) = event {
            if let Some(jump) = self.jump {
                self.jump = Some(Jump {
                    last: jump.last,
                    next: jump.next,
                    is_told: true,
                });
            }
        }
        event
    }
}

/// When a line was written last, in milliseconds, and how many were left out since: at most one an hour is written.
#[derive(Clone, Copy, Drop)]
pub struct HourLimit {
    at: Option<u64>,
    more: u64,
}

impl Model for HourLimit {
    ghost use Rattle.job_read.specs.Hearing.{LimitValue};

    ghost Value = { LimitValue };

    ghost view = { λ l. record { at = l.at; more = l.more } };

    ghost inverse = { λ l. record { at = l.at; more = l.more } };
}

impl HourLimit {
    ghost use Rattle.std.specs.Prelude.{◌≡◌, None};
    ghost use Rattle.job_read.specs.Hearing.{allowed, limit_after};

    /// No line was written.
    pub fn new() -> HourLimit
        ensures { result ≡ record { at = None; more = 0 } }
    {
        HourLimit { at: None, more: 0 }
    }

    /// Whether a line may be written now, and how many were left out before it. Otherwise it is left out, too.
    pub fn allow(&mut self, now: u64) -> Option<u64>
        ensures allowed { result ≡ allowed self.old now }
        ensures after { self.new ≡ limit_after self.old now }
    {
        if has_passed(self.at, now) {
            let more = self.more;
            self.at = Some(now);
            self.more = 0;
            Some(more)
        } else {
            self.more = self.more.saturating_add(1);
            None
        }
    }
}
