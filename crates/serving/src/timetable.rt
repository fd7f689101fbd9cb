//! When a server stops between its turns.
//!
//! What is due by time is asked between turns, once after each turn, and only if something goes by time. What is
//! answered is done before the next turn, so the relation of a run needs no clock: in memory the answers are told, and
//! over the system's clock none are. A reread by time is the same reread. A look at a clock that fails is no time, and
//! nothing is due then.
ghost use Rattle.std.specs.Prelude.{◌≡◌, Some, None, false};
ghost use Rattle.serving.specs.Timetables.{due_after, is_by_time, is_due, is_keep_due, is_timed, turns_of};

use crate::between::Due;
use text_parts::period::Period;

/// After how many turns a server ends, and how often it reads its configuration again and reports what it has done.
/// Without a number of turns it ends after 2^64 - 1; without a period, or with one of 0 turns, it never stops for it.
///
/// If one of the two goes by time, it is asked after each turn what is due by time, and that is done too.
///
/// With `keep` it has the numbers of its stations kept, each time that the number to be kept of some station changed.
#[derive(Clone, Copy, Drop)]
pub struct Timetable {
    pub turns: Option<usize>,
    pub reread: Option<Period>,
    pub report: Option<Period>,
    pub keep: bool,
}

impl Timetable {
    /// So many turns, with no stop between them.
    pub fn of_turns(turns: u64) -> Timetable
        ensures { result ≡ record { turns = Some turns; reread = None; report = None; keep = false } }
    {
        Timetable {
            turns: Some(turns as usize),
            reread: None,
            report: None,
            keep: false,
        }
    }

    /// After how many turns a server ends.
    pub fn total(&self) -> u64
        ensures { result ≡ turns_of self.now }
    {
        match self.turns {
            None => u64::MAX,
            Some(turns) => turns as u64,
        }
    }

    /// Whether it is asked after each turn what is due by time.
    pub fn is_timed(&self) -> bool
        ensures { result ≡ is_timed self.now }
    {
        is_by_time(self.reread) || is_by_time(self.report)
    }

    /// What is due after so many turns, where by time that is due.
    pub fn due_after(&self, done: u64, by_time: Due) -> Due
        ensures { result ≡ due_after self.now done by_time }
    {
        Due {
            reread: is_due(self.reread, done) || by_time.reread,
            report: is_due(self.report, done) || by_time.report,
        }
    }

    /// Whether the numbers are to be kept again, by the levels of the stations together, and by what these were when
    /// the numbers were kept.
    pub fn keeps(&self, kept: u64, raises: u64) -> bool
        ensures { result ≡ is_keep_due self.now kept raises }
    {
        self.keep && kept < raises
    }
}

/// Whether something is done by time.
fn is_by_time(period: Option<Period>) -> bool
    ensures { result ≡ is_by_time period }
{
    match period {
        Some(period) => period.is_by_time(),
        None => false,
    }
}

/// Whether it is due after so many turns.
fn is_due(period: Option<Period>, done: u64) -> bool
    ensures { result ≡ is_due period done }
{
    match period {
        Some(period) => period.is_due_after(done),
        None => false,
    }
}
