//! When a connection is left that is still there: its server is silent for too long.
ghost use Rattle.std.specs.Prelude.{◌≡◌};
ghost use Rattle.job_read.specs.Waiting.{awaited_now, left_of, limit_of, milliseconds_of, pause, shorter};
ghost use Rattle.job_read.specs.Waiting.{silence_between, silence_now};
ghost use Rattle.job_read.specs.Waiting.{time_limit};

use crate::course::Course;
use std::cell::Cell;
use std::time::Duration;

/// What it means that a server is silent.
#[derive(Clone, Copy, PartialEq, Eq, Drop)]
pub enum Silence {
    /// There may be no record for long.
    Usual,
    /// The server owes something, and may be gone.
    Fault,
    /// Nothing more comes of the window that was asked for.
    Over,
}

/// What is waited for while a server is silent.
#[derive(Clone, Copy, PartialEq, Eq, Drop)]
pub enum Awaited {
    /// An answer, or the rest of a packet.
    Rest,
    /// The next packet of what is held, or the end.
    Packet,
    /// The end of a window, or a packet after it.
    WindowEnd,
    /// The next record, of which there may be none for long.
    Record,
}

/// After how many seconds of silence a server is left, of so many servers: as asked for, and otherwise after 60 if
/// there is another one, the same one is asked again, or a window ends.
pub fn time_limit(
    timeout: Option<usize>,
    count: usize,
    is_retried: bool,
    is_window: bool,
) -> Option<u64>
    ensures { result ≡ time_limit timeout count is_retried is_window }
{
    match timeout {
        Some(seconds) => Some(seconds as u64),
        None if is_retried || is_window || count > 1 => Some(60),
        None => None,
    }
}

/// How many seconds pass before the next server is asked. A server that is fed the same records a moment later than the
/// one before would otherwise hand out its oldest ones.
pub fn pause(retry: Option<usize>) -> u64
    ensures { result ≡ pause retry }
{
    match retry {
        Some(seconds) => seconds as u64,
        None => 1,
    }
}

/// What silence means between two packets.
pub fn silence_between(is_fetch: bool, is_window: bool) -> Silence
    ensures { result ≡ silence_between is_fetch is_window }
{
    if is_fetch {
        Silence::Fault
    } else if is_window {
        Silence::Over
    } else {
        Silence::Usual
    }
}

/// What it means now.
fn silence_now(between: Silence, course: &Course) -> Silence
    ensures { result ≡ silence_now between course.now }
{
    if course.is_owed() {
        Silence::Fault
    } else {
        between
    }
}

/// What is waited for now.
fn awaited_now(between: Silence, course: &Course) -> Awaited
    ensures { result ≡ awaited_now between course.now }
{
    if course.is_owed() {
        return Awaited::Rest;
    }
    match between {
        Silence::Usual => Awaited::Record,
        Silence::Fault => Awaited::Packet,
        Silence::Over => Awaited::WindowEnd,
    }
}

/// The limit that holds for a silence.
fn limit_of(limit: Option<u64>, silence: Silence) -> Option<u64>
    ensures { result ≡ limit_of limit silence }
{
    match silence {
        Silence::Usual => None,
        Silence::Fault | Silence::Over => limit,
    }
}

/// How many milliseconds of a limit are left that began at a moment.
fn left_of(limit: Option<u64>, begun: u64, now: u64) -> Option<u64>
    ensures { result ≡ left_of limit begun now }
{
    match limit {
        Some(limit) => Some(limit.saturating_sub(now.saturating_sub(begun))),
        None => None,
    }
}

/// The shorter of two times, if there are some.
pub fn shorter(one: Option<u64>, other: Option<u64>) -> Option<u64>
    ensures { result ≡ shorter one other }
{
    match (one, other) {
        (Some(one), Some(other)) => Some(one.min(other)),
        (Some(one), None) => Some(one),
        (None, other) => other,
    }
}

/// Milliseconds of seconds, at most 2^64 - 1.
fn milliseconds_of(seconds: u64) -> u64
    ensures { result ≡ milliseconds_of seconds }
{
    seconds.saturating_mul(1000)
}

/// When the connection that is read is left for its silence.
#[derive(Drop)]
pub struct Patience {
    /// After how many seconds.
    limit: Option<u64>,
    /// What silence means between two packets.
    between: Silence,
    /// How far the connection is.
    course: Cell<Course>,
    /// What the silence meant for which it was left; Usual if it was not.
    end: Cell<Silence>,
    /// Since when the answer or the packet is waited for that the server owes, in milliseconds.
    owed: Cell<Option<u64>>,
}

impl Patience {
    /// Before the first connection, with a limit in seconds.
    pub fn new(limit: Option<u64>, between: Silence) -> Patience {
        Patience {
            limit,
            between,
            course: Cell::new(Course::new()),
            end: Cell::new(Silence::Usual),
            owed: Cell::new(None),
        }
    }

    /// Another connection is made.
    pub fn begin(&self) {
        self.course.set(Course::new());
        self.end.set(Silence::Usual);
        self.owed.set(None);
    }

    /// How long it may take to make one.
    pub fn limit(&self) -> Option<Duration> {
        let seconds = self.limit?;
        Some(Duration::from_secs(seconds))
    }

    /// Bytes were sent over it.
    pub fn send(&self, bytes: &[u8]) {
        let mut course = self.course.get();
        course.send(bytes);
        self.course.set(course);
        self.owed.set(None);
    }

    /// So many bytes came over it.
    pub fn receive(&self, count: usize) {
        let mut course = self.course.get();
        if course.completes(count) {
            self.owed.set(None);
        }
        course.receive(count);
        self.course.set(course);
    }

    /// Since when something is waited for, that is now: an answer and a packet are so as a whole, and not since their
    /// last byte.
    pub fn since(&self, now: u64) -> u64 {
        if !self.is_owed() {
            return now;
        }
        match self.owed.get() {
            Some(since) => since,
            None => {
                self.owed.set(Some(now));
                now
            }
        }
    }

    /// Whether its server owes something: an answer, or the rest of a packet.
    pub fn is_owed(&self) -> bool {
        self.course.get().is_owed()
    }

    /// Whether the transfer was asked for.
    pub fn is_transfer(&self) -> bool {
        self.course.get().is_transfer()
    }

    /// What is waited for now.
    pub fn awaited(&self) -> Awaited {
        awaited_now(self.between, &self.course.get())
    }

    /// After how many seconds of silence the server is left, if it is.
    pub fn seconds(&self) -> Option<u64> {
        self.limit
    }

    /// What it means now that nothing comes.
    fn silence(&self) -> Silence {
        silence_now(self.between, &self.course.get())
    }

    /// How many milliseconds the connection still lasts if nothing has come since a moment.
    pub fn left(&self, begun: u64, now: u64) -> Option<u64> {
        let seconds = limit_of(self.limit, self.silence())?;
        left_of(Some(milliseconds_of(seconds)), begun, now)
    }

    /// It is left for its silence.
    pub fn give_up(&self) {
        self.end.set(self.silence());
    }

    /// Whether it was left since its server owed something.
    pub fn is_fault(&self) -> bool {
        self.end.get() == Silence::Fault
    }

    /// Whether it was left since nothing more came of the window.
    pub fn is_over(&self) -> bool {
        self.end.get() == Silence::Over
    }
}
