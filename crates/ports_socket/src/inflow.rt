//! What a client's connection gives: so many bytes between two polls, so that one that sends without an end keeps
//! nobody waiting; and the end of what it sends, and when that is told.
//!
//! A client's end is told once nothing moved to it from one poll to the next, and nothing waits for it. The system
//! reports a peer that has closed its connection and one that has closed its sending half alone in the same way; the
//! first finds out by the next write, and the second still reads. So a client that has left keeps its place for a poll
//! longer.
ghost use Rattle.std.specs.Prelude.{◌≡◌, ◌+◌, ◌-◌, ◌≤◌, ◌↔◌, IsTrue, Some, is_some};
ghost use Rattle.ports_socket.specs.Ends.{IsBefore, IsPast, first_found};

/// How many bytes a port gives at most between two polls.
const MOST: usize = 4_096;

/// What a port gave since some poll.
#[derive(Clone, Copy, Drop)]
pub struct Ration {
    /// After how many polls it was read last.
    pub polls: u64,
    /// How many bytes it has given since that poll.
    pub given: usize,
    ghost few: { given ≤ 4096 },
}

impl Ration {
    ghost use Rattle.ports_socket.specs.Rations.{given_since};

    /// Nothing was given yet.
    pub fn new() -> Ration
        ensures polls { result.polls ≡ 0 }
        ensures given { result.given ≡ 0 }
    {
        Ration { polls: 0, given: 0 }
    }

    /// How many bytes may be given still, after so many polls.
    pub fn left(&self, polls: u64) -> usize
        ensures { result ≡ 4096 - given_since self.now polls }
    {
        if self.polls == polls {
            MOST - self.given
        } else {
            MOST
        }
    }

    /// So many bytes are given, after so many polls.
    pub fn give(&mut self, polls: u64, count: usize)
        requires { given_since self.old polls + count ≤ 4096 }
        ensures polls { self.new.polls ≡ polls }
        ensures given { self.new.given ≡ given_since self.old polls + count }
    {
        let given = if self.polls == polls { self.given } else { 0 };
        *self = Ration {
            polls,
            given: given + count,
        };
    }
}

/// The end of what a client sends. It may have ended that alone and still wait for answers, so its end is told only
/// once from one poll to the next nothing moved to it.
#[derive(Clone, Copy, Drop)]
pub struct PeerEnd {
    /// After how many polls the end was found.
    pub found: Option<u64>,
    /// After how many polls bytes for the client were taken last, from the loop or by the system.
    pub moved: Option<u64>,
}

impl PeerEnd {
    /// No end was found, and nothing moved.
    pub fn new() -> PeerEnd {
        PeerEnd {
            found: None,
            moved: None,
        }
    }

    /// The end is found, after so many polls, if it was not before.
    pub fn find(&mut self, polls: u64)
        ensures { self.new ≡ record self.old { found = Some (first_found self.old.found polls) } }
    {
        if self.found.is_none() {
            self.found = Some(polls);
        }
    }

    /// Bytes are taken, after so many polls.
    pub fn note_move(&mut self, polls: u64)
        ensures { self.new ≡ record self.old { moved = Some polls } }
    {
        self.moved = Some(polls);
    }

    pub fn is_found(&self) -> bool
        ensures { result ≡ is_some self.now.found }
    {
        self.found.is_some()
    }

    /// Whether bytes for the client were ever taken.
    pub fn has_moved(&self) -> bool
        ensures { result ≡ is_some self.now.moved }
    {
        self.moved.is_some()
    }

    /// Whether the end was found before the last poll, and nothing moved since the one before that.
    pub fn is_past(&self, polls: u64) -> bool
        ensures { IsTrue result ↔ IsPast self.now polls }
    {
        match self.found {
            Some(found) => found < polls && is_before(self.moved, polls),
            None => false,
        }
    }
}

/// Whether something that happened after so many polls, if it did, happened before the last poll but one.
fn is_before(moved: Option<u64>, polls: u64) -> bool
    ensures { IsTrue result ↔ IsBefore moved polls }
{
    match moved {
        Some(moved) => polls.saturating_sub(moved) >= 2,
        None => true,
    }
}
