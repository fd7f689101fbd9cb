//! A reader.
//!
//! A plan lends its texts, so that the words of a command line need no copies. `ReaderCore` copies what it needs.
use crate::came::{Came, what_of};
use crate::dialogue::Dialogue;
use crate::fault::ReaderFault;
use crate::tally::Tally;
use crate::want::Plan;
use sl_packet::Seq;
use std::alloc::Global;
use std::marker::Model;

/// A reader by its bytes: it lends what it asks, is given what the server sends in whatever pieces it comes, and
/// gives what that is (SeedLink 3). It asks HELLO; then for each want STATION (in a plan of several), a SELECT for
/// each pattern and the action; and last END (in a plan of several). Each line ends with CR, and waits for the answer
/// to the one before. No buffer grows once it is made. In a contract a reader is how far its dialogue is.
#[derive(Drop)]
pub struct ReaderCore {
    dialogue: Dialogue,
}

impl Model for ReaderCore {
    ghost use Rattle.slreader.specs.Dialogue.{ReaderValue};

    ghost Value = { ReaderValue };

    ghost view = { λ r. r.dialogue };
}

impl ReaderCore {
    ghost use Rattle.std.specs.Prelude.{◌≡◌, ◌+◌, ◌≤◌, true, false, length, drop, IfOk, OnOk, IfErr};
    ghost use Rattle.slreader.specs.Wants.{is_plan};
    ghost use Rattle.slreader.specs.Views.{plan_value};
    ghost use Rattle.slreader.specs.Tallies.{next_of};
    ghost use Rattle.slreader.specs.GoingOn.{begun_at};
    ghost use Rattle.slreader.specs.Dialogue.{begun, outcome_of, read_first};
    ghost use Rattle.slreader.specs.Comings.{came_outcome, IsNotBegun};
    ghost use Rattle.slreader.specs.Whats.{Reads};

    /// A reader that was sent nothing. It fails with Limit exactly where the plan has no want or more than 255,
    /// a want that can't be asked for, or more than 1,024 patterns, and with OutOfMemory only where there is no memory
    /// for its commands.
    pub fn new(alloc: Global, plan: Plan<'_>) -> Result<ReaderCore, ReaderFault>
        ensures begun { IfOk result (λ r. r ≡ begun (plan_value plan.entry)) }
        ensures plan { OnOk result (is_plan (plan_value plan.entry) ≡ true) }
        ensures fault { IfErr result (λ fault. IsNotBegun fault (plan_value plan.entry)) }
    {
        match Tally::new(alloc, &plan) {
            Ok(tally) => ReaderCore::going_on(alloc, plan, tally),
            Err(_) if plan.is_spellable() => Err(ReaderFault::OutOfMemory),
            Err(_) => Err(ReaderFault::Limit),
        }
    }

    /// The same, of a reader that counts on: its packets are counted beside those that were given before.
    pub fn going_on(alloc: Global, plan: Plan<'_>, tally: Tally) -> Result<ReaderCore, ReaderFault>
        ensures begun { IfOk result (λ r. r ≡ begun_at (plan_value plan.entry) tally) }
        ensures plan { OnOk result (is_plan (plan_value plan.entry) ≡ true) }
        ensures fault { IfErr result (λ fault. IsNotBegun fault (plan_value plan.entry)) }
    {
        if !plan.is_spellable() {
            return Err(ReaderFault::Limit);
        }
        match Dialogue::new(alloc, &plan, tally) {
            Ok(dialogue) => Ok(ReaderCore { dialogue }),
            Err(_) => Err(ReaderFault::OutOfMemory),
        }
    }

    /// The bytes that are to be sent.
    pub fn outgoing(&self) -> &[u8]
        ensures { result.now ≡ drop self.now.sent self.now.asked }
    {
        self.dialogue.outgoing()
    }

    /// The first `count` of the bytes that are to be sent were sent.
    pub fn sent(&mut self, count: usize)
        requires { count ≤ length (drop self.old.sent self.old.asked) }
        ensures { self.new ≡ record self.old { sent = self.old.sent + count } }
    {
        self.dialogue.sent(count);
    }

    /// Reads the piece up to the first thing that becomes whole, else all of it. A packet is copied to `packet`, and
    /// lent from there.
    ///
    /// It fails with BadReply where a line that answers HELLO or an answer is none, with NotAPacket where a byte of
    /// the transfer fits no stream of packets, and with AllRefused once the refusal of the last want was given and no
    /// want is left. After a fault each call is answered so.
    pub fn incoming<'p>(
        &mut self,
        piece: &[u8],
        packet: &'p mut [u8; 520],
    ) -> Result<Came<'p>, ReaderFault>
        ensures outcome { came_outcome result ≡ outcome_of (read_first self.old piece.now) }
        ensures reads { IfOk result (λ came. Reads came.used came.what (length piece.now)) }
        ensures left { self.new ≡ (read_first self.old piece.now).reader }
    {
        let step = self.dialogue.read(piece, packet)?;
        let what = what_of(step.event, packet);
        self.dialogue.count(&what);
        Ok(Came {
            used: step.used,
            what,
        })
    }

    /// How many packets were given, at most 2^64 - 1.
    pub fn records(&self) -> u64
        ensures { result ≡ self.now.tally.records }
    {
        self.dialogue.records()
    }

    /// What was counted: how many packets were given, and how far each want is.
    pub fn tally(&self) -> &Tally
        ensures { result.now ≡ self.now.tally }
    {
        self.dialogue.tally()
    }

    /// The same, of a reader that is let go.
    pub fn into_tally(self) -> Tally
        ensures { result ≡ self.tally }
    {
        self.dialogue.into_tally()
    }

    /// The number after that of the last packet of the want's station, by the packets whose records can be read; in a
    /// plan of one want the number after the last packet. None before the first, and for a want that is not there.
    pub fn next_wanted(&self, want: usize) -> Option<Seq>
        ensures { result ≡ next_of self.now.tally want }
    {
        self.dialogue.next_wanted(want)
    }
}
