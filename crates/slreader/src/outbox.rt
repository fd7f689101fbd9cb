//! The bytes that a reader asks.
use std::alloc::{AllocError, Global};
use std::marker::Model;

/// All bytes that were asked so far, and how many of them were sent. Its room is taken when it is made.
#[derive(Drop)]
pub(crate) struct Outbox {
    bytes: Vec<u8>,
    sent: usize,
}

impl Model for Outbox {
    ghost use Rattle.std.specs.Prelude.{◌-◌, ◌≤◌, length, vec_len};
    ghost use Rattle.std.specs.Vec.{vec_capacity};
    ghost use Rattle.slreader.specs.OutboxValue.{OutboxValue};

    ghost Value = { OutboxValue };

    ghost view = { λ o.
        record { asked = o.bytes.items; sent = o.sent; room = vec_capacity o.bytes - vec_len o.bytes } };

    ghost invariant = { λ o. o.sent ≤ length o.bytes.items };
}

impl Outbox {
    ghost use Rattle.std.specs.Prelude.{◌≡◌, ◌+◌, ◌++◌, ◌<◌, ◌≤◌, [], length, drop, IfOk};
    ghost use Rattle.slreader.specs.Lines.{ended};

    /// Holds nothing, and has room for so many bytes.
    pub(crate) fn new(alloc: Global, room: usize) -> Result<Outbox, AllocError>
        ensures { IfOk result (λ o. o ≡ record { asked = []; sent = 0; room = room }) }
    {
        Ok(Outbox {
            bytes: Vec::with_capacity(alloc, room)?,
            sent: 0,
        })
    }

    /// Puts some bytes behind the others.
    fn put(&mut self, bytes: &[u8])
        requires { length bytes.now ≤ self.old.room }
        ensures asked { self.new.asked ≡ self.old.asked ++ bytes.now }
        ensures sent { self.new.sent ≡ self.old.sent }
        ensures room { self.old.room ≤ self.new.room + length bytes.now }
    {
        match self.bytes.extend_from_slice(bytes) {
            Ok(()) => {}
            Err(_) => unreachable!(),
        }
    }

    /// Asks one line more, which CR ends.
    pub(crate) fn ask(&mut self, line: &[u8])
        requires { length line.now < self.old.room }
        ensures asked { self.new.asked ≡ self.old.asked ++ ended line.now }
        ensures sent { self.new.sent ≡ self.old.sent }
        ensures room { self.old.room ≤ self.new.room + (length line.now + 1) }
    {
        self.put(line);
        self.put(b"\r");
    }

    /// The bytes that were not sent yet.
    pub(crate) fn waiting(&self) -> &[u8]
        ensures { result.now ≡ drop self.now.sent self.now.asked }
    {
        &self.bytes[self.sent..]
    }

    /// The first `count` of them were sent.
    pub(crate) fn confirm(&mut self, count: usize)
        requires { count ≤ length (drop self.old.sent self.old.asked) }
        ensures { self.new ≡ record self.old { sent = self.old.sent + count } }
    {
        self.sent += count;
    }
}
