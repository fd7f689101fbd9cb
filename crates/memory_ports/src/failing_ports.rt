//! Ports of which one call fails.
ghost use Rattle.std.specs.Prelude.{◌≡◌, ◌<◌, ◌≤◌, ◌==◌, ◌-◌, ◌≢◌, ℕ, List, [], ◌∷◌, Some, IsErr, IsSome, IfOk, OnOk};
ghost use Rattle.std.specs.Prelude.{length, map};
ghost use Rattle.std.specs.List.{All, concat};
ghost use Rattle.std.specs.Vec.{vec_capacity};
ghost use Rattle.sl_io.specs.Counts.{CountsFailure};
ghost use Rattle.ports.specs.Calls.{Call, Tells, given, whole_write, IsGiven, IsTaken};
ghost use Rattle.ports.specs.Calls.Call.{Next, Read, Write, Shut};
ghost use Rattle.ports.specs.Decisions.{Decides};
ghost use Rattle.memory_ports.specs.Made.{told};
ghost use Rattle.memory_ports.specs.Records.{port_record, record_value};

use crate::memory_ports::{Log, PortRecord, record_of};
use ports::{Decision, Got, Happening, PortFault, Ports, Put};
use std::alloc::{AllocError, Global};

/// Ports of which one call of `next`, `read` or `write` fails and reaches nothing. All others are passed on. They keep
/// each call with its answer, as ports in memory do, and serve to try what comes of a failure at each place.
#[derive(Drop)]
pub struct FailingPorts<P> {
    inner: P,
    /// How many such calls there are up to the one that fails, with it; 0 once it was made, or where none fails.
    due: u64,
    log: Log,
}

impl<P> FailingPorts<P> {
    /// Ports over others, with the `due`-th call failing, from 1 on. With 0 none fails for that.
    pub fn new(alloc: Global, inner: P, due: u64) -> FailingPorts<P>
        ensures inner { result.inner ≡ inner }
        ensures due { result.due ≡ due }
        ensures calls { told result.log ≡ Some [] }
    {
        FailingPorts {
            inner,
            due,
            log: Log::new(alloc),
        }
    }

    /// Whether the call that is to fail was made, or none is to.
    pub fn has_failed(&self) -> bool
        ensures { result ≡ (self.now.due == 0) }
    {
        self.due == 0
    }

    /// The bytes that a port gave, the bytes that it took, and whether it was shut. It fails only for want of memory.
    pub fn record(&self, alloc: Global, port: u64) -> Result<PortRecord, AllocError>
        ensures { IfOk result (λ r. (calls : List Call) → told self.now.log ≡ Some calls →
            record_value r ≡ port_record port calls) }
    {
        record_of(alloc, self.log.made(), port)
    }

    // One call more. Whether it is the one that fails.
    fn is_due(&mut self) -> bool
        ensures fails { result ≡ (self.old.due == 1) }
        ensures counted { self.new ≡ record self.old { due = self.old.due - 1 } }
    {
        let fails = self.due == 1;
        self.due = self.due.saturating_sub(1);
        fails
    }
}

impl<P: Ports> Ports for FailingPorts<P> {
    ghost calls = { λ s. told s.log };

    ghost failures = { λ s. s.log.failures };

    ghost decided = { λ s. P.decided s.inner };

    ghost room = { λ s port. P.room s.inner port };

    ghost listening = { λ s. P.listening s.inner };

    fn next(&mut self) -> Result<Happening, PortFault>
        ensures call { Tells (told self.old.log) (told self.new.log) (Next result ∷ []) }
        ensures failure { CountsFailure self.old.log.failures self.new.log.failures result }
        ensures telling { OnOk result (IsSome (told self.old.log) → IsSome (told self.new.log)) }
        ensures fails { self.old.due ≡ 1 → IsErr result }
        ensures reaches_nothing { self.old.due ≡ 1 → self.new.inner ≡ self.old.inner }
        ensures passed_on { self.old.due ≢ 1 → IsSome (told self.new.log) →
            Tells (P.calls self.old.inner) (P.calls self.new.inner) (Next result ∷ [])
            × CountsFailure (P.failures self.old.inner) (P.failures self.new.inner) result }
        ensures decided { P.decided self.new.inner ≡ P.decided self.old.inner }
        ensures due { self.new.due ≡ self.old.due - 1 }
    {
        if self.is_due() {
            return self.log.next(Err(PortFault));
        }
        let answer = self.inner.next();
        self.log.next(answer)
    }

    fn read(&mut self, port: u64, buffer: &mut [u8]) -> Result<Got, PortFault>
        requires { 0 < length buffer.old }
        ensures bound { IsGiven result (length buffer.new) }
        ensures call { Tells (told self.old.log) (told self.new.log)
            (Read port (length buffer.new) (given result buffer.new) ∷ []) }
        ensures failure { CountsFailure self.old.log.failures self.new.log.failures result }
        ensures telling { OnOk result (IsSome (told self.old.log) → IsSome (told self.new.log)) }
        ensures fails { self.old.due ≡ 1 → IsErr result }
        ensures reaches_nothing { self.old.due ≡ 1 → self.new.inner ≡ self.old.inner }
        ensures passed_on { self.old.due ≢ 1 → IsSome (told self.new.log) →
            Tells (P.calls self.old.inner) (P.calls self.new.inner)
            (Read port (length buffer.new) (given result buffer.new) ∷ [])
            × CountsFailure (P.failures self.old.inner) (P.failures self.new.inner) result }
        ensures decided { P.decided self.new.inner ≡ P.decided self.old.inner }
        ensures due { self.new.due ≡ self.old.due - 1 }
    {
        if self.is_due() {
            return self.log.read(port, buffer, Err(PortFault));
        }
        let answer = self.inner.read(port, buffer);
        self.log.read(port, buffer, answer)
    }

    fn write(&mut self, port: u64, bytes: &[u8]) -> Result<Put, PortFault>
        requires { 0 < length bytes.now }
        ensures bound { IsTaken result (length bytes.now) }
        ensures call { Tells (told self.old.log) (told self.new.log) (Write port bytes.now result ∷ []) }
        ensures failure { CountsFailure self.old.log.failures self.new.log.failures result }
        ensures telling { OnOk result (IsSome (told self.old.log) → IsSome (told self.new.log)) }
        ensures fails { self.old.due ≡ 1 → IsErr result }
        ensures reaches_nothing { self.old.due ≡ 1 → self.new.inner ≡ self.old.inner }
        ensures passed_on { self.old.due ≢ 1 → IsSome (told self.new.log) →
            Tells (P.calls self.old.inner) (P.calls self.new.inner) (Write port bytes.now result ∷ [])
            × CountsFailure (P.failures self.old.inner) (P.failures self.new.inner) result }
        ensures decided { P.decided self.new.inner ≡ P.decided self.old.inner }
        ensures due { self.new.due ≡ self.old.due - 1 }
    {
        if self.is_due() {
            return self.log.write(port, bytes, Err(PortFault));
        }
        let answer = self.inner.write(port, bytes);
        self.log.write(port, bytes, answer)
    }

    /// There never is any: so each packet is a write of its own, which can be the one that fails.
    fn make_room(&mut self, _port: u64, _most: usize) -> usize
        ensures none { result ≡ 0 }
        ensures same { self.new ≡ self.old }
    {
        0
    }

    fn write_pieces(&mut self, port: u64, bytes: &mut Vec<u8>, size: usize)
        requires room { length bytes.old.items ≤ P.room self.old.inner port }
        requires size { 0 < size }
        ensures call { (pieces : List (List ℕ)) → bytes.old.items ≡ concat pieces →
            All (λ p. length p ≡ size) pieces →
            Tells (told self.old.log) (told self.new.log) (map (whole_write port) pieces) }
        ensures capacity { vec_capacity bytes.old ≤ vec_capacity bytes.new }
        ensures failures { self.new.log.failures ≡ self.old.log.failures }
        ensures passed_on { (pieces : List (List ℕ)) → bytes.old.items ≡ concat pieces →
            All (λ p. length p ≡ size) pieces →
            Tells (P.calls self.old.inner) (P.calls self.new.inner) (map (whole_write port) pieces)
            × (P.failures self.new.inner ≡ P.failures self.old.inner) }
        ensures decided { P.decided self.new.inner ≡ P.decided self.old.inner }
        ensures due { self.new.due ≡ self.old.due }
    {
        self.log.write_pieces(port, bytes.as_slice(), size);
        self.inner.write_pieces(port, bytes, size);
    }

    fn shut(&mut self, port: u64)
        ensures call { Tells (told self.old.log) (told self.new.log) (Shut port ∷ []) }
        ensures failures { self.new.log.failures ≡ self.old.log.failures }
        ensures passed_on { Tells (P.calls self.old.inner) (P.calls self.new.inner) (Shut port ∷ [])
            × (P.failures self.new.inner ≡ P.failures self.old.inner) }
        ensures decided { P.decided self.new.inner ≡ P.decided self.old.inner }
        ensures due { self.new.due ≡ self.old.due }
    {
        self.inner.shut(port);
        self.log.shut(port);
    }

    fn tell(&mut self, port: u64, decision: Decision)
        ensures calls { told self.new.log ≡ told self.old.log }
        ensures failures { self.new.log.failures ≡ self.old.log.failures }
        ensures passed_on { (P.calls self.new.inner ≡ P.calls self.old.inner)
            × (P.failures self.new.inner ≡ P.failures self.old.inner) }
        ensures decides { Decides (P.decided self.old.inner) (P.decided self.new.inner) ((port, decision) ∷ []) }
        ensures due { self.new.due ≡ self.old.due }
    {
        self.inner.tell(port, decision);
    }

    fn listens(&self) -> bool
        ensures { result ≡ P.listening self.now.inner }
    {
        self.inner.listens()
    }
}
