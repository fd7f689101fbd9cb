//! Ports in memory, that follow a script and tell every call.
//!
//! Ports in memory whose record can't grow tell nothing from then on. The call that found no memory fails and counts as
//! a failure, but for `shut` and `write_pieces`, which have no answer. `MemoryPorts::record` copies what a port gave
//! and took out of the calls, and so allocates.
ghost use Rattle.std.specs.Prelude.{◌≡◌, ◌<◌, ◌≤◌, ◌^◌, ℕ, false, List, Some, [], ◌∷◌, IfOk, IsSome, OnOk};
ghost use Rattle.std.specs.Prelude.{length, map};
ghost use Rattle.std.specs.List.{All, concat};
ghost use Rattle.std.specs.Vec.{vec_capacity};
ghost use Rattle.sl_io.specs.Counts.{CountsFailure};
ghost use Rattle.ports.specs.Calls.{Call, Tells, given, whole_write, IsGiven, IsTaken};
ghost use Rattle.ports.specs.Calls.Call.{Next, Read, Write};
ghost use Rattle.ports.specs.declared.decisions.Decision.{Decision};
ghost use Rattle.memory_ports.specs.Made.{decided_in, decided_value, made_value, told};
ghost use Rattle.memory_ports.specs.Records.{port_record, record_value};

use ports::{Decision, Got, Happening, PortFault, Ports, Put};
use std::alloc::{AllocError, Global};

mod log;
mod port_record;
mod script;

pub use log::{Decided, Gave, Log, Made};
pub use port_record::PortRecord;
pub(crate) use port_record::record_of;
pub use script::{PortScript, ReadAnswer, Script, WriteAnswer};

/// Ports in memory. They answer by a script, and keep each call with its answer. Only if there was no memory to keep a
/// call, which is then a failure of it (`shut` and `write_pieces` can't fail), do they stop telling their calls.
#[derive(Drop)]
pub struct MemoryPorts {
    script: Script,
    log: Log,
}

impl MemoryPorts {
    /// Ports that follow the script.
    pub fn new(alloc: Global, script: Script) -> MemoryPorts
        ensures script { result.script ≡ script }
        ensures calls { told result.log ≡ Some [] }
    {
        MemoryPorts {
            script,
            log: Log::new(alloc),
        }
    }

    /// All calls, in order, with their answers.
    pub fn calls(&self) -> &[Made]
        ensures { (calls : List Call) → told self.now.log ≡ Some calls → map made_value result.now ≡ calls }
    {
        self.log.made()
    }

    /// What was decided of ports, in order.
    pub fn decided(&self) -> &[Decided]
        ensures { (decisions : List (ℕ × Decision)) → decided_in self.now.log ≡ Some decisions →
            map decided_value result.now ≡ decisions }
    {
        self.log.decided()
    }

    /// The bytes that a port gave, the bytes that it took, and whether it was shut. It fails only for want of memory.
    pub fn record(&self, alloc: Global, port: u64) -> Result<PortRecord, AllocError>
        ensures { IfOk result (λ r. (calls : List Call) → told self.now.log ≡ Some calls
            → record_value r ≡ port_record port calls) }
    {
        record_of(alloc, self.log.made(), port)
    }
}

impl Ports for MemoryPorts {
    ghost calls = { λ s. told s.log };

    ghost failures = { λ s. s.log.failures };

    ghost decided = { λ s. decided_in s.log };

    ghost room = { λ _ _. 2 ^ 64 };

    ghost listening = { λ _. false };

    fn next(&mut self) -> Result<Happening, PortFault>
        ensures call { Tells (told self.old.log) (told self.new.log) (Next result ∷ []) }
        ensures failure { CountsFailure self.old.log.failures self.new.log.failures result }
        ensures telling { OnOk result (IsSome (told self.old.log) → IsSome (told self.new.log)) }
        ensures decided { decided_in self.new.log ≡ decided_in self.old.log }
    {
        let happening = self.script.next();
        self.log.next(Ok(happening))
    }

    fn read(&mut self, port: u64, buffer: &mut [u8]) -> Result<Got, PortFault>
        requires { 0 < length buffer.old }
        ensures bound { IsGiven result (length buffer.new) }
        ensures call { Tells (told self.old.log) (told self.new.log)
            (Read port (length buffer.new) (given result buffer.new) ∷ []) }
        ensures failure { CountsFailure self.old.log.failures self.new.log.failures result }
        ensures telling { OnOk result (IsSome (told self.old.log) → IsSome (told self.new.log)) }
        ensures decided { decided_in self.new.log ≡ decided_in self.old.log }
    {
        let answer = self.script.read(port, buffer);
        self.log.read(port, buffer, answer)
    }

    fn write(&mut self, port: u64, bytes: &[u8]) -> Result<Put, PortFault>
        requires { 0 < length bytes.now }
        ensures bound { IsTaken result (length bytes.now) }
        ensures call { Tells (told self.old.log) (told self.new.log) (Write port bytes.now result ∷ []) }
        ensures failure { CountsFailure self.old.log.failures self.new.log.failures result }
        ensures telling { OnOk result (IsSome (told self.old.log) → IsSome (told self.new.log)) }
        ensures decided { decided_in self.new.log ≡ decided_in self.old.log }
    {
        let answer = self.script.write(port, bytes.len());
        self.log.write(port, bytes, answer)
    }

    /// There is room once the script has no answer left for a write to the port.
    fn make_room(&mut self, port: u64, most: usize) -> usize
        ensures room { result ≤ 2 ^ 64 }
        ensures most { result ≤ most }
        ensures same { self.new ≡ self.old }
    {
        if self.script.takes_all(port) { most } else { 0 }
    }

    fn write_pieces(&mut self, port: u64, bytes: &mut Vec<u8>, size: usize)
        requires room { length bytes.old.items ≤ 2 ^ 64 }
        requires size { 0 < size }
        ensures call { (pieces : List (List ℕ)) → bytes.old.items ≡ concat pieces →
            All (λ p. length p ≡ size) pieces →
            Tells (told self.old.log) (told self.new.log) (map (whole_write port) pieces) }
        ensures capacity { vec_capacity bytes.old ≤ vec_capacity bytes.new }
        ensures failures { self.new.log.failures ≡ self.old.log.failures }
        ensures decided { decided_in self.new.log ≡ decided_in self.old.log }
        ensures script { self.new.script ≡ self.old.script }
    {
        self.log.write_pieces(port, bytes.as_slice(), size);
    }

    fn shut(&mut self, port: u64) {
        self.log.shut(port);
    }

    fn tell(&mut self, port: u64, decision: Decision) {
        self.log.decide(port, decision);
    }

    fn listens(&self) -> bool {
        false
    }
}
