//! Ports: where clients and feeds join, what comes from them and what they take. A loop over a server is stated over
//! this trait alone, so that it is the same over memory and over sockets. Ports may tell all calls with their answers:
//! those in memory do.
#![tactic(auto)]

ghost use Rattle.std.specs.Prelude.{ℕ, ◌≡◌, ◌<◌, ◌≤◌, Bool, List, [], ◌∷◌, length, map};
ghost use Rattle.std.specs.List.{All, concat};
ghost use Rattle.std.specs.Vec.{vec_capacity};
ghost use Rattle.std.specs.declared.option.Option.{Option};
ghost use Rattle.sl_io.specs.Counts.{CountsFailure};
ghost use Rattle.ports.specs.Calls.{Call, Tells, given, whole_write, IsGiven, IsTaken};
ghost use Rattle.ports.specs.Calls.Call.{Next, Read, Write, Shut};
ghost use Rattle.ports.specs.Decisions.{Decides};
ghost use Rattle.ports.specs.declared.decisions.Decision.{Decision as DecisionValue};

mod answers;
mod decisions;
mod present;

pub use answers::{Got, Happening, PortFault, Put};
pub use decisions::{
    AskedCodes, AwayReason, Decision, Ending, Mode, Party, RecordCodes, RecordRefusal,
};
pub use present::PresentClient;

/// Where clients and feeds join, each at a port of its own number. No port joins twice. The count of failures is a
/// number below 2^64 that goes on at 0 after 2^64 - 1: a call fails only with one failure more.
pub trait Ports {
    // All calls and their answers, if the ports tell them.
    ghost calls: { Self → Option (List Call) };

    // How many calls failed.
    ghost failures: { Self → ℕ };

    // What was decided of which port, if the ports tell it.
    ghost decided: { Self → Option (List (ℕ × DecisionValue)) };

    // How many bytes a port is sure to take by the next call of `write_pieces`.
    ghost room: { Self → ℕ → ℕ };

    // Whether anybody hears what is said of a client's negotiation.
    ghost listening: { Self → Bool };

    /// What happened next.
    fn next(&mut self) -> Result<Happening, PortFault>
        ensures call { Tells (calls self.old) (calls self.new) (Next result ∷ []) }
        ensures failure { CountsFailure (failures self.old) (failures self.new) result }
        ensures decided { decided self.new ≡ decided self.old };

    /// Reads some bytes of a port into the beginning of the buffer, which is not empty.
    fn read(&mut self, port: u64, buffer: &mut [u8]) -> Result<Got, PortFault>
        requires { 0 < length buffer.old }
        ensures bound { IsGiven result (length buffer.new) }
        ensures call { Tells (calls self.old) (calls self.new)
            (Read port (length buffer.new) (given result buffer.new) ∷ []) }
        ensures failure { CountsFailure (failures self.old) (failures self.new) result }
        ensures decided { decided self.new ≡ decided self.old };

    /// Hands a beginning of the bytes, of which there is at least one, to a port.
    fn write(&mut self, port: u64, bytes: &[u8]) -> Result<Put, PortFault>
        requires { 0 < length bytes.now }
        ensures bound { IsTaken result (length bytes.now) }
        ensures call { Tells (calls self.old) (calls self.new) (Write port bytes.now result ∷ []) }
        ensures failure { CountsFailure (failures self.old) (failures self.new) result }
        ensures decided { decided self.new ≡ decided self.old };

    /// Makes room for bytes at a port, as far as it can, and says for how many there is room then: 0 to `most`. No byte
    /// is taken.
    fn make_room(&mut self, port: u64, most: usize) -> usize
        ensures room { result ≤ room self.new port }
        ensures most { result ≤ most }
        ensures calls { calls self.new ≡ calls self.old }
        ensures failures { failures self.new ≡ failures self.old }
        ensures decided { decided self.new ≡ decided self.old };

    /// Hands pieces of so many bytes each to a port that has room for all of them. Each is a write of its own, which
    /// takes all of it. The port may keep the buffer that they are in, and give another one of at least the same
    /// capacity for it: what stands in that is not said.
    fn write_pieces(&mut self, port: u64, bytes: &mut Vec<u8>, size: usize)
        requires room { length bytes.old.items ≤ room self.old port }
        requires size { 0 < size }
        ensures call { (pieces : List (List ℕ)) → bytes.old.items ≡ concat pieces →
            All (λ p. length p ≡ size) pieces →
            Tells (calls self.old) (calls self.new) (map (whole_write port) pieces) }
        ensures capacity { vec_capacity bytes.old ≤ vec_capacity bytes.new }
        ensures failures { failures self.new ≡ failures self.old }
        ensures decided { decided self.new ≡ decided self.old };

    /// Ends a port.
    fn shut(&mut self, port: u64)
        ensures call { Tells (calls self.old) (calls self.new) (Shut port ∷ []) }
        ensures failures { failures self.new ≡ failures self.old }
        ensures decided { decided self.new ≡ decided self.old };

    /// Whoever runs the ports says what it decided of one. That is no call of theirs: nothing comes of it but what they
    /// note.
    fn tell(&mut self, port: u64, decision: Decision)
        ensures calls { calls self.new ≡ calls self.old }
        ensures failures { failures self.new ≡ failures self.old }
        ensures decides { Decides (decided self.old) (decided self.new) ((port, decision) ∷ []) };

    /// Whether anybody hears what is said of a client's negotiation (NoStation, Reads, Begins). If nobody does, it need
    /// not be said.
    fn listens(&self) -> bool
        ensures { result ≡ listening self.now };

    /// The client at a port, if one is there and the ports follow who is. Those that follow nobody know none.
    fn present(&self, _port: u64) -> Option<PresentClient> {
        None
    }
}
