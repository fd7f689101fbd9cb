//! Calls that were made.
ghost use Rattle.std.specs.Prelude.{◌≡◌, ◌<◌, ℕ, IfOk, IsErr, IsSome, OnOk, Some, None, List, [], ◌∷◌, length, map};
ghost use Rattle.std.specs.List.{All, concat};
ghost use Rattle.sl_io.specs.Counts.{CountsFailure, IsMore};
ghost use Rattle.ports.specs.Calls.{Tells, given, whole_write, IsGiven, IsTaken};
ghost use Rattle.ports.specs.Calls.Call.{Next, Read, Write, Shut};
ghost use Rattle.ports.specs.Decisions.{Decides};
ghost use Rattle.memory_ports.specs.Made.{decided_in, gave_value, told};

use ports::{Decision, Got, Happening, PortFault, Put};
use std::alloc::{AllocError, Global};

/// What a read gave.
#[derive(Drop)]
pub enum Gave {
    Piece(Vec<u8>),
    Nothing,
    TheEnd,
    Failure,
}

/// A call that was made, and its answer.
#[derive(Drop)]
pub enum Made {
    Next(Result<Happening, PortFault>),
    /// Of a port, at most so many bytes.
    Read(u64, usize, Gave),
    /// To a port, these bytes.
    Write(u64, Vec<u8>, Result<Put, PortFault>),
    Shut(u64),
}

/// What was decided of a port.
#[derive(Clone, Copy, Drop)]
pub struct Decided {
    pub port: u64,
    pub decision: Decision,
}

/// All calls that were made, and all that was decided.
#[derive(Drop)]
pub struct Log {
    alloc: Global,
    made: Vec<Made>,
    /// There was no memory for a call.
    lost: bool,
    pub failures: u64,
    decided: Vec<Decided>,
    /// There was no memory for a decision.
    is_undecided: bool,
}

fn kept_answer(
    alloc: Global,
    buffer: &[u8],
    answer: Result<Got, PortFault>,
) -> Result<Gave, AllocError>
    requires { IsGiven answer (length buffer.now) }
    ensures { IfOk result (λ g. gave_value g ≡ given answer buffer.now) }
{
    match answer {
        Ok(Got::Bytes(count)) => Ok(Gave::Piece(buffer[..count].to_vec(alloc)?)),
        Ok(Got::Later) => Ok(Gave::Nothing),
        Ok(Got::Closed) => Ok(Gave::TheEnd),
        Err(PortFault) => Ok(Gave::Failure),
    }
}

impl Log {
    pub fn new(alloc: Global) -> Log
        ensures { told result ≡ Some [] }
    {
        Log {
            alloc,
            made: Vec::new(alloc),
            lost: false,
            failures: 0,
            decided: Vec::new(alloc),
            is_undecided: false,
        }
    }

    /// What was decided of ports, in order.
    pub fn decided(&self) -> &[Decided]
        ensures { result.now ≡ self.now.decided.items }
    {
        self.decided.as_slice()
    }

    /// Keeps a decision.
    pub fn decide(&mut self, port: u64, decision: Decision)
        ensures calls { told self.new ≡ told self.old }
        ensures failures { self.new.failures ≡ self.old.failures }
        ensures decides { Decides (decided_in self.old) (decided_in self.new) ((port, decision) ∷ []) }
    {
        if self.decided.push(Decided { port, decision }).is_err() {
            self.is_undecided = true;
        }
    }

    /// The calls that were kept.
    pub fn made(&self) -> &[Made]
        ensures { result.now ≡ self.now.made.items }
    {
        self.made.as_slice()
    }

    // A call for which there was no memory.
    fn lose(&mut self)
        ensures lost { told self.new ≡ None }
        ensures failures { IsMore self.old.failures self.new.failures 1 }
        ensures decided { decided_in self.new ≡ decided_in self.old }
    {
        self.lost = true;
        self.failures = self.failures.wrapping_add(1);
    }

    fn fail(&mut self)
        ensures same { told self.new ≡ told self.old }
        ensures failures { IsMore self.old.failures self.new.failures 1 }
        ensures decided { decided_in self.new ≡ decided_in self.old }
    {
        self.failures = self.failures.wrapping_add(1);
    }

    pub fn next(&mut self, answer: Result<Happening, PortFault>) -> Result<Happening, PortFault>
        ensures call { Tells (told self.old) (told self.new) (Next result ∷ []) }
        ensures failure { CountsFailure self.old.failures self.new.failures result }
        ensures answer { IsSome (told self.new) → result ≡ answer }
        ensures failed { IsErr answer → IsErr result }
        ensures telling { OnOk result (IsSome (told self.old) → IsSome (told self.new)) }
        ensures decided { decided_in self.new ≡ decided_in self.old }
    {
        if self.made.push(Made::Next(answer)).is_err() {
            self.lose();
            return Err(PortFault);
        }
        if answer.is_err() {
            self.fail();
        }
        answer
    }

    pub fn read(
        &mut self,
        port: u64,
        buffer: &[u8],
        answer: Result<Got, PortFault>,
    ) -> Result<Got, PortFault>
        requires { IsGiven answer (length buffer.now) }
        ensures bound { IsGiven result (length buffer.now) }
        ensures call { Tells (told self.old) (told self.new)
            (Read port (length buffer.now) (given result buffer.now) ∷ []) }
        ensures failure { CountsFailure self.old.failures self.new.failures result }
        ensures answer { IsSome (told self.new) → result ≡ answer }
        ensures failed { IsErr answer → IsErr result }
        ensures telling { OnOk result (IsSome (told self.old) → IsSome (told self.new)) }
        ensures decided { decided_in self.new ≡ decided_in self.old }
    {
        let Ok(gave) = kept_answer(self.alloc, buffer, answer) else {
            self.lose();
            return Err(PortFault);
        };
        if self
            .made
            .push(Made::Read(port, buffer.len(), gave))
            .is_err()
        {
            self.lose();
            return Err(PortFault);
        }
        if answer.is_err() {
            self.fail();
        }
        answer
    }

    pub fn write(
        &mut self,
        port: u64,
        bytes: &[u8],
        answer: Result<Put, PortFault>,
    ) -> Result<Put, PortFault>
        requires { IsTaken answer (length bytes.now) }
        ensures bound { IsTaken result (length bytes.now) }
        ensures call { Tells (told self.old) (told self.new) (Write port bytes.now result ∷ []) }
        ensures failure { CountsFailure self.old.failures self.new.failures result }
        ensures answer { IsSome (told self.new) → result ≡ answer }
        ensures failed { IsErr answer → IsErr result }
        ensures telling { OnOk result (IsSome (told self.old) → IsSome (told self.new)) }
        ensures decided { decided_in self.new ≡ decided_in self.old }
    {
        let Ok(copy) = bytes.to_vec(self.alloc) else {
            self.lose();
            return Err(PortFault);
        };
        if self.made.push(Made::Write(port, copy, answer)).is_err() {
            self.lose();
            return Err(PortFault);
        }
        if answer.is_err() {
            self.fail();
        }
        answer
    }

    // Keeps a piece that was taken whole.
    fn write_whole(&mut self, port: u64, piece: &[u8])
        ensures call { Tells (told self.old) (told self.new) (whole_write port piece.now ∷ []) }
        ensures failures { self.new.failures ≡ self.old.failures }
        ensures decided { decided_in self.new ≡ decided_in self.old }
    {
        let is_kept = match piece.to_vec(self.alloc) {
            Ok(copy) => {
                let whole = Ok(Put::Took(piece.len()));
                self.made.push(Made::Write(port, copy, whole)).is_ok()
            }
            Err(_) => false,
        };
        self.lost = self.lost || !is_kept;
    }

    /// Keeps pieces of so many bytes each, which were taken whole. That fails no call: if there is no memory for one,
    /// the calls aren't told any more.
    pub fn write_pieces(&mut self, port: u64, bytes: &[u8], size: usize)
        requires size { 0 < size }
        ensures call { (pieces : List (List ℕ)) → bytes.now ≡ concat pieces → All (λ p. length p ≡ size) pieces →
            Tells (told self.old) (told self.new) (map (whole_write port) pieces) }
        ensures failures { self.new.failures ≡ self.old.failures }
        ensures decided { decided_in self.new ≡ decided_in self.old }
    {
        if bytes.len() < size {
            return;
        }
        let (piece, rest) = bytes.split_at(size);
        self.write_whole(port, piece);
        self.write_pieces(port, rest, size);
    }

    pub fn shut(&mut self, port: u64)
        ensures call { Tells (told self.old) (told self.new) (Shut port ∷ []) }
        ensures failures { self.new.failures ≡ self.old.failures }
        ensures decided { decided_in self.new ≡ decided_in self.old }
    {
        if self.made.push(Made::Shut(port)).is_err() {
            self.lost = true;
        }
    }
}
