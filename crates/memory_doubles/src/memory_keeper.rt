//! A keeper in memory.
ghost use Rattle.std.specs.Prelude.{◌≡◌, ◌∷◌, [], IfOk, OnErr, OnOk, Some};
ghost use Rattle.sl_io.specs.Counts.{CountsFailure};
ghost use Rattle.reader_run.specs.Keeping.{Tells};
ghost use Rattle.reader_run.specs.Keeping.Deed.{Flushed as IsFlushed, Kept as IsKept};
ghost use Rattle.memory_doubles.specs.Keepers.{deed_value, told};

use reader_run::{Gathered, KeepFault, Keeper};
use sl_io::MemorySink;
use slreader::Tally;
use std::alloc::Global;

/// What a keeper in memory did.
#[derive(Drop)]
pub enum Done {
    /// These records were made to last.
    Flushed(Vec<u8>),
    /// What was counted was kept.
    Kept(Tally),
}

/// A keeper in memory, beside records in memory: it tells what was done. What is due follows a script, the last first,
/// and so does which call fails. Once there was no memory to tell of a call, it tells nothing more.
#[derive(Drop)]
pub struct MemoryKeeper {
    alloc: Global,
    due: Vec<bool>,
    failing: Vec<bool>,
    done: Vec<Done>,
    lost: bool,
    failures: u64,
}

impl MemoryKeeper {
    /// Nothing was done. Whether it is due is answered by a script, the last first, and once that is over it is not; so
    /// is whether a call fails.
    pub fn new(alloc: Global, due: Vec<bool>, failing: Vec<bool>) -> MemoryKeeper
        ensures { told result ≡ Some [] }
    {
        MemoryKeeper {
            alloc,
            due,
            failing,
            done: Vec::new(alloc),
            lost: false,
            failures: 0,
        }
    }

    /// All that was done, in order.
    pub fn done(&self) -> &[Done]
        ensures { result.now ≡ self.now.done.items }
    {
        self.done.as_slice()
    }

    // The next call fails, or doesn't. It is counted if it does.
    fn call(&mut self) -> Result<(), KeepFault>
        ensures same { told self.new ≡ told self.old }
        ensures failure { CountsFailure self.old.failures self.new.failures result }
    {
        match self.failing.pop() {
            Some(true) => {
                self.failures = self.failures.wrapping_add(1);
                Err(KeepFault)
            }
            _ => Ok(()),
        }
    }

    // One deed more.
    fn remember(&mut self, done: Done)
        ensures told { Tells (told self.old) (told self.new) (deed_value done ∷ []) }
        ensures failures { self.new.failures ≡ self.old.failures }
    {
        if self.done.push(done).is_err() {
            self.lost = true;
        }
    }
}

impl Keeper<Gathered<MemorySink>> for MemoryKeeper {
    ghost done = { λ k. told k };

    ghost failures = { λ k. k.failures };

    fn is_due(&mut self) -> bool
        ensures done { told self.new ≡ told self.old }
        ensures failures { self.new.failures ≡ self.old.failures }
    {
        match self.due.pop() {
            Some(due) => due,
            None => false,
        }
    }

    fn flush(&mut self, records: &Gathered<MemorySink>) -> Result<(), KeepFault>
        ensures done { OnOk result (Tells (told self.old) (told self.new)
            (IsFlushed (Some records.now.sink.bytes.items) ∷ [])) }
        ensures undone { OnErr result (told self.new ≡ told self.old) }
        ensures failure { CountsFailure self.old.failures self.new.failures result }
    {
        self.call()?;
        match records.sink().bytes().to_vec(self.alloc) {
            Ok(written) => self.remember(Done::Flushed(written)),
            Err(_) => self.lost = true,
        }
        Ok(())
    }

    fn keep(&mut self, tally: &Tally) -> Result<(), KeepFault>
        ensures done { OnOk result (Tells (told self.old) (told self.new) (IsKept tally.now ∷ [])) }
        ensures undone { OnErr result (told self.new ≡ told self.old) }
        ensures failure { CountsFailure self.old.failures self.new.failures result }
    {
        self.call()?;
        match tally.copy(self.alloc) {
            Ok(copy) => self.remember(Done::Kept(copy)),
            Err(_) => self.lost = true,
        }
        Ok(())
    }
}
