//! What a reader leaves for one that is begun later.
//!
//! What keeps a state is a trait (`Keeper`) with a record of its deeds in order: that the records were made to last,
//! and that a tally was kept. So the order of the two is a clause (`KeepsBehind`), of a keeper in memory that tells its
//! deeds as of the program's, which tells none. The clause holds over all connections, since the loop over them
//! (`follow`) is a function over a trait too (`Servers`).
ghost use Rattle.std.specs.Prelude.{◌≡◌, ◌∷◌, [], List, ℕ, None, OnErr, OnOk};
ghost use Rattle.std.specs.declared.option.Option.{Option};
ghost use Rattle.sl_io.specs.Counts.{CountsFailure};
ghost use Rattle.reader_run.specs.Keeping.{Deed, Tells, Steps};
ghost use Rattle.reader_run.specs.Keeping.Deed.{Flushed, Kept};

use crate::record_sink::RecordSink;
use slreader::{ReaderCore, Tally};

/// Records could not be made to last, or what was counted could not be kept.
#[derive(Clone, Copy, PartialEq, Eq, Drop)]
pub struct KeepFault;

/// Where it is kept how far a reader is, for one that is begun later. It may tell what was done, in order. The count of
/// failures is a number below 2^64 that goes on at 0 after 2^64 - 1.
pub trait Keeper<P: RecordSink> {
    // All that was done, in order, if it is told.
    ghost done: { Self → Option (List Deed) };

    // How many calls failed.
    ghost failures: { Self → ℕ };

    /// Whether what was counted is to be kept now. It is asked before each read that comes after packets which are not
    /// kept yet, and may wait, so that packets which come close together are kept once.
    fn is_due(&mut self) -> bool
        ensures done { done self.new ≡ done self.old }
        ensures failures { failures self.new ≡ failures self.old };

    /// Makes all records last that were written so far.
    fn flush(&mut self, records: &P) -> Result<(), KeepFault>
        ensures done { OnOk result (Tells (done self.old) (done self.new) (Flushed (P.written records.now) ∷ [])) }
        ensures undone { OnErr result (done self.new ≡ done self.old) }
        ensures failure { CountsFailure (failures self.old) (failures self.new) result };

    /// Keeps what was counted, in place of what was kept before.
    fn keep(&mut self, tally: &Tally) -> Result<(), KeepFault>
        ensures done { OnOk result (Tells (done self.old) (done self.new) (Kept tally.now ∷ [])) }
        ensures undone { OnErr result (done self.new ≡ done self.old) }
        ensures failure { CountsFailure (failures self.old) (failures self.new) result };
}

/// Nothing is kept.
#[derive(Clone, Copy, Drop)]
pub struct NothingKept;

impl<P: RecordSink> Keeper<P> for NothingKept {
    ghost done = { λ _. None };

    ghost failures = { λ _. 0 };

    fn is_due(&mut self) -> bool {
        false
    }

    fn flush(&mut self, _records: &P) -> Result<(), KeepFault> {
        Ok(())
    }

    fn keep(&mut self, _tally: &Tally) -> Result<(), KeepFault> {
        Ok(())
    }
}

/// Makes the records last that were written so far, and only then keeps what was counted of them.
pub(crate) fn keep_behind<P: RecordSink, K: Keeper<P>>(
    core: &ReaderCore,
    records: &P,
    keeper: &mut K,
) -> Result<(), KeepFault>
    ensures kept { OnOk result (Tells (K.done keeper.old) (K.done keeper.new)
        (Flushed (P.written records.now) ∷ Kept core.now.tally ∷ [])) }
    ensures steps { Steps core.now.tally (P.written records.now) (K.done keeper.old) (K.done keeper.new) }
    ensures failure { CountsFailure (K.failures keeper.old) (K.failures keeper.new) result }
{
    keeper.flush(records)?;
    keeper.keep(core.tally())
}

/// Keeps what was counted if more was counted than was kept, and it is due. `kept` is how many packets were kept.
pub(crate) fn keep_if_due<P: RecordSink, K: Keeper<P>>(
    core: &ReaderCore,
    records: &P,
    keeper: &mut K,
    kept: &mut u64,
) -> Result<(), KeepFault>
    ensures steps { Steps core.now.tally (P.written records.now) (K.done keeper.old) (K.done keeper.new) }
    ensures failure { CountsFailure (K.failures keeper.old) (K.failures keeper.new) result }
{
    if core.records() == *kept {
        return Ok(());
    }
    if !keeper.is_due() {
        return Ok(());
    }
    keep_behind(core, records, keeper)?;
    *kept = core.records();
    Ok(())
}
