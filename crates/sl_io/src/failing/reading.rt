//! Reads of which one fails.
ghost use Rattle.std.specs.Prelude.{◌≡◌, ◌≢◌, ◌-◌, IsErr};
ghost use Rattle.std.specs.Io.{ReadsAtMost};
ghost use Rattle.std.specs.Io.KnownBytes.{ReadConsumes};
ghost use Rattle.sl_io.specs.Counts.{IsMore, CountsFailure};

use crate::{DeviceFault, Failing, Source};

impl<T: Source> Source for Failing<T> {
    ghost left = { λ s. T.left s.inner };

    ghost failures = { λ s. s.failures };

    ghost calls = { λ s. s.calls };

    fn read(&mut self, buffer: &mut [u8]) -> Result<usize, DeviceFault>
        ensures bound { ReadsAtMost result buffer.new }
        ensures bytes { ReadConsumes (T.left self.old.inner) (T.left self.new.inner) result buffer.new }
        ensures failure { CountsFailure self.old.failures self.new.failures result }
        ensures call { IsMore self.old.calls self.new.calls 1 }
        ensures fails { self.old.due ≡ 1 → IsErr result }
        ensures reaches_nothing { self.old.due ≡ 1 → self.new.inner ≡ self.old.inner }
        ensures passed_on { self.old.due ≢ 1 →
            ReadConsumes (T.left self.old.inner) (T.left self.new.inner) result buffer.new
            × CountsFailure (T.failures self.old.inner) (T.failures self.new.inner) result
            × IsMore (T.calls self.old.inner) (T.calls self.new.inner) 1 }
        ensures due { self.new.due ≡ self.old.due - 1 }
    {
        if self.count_call() {
            self.count_failure();
            return Err(DeviceFault);
        }
        match self.inner.read(buffer) {
            Ok(count) => Ok(count),
            Err(DeviceFault) => {
                self.count_failure();
                Err(DeviceFault)
            }
        }
    }
}
