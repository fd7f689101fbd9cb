//! Writes of which one fails.
ghost use Rattle.std.specs.Prelude.{◌≡◌, ◌≢◌, ◌-◌, IsErr};
ghost use Rattle.std.specs.Io.{WritesAtMost};
ghost use Rattle.std.specs.Io.KnownBytes.{WriteAppends};
ghost use Rattle.sl_io.specs.Counts.{IsMore, CountsFailure, CountsEmptyWrite};

use crate::{DeviceFault, Failing, Sink};

impl<T: Sink> Sink for Failing<T> {
    ghost written = { λ s. T.written s.inner };

    ghost failures = { λ s. s.failures };

    ghost calls = { λ s. s.calls };

    ghost empty_writes = { λ s. s.empty_writes };

    fn write(&mut self, bytes: &[u8]) -> Result<usize, DeviceFault>
        ensures bound { WritesAtMost result bytes.now }
        ensures bytes { WriteAppends (T.written self.old.inner) (T.written self.new.inner) result bytes.now }
        ensures failure { CountsFailure self.old.failures self.new.failures result }
        ensures call { IsMore self.old.calls self.new.calls 1 }
        ensures empty { CountsEmptyWrite self.old.empty_writes self.new.empty_writes result bytes.now }
        ensures fails { self.old.due ≡ 1 → IsErr result }
        ensures reaches_nothing { self.old.due ≡ 1 → self.new.inner ≡ self.old.inner }
        ensures passed_on { self.old.due ≢ 1 →
            WriteAppends (T.written self.old.inner) (T.written self.new.inner) result bytes.now
            × CountsFailure (T.failures self.old.inner) (T.failures self.new.inner) result
            × CountsEmptyWrite (T.empty_writes self.old.inner) (T.empty_writes self.new.inner) result bytes.now
            × IsMore (T.calls self.old.inner) (T.calls self.new.inner) 1 }
        ensures due { self.new.due ≡ self.old.due - 1 }
    {
        if self.count_call() {
            self.count_failure();
            return Err(DeviceFault);
        }
        match self.inner.write(bytes) {
            Ok(count) => {
                if count == 0 && !bytes.is_empty() {
                    self.empty_writes = self.empty_writes.wrapping_add(1);
                }
                Ok(count)
            }
            Err(DeviceFault) => {
                self.count_failure();
                Err(DeviceFault)
            }
        }
    }
}
