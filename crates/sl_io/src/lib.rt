//! The lowest layer of input and output: readers and writers of bytes that count their failures, their calls and their
//! empty writes, and that tell their bytes where these are known. What stands above is stated over these counts and
//! bytes, so that a fault of input or output comes only with a failure.
//!
//! Readers and writers tell their bytes by an optional list, as those of std do: none where they don't tell. That a
//! read fails for want of a count of calls (2^64 - 1 of them) is a case of the contract and of no program.
#![tactic(auto)]

ghost use Rattle.std.specs.Prelude.{ℕ, List};
ghost use Rattle.std.specs.declared.option.Option.{Option};
ghost use Rattle.std.specs.Io.{ReadsAtMost, WritesAtMost};
ghost use Rattle.std.specs.Io.KnownBytes.{ReadConsumes, WriteAppends};
ghost use Rattle.sl_io.specs.Counts.{IsMore, CountsFailure, CountsEmptyWrite};

mod counts;
mod failing;
mod faults;
mod memory_sink;
mod memory_source;
mod outer;
mod whole;

pub use counts::Counts;
pub use failing::Failing;
pub use faults::{DeviceFault, ReadFault, StreamFault, WriteFault};
pub use memory_sink::MemorySink;
pub use memory_source::MemorySource;
pub use outer::Outer;
pub use whole::{read_all, write_all};

/// What bytes are read from. Its counts are numbers below 2^64 that go on at 0 after 2^64 - 1.
pub trait Source {
    // The bytes that are left to be read, where the reader tells them.
    ghost left: { Self → Option (List ℕ) };

    // How many reads failed.
    ghost failures: { Self → ℕ };

    // How many reads were made.
    ghost calls: { Self → ℕ };

    /// Reads some bytes into the beginning of the buffer, and answers how many: 0 at the end of the input, or where the
    /// buffer is empty. A failed read takes no byte.
    fn read(&mut self, buffer: &mut [u8]) -> Result<usize, DeviceFault>
        ensures bound { ReadsAtMost result buffer.new }
        ensures bytes { ReadConsumes (left self.old) (left self.new) result buffer.new }
        ensures failure { CountsFailure (failures self.old) (failures self.new) result }
        ensures call { IsMore (calls self.old) (calls self.new) 1 };
}

/// What bytes are written to. Its counts are numbers below 2^64 that go on at 0 after 2^64 - 1.
pub trait Sink {
    // The bytes that were written, where the writer tells them.
    ghost written: { Self → Option (List ℕ) };

    // How many writes failed.
    ghost failures: { Self → ℕ };

    // How many writes were made.
    ghost calls: { Self → ℕ };

    // How many writes took no byte of a slice that is not empty.
    ghost empty_writes: { Self → ℕ };

    /// Writes a beginning of the bytes, and answers how many it took. A failed write takes no byte.
    fn write(&mut self, bytes: &[u8]) -> Result<usize, DeviceFault>
        ensures bound { WritesAtMost result bytes.now }
        ensures bytes { WriteAppends (written self.old) (written self.new) result bytes.now }
        ensures failure { CountsFailure (failures self.old) (failures self.new) result }
        ensures call { IsMore (calls self.old) (calls self.new) 1 }
        ensures empty { CountsEmptyWrite (empty_writes self.old) (empty_writes self.new) result bytes.now };
}
