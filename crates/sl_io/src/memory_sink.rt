//! A writer into memory.
ghost use Rattle.std.specs.Prelude.{◌≡◌, ◌<◌, ◌^◌, ◌-◌, [], IfOk, Some, min, length};
ghost use Rattle.std.specs.Io.{WritesAtMost};
ghost use Rattle.std.specs.Io.KnownBytes.{WriteAppends};
ghost use Rattle.sl_io.specs.Counts.{IsMore, CountsFailure, CountsEmptyWrite};

use crate::{Counts, DeviceFault, Sink};
use std::alloc::Global;

/// A writer into memory. It takes at most `most` bytes a call, and tells its bytes. A write for which there is no
/// memory fails.
#[derive(Drop)]
pub struct MemorySink {
    bytes: Vec<u8>,
    most: usize,
    failures: u64,
    calls: u64,
    ghost some: { 0 < most },
}

impl MemorySink {
    /// Holds no bytes, and takes all that it is given.
    pub fn new(alloc: Global) -> MemorySink
        ensures bytes { result.bytes.items ≡ [] }
        ensures most { result.most ≡ 2 ^ 64 - 1 }
        ensures counts { (result.failures ≡ 0) × (result.calls ≡ 0) }
    {
        MemorySink::in_pieces(alloc, usize::MAX)
    }

    /// Holds no bytes, and takes at most `most` a call.
    pub fn in_pieces(alloc: Global, most: usize) -> MemorySink
        requires { 0 < most }
        ensures bytes { result.bytes.items ≡ [] }
        ensures most { result.most ≡ most }
        ensures counts { (result.failures ≡ 0) × (result.calls ≡ 0) }
    {
        MemorySink {
            bytes: Vec::new(alloc),
            most,
            failures: 0,
            calls: 0,
        }
    }

    /// The bytes that were written.
    pub fn bytes(&self) -> &[u8]
        ensures { result.now ≡ self.now.bytes.items }
    {
        self.bytes.as_slice()
    }

    /// The bytes that were written, by value.
    pub fn into_bytes(self) -> Vec<u8>
        ensures { result.items ≡ self.bytes.items }
    {
        self.bytes
    }

    /// How many writes were made, and how many failed. No write is an empty one.
    pub fn counts(&self) -> Counts
        ensures { result ≡ record { failures = self.now.failures; calls = self.now.calls; empty_writes = 0 } }
    {
        Counts {
            failures: self.failures,
            calls: self.calls,
            empty_writes: 0,
        }
    }
}

impl Sink for MemorySink {
    ghost written = { λ s. Some s.bytes.items };

    ghost failures = { λ s. s.failures };

    ghost calls = { λ s. s.calls };

    ghost empty_writes = { λ _. 0 };

    fn write(&mut self, bytes: &[u8]) -> Result<usize, DeviceFault>
        ensures bound { WritesAtMost result bytes.now }
        ensures bytes { WriteAppends (Some self.old.bytes.items) (Some self.new.bytes.items) result bytes.now }
        ensures failure { CountsFailure self.old.failures self.new.failures result }
        ensures call { IsMore self.old.calls self.new.calls 1 }
        ensures empty { CountsEmptyWrite 0 0 result bytes.now }
        ensures count { IfOk result (λ n. n ≡ min (length bytes.now) self.old.most) }
        ensures most { self.new.most ≡ self.old.most }
    {
        self.calls = self.calls.wrapping_add(1);
        let count = bytes.len().min(self.most);
        match self.bytes.extend_from_slice(&bytes[..count]) {
            Ok(()) => Ok(count),
            Err(_) => {
                self.failures = self.failures.wrapping_add(1);
                Err(DeviceFault)
            }
        }
    }
}
