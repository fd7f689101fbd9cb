//! Readers and writers of the outer world.
ghost use Rattle.std.specs.Prelude.{◌≡◌};

use crate::Counts;

mod reading;
mod writing;

/// A reader or writer of std's, whose failures, calls and empty writes are counted. It tells the bytes that the inner
/// value tells.
#[derive(Drop)]
pub struct Outer<T> {
    inner: T,
    failures: u64,
    calls: u64,
    empty_writes: u64,
}

impl<T> Outer<T> {
    /// Counts from 0 on what is read from or written to `inner`.
    pub fn new(inner: T) -> Outer<T>
        ensures inner { result.inner ≡ inner }
        ensures failures { result.failures ≡ 0 }
        ensures calls { result.calls ≡ 0 }
        ensures empty_writes { result.empty_writes ≡ 0 }
    {
        Outer {
            inner,
            failures: 0,
            calls: 0,
            empty_writes: 0,
        }
    }

    /// The reader or writer that was counted.
    pub fn into_inner(self) -> T
        ensures { result ≡ self.inner }
    {
        self.inner
    }

    /// How many reads and writes were made, how many of them failed, and how many writes were empty ones.
    pub fn counts(&self) -> Counts
        ensures { result ≡ record {
          failures = self.now.failures;
          calls = self.now.calls;
          empty_writes = self.now.empty_writes;
        } }
    {
        Counts {
            failures: self.failures,
            calls: self.calls,
            empty_writes: self.empty_writes,
        }
    }
}
