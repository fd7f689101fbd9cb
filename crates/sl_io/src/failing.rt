//! Readers and writers of which one call fails.
//!
//! A failure is tried at each place by readers, writers and ports that pass all calls on but one, which fails and
//! reaches nothing. They count for themselves, since the one below never saw that call.
ghost use Rattle.std.specs.Prelude.{◌≡◌, ◌==◌, ◌+◌, ◌-◌, ◌%◌, ◌^◌};

use crate::Counts;

mod reading;
mod writing;

/// A reader or writer of which one call fails and reaches nothing. All others are passed on. Its counts are its own,
/// and its bytes those that the inner value tells. It serves to try what comes of a failure at each place.
#[derive(Drop)]
pub struct Failing<T> {
    inner: T,
    /// How many calls there are up to the one that fails, with it; 0 once it was made, or where none fails.
    due: u64,
    failures: u64,
    calls: u64,
    empty_writes: u64,
}

impl<T> Failing<T> {
    /// What is read from or written to `inner`, with the `due`-th call failing, from 1 on. With 0 none fails for that.
    pub fn new(inner: T, due: u64) -> Failing<T>
        ensures inner { result.inner ≡ inner }
        ensures due { result.due ≡ due }
        ensures failures { result.failures ≡ 0 }
        ensures calls { result.calls ≡ 0 }
        ensures empty_writes { result.empty_writes ≡ 0 }
    {
        Failing {
            inner,
            due,
            failures: 0,
            calls: 0,
            empty_writes: 0,
        }
    }

    /// The reader or writer below.
    pub fn into_inner(self) -> T
        ensures { result ≡ self.inner }
    {
        self.inner
    }

    /// Whether the call that is to fail was made, or none is to.
    pub fn has_failed(&self) -> bool
        ensures { result ≡ (self.now.due == 0) }
    {
        self.due == 0
    }

    /// How many reads and writes were made, how many of them failed, and how many writes were empty ones.
    pub fn counts(&self) -> Counts
        ensures { result ≡ record {
          failures = self.now.failures;
          calls = self.now.calls;
          empty_writes = self.now.empty_writes;
        } }
    {
        Counts {
            failures: self.failures,
            calls: self.calls,
            empty_writes: self.empty_writes,
        }
    }

    // One call more. Whether it is the one that fails.
    fn count_call(&mut self) -> bool
        ensures fails { result ≡ (self.old.due == 1) }
        ensures counted { self.new ≡ record self.old { due = self.old.due - 1; calls = (self.old.calls + 1) % 2 ^ 64 } }
    {
        let fails = self.due == 1;
        self.due = self.due.saturating_sub(1);
        self.calls = self.calls.wrapping_add(1);
        fails
    }

    // One failure more.
    fn count_failure(&mut self)
        ensures { self.new ≡ record self.old { failures = (self.old.failures + 1) % 2 ^ 64 } }
    {
        self.failures = self.failures.wrapping_add(1);
    }
}
