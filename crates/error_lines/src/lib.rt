//! Lines to standard error that wait for nobody. A line that can't be written at once is dropped and counted, and the
//! next one that is written has before it how many were.
//!
//! What is kept and what is written is proved over any device. What a device of the system takes is in no contract.
#![tactic(auto)]

ghost use Rattle.std.specs.Prelude.{ℕ, ◌≤◌, List, length, take};
ghost use Rattle.std.specs.declared.option.Option.{Option};
ghost use Rattle.error_lines.specs.Devices.{Takes};

mod lines;
mod standard_error;

pub use lines::{ErrorLine, ErrorLines};
pub use standard_error::StandardError;

/// Where lines go.
pub trait Device {
    // All bytes that were taken, if the device tells them.
    ghost taken: { Self → Option (List ℕ) };

    /// Takes the first of these bytes, as many as it can at once, and answers how many. It does not wait.
    fn accept(&mut self, bytes: &[u8]) -> usize
        ensures bound { result ≤ length bytes.now }
        ensures bytes { Takes (taken self.old) (taken self.new) (take result bytes.now) };
}
