//! What is counted of a reader or writer.

/// What a reader or writer counts of its calls, each count modulo 2^64.
#[derive(Clone, Copy, Drop)]
pub struct Counts {
    /// Calls that failed.
    pub failures: u64,
    /// All calls.
    pub calls: u64,
    /// Writes that took no byte of a slice that is not empty.
    pub empty_writes: u64,
}
