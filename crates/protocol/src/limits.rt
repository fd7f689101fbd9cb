//! Numbers that several crates have to agree on.

/// The length of a data record, in bytes (SeedLink 3, data packets).
pub const RECORD: usize = 512;

/// How many connections of feeds may be open at once. One more is turned away.
pub const FEEDS: usize = 16;
