//! The records that a server holds: of each station the last ones that came, each with its place and its number
//! (SeedLink 3, sequence numbers), and those of all stations by the history of what arrived.
//!
//! A station's ring holds the last of its arrivals. The stamp of a held record is its position in the history: the
//! count of the arrivals, at whatever station, that came before it. Only making rings takes memory.
#![tactic(auto)]

pub mod held;
pub mod laws;
mod records;
pub mod ring;
pub mod rings;
mod streams;

pub use held::{Brief, Briefs, Held, Stream, Summary};
pub use laws::{arrivals_by_place, held_in_the_ring, last_pushes_held, places_found};
pub use ring::Ring;
pub use rings::Rings;
