//! Records from a feeder, cut out of the bytes that come in any pieces, and sent on. A feed is this project's own:
//! records of 512 bytes, one after the other. No call allocates.
#![tactic(auto)]

mod cutter;
mod sending;

pub use cutter::{FeedCutter, Feeding};
pub use sending::{SendFault, send};
