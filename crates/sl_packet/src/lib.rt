//! Sequence numbers and packets: `SL`, six hexadecimal digits and a record of 512 bytes (SeedLink 3, data packets). No
//! call takes memory.
#![tactic(auto)]

mod cutter;
mod packets;
pub mod sequence;
mod unfinished;

pub use cutter::{Cut, Fed, NotAPacket, PacketCutter};
pub use packets::{PACKET, frame, header};
pub use sequence::Seq;
pub use unfinished::Unfinished;
