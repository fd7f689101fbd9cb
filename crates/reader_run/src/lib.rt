//! A reader over a connection: what it asks is written, what comes is read, and each packet is a line of a listing.
#![tactic(auto)]

mod fault;
mod following;
mod gathered;
mod keeping;
mod nowhere;
mod output;
mod packet_lines;
mod pieces;
mod reading;
mod record_sink;
mod servers;
mod texts;

pub use fault::ListingFault;
pub use following::{Break, follow};
pub use gathered::Gathered;
pub use keeping::{KeepFault, Keeper, NothingKept};
pub use nowhere::Nowhere;
pub use packet_lines::PacketLines;
pub use reading::{read_further, read_over};
pub use record_check::Times;
pub use record_sink::{RecordSink, SinkFault};
pub use servers::Servers;
