//! The reader's side of SeedLink 3: what a reader asks for, what it is sent, and what it makes of that, over bytes
//! alone. No call allocates, but for those that take an allocator.
#![tactic(auto)]

mod agenda;
mod came;
mod commands;
mod dialogue;
mod fault;
mod given_number;
mod given_packet;
mod going_on;
mod last_packet;
mod laws;
mod outbox;
mod packets;
mod part;
mod pieces;
mod places;
mod reader;
mod spelling;
mod stage;
mod tally;
mod want;
mod window;
mod words;

pub use came::{Came, What};
pub use fault::ReaderFault;
pub use given_packet::GivenPacket;
pub use last_packet::{LastPacket, last_at};
pub use laws::{dialogue_decided, dialogue_in_pieces, first_of_a_piece, state_goes_on};
pub use part::WantPart;
pub use reader::ReaderCore;
pub use tally::{Reached, Tally};
pub use want::{Plan, Want, WantedAction};
pub use window::Window;
