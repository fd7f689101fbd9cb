//! The loop over ports: what comes from them and what they take is a list of events of the server.
#![tactic(auto)]

mod deciding;
mod feeding;
mod hearing;
mod passes;
pub mod seat;
pub mod seats;
mod telling;
mod turning;
mod waking;

pub use seat::{Role, Seat};
pub use turning::{Loop, LoopFault, Turned};
