//! What is told of a running server: when each station last sent, how many records came in each of the last minutes,
//! who follows it, how far behind each client is and how many bytes it was sent, and how long turns take. It knows no
//! clock and no socket: it is given the time, and the server is lent to it.
#![tactic(auto)]

mod arrivals;
mod behind;
mod minutes;
pub mod turns;
mod watch;

pub use arrivals::Arrivals;
pub use behind::behind_of;
pub use turns::Turns;
pub use watch::{Listed, Told, Watch};
