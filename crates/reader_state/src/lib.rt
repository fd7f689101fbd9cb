//! The file in which a reader keeps how far it is, for one that is begun later: for each station the number and the end
//! of its last packet, and for each file that it writes how many of its records these numbers count. What the file's
//! text says, and the text that is written.
#![tactic(auto)]

mod files;
mod keeping;
mod line;
mod reading;
mod state;
mod writing;
mod wrong;

pub use keeping::{MemoryPlace, StatePlace, UnkeptState, keep_state, read_any};
pub use reading::{StateFault, read_doubled, read_state};
pub use state::KeptState;
pub use writing::write_state;
pub use wrong::wrong_line;
