//! The jobs that try files without a server: `check` of records, `view` of a configuration and `replay` of a script.
//! It does not know what a line of a listing says, nor how an event is answered.
#![tactic(auto)]

mod checking;
mod comparing;
mod folders;
mod names;
mod replay_fault;
mod replaying;
mod viewing;

pub use checking::check_files;
pub use comparing::list_changes;
pub use replay_fault::ReplayFault;
pub use replaying::{ReplayStyle, replay, replay_files};
pub use viewing::{list_holders, list_seen, list_station, view_file};
