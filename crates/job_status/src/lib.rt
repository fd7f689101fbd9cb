//! The job `status`: how a server stands, as its status port tells it, in columns on the standard output. It does not
//! know what the columns mean.
//!
//! The port is asked for `/plain`, or for `/plain?state=silent`: tables whose columns are separated by tabs. What it
//! sends is text of another program, so bytes that control a terminal are shown as `?`. Each wait for the port is
//! limited, and so is how much is taken.
#![tactic(auto)]

mod answer;
mod asking;
mod columns;
mod reds;
mod status_fault;
mod telling;

pub use answer::{Answer, answer_in};
pub use asking::Stations;
pub use columns::laid_out;
pub use telling::tell_status;
