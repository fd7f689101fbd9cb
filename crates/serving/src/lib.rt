//! A server that runs turn after turn, and what it asks and reports between its turns. `run` is the one function that
//! does this: the program, `serve` and `serve_block` all call it.
#![tactic(auto)]

mod activity;
mod ahead;
pub mod between;
mod faults;
pub mod laws;
mod new_server;
mod pace;
mod running;
mod timetable;

pub use activity::Activity;
pub use ahead::NumbersAhead;
pub use between::{Between, Due, NoConfiguration, NothingBetween, Refusal};
pub use faults::ServeFault;
pub use new_server::{serve, serve_between};
pub use pace::Pace;
pub use running::{run, serve_block};
pub use timetable::Timetable;
