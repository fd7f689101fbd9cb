//! Moments as ticks of 0.0001 s: those that records have, and those that commands spell.
#![tactic(auto)]

mod calendar;
pub mod command;
pub mod days;
mod iso;
mod parts;
pub mod ticks;

pub use command::{TimeFault, parse};
pub use days::{DayOfYear, day_of};
pub use iso::{command_time, moments_spelled, put_moment, put_seconds};
pub use ticks::{Tick, of_btime};
