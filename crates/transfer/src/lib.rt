//! Transfers: from which arrival on each request wants records, which record comes next, and when all was sent
//! (SeedLink 3, DATA, FETCH and TIME). No call takes memory.
#![tactic(auto)]

mod choosing;
mod cursors;
mod filters;
mod handing;
mod overview;
mod reaching;
mod runs;
mod searching;
mod sleeping;
mod starting;
mod wanting;

pub use choosing::{Chosen, choose, finds};
pub use cursors::cursor;
pub use handing::{Handing, choose_into};
pub use sleeping::{sleeping_goes_on, sleeping_is_idle};
pub use starting::start;
