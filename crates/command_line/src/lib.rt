//! The command line of `seedlinkd`: which job its words ask for, or why they ask for none.
#![tactic(auto)]

mod amounts;
mod argument;
mod commands;
mod faults;
mod job;
mod mistakes;
mod tables;
mod words;

pub use commands::VERSION;
pub use job::{
    CheckOptions, FeedOptions, Job, ReadOptions, Request, ServeOptions, ViewOptions, WordsFault,
};
pub use words::read_words;
