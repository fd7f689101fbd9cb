//! What a client writes: lines out of its bytes, and commands out of lines (SeedLink 3, commands).
#![tactic(auto)]

pub mod actions;
mod commands;
mod lines;
mod parsing;

pub use actions::Action;
pub use commands::Command;
pub use lines::{Line, LineCutter};
pub use parsing::command;
