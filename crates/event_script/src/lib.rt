//! Scripts: the events that the lines of a text spell, the lines of what takes are handed, and the dialogue of both.
#![tactic(auto)]

mod arrive;
mod cuts;
mod dialogue;
mod events;
mod fault;
mod line;
mod numbers;
mod output;
mod reload;
mod spelling;

pub use dialogue::dialogue_of;
pub use events::{events_of, lines_by_the_table};
pub use fault::{ScriptError, ScriptFault};
pub use output::output_of;
