//! Moments as users read and write them: `2024-02-29T00:00:00` (ISO 8601, UTC).

mod calendar;
mod command;
mod laws;
mod written;

pub use command::command_time;
pub use laws::moments_spelled;
pub use written::{put_moment, put_seconds};
