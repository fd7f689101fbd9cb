//! Patterns over the location, the channel and the type of records (SeedLink 3, SELECT).
#![tactic(auto)]

pub mod list;
pub mod pattern;
pub mod pool;

pub use list::Full;
pub use pattern::Pattern;
pub use pool::Pool;
