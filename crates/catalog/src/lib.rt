//! The configuration of a server, and what one address sees of it (SeedLink 3, CAT and STATION; seedlink's `access`).
#![tactic(auto)]

pub mod changes;
mod codes;
mod comparing;
pub mod config;
pub mod error;
pub mod fault;
pub mod groups;
mod index;
pub mod keys;
pub mod listing;
pub mod numbers;
pub mod settings;
pub mod station;
mod texts;
pub mod view;

pub use changes::Changes;
pub use config::Config;
pub use error::{ConfigError, Step};
pub use fault::ConfigFault;
pub use groups::Groups;
pub use numbers::KeptNumber;
pub use settings::StationStep;
pub use station::Station;
pub use view::View;
