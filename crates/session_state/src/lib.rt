//! One client's side of the server: what it negotiated, which bytes of it are read, and what waits to be handed to it
//! (SeedLink 3, the dialogue in uni-station and multi-station mode).
//!
//! A session knows stations by their places in the configuration, and no record. Where a transfer is asked for it stops
//! reading, until it is told from which arrival on each request wants records.
#![tactic(auto)]

pub mod choices;
mod kept_action;
mod named;
mod negotiation;
pub mod news;
mod order;
mod refusals;
pub mod session;
mod waiting;

pub use choices::{Cursor, Entry, First};
pub use kept_action::KeptAction;
pub use news::{AskedStation, News};
pub use refusals::NoRoom;
pub use session::{Session, Settled, State};
pub use sl_lines::Action;
