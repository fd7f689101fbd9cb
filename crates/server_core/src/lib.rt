//! The server: its clients and what is handed to them.
#![tactic(auto)]

mod arrivals;
pub mod client;
mod clients;
pub mod events;
mod filling;
mod marks;
mod reviewing;
pub mod server;
mod slots;

pub use arrivals::ArriveFault;
pub use client::{Client, Filled, Gone, Offer, ReceiveRefusal, ReloadFault};
pub use events::{Event, Handed, run};
pub use server::Server;
