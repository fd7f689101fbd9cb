//! Ports over sockets: clients and feeds that connect over TCP, by `mio`.
//!
//! What is written to a port is gathered and goes out in large pieces, and feeds are read ahead, so that a loop that
//! handles one packet and one record at a time makes few system calls. How many ports join and how much a client gives
//! between two polls is limited, so that no client keeps the others waiting. What sockets carry is in no contract.
#![tactic(auto)]

mod admission;
mod ahead;
mod connection;
mod connections;
mod departures;
mod fault;
mod hosts;
mod inflow;
mod joins;
mod kept_connection;
mod lingering;
mod listeners;
mod mio_ports;
mod peer;
mod peers;
mod polling;
mod pool;
mod readiness;
mod socket_io;
mod sockets;

pub use admission::Admission;
pub use fault::{ListenError, ListenFault};
pub use mio_ports::MioPorts;
