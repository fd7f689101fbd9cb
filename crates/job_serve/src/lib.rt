//! The job `serve`: a server over sockets, whom it takes, which file of numbers it keeps, and what it asks and tells
//! between its turns. It does not know how a client is answered.
#![tactic(auto)]

mod admitting;
mod asked;
mod counts;
mod descriptors;
mod in_force;
mod listening;
mod numbers;
mod numbers_fault;
mod opening;
mod operator;
mod refusals;
mod sockets;
mod spare;
mod starting;
mod status;
mod timetable;
mod told_once;
mod visits;

pub use operator::ServeRequest;
pub use sockets::serve_sockets;
