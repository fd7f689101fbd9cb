//! What a server's status port answers: pages and lists of a plain value, and nothing of servers or sockets. Each is a
//! template: its own text stands as it is, and what the value has at a place of it stands there escaped.
#![tactic(auto)]

mod answers;
mod escape;
mod host;
mod json;
pub mod laws;
mod metrics;
mod page;
mod place;
mod plain;
mod request;
mod template;
mod texts;
mod value;

pub use answers::{Templates, all_templates, write_answer, write_body, write_refusal};
pub use request::{StatusRequest, Target, request_in};
pub use value::{
    ClientStatus, LastRecord, NamedCount, StationState, StationStatus, StatusValue, TurnBucket,
    TurnTimes, is_any_silent,
};
