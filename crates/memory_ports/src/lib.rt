//! Ports in memory, for tests: they follow a script, and tell every call that was made.
#![tactic(auto)]

mod failing_ports;
mod memory_ports;

pub use failing_ports::FailingPorts;
pub use memory_ports::{
    Decided, Gave, Made, MemoryPorts, PortRecord, PortScript, ReadAnswer, Script, WriteAnswer,
};
