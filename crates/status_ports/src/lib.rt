//! The status port: a few connections at a time, each asked once and answered once, looked at between the turns of a
//! server. No call waits. Each text is made at most once a second, whoever asks, and what a slow connection doesn't take
//! waits in its own buffer, until five seconds after it began. The buffers are kept for the connections that follow.
#![tactic(auto)]

mod door;
mod exchange;
mod kept;
mod places;
mod ports;
mod slot;

pub use door::may_ask;
pub use exchange::Exchange;
pub use kept::{KeptText, KeptTexts};
pub use ports::{Asked, StatusPorts};
