//! What is listed of the packets that come.
use record_check::Times;

/// Which lines tell of packets, and of wants that are refused.
#[derive(Clone, Copy, Drop)]
pub enum PacketLines {
    /// One of each, with times that are written so.
    Each(Times),
    /// None.
    No,
}
