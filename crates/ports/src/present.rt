//! Who is at a port.
use std::net::Ipv4Addr;

/// A client that is at a port, as ports know it that follow who is there.
#[derive(Clone, Copy, Drop)]
pub struct PresentClient {
    /// From where it came.
    pub address: Ipv4Addr,
    /// When, in milliseconds since the server began.
    pub since: u64,
    /// How many bytes its port took. It stays at 2^64 - 1.
    pub bytes: u64,
}
