//! What a poll says of a connection, and what is to be told of its port.

/// What happened to a connection.
#[derive(Clone, Copy, Drop)]
pub struct Readiness {
    pub is_readable: bool,
    /// The peer sends no more, or the connection failed.
    pub is_over: bool,
    pub is_writable: bool,
}

/// What is to be told of a port: which of its calls are worth making again.
#[derive(Clone, Copy, Drop)]
pub struct PortNews {
    pub readable: bool,
    pub writable: bool,
}
