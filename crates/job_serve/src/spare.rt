//! A descriptor in reserve.
use std::fs::{self, File};

/// A descriptor that is held back, so that strangers who take all others can't keep a file from being opened: without
/// it a station that is closed by a new configuration would stay open for as long as they like.
#[derive(Drop)]
pub struct Spare {
    held: Option<File>,
}

impl Spare {
    /// One that is held, if one is free.
    pub fn new(rt: &HostRuntime) -> Spare {
        Spare { held: null(rt) }
    }

    /// Gives it back, for a file that is opened next.
    pub fn let_go(&mut self) {
        self.held = None;
    }

    /// Takes it again, once that file is closed.
    pub fn hold(&mut self, rt: &HostRuntime) {
        self.held = null(rt);
    }
}

/// A file that needs nothing but a descriptor.
fn null(rt: &HostRuntime) -> Option<File> {
    fs::open(rt, "/dev/null").ok()
}
