//! Files that are locked while a reader writes to what lies beside them.
//!
//! A lock is one on a file and not on its path: once that names another file, or none, another reader can lock what
//! stands there. So it is looked at once a second whether the path still names the file.
use files::{LockFault, is_named, lock_at};
use std::fs::File;
use std::io::{self, ErrorKind};

/// After how many milliseconds it is looked again whether a path names the file that is locked.
const EVERY: u64 = 1_000;

/// When it was looked last, in milliseconds.
#[derive(Clone, Copy, Drop)]
pub struct LookTime {
    last: u64,
}

impl LookTime {
    /// It was looked then.
    pub fn new(now: u64) -> LookTime {
        LookTime { last: now }
    }

    /// Whether it is time to look. It was looked then.
    pub fn is_due(&mut self, now: u64) -> bool {
        if now.saturating_sub(self.last) < EVERY {
            return false;
        }
        self.last = now;
        true
    }
}

/// The lock of a file: a file beside it that is locked.
#[derive(Drop)]
pub struct HeldLock {
    path: String,
    file: File,
    /// What is said if somebody else has locked it.
    text: &'static str,
}

/// The file at a path, locked. If somebody else has locked it, that text says so.
fn locked(rt: &HostRuntime, path: &str, text: &'static str) -> io::Result<File> {
    match lock_at(rt, path) {
        Ok(file) => Ok(file),
        Err(LockFault::Busy) => Err(io::Error::new(ErrorKind::ResourceBusy, text)),
        Err(LockFault::Refused(reason)) => Err(reason),
    }
}

/// What is said of a file to lock that has the name of a lock itself: it may be that of an archive or of a state.
fn is_a_lock() -> io::Error {
    io::Error::new(
        ErrorKind::InvalidInput,
        "a name that ends with .lock is that of a lock",
    )
}

impl HeldLock {
    /// Locks the file at a place, whose name is not that of a lock. What is said if somebody else has locked it is that
    /// text.
    pub fn new(rt: &HostRuntime, place: &str, text: &'static str) -> io::Result<HeldLock> {
        if place.ends_with(".lock") {
            return Err(is_a_lock());
        }
        let Ok(path) = format!(in rt.alloc(); "{place}.lock") else {
            return Err(io::Error::from(ErrorKind::OutOfMemory));
        };
        let file = locked(rt, path.as_str(), text)?;
        Ok(HeldLock { path, file, text })
    }

    /// Locks what stands there now, if the path does not name the file any more that is locked.
    pub fn renew(&mut self, rt: &HostRuntime) -> io::Result<()> {
        if !is_named(rt, &self.file, self.path.as_str()) {
            self.file = locked(rt, self.path.as_str(), self.text)?;
        }
        Ok(())
    }
}
