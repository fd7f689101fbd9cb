//! Files that are locked, so that no other process does what this one is about to do.
use crate::places::not_plain;
use std::fs::{self, File, OpenOptions, TryLockError};
use std::io::{self, ErrorKind};
use std::os::unix::fs::MetadataExt;

/// Why a file is not locked.
#[derive(Drop)]
pub enum LockFault {
    /// Another process has locked it.
    Busy,
    /// It can't be made or opened, or is no plain file.
    Refused(io::Error),
}

/// A file that is opened to be locked, and made if it is not there. No link is followed, and nothing but a plain file
/// is opened: a pipe would wait for a reader.
fn opened_at(rt: &HostRuntime, path: &str) -> io::Result<File> {
    let mut options = OpenOptions::new();
    options.write(true);
    match fs::symlink_metadata(rt, path) {
        Ok(found) if !found.is_file() => return Err(not_plain()),
        Ok(_) => {}
        Err(reason) if reason.kind() == ErrorKind::NotFound => {
            options.create(true);
        }
        Err(reason) => return Err(reason),
    }
    options.open(rt, path)
}

/// Whether a path still names a file that is open. A lock is one on a file: once its path names another one, or none,
/// another process can lock what stands there.
pub fn is_named(rt: &HostRuntime, file: &File, path: &str) -> bool {
    let (Ok(open), Ok(found)) = (file.metadata(), fs::metadata(rt, path)) else {
        return false;
    };
    open.dev() == found.dev() && open.ino() == found.ino()
}

/// The lock of a file, which holds until it is closed.
pub fn lock_at(rt: &HostRuntime, path: &str) -> Result<File, LockFault> {
    let file = match opened_at(rt, path) {
        Ok(file) => file,
        Err(reason) => return Err(LockFault::Refused(reason)),
    };
    match file.try_lock() {
        Ok(()) => Ok(file),
        Err(TryLockError::WouldBlock) => Err(LockFault::Busy),
        Err(TryLockError::Error(reason)) => Err(LockFault::Refused(reason)),
    }
}
