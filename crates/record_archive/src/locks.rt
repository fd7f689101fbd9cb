//! The locks of the stations of an archive.
//!
//! The lock of an archive is one a station. Files of two stations are never the same, so readers of other stations have
//! nothing to do with each other. A lock is one on a file and not on its path: if the folder is moved away, another
//! reader can lock the one that is made in its place. So it has to be looked, again and again, whether the paths still
//! name the files.
use crate::stations::StationCodes;
use files::{LockFault, is_named, lock_at, make_folders};
use std::alloc::Global;
use std::fs::File;
use std::io::{self, ErrorKind};

/// Why nothing can be put below a folder.
#[derive(Drop)]
pub enum TopFault {
    /// The folder can't be made, or a file in it that is locked can't be opened.
    Unopened(io::Error),
    /// Somebody else puts records of one of the stations there, and has locked the file at that path for it.
    Locked(String),
}

/// A file that is locked.
#[derive(Drop)]
struct Lock {
    path: String,
    file: File,
}

/// Locks on files below a folder, each of which says that records of a station are put there. They are held until they
/// are let go.
#[derive(Drop)]
pub struct StationLocks {
    all: Vec<Lock>,
}

/// The path of the file that is locked while records of a station are put below a folder.
fn lock_path(alloc: Global, top: &str, codes: &StationCodes) -> Option<String> {
    let network = str::from_utf8(codes.network()).ok()?;
    let station = str::from_utf8(codes.station()).ok()?;
    match format!(in alloc; "{top}/.{network}_{station}.lock") {
        Ok(path) => Some(path),
        Err(_) => None,
    }
}

/// That somebody else has locked the file at a path.
fn locked_by_another(alloc: Global, path: &str) -> TopFault {
    match String::from_str(alloc, path) {
        Ok(path) => TopFault::Locked(path),
        Err(_) => no_memory(),
    }
}

/// Locks a file.
fn locked_at(rt: &HostRuntime, path: &str) -> Result<File, TopFault> {
    match lock_at(rt, path) {
        Ok(file) => Ok(file),
        Err(LockFault::Busy) => Err(locked_by_another(rt.alloc(), path)),
        Err(LockFault::Refused(reason)) => Err(TopFault::Unopened(reason)),
    }
}

/// No memory.
fn no_memory() -> TopFault {
    TopFault::Unopened(io::Error::from(ErrorKind::OutOfMemory))
}

/// Locks a station, unless it is one of those that come before it and are locked.
fn lock_one(
    rt: &HostRuntime,
    alloc: Global,
    top: &str,
    before: &[StationCodes],
    codes: &StationCodes,
    all: &mut Vec<Lock>,
) -> Result<(), TopFault> {
    if before.iter().any(|other| other.is_same(codes)) {
        return Ok(());
    }
    let Some(path) = lock_path(alloc, top, codes) else {
        return Err(no_memory());
    };
    let file = locked_at(rt, path.as_str())?;
    match all.push(Lock { path, file }) {
        Ok(()) => Ok(()),
        Err(_) => Err(no_memory()),
    }
}

/// Makes a folder, if it is not there.
fn made(rt: &HostRuntime, top: &str) -> Result<(), TopFault> {
    match make_folders(rt, top) {
        Ok(()) => Ok(()),
        Err(reason) => Err(TopFault::Unopened(reason)),
    }
}

/// Locks the stations whose records are put below a folder, which is made if it is not there. It fails if somebody else
/// has locked one of them.
pub fn lock_stations(
    rt: &HostRuntime,
    alloc: Global,
    top: &str,
    stations: &[StationCodes],
) -> Result<StationLocks, TopFault> {
    made(rt, top)?;
    let mut all = Vec::new(alloc);
    for (place, codes) in stations.iter().enumerate() {
        lock_one(rt, alloc, top, &stations[..place], codes, &mut all)?;
    }
    Ok(StationLocks { all })
}

impl Lock {
    /// Locks what stands there now, if the path does not name the file any more that is locked.
    fn renew(&mut self, rt: &HostRuntime, top: &str) -> Result<(), TopFault> {
        if !is_named(rt, &self.file, self.path.as_str()) {
            made(rt, top)?;
            self.file = locked_at(rt, self.path.as_str())?;
        }
        Ok(())
    }
}

impl StationLocks {
    /// Locks what stands there now in place of each file that its path does not name any more, as after the folder was
    /// moved away. It fails if somebody else has locked that.
    pub fn renew(&mut self, rt: &HostRuntime, top: &str) -> Result<(), TopFault> {
        for lock in &mut self.all {
            lock.renew(rt, top)?;
        }
        Ok(())
    }
}
