//! Folders: which one a path lies in, how they are made, and that they are put on the disk.
//!
//! A file is lost with its folder if the power goes before the system has put the name of that folder on the disk, and
//! so on up to the first folder that was there. So of each folder that is made the one above it is synced.
use std::{fs, io};

/// The folder above a path: the current one, `.`, of a name alone. None above the topmost one and above `.`.
fn above(path: &str) -> Option<&str> {
    match path.rsplit_once('/') {
        Some(("", "")) => None,
        Some(("", _)) => Some("/"),
        Some((folder, _)) => Some(folder),
        None if path == "." => None,
        None => Some("."),
    }
}

/// The folder that a file lies in, by its path: what stands before its last `/`, or `.` for a name alone.
pub fn folder_of(path: &str) -> &str {
    above(path).unwrap_or(".")
}

/// Puts a folder on the disk. What fails is passed over, since some systems don't do it for folders.
fn sync_folder(rt: &HostRuntime, folder: &str) {
    if let Ok(folder) = fs::open(rt, folder) {
        let _ = folder.sync_all();
    }
}

/// Puts the folder of a file on the disk. What fails is passed over, since some systems don't do it for folders.
pub fn sync_folder_of(rt: &HostRuntime, path: &str) {
    sync_folder(rt, folder_of(path));
}

/// How many folders above a path have to be made.
fn missing_above(rt: &HostRuntime, path: &str) -> usize {
    let mut path = path;
    for count in 0..usize::MAX {
        match above(path) {
            Some(folder) if fs::metadata(rt, folder).is_err() => path = folder,
            _ => return count,
        }
    }
    0
}

/// Puts so many folders above a path on the disk.
fn sync_above(rt: &HostRuntime, path: &str, count: usize) {
    let mut path = path;
    for _ in 0..count {
        let Some(folder) = above(path) else {
            return;
        };
        sync_folder(rt, folder);
        path = folder;
    }
}

/// Makes a folder, and those above it, if they are not there. What is made is put on the disk.
pub fn make_folders(rt: &HostRuntime, folder: &str) -> io::Result<()> {
    if fs::metadata(rt, folder).is_ok() {
        return Ok(());
    }
    let missing = missing_above(rt, folder);
    fs::create_dir_all(rt, folder)?;
    sync_above(rt, folder, missing.saturating_add(1));
    Ok(())
}
