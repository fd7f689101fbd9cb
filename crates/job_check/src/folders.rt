//! The files of a folder and of the folders in it.
use std::alloc::Global;
use std::fs::FileType;
use std::{fs, io};

/// Folders that are not looked into yet, files that were found, and how many names were passed over.
#[derive(Drop)]
struct FolderWalk {
    folders: Vec<String>,
    files: Vec<String>,
    passed: usize,
}

/// The files of a folder and of those in it, and how many names there were passed over.
#[derive(Drop)]
pub struct FolderFiles {
    pub files: Vec<String>,
    pub passed: usize,
}

/// Why a folder can't be looked into, and which.
#[derive(Drop)]
pub struct UnlistedFolder {
    pub path: String,
    pub reason: io::Error,
}

/// How the names of files end that are no records as they stand: what was compressed, and the torn ends that a reader
/// put aside.
const PASSED_OVER: [&str; 5] = [".gz", ".bz2", ".xz", ".zst", ".torn"];

/// Whether what has this name in a folder is passed over: it is hidden, as a lock is, or is no file of records by its
/// end.
fn is_passed_over(name: &str) -> bool {
    name.starts_with('.') || PASSED_OVER.iter().any(|end| name.ends_with(*end))
}

/// Whether a path ends as those of an archive's files do, with a year and a day of it: `.2024.060`.
fn is_of_a_day(path: &str) -> bool {
    let Some([b'.', y, e, a, r, b'.', d, n, m]) = path.as_bytes().last_chunk::<9>() else {
        return false;
    };
    [y, e, a, r, d, n, m]
        .iter()
        .all(|byte| byte.is_ascii_digit())
}

/// Whether one of the files is one of an archive.
fn has_day(files: &[String]) -> bool {
    for path in files {
        if is_of_a_day(path.as_str()) {
            return true;
        }
    }
    false
}

/// Leaves the files of days alone, if there are some: what else stands in an archive, as the state of its reader, is no
/// file of records.
fn keep_days(walk: &mut FolderWalk) {
    if has_day(&walk.files) {
        let count = walk.files.len();
        walk.files.retain(|path| is_of_a_day(path.as_str()));
        walk.passed = walk
            .passed
            .saturating_add(count.saturating_sub(walk.files.len()));
    }
}

/// Whether a path leads to a file, by a link too.
fn is_file(rt: &HostRuntime, path: &str) -> bool {
    match fs::metadata(rt, path) {
        Ok(found) => found.is_file(),
        Err(_) => false,
    }
}

/// Notes what stands in a folder under a path: a folder, a file, or a link to a file. A link to a folder is passed
/// over, since it may lead back, and so is a pipe or a device.
fn note(
    rt: &HostRuntime,
    alloc: Global,
    walk: &mut FolderWalk,
    path: &str,
    kind: FileType,
) -> io::Result<()> {
    if kind.is_dir() {
        walk.folders.push(String::from_str(alloc, path)?)?;
    } else if is_file(rt, path) {
        walk.files.push(String::from_str(alloc, path)?)?;
    }
    Ok(())
}

/// Notes all that stands in a folder and is not passed over.
fn look_into(rt: &HostRuntime, walk: &mut FolderWalk, folder: &str) -> io::Result<()> {
    for entry in fs::read_dir(&rt, folder)? {
        let entry = entry?;
        if is_passed_over(entry.file_name()) {
            walk.passed = walk.passed.saturating_add(1);
        } else {
            let kind = entry.file_type()?;
            note(rt, rt.alloc(), walk, entry.path().to_string_lossy(), kind)?;
        }
    }
    Ok(())
}

/// Looks into one folder after the other until there is no other one.
fn look_into_all(rt: &HostRuntime, walk: &mut FolderWalk) -> Result<(), UnlistedFolder> {
    'folders: for _ in 0..u64::MAX {
        let Some(path) = walk.folders.pop() else {
            return Ok(());
        };
        match look_into(rt, walk, path.as_str()) {
            Ok(()) => {}
            Err(reason) => return Err(UnlistedFolder { path, reason }),
        }
    }
    Ok(())
}

/// The files of a folder and of all folders in it, in the order of their paths, but for those that are passed over: if
/// some of them are those of days, as in an archive, all others.
pub fn files_below(rt: &HostRuntime, folder: String) -> Result<FolderFiles, UnlistedFolder> {
    let alloc = rt.alloc();
    let mut walk = FolderWalk {
        folders: Vec::new(alloc),
        files: Vec::new(alloc),
        passed: 0,
    };
    if walk.folders.push(folder).is_err() {
        return Err(no_memory(alloc));
    }
    look_into_all(rt, &mut walk)?;
    keep_days(&mut walk);
    let FolderWalk {
        mut files,
        passed,
        ..
    } = walk;
    match files.sort() {
        Ok(()) => Ok(FolderFiles { files, passed }),
        Err(_) => Err(no_memory(alloc)),
    }
}

/// There is no memory for the paths.
fn no_memory(alloc: Global) -> UnlistedFolder {
    UnlistedFolder {
        path: String::new(alloc),
        reason: io::Error::from(io::ErrorKind::OutOfMemory),
    }
}
