//! Files of records are looked at before any of them is sent.
//!
//! `feed` looks at all files before it sends one, and opens the next once it has sent the one before: a misspelled last
//! file is to send nothing, but a file may be a pipe whose writer comes later, and a thousand files may be more than a
//! process can have open. So a plain file is opened and closed again, and of a pipe or a device it is only seen that it
//! is there: to open a pipe waits for its writer, and to close it may end that. A file that goes between the look and
//! its turn is told then, after the records of the files before it were sent.
ghost use Rattle.std.specs.Prelude.{All, Ok, OnOk};

use crate::lines::FeedLine;
use incidents::Incident;
use job_base::{open, unopened};
use std::alloc::{AllocError, Global};
use std::{fs, io};

/// Whether a file can be opened.
fn open_once<'a>(rt: &HostRuntime, path: &'a str) -> Result<(), Incident<'a>> {
    open(rt, path)?;
    Ok(())
}

/// Whether there is a file from which records can be read. A plain file is opened, and a folder is refused. A pipe or a
/// device is only there: to open a pipe waits for its writer, and to close it may end that.
fn look_at_file<'a>(rt: &HostRuntime, path: &'a str) -> Result<(), Incident<'a>> {
    match fs::metadata(rt, path) {
        Ok(found) if found.is_file() => open_once(rt, path),
        Ok(found) if found.is_dir() => Err(unopened(
            path,
            io::Error::from(io::ErrorKind::IsADirectory),
        )),
        Ok(_) => Ok(()),
        Err(reason) => Err(unopened(path, reason)),
    }
}

/// The same of what a word of the command line names, which may be the standard input.
fn look_at<'a>(rt: &HostRuntime, path: &'a str) -> Result<(), Incident<'a>> {
    match path {
        "-" => Ok(()),
        _ => look_at_file(rt, path),
    }
}

/// Tries each of some items, in order, up to the first that fails.
fn try_each<T: Copy, E: Drop, F: Fn(T) -> Result<(), E>>(items: &[T], attempt: F) -> Result<(), E>
    requires { F.IsAlwaysCallable attempt }
    ensures { OnOk result (All (λ item. F.post attempt item (Ok tt)) items.now) }
{
    for item in items {
        attempt(*item)?;
    }
    Ok(())
}

/// Looks at each of some files.
pub fn look_at_each<'a>(rt: &HostRuntime, files: &[&'a str]) -> Result<(), Incident<'a>> {
    try_each(files, |path| look_at(rt, path))
}

/// Files in the order of their names.
fn in_order<'a>(alloc: Global, files: &[&'a str]) -> Result<Vec<&'a str>, AllocError> {
    let mut names = files.to_vec(alloc)?;
    names.sort()?;
    Ok(names)
}

/// Tells of each file that is named again that its records were sent twice, but not of the standard input, which then
/// is at its end. Without memory it tells of none.
pub fn tell_repeated(rt: &HostRuntime, files: &[&str]) {
    let Ok(names) = in_order(rt.alloc(), files) else {
        return;
    };
    for pair in names.windows(2) {
        if let [file, other] = pair {
            if file == other && *file != "-" {
                let _ = eprintln!(rt; "{}", FeedLine::Again { file });
            }
        }
    }
}
