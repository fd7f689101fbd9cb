//! Plain files: which file a path leads to, and whether it is one.
use std::alloc::Global;
use std::fs::{self, Metadata};
use std::io::{self, ErrorKind};

/// What is said of a file that is no plain file: a folder, a pipe, a device, or a link where none is followed.
pub fn not_plain() -> io::Error {
    io::Error::new(ErrorKind::InvalidInput, "it has to be a plain file")
}

/// What the system says of the file to which a path leads: none if it is not there. One that is no plain file is
/// refused, and not opened: a pipe would give its bytes once, and then wait for a writer.
pub fn plain_at(rt: &HostRuntime, path: &str) -> io::Result<Option<Metadata>> {
    match fs::metadata(rt, path) {
        Ok(found) if found.is_file() => Ok(Some(found)),
        Ok(_) => Err(not_plain()),
        Err(reason) if reason.kind() == ErrorKind::NotFound => Ok(None),
        Err(reason) => Err(reason),
    }
}

/// Where a file is that is to be replaced: if a path is a symbolic link, the file to which it points. It fails if that
/// is no plain file, or if the link points to nothing.
pub fn place_of(rt: &HostRuntime, path: &str) -> io::Result<String> {
    match plain_at(rt, path)? {
        Some(_) => Ok(fs::canonicalize(rt, path)?.into_string()),
        None => new_place(rt, path),
    }
}

/// Where a file is to be that is not there: not at a symbolic link to nothing, of which only a name is known.
fn new_place(rt: &HostRuntime, path: &str) -> io::Result<String> {
    if fs::symlink_metadata(rt, path).is_ok() {
        return Err(not_plain());
    }
    text_of(rt.alloc(), path)
}

/// A text of its own.
fn text_of(alloc: Global, text: &str) -> io::Result<String> {
    match String::from_str(alloc, text) {
        Ok(text) => Ok(text),
        Err(_) => Err(io::Error::from(ErrorKind::OutOfMemory)),
    }
}
