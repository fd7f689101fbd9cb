//! Files that are read whole.
use std::fs::File;
use std::io::{self, ErrorKind, Read};

/// How many bytes a file has at most that is read whole: ample for a configuration of 65,536 stations.
const MOST: u64 = 16 << 20;

/// What is said of a file that has more.
fn too_long() -> io::Error {
    io::Error::new(ErrorKind::InvalidData, "the file has more than 16 MiB")
}

/// Whether the system says that a file has more bytes than are read. Of a pipe or a device it doesn't say that.
fn is_too_long(file: &File) -> bool {
    match file.metadata() {
        Ok(found) => found.is_file() && found.len() > MOST,
        Err(_) => false,
    }
}

/// The text of a file that is open, of at most 16 MiB. A longer one is refused, by its length before a byte of it is
/// read, if it has one that is known.
pub fn text_in(rt: &HostRuntime, file: File) -> io::Result<Vec<u8>> {
    if is_too_long(&file) {
        return Err(too_long());
    }
    let mut text = Vec::new(rt.alloc());
    file.take(MOST + 1).read_to_end(&mut text)?;
    if text.len() as u64 > MOST {
        return Err(too_long());
    }
    Ok(text)
}
