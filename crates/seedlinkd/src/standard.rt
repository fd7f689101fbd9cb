//! The descriptors of the standard input, output and error.
use std::fs::{File, OpenOptions};
use std::io;
use std::os::fd::{AsRawFd, IntoRawFd};

/// The descriptor of the standard error, the last of the three.
const LAST: i32 = 2;

/// Opens `/dev/null` in place of each of the three that is closed. The next file or connection would else have its
/// number, and get the program's lines between its bytes.
pub fn fill_closed(rt: &HostRuntime) {
    for _ in 0..=LAST {
        if !fill_one(rt) {
            return;
        }
    }
}

/// Opens `/dev/null` at the lowest descriptor that is free, and leaves it open if that is one of the three. Whether it
/// is.
fn fill_one(rt: &HostRuntime) -> bool {
    match null(rt) {
        Ok(file) if file.as_raw_fd() <= LAST => {
            let _kept = file.into_raw_fd();
            true
        }
        _ => false,
    }
}

/// What gives nothing and takes all.
fn null(rt: &HostRuntime) -> io::Result<File> {
    OpenOptions::new()
        .read(true)
        .write(true)
        .open(rt, "/dev/null")
}
