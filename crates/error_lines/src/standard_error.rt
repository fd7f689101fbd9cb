//! Standard error as a device that does not wait.
ghost use Rattle.std.specs.Prelude.{◌≡◌, ◌≤◌, length, take, None};
ghost use Rattle.error_lines.specs.Devices.{Takes};

use crate::Device;
use arrayvec::ArrayString;
use itoa::Buffer;
use libc::net as c;
use libc::types::pollfd;
use std::fs::{File, OpenOptions};
use std::os::fd::{AsRawFd, RawFd};
use std::rt::Files;

/// How many bytes are written at most to what can't be made not to wait, once it has room: a terminal or a pipe takes
/// so many then.
const PIECE: usize = 512;

/// How lines go to standard error.
#[derive(Drop)]
enum Way {
    /// To a file, which takes all there is room for on its disk.
    File,
    /// To a second opening of the same pipe or terminal, which alone does not wait.
    Reopened(File),
    /// To a socket, where each call says that it does not wait.
    Socket,
    /// To anything else: it is asked first whether it has room.
    Asked,
}

/// Standard error. No call waits, whoever reads it: a pipe, a terminal or a socket that takes no more for now takes
/// nothing.
///
/// Something that is none of them, or that can't be opened again, is asked whether it has room, and given at most 512
/// bytes then. It can make the program wait only if somebody else fills it in between.
#[derive(Drop)]
pub struct StandardError {
    descriptor: RawFd,
    way: Way,
}

/// What poll says of a descriptor at this moment.
fn events(descriptor: RawFd) -> i16 {
    let mut asked = [pollfd {
        fd: descriptor,
        events: c::POLLOUT,
        revents: 0,
    }];
    c::poll(&mut asked, 0);
    asked[0].revents
}

/// Whether nobody will read from it any more. To open a named pipe again that nobody reads would wait.
fn is_broken(descriptor: RawFd) -> bool {
    events(descriptor) & (c::POLLERR | c::POLLHUP | c::POLLNVAL) != 0
}

fn has_room(descriptor: RawFd) -> bool {
    events(descriptor) & c::POLLOUT != 0 && !is_broken(descriptor)
}

fn send(descriptor: RawFd, bytes: &[u8]) -> isize {
    unsafe { c::send(descriptor, bytes, c::MSG_NOSIGNAL | c::MSG_DONTWAIT) }
}

/// Under which path a descriptor can be opened again.
fn path_of(descriptor: RawFd) -> ArrayString<64> {
    let mut path = ArrayString::<64>::new();
    let mut digits = Buffer::new();
    path.push_str("/proc/self/fd/");
    path.push_str(digits.format(descriptor));
    path
}

/// The same pipe or terminal, opened a second time so that writes to it don't wait. None if that can't be done.
fn reopen(rt: &HostRuntime, descriptor: RawFd) -> Option<File> {
    let path = path_of(descriptor);
    let file = OpenOptions::new()
        .append(true)
        .open(rt, path.as_str())
        .ok()?;
    if os::set_nonblocking(file.as_raw_fd(), true) == 0 {
        Some(file)
    } else {
        None
    }
}

fn is_file(rt: &HostRuntime, descriptor: RawFd) -> bool {
    let path = path_of(descriptor);
    match rt.metadata(path.as_str()) {
        Ok(metadata) => metadata.is_file(),
        Err(_) => false,
    }
}

fn way_of(rt: &HostRuntime, descriptor: RawFd) -> Way {
    if is_broken(descriptor) {
        return Way::Asked;
    }
    if is_file(rt, descriptor) {
        return Way::File;
    }
    if send(descriptor, b"") == 0 {
        return Way::Socket;
    }
    match reopen(rt, descriptor) {
        Some(file) => Way::Reopened(file),
        None => Way::Asked,
    }
}

impl StandardError {
    /// Standard error of this process. It waits for nobody.
    pub fn open(rt: &HostRuntime) -> StandardError {
        StandardError::of(rt, libc::STDERR_FILENO)
    }

    /// What another descriptor of this process leads to, in the same manner. It has to stay open.
    pub fn of(rt: &HostRuntime, descriptor: RawFd) -> StandardError {
        StandardError {
            descriptor,
            way: way_of(rt, descriptor),
        }
    }
}

impl Device for StandardError {
    ghost taken = { λ _. None };

    fn accept(&mut self, bytes: &[u8]) -> usize
        ensures bound { result ≤ length bytes.now }
        ensures bytes { Takes None None (take result bytes.now) }
    {
        let written = match &self.way {
            Way::File => libc::write(self.descriptor, bytes),
            Way::Reopened(file) => libc::write(file.as_raw_fd(), bytes),
            Way::Socket => send(self.descriptor, bytes),
            Way::Asked => {
                if has_room(self.descriptor) {
                    libc::write(self.descriptor, &bytes[..bytes.len().min(PIECE)])
                } else {
                    0
                }
            }
        };
        usize::try_from(written).unwrap_or(0).min(bytes.len())
    }
}
