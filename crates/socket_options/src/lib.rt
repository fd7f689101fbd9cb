//! Options of TCP connections that std and `mio` have no method for.
//!
//! A peer is asked after 30 seconds of silence, six times, every ten seconds. Bytes that it does not take wait as long,
//! 90 seconds, so a peer that stalls for longer loses its connection. Linux gives each connection the options of the
//! socket that took it, so a server sets them once, at the sockets that listen: that spares six calls a connection, and
//! a system that refuses one of them refuses it at the start.
#![tactic(auto)]

use libc::net as c;
use std::io;
use std::os::fd::{AsRawFd, RawFd};

/// After how many silent seconds the system asks a peer whether it is still there.
const IDLE: i32 = 30;

/// How many seconds lie between one such question and the next.
const INTERVAL: i32 = 10;

/// After how many questions without an answer a connection has failed.
const QUESTIONS: i32 = 6;

/// For how many milliseconds bytes may wait for a peer that takes none of them: as long as a silent one is waited for.
const PATIENCE: i32 = 90_000;

/// How many bytes the system keeps at most for a peer that does not take them. It makes this twice as many, for its own
/// use.
const SEND_BUFFER: i32 = 262_144;

/// An option of a socket.
#[derive(Clone, Copy)]
enum SocketOption {
    KeepAlive,
    KeepIdle,
    KeepInterval,
    KeepCount,
    UserTimeout,
    SendBuffer,
}

/// Sets an option. Each call names its own, since the contract of `setsockopt` takes those alone that it knows.
fn set_option(fd: RawFd, option: SocketOption, value: &[u8; 16]) -> i32 {
    unsafe {
        match option {
            SocketOption::KeepAlive => c::setsockopt(fd, c::SOL_SOCKET, c::SO_KEEPALIVE, value, 4),
            SocketOption::KeepIdle => c::setsockopt(fd, c::IPPROTO_TCP, c::TCP_KEEPIDLE, value, 4),
            SocketOption::KeepInterval => {
                c::setsockopt(fd, c::IPPROTO_TCP, c::TCP_KEEPINTVL, value, 4)
            }
            SocketOption::KeepCount => c::setsockopt(fd, c::IPPROTO_TCP, c::TCP_KEEPCNT, value, 4),
            SocketOption::UserTimeout => {
                c::setsockopt(fd, c::IPPROTO_TCP, c::TCP_USER_TIMEOUT, value, 4)
            }
            SocketOption::SendBuffer => c::setsockopt(fd, c::SOL_SOCKET, c::SO_SNDBUF, value, 4),
        }
    }
}

/// Sets an option to a number.
fn set<S: AsRawFd>(socket: &S, option: SocketOption, number: i32) -> io::Result<()> {
    let mut value = [0u8; 16];
    value[..4].copy_from_slice(&number.to_ne_bytes());
    if set_option(socket.as_raw_fd(), option, &value) < 0 {
        Err(io::Error::from_raw_os_error(os::errno()))
    } else {
        Ok(())
    }
}

/// Has the system notice a peer that is gone, as one whose machine has vanished, within 90 seconds.
pub fn notice_silence<S: AsRawFd>(socket: &S) -> io::Result<()> {
    set(socket, SocketOption::KeepAlive, 1)?;
    set(socket, SocketOption::KeepIdle, IDLE)?;
    set(socket, SocketOption::KeepInterval, INTERVAL)?;
    set(socket, SocketOption::KeepCount, QUESTIONS)?;
    set(socket, SocketOption::UserTimeout, PATIENCE)
}

/// Has the system keep no more than 256 KiB for a peer that takes nothing.
pub fn limit_unsent<S: AsRawFd>(socket: &S) -> io::Result<()> {
    set(socket, SocketOption::SendBuffer, SEND_BUFFER)
}
