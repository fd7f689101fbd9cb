//! One read from a socket, and one write to it.
ghost use Rattle.std.specs.Prelude.{◌<◌, length};
ghost use Rattle.ports_socket.specs.Receipts.{IsReceived, IsSent};

use mio::net::TcpStream;
use std::io::{ErrorKind, Read, Write};

/// How often a call that a signal interrupted is made again.
const TRIES: u8 = 8;

/// What the system gave.
#[derive(Clone, Copy, Drop)]
pub enum Receipt {
    Bytes(usize),
    WouldBlock,
    Closed,
    Failed,
}

/// What the system took.
#[derive(Clone, Copy, Drop)]
pub enum SendOutcome {
    Took(usize),
    WouldBlock,
    Failed,
}

/// Reads once.
pub fn receive(stream: &TcpStream, buffer: &mut [u8]) -> Receipt
    requires { 0 < length buffer.old }
    ensures { IsReceived result (length buffer.new) }
{
    for _ in 0..TRIES {
        let mut from = stream;
        match from.read(buffer) {
            Ok(0) => return Receipt::Closed,
            Ok(count) => return Receipt::Bytes(count),
            Err(error) => match error.kind() {
                ErrorKind::WouldBlock => return Receipt::WouldBlock,
                ErrorKind::Interrupted => {}
                _ => return Receipt::Failed,
            },
        }
    }
    Receipt::WouldBlock
}

/// Writes once.
pub fn send(stream: &TcpStream, bytes: &[u8]) -> SendOutcome
    ensures { IsSent result (length bytes.now) }
{
    for _ in 0..TRIES {
        let mut to = stream;
        match to.write(bytes) {
            Ok(count) => return SendOutcome::Took(count),
            Err(error) => match error.kind() {
                ErrorKind::WouldBlock => return SendOutcome::WouldBlock,
                ErrorKind::Interrupted => {}
                _ => return SendOutcome::Failed,
            },
        }
    }
    SendOutcome::WouldBlock
}

/// Whether a read shows that the system has no more bytes for now.
pub fn is_short(receipt: Receipt, asked: usize) -> bool {
    match receipt {
        Receipt::Bytes(count) => count < asked,
        Receipt::WouldBlock => true,
        Receipt::Closed => false,
        Receipt::Failed => false,
    }
}
