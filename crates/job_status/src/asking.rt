//! A question to a status port over a connection.
ghost use Rattle.std.specs.Prelude.{◌≡◌};
ghost use Rattle.job_status.specs.Questions.{question_of};

use crate::status_fault::StatusFault;
use files::milliseconds;
use incidents::Failure;
use sl_io::{Outer, write_all};
use std::io::{self, Read};
use std::net::TcpStream;
use std::time::Duration;

/// Which stations are asked for.
#[derive(Clone, Copy, Drop)]
pub enum Stations {
    /// All of them, and the clients.
    All,
    /// Those that are silent, and no clients.
    Silent,
}

/// What is asked.
fn question_of(stations: Stations) -> &'static [u8]
    ensures { result.now ≡ question_of stations }
{
    match stations {
        Stations::All => b"GET /plain HTTP/1.1\r\nHost: localhost\r\nConnection: close\r\n\r\n",
        Stations::Silent => {
            b"GET /plain?state=silent HTTP/1.1\r\nHost: localhost\r\nConnection: close\r\n\r\n"
        }
    }
}

/// How many milliseconds the whole answer is waited for.
const PATIENCE: u64 = 10_000;

/// How many bytes of an answer are taken: 4 MiB.
const MOST: usize = 1 << 22;

/// How many bytes a read asks for.
const BLOCK: usize = 65_536;

/// Why an answer did not come, by how many bytes of it did.
fn unanswered(came: usize) -> Failure {
    if came == 0 {
        StatusFault::Quiet.failure()
    } else {
        StatusFault::Ended.failure()
    }
}

/// What is said of a connection that ended, by how many bytes came.
fn closed(came: usize) -> Failure {
    if came == 0 {
        StatusFault::Closed.failure()
    } else {
        StatusFault::Ended.failure()
    }
}

/// Asks over a connection.
fn put_question(stream: &TcpStream, stations: Stations) -> Result<(), Failure> {
    let mut out = Outer::new(stream);
    match write_all(&mut out, question_of(stations)) {
        Ok(()) => Ok(()),
        Err(_) => Err(closed(0)),
    }
}

/// Why a read failed: its time was over, or the connection broke off.
fn unread(reason: io::Error, came: usize) -> Failure {
    match reason.kind() {
        io::ErrorKind::WouldBlock | io::ErrorKind::TimedOut => unanswered(came),
        _ => closed(came),
    }
}

/// Adds some bytes that come within so many milliseconds. How many came: 0 at the end.
fn read_within(stream: &TcpStream, bytes: &mut Vec<u8>, left: u64) -> Result<usize, Failure> {
    if stream
        .set_read_timeout(Some(Duration::from_millis(left)))
        .is_err()
    {
        return Err(closed(bytes.len()));
    }
    let mut block = [0u8; BLOCK];
    let mut from = stream;
    let count = match from.read(&mut block) {
        Ok(count) => count.min(BLOCK),
        Err(reason) => return Err(unread(reason, bytes.len())),
    };
    match bytes.extend_from_slice(&block[..count]) {
        Ok(()) => Ok(count),
        Err(_) => Err(Failure::out_of_memory()),
    }
}

/// What came, if anything did.
fn whole(bytes: Vec<u8>) -> Result<Vec<u8>, Failure> {
    if bytes.is_empty() {
        return Err(closed(0));
    }
    Ok(bytes)
}

/// How each answer of a status port begins.
const BEGINNING: &[u8] = b"HTTP/";

/// Whether bytes begin otherwise than an answer of a status port.
fn is_of_another_port(bytes: &[u8]) -> bool {
    bytes.len() >= BEGINNING.len() && !bytes.starts_with(BEGINNING)
}

/// Takes what is answered, to the end of the connection, within ten seconds, and 4 MiB at most. What is no answer of a
/// status port is not read on.
fn take_answer(rt: &HostRuntime, stream: &TcpStream) -> Result<Vec<u8>, Failure> {
    let begin = milliseconds(rt);
    let mut bytes = Vec::new(rt.alloc());
    for _ in 0..MOST {
        let passed = milliseconds(rt).saturating_sub(begin);
        if passed >= PATIENCE || bytes.len() > MOST {
            return Err(unanswered(bytes.len()));
        }
        let count = read_within(stream, &mut bytes, PATIENCE - passed)?;
        if count == 0 || is_of_another_port(&bytes) {
            return whole(bytes);
        }
    }
    Err(unanswered(bytes.len()))
}

/// Asks a status port for its tables of those stations over a connection, and takes what it answers. It fails with
/// Status Quiet if nothing came for ten seconds, with Status Closed if the connection ended before anything came, with
/// Status Ended if it ended later, the answer was not there after ten seconds or is longer than 4 MiB, and for want of
/// memory.
pub fn ask(rt: &HostRuntime, stream: &TcpStream, stations: Stations) -> Result<Vec<u8>, Failure> {
    put_question(stream, stations)?;
    take_answer(rt, stream)
}
