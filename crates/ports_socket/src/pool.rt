//! Buffers for bytes that wait to be sent. A port has one only while it holds something, or while it is the port's
//! turn.
//!
//! What a port took is sent when the next port has its turn, by one write of up to 64 packets. So one buffer, and that
//! of the loop, for which it is exchanged, serve all ports whose sockets take everything, and stay in the processor's
//! cache. To hold the bytes of a port that filled its turn, and to send those of two turns by one write, was tried in C
//! and spared nothing.
ghost use Rattle.std.specs.Prelude.{◌≡◌, ◌≤◌, ◌-◌, ◌++◌, [], IfSome, drop, length, vec_len};
ghost use Rattle.std.specs.List.{All};
ghost use Rattle.std.specs.Vec.{vec_capacity};

use std::alloc::{AllocError, Global};
use std::mem;

/// How many bytes a buffer holds: 64 packets, as many as a server hands to a port in a turn, so that one write sends
/// them.
pub const ROOM: usize = 33_280;

/// How many buffers are kept at most that no port has.
const FREE: usize = 16;

/// Buffers that no port has now.
#[derive(Drop)]
pub struct BufferPool {
    alloc: Global,
    free: Vec<Vec<u8>>,
    ghost few: { length free.items ≤ 16 },
    ghost empty: { All (λ buffer. buffer.items ≡ []) free.items },
}

impl BufferPool {
    pub fn new(alloc: Global) -> Result<BufferPool, AllocError> {
        Ok(BufferPool {
            alloc,
            free: Vec::with_capacity(alloc, FREE)?,
        })
    }

    /// An empty buffer, or none if there is no memory for one.
    pub fn lend(&mut self) -> Option<Vec<u8>>
        ensures { IfSome result (λ buffer. buffer.items ≡ []) }
    {
        if let Some(buffer) = self.free.pop() {
            return Some(buffer);
        }
        Vec::with_capacity(self.alloc, ROOM).ok()
    }

    /// Takes a buffer back. Beyond 16 it is dropped.
    pub fn take_back(&mut self, mut buffer: Vec<u8>) {
        if self.free.len() >= FREE {
            return;
        }
        buffer.clear();
        // There is room for it.
        let _ = self.free.push(buffer);
    }
}

/// Appends all of some bytes to a buffer that has room for them. If that is empty and as large as theirs, the two are
/// exchanged and nothing is copied.
pub fn append(buffer: &mut Vec<u8>, bytes: &mut Vec<u8>)
    requires { length bytes.old.items ≤ vec_capacity buffer.old - vec_len buffer.old }
    ensures all { buffer.new.items ≡ buffer.old.items ++ bytes.old.items }
    ensures exchanged { vec_len buffer.old ≡ 0 → vec_capacity buffer.old ≡ vec_capacity bytes.old →
        (buffer.new ≡ bytes.old) × (bytes.new ≡ buffer.old) }
    ensures room { vec_capacity buffer.old ≤ vec_capacity buffer.new }
    ensures capacity { vec_capacity bytes.old ≤ vec_capacity bytes.new }
{
    if buffer.is_empty() && buffer.capacity() == bytes.capacity() {
        mem::swap(buffer, bytes);
        return;
    }
    // There is room for them.
    let _ = buffer.extend_from_slice(bytes.as_slice());
}

/// Removes the first so many bytes of a buffer.
pub fn remove_front(buffer: &mut Vec<u8>, count: usize)
    requires { count ≤ vec_len buffer.old }
    ensures { buffer.new.items ≡ drop count buffer.old.items }
{
    let len = buffer.len();
    buffer.as_mut_slice().copy_within(count..len, 0);
    buffer.truncate(len - count);
}
