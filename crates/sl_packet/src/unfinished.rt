//! Records and packets of which not all bytes have come: their bytes are kept until the last one comes. No call
//! allocates.

ghost use Rattle.std.specs.Prelude.{◌≡◌, ◌+◌, ◌≤◌, ◌++◌, length, take, drop, slice_get};

use std::marker::Model;

/// Writes bytes into the buffer, from `start` on.
fn put(buffer: &mut [u8], start: usize, bytes: &[u8])
    requires { start + length bytes.now ≤ length buffer.old }
    ensures { buffer.new ≡ take start buffer.old ++ (bytes.now ++ drop (start + length bytes.now) buffer.old) }
{
    buffer[start..start + bytes.len()].copy_from_slice(bytes);
}

/// A record or a packet of N bytes, of which fewer have come. In a contract it is those bytes, and the last that became
/// whole.
#[derive(Drop)]
pub struct Unfinished<const N: usize> {
    /// The bytes that have come are its first ones.
    buffer: [u8; N],
    count: usize,
}

impl<const N: usize> Model for Unfinished<N> {
    ghost use Rattle.std.specs.Prelude.{◌<◌, take};
    ghost use Rattle.sl_packet.specs.UnfinishedValues.{UnfinishedValue};

    ghost Value = { UnfinishedValue };

    ghost view = { λ s. record { held = take s.count s.buffer; whole = s.buffer } };

    ghost invariant = { λ s. s.count < N };
}

impl<const N: usize> Unfinished<N> {
    ghost use Rattle.std.specs.Prelude.{◌<◌, []};

    /// No byte has come.
    pub fn new() -> Self
        requires { 0 < N }
        ensures { result.held ≡ [] }
    {
        Unfinished {
            buffer: [0; N],
            count: 0,
        }
    }

    /// How many bytes have come, fewer than N.
    pub fn count(&self) -> usize
        ensures same { result ≡ length self.now.held }
        ensures bound { result < N }
    {
        self.count
    }

    /// The first of them, if there is one.
    pub fn first(&self) -> Option<u8>
        ensures { result ≡ slice_get self.now.held 0 }
    {
        self.buffer[..self.count].first().copied()
    }

    /// More bytes come, with which it is not whole.
    pub fn hold(&mut self, bytes: &[u8])
        requires { length self.old.held + length bytes.now < N }
        ensures { self.new.held ≡ self.old.held ++ bytes.now }
    {
        put(&mut self.buffer, self.count, bytes);
        self.count += bytes.len();
    }

    /// The bytes come with which it is whole, and none of the next.
    pub fn complete(&mut self, bytes: &[u8])
        requires { length self.old.held + length bytes.now ≡ N }
        ensures { self.new ≡ record { held = []; whole = self.old.held ++ bytes.now } }
    {
        put(&mut self.buffer, self.count, bytes);
        self.count = 0;
    }

    /// What became whole by the last call.
    pub fn whole(&self) -> &[u8; N]
        ensures { result.now ≡ self.now.whole }
    {
        &self.buffer
    }
}
