//! A device in memory.
ghost use Rattle.std.specs.Prelude.{◌≡◌, ◌≤◌, ◌⊎◌, Some, [], drop, length, min, take};
ghost use Rattle.error_lines.specs.Devices.{Takes};
ghost use Rattle.memory_doubles.specs.Rooms.{room_in};

use error_lines::Device;
use std::alloc::Global;

/// A device in memory, that tells its bytes. At each call it takes at most as many as the next number of a list says,
/// and all of them once the list is over. It takes none for which there is no memory.
#[derive(Drop)]
pub struct MemoryDevice<'a> {
    bytes: Vec<u8>,
    rooms: &'a [usize],
}

impl<'a> MemoryDevice<'a> {
    /// A device that has taken nothing.
    pub fn new(alloc: Global, rooms: &'a [usize]) -> MemoryDevice<'a>
        ensures bytes { result.bytes.items ≡ [] }
        ensures rooms { result.rooms.now ≡ rooms.now }
    {
        MemoryDevice {
            bytes: Vec::new(alloc),
            rooms,
        }
    }

    /// All bytes that were taken.
    pub fn bytes(&self) -> &[u8]
        ensures { result.now ≡ self.now.bytes.items }
    {
        self.bytes.as_slice()
    }

    /// For how many bytes there is room at the next call.
    fn next_room(&mut self) -> usize
        ensures room { result ≡ room_in self.old.rooms.now }
        ensures bytes { self.new.bytes ≡ self.old.bytes }
        ensures rooms { self.new.rooms.now ≡ drop 1 self.old.rooms.now }
    {
        match self.rooms {
            [room, rest @ ..] => {
                self.rooms = rest;
                *room
            }
            [] => usize::MAX,
        }
    }
}

impl Device for MemoryDevice<'_> {
    ghost taken = { λ s. Some s.bytes.items };

    fn accept(&mut self, bytes: &[u8]) -> usize
        ensures bound { result ≤ length bytes.now }
        ensures bytes { Takes (Some self.old.bytes.items) (Some self.new.bytes.items) (take result bytes.now) }
        ensures count { (result ≡ 0) ⊎ (result ≡ min (length bytes.now) (room_in self.old.rooms.now)) }
        ensures rooms { self.new.rooms.now ≡ drop 1 self.old.rooms.now }
    {
        let count = bytes.len().min(self.next_room());
        if self.bytes.extend_from_slice(&bytes[..count]).is_err() {
            return 0;
        }
        count
    }
}
