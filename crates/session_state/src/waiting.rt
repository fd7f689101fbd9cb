//! The bytes that wait for a client: the answers to its commands, the lines of a listing, and packets.
//!
//! Whether nothing waits is asked by one test, and not by the form of the waiting bytes, so that a session that keeps
//! its waiting bytes in a buffer answers it by a comparison.
//!
//! What waits for a client is an array and a count, and not the kit's vector, which overwrites the 520 bytes with zeros
//! each time that it is emptied: 87 instructions a packet.
ghost use Rattle.std.specs.Prelude.{◌≡◌, ◌≤◌, ◌<◌, ◌+◌, ◌++◌, ◌∷◌, [], length};
ghost use Rattle.protocol.specs.Catalog.{end_line, station_line};
ghost use Rattle.protocol.specs.Packet.{packet};
ghost use Rattle.protocol.specs.Record.{padded};
ghost use Rattle.protocol.specs.Session.{error_line, greeting, ok_line};
ghost use Rattle.catalog.specs.Places.{view_in};

use catalog::{Config, Station, View};
use sl_packet::{Seq, header};
use std::marker::Model;

/// The most bytes that wait: a packet.
const MOST: usize = 520;

/// The bytes that wait to be handed to a client, at most a packet. Those beyond them are of what waited before, and are
/// not cleared.
#[derive(Drop)]
pub struct Waiting {
    bytes: [u8; MOST],
    length: usize,
}

impl Model for Waiting {
    ghost use Rattle.std.specs.Prelude.{◌≤◌, List, ℕ, take};

    ghost Value = { List ℕ };

    ghost view = { λ w. take w.length w.bytes };

    ghost invariant = { λ w. w.length ≤ 520 };
}

impl Waiting {
    /// No byte.
    pub fn new() -> Waiting
        ensures { result ≡ [] }
    {
        Waiting {
            bytes: [0; MOST],
            length: 0,
        }
    }

    /// The bytes.
    pub fn as_slice(&self) -> &[u8]
        ensures { result.now ≡ self.now }
    {
        &self.bytes[..self.length]
    }

    /// How many they are, up to 520.
    pub fn len(&self) -> usize
        ensures value { result ≡ length self.now }
        ensures few { result ≤ 520 }
    {
        self.length
    }

    /// No byte waits any more.
    pub fn clear(&mut self)
        ensures { self.new ≡ [] }
    {
        self.length = 0;
    }

    /// A text waits after them.
    pub fn extend(&mut self, text: &[u8])
        requires { length self.old + length text.now ≤ 520 }
        ensures { self.new ≡ self.old ++ text.now }
    {
        let end = self.length + text.len();
        self.bytes[self.length..end].copy_from_slice(text);
        self.length = end;
    }

    /// One byte waits after them.
    pub fn push(&mut self, byte: u8)
        requires { length self.old < 520 }
        ensures { self.new ≡ self.old ++ byte ∷ [] }
    {
        self.bytes[self.length] = byte;
        self.length += 1;
    }
}

fn extend_padded(out: &mut Waiting, text: &[u8], width: usize)
    requires room { length out.old + width ≤ 520 }
    requires fits { length text.now ≤ width }
    ensures { out.new ≡ out.old ++ padded width text.now }
{
    out.extend(text);
    for _ in text.len()..width {
        out.push(b' ');
    }
}

/// The bytes, at most 520, in place of what waited.
pub fn put_bytes(out: &mut Waiting, bytes: &[u8])
    requires { length bytes.now ≤ 520 }
    ensures { out.new ≡ bytes.now }
{
    out.clear();
    out.extend(bytes);
}

/// The packet of a record, in place of what waited.
pub fn put_packet(out: &mut Waiting, number: Seq, record: &[u8; 512])
    ensures { out.new ≡ packet number «record».now }
{
    out.clear();
    out.extend(&header(number));
    out.extend(record);
}

/// The answer to HELLO: who the server is, and its title.
pub fn put_greeting(out: &mut Waiting, config: &Config, view: &View)
    ensures { out.new ≡ greeting (view_in config.now view.now) }
{
    out.clear();
    out.extend(b"SeedLink v3.0 (station access)\r\n");
    out.extend(config.title());
    out.extend(b"\r\n");
}

/// The answer to a command that was obeyed.
pub fn put_ok(out: &mut Waiting)
    ensures { out.new ≡ ok_line }
{
    put_bytes(out, b"OK\r\n");
}

/// The answer to a command that was not obeyed.
pub fn put_error(out: &mut Waiting)
    ensures { out.new ≡ error_line }
{
    put_bytes(out, b"ERROR\r\n");
}

/// A station's line of CAT.
pub fn put_station_line(out: &mut Waiting, station: &Station)
    ensures { out.new ≡ station_line station.now.station }
{
    out.clear();
    extend_padded(out, station.network(), 2);
    out.extend(b" ");
    extend_padded(out, station.code(), 5);
    out.extend(b" ");
    out.extend(station.description());
    out.extend(b"\r\n");
}

/// The last line of CAT.
pub fn put_end_line(out: &mut Waiting)
    ensures { out.new ≡ end_line }
{
    put_bytes(out, b"END\r\n");
}
