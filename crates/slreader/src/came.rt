//! What a piece gives.
ghost use Rattle.std.specs.Prelude.{◌≡◌};
ghost use Rattle.slreader.specs.ReaderViews.{given_option};
ghost use Rattle.slreader.specs.Whats.{what_value};

use crate::given_packet::GivenPacket;
use crate::stage::StageEvent;

/// What a reader is given.
#[derive(Drop)]
pub enum What<'a> {
    /// Nothing became whole.
    Nothing,
    /// The server answered HELLO.
    Hello,
    /// A command of the want with that index was answered ERROR. Its other commands are not asked.
    Refused(usize),
    /// A packet.
    Packet(GivenPacket<'a>),
    /// The end of the transfer.
    End,
}

/// What a piece gives.
#[derive(Drop)]
pub struct Came<'a> {
    /// How many bytes of the piece were read: up to the last byte of the first thing that became whole, else all of
    /// them.
    pub used: usize,
    /// What became whole.
    pub what: What<'a>,
}

/// What became whole; a packet lies in the buffer.
pub(crate) fn what_of(event: Option<StageEvent>, packet: &[u8; 520]) -> What<'_>
    ensures { what_value result ≡ given_option event packet.now }
{
    match event {
        None => What::Nothing,
        Some(StageEvent::Hello) => What::Hello,
        Some(StageEvent::Refused(want)) => What::Refused(want),
        Some(StageEvent::Packet) => What::Packet(GivenPacket::new(packet)),
        Some(StageEvent::End) => What::End,
    }
}
