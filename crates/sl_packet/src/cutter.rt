//! Packets out of bytes (SeedLink 3, data packets and the end of a transfer).
//!
//! The bytes of an unfinished end count as the rest of a packet cutter: after `EN` two bytes rest. They may still
//! become an end, and a stream that ends there is cut off as one that ends in a packet.
//!
//! A packet cutter says, where it fails, that the bytes hold one that no stream goes on with: it does not fail before a
//! packet or an end that becomes whole.
ghost use Rattle.std.specs.Prelude.{◌≡◌, ◌+◌, ◌<◌, ◌++◌, length, drop, codes};
ghost use Rattle.sl_packet.specs.States.{end_piece};

use crate::packets::{PACKET, may_continue};
use crate::unfinished::Unfinished;
use protocol::reason::Reason;
use std::marker::Model;

/// A byte fits no stream of packets: it stands neither in a packet nor in the end, or behind the end.
#[derive(Clone, Copy, Debug, Drop)]
pub struct NotAPacket;

impl NotAPacket {
    /// The reason by which the program reports it: 10 NotAPacket.
    pub fn reason(self) -> Reason
        ensures { result ≡ Reason.NotAPacket }
    {
        Reason::NotAPacket
    }
}

/// What became whole in a piece.
#[derive(Clone, Copy)]
pub enum Cut<'a> {
    /// Neither a packet nor the end.
    Nothing,
    /// A packet: in the piece itself, or in the cutter where it came in more than one piece.
    Packet(&'a [u8; 520]),
    /// The end, `END`.
    End,
}

/// What a piece of a stream gives.
#[derive(Clone, Copy)]
pub struct Fed<'a> {
    /// How many bytes of the piece were read: up to the last byte of the packet or of the end that became whole, and
    /// all of them where none did.
    pub used: usize,
    /// What became whole.
    pub cut: Cut<'a>,
}

/// What a cutter is in the middle of.
#[derive(Clone, Copy)]
enum State {
    /// A packet or the end, of which there may be no byte yet.
    Within,
    /// Nothing more may come.
    AtEnd,
    /// No stream begins with what came.
    Refused,
}

/// What a piece is to an end of which some bytes are missing.
#[derive(Clone, Copy)]
enum EndPiece {
    /// Some of what is missing.
    Unfinished,
    /// All of it, with whatever follows.
    Whole,
    /// Something else.
    Other,
}

/// The bytes of an end that are missing, where so many came.
fn missing_of_end(count: usize) -> &'static [u8]
    requires { count < 3 }
    ensures { result.now ≡ drop count (codes "END") }
{
    match count {
        0 => b"END",
        1 => b"ND",
        _ => b"D",
    }
}

/// What a piece is to the bytes of an end that are missing.
#[tactic(auto, using(crate::proofs::ByteLemmas::piece_runs_out))]
fn end_piece(missing: &[u8], piece: &[u8]) -> EndPiece
    ensures { result ≡ end_piece missing.now piece.now }
{
    for (index, wanted) in missing.iter().enumerate() {
        if index >= piece.len() {
            return EndPiece::Unfinished;
        }
        if piece[index] != *wanted {
            return EndPiece::Other;
        }
    }
    EndPiece::Whole
}

/// Cuts the bytes of a stream into its packets, in whatever pieces they come: packets, then possibly `END` and nothing
/// more (SeedLink 3, data packets and the end of a transfer). In a contract a cutter is how far it has read.
#[derive(Drop)]
pub struct PacketCutter {
    /// The bytes of the unfinished packet, or of the unfinished end.
    bytes: Unfinished<PACKET>,
    state: State,
}

impl Model for PacketCutter {
    ghost use Rattle.std.specs.Prelude.{◌≡◌, true};
    ghost use Rattle.sl_packet.specs.Progress.{Progress};
    ghost use Rattle.sl_packet.specs.States.{progress, is_begun};

    ghost Value = { Progress };

    ghost view = { λ s. progress s.state s.bytes.held };

    ghost invariant = { λ s. is_begun s.bytes.held ≡ true };
}

/// What a reading is made of.
impl PacketCutter {
    ghost use Rattle.std.specs.Prelude.{◌<◌, List, [], true};
    ghost use Rattle.std.specs.Borrow.{sem};
    ghost use Rattle.sl_packet.specs.Progress.{rest_in};
    ghost use Rattle.sl_packet.specs.Progress.Progress.{Amid, Finished, Faulty};
    ghost use Rattle.sl_packet.specs.States.{is_begun, first_is_e};
    ghost use Rattle.sl_packet.specs.Cuts.{Leaves};

    /// How many bytes it holds, while the stream goes on.
    fn held(&self) -> usize
        requires { self.now ≡ Amid (rest_in self.now) }
        ensures same { result ≡ length (rest_in self.now) }
        ensures bound { result < 520 }
        ensures begun { is_begun (rest_in self.now) ≡ true }
    {
        self.bytes.count()
    }

    /// Whether the bytes that it holds, with the piece behind them, begin with `E`.
    #[tactic(auto, using(crate::proofs::ByteLemmas::nothing_before))]
    fn is_first_e(&self, piece: &[u8]) -> bool
        requires { self.now ≡ Amid (rest_in self.now) }
        ensures { result ≡ first_is_e (rest_in self.now ++ piece.now) }
    {
        match self.bytes.first() {
            Some(first) => first == b'E',
            None => piece.first() == Some(&b'E'),
        }
    }

    /// Holds the piece too, which makes nothing whole.
    fn hold(&mut self, piece: &[u8])
        requires amid { self.old ≡ Amid (rest_in self.old) }
        requires short { length (rest_in self.old) + length piece.now < 520 }
        requires begun { is_begun (rest_in self.old ++ piece.now) ≡ true }
        ensures { self.new ≡ Amid (rest_in self.old ++ piece.now) }
    {
        self.bytes.hold(piece);
    }

    /// Lends the packet that the piece makes whole, and holds nothing of it.
    fn complete(&mut self, piece: &[u8]) -> &[u8; 520]
        requires amid { self.old ≡ Amid (rest_in self.old) }
        requires size { length (rest_in self.old) + length piece.now ≡ 520 }
        ensures whole { result.now ≡ rest_in self.old ++ piece.now }
        ensures* left { sem 𝓛 (Leaves self.entry (Amid [])) }
    {
        self.bytes.complete(piece);
        self.bytes.whole()
    }

    /// Takes what came for no stream.
    fn refuse(&mut self) -> NotAPacket
        ensures { self.new ≡ Faulty }
    {
        self.state = State::Refused;
        NotAPacket
    }

    /// Has read the end.
    fn finish(&mut self)
        ensures { self.new ≡ Finished }
    {
        self.state = State::AtEnd;
    }
}

impl PacketCutter {
    ghost use Rattle.std.specs.Prelude.{◌≢◌, ◌<◌, is_err, IfOk, OnErr, ℕ, List, [], true, false};
    ghost use Rattle.std.specs.Borrow.{sem};
    ghost use Rattle.protocol.specs.Streams.{stream_from};
    ghost use Rattle.protocol.specs.Streams.StreamRead.{NoStream};
    ghost use Rattle.sl_packet.specs.Progress.{read_so_far, rest_in, HasBadByte};
    ghost use Rattle.sl_packet.specs.Progress.Progress.{Amid, Finished, Faulty};
    ghost use Rattle.sl_packet.specs.States.{first_is_e};
    ghost use Rattle.sl_packet.specs.Cuts.{IsFed, left_of, Leaves};

    /// A cutter that has read nothing.
    pub fn new() -> PacketCutter
        ensures { result ≡ Amid [] }
    {
        PacketCutter {
            bytes: Unfinished::new(),
            state: State::Within,
        }
    }

    /// How many bytes of an unfinished packet or of an unfinished end came, 0 to 519.
    pub fn rest(&self) -> usize
        ensures rest { result ≡ length (rest_in self.now) }
        ensures bound { result < 520 }
    {
        match self.state {
            State::Within => self.bytes.count(),
            State::AtEnd => 0,
            State::Refused => 0,
        }
    }

    /// Reads the piece as that of the end.
    fn feed_end(&mut self, piece: &[u8]) -> Result<Fed<'static>, NotAPacket>
        requires amid { self.old ≡ Amid (rest_in self.old) }
        requires first { first_is_e (rest_in self.old ++ piece.now) ≡ true }
        ensures fed { IfOk result (λ fed. IsFed self.old piece.now fed) }
        ensures bad { OnErr result (HasBadByte self.old piece.now) }
        ensures left { self.new ≡ left_of self.old piece.now result }
    {
        let missing = missing_of_end(self.held());
        match end_piece(missing, piece) {
            EndPiece::Whole => {
                self.finish();
                Ok(Fed {
                    used: missing.len(),
                    cut: Cut::End,
                })
            }
            EndPiece::Unfinished => {
                self.hold(piece);
                Ok(Fed {
                    used: piece.len(),
                    cut: Cut::Nothing,
                })
            }
            EndPiece::Other => Err(self.refuse()),
        }
    }

    /// Reads the piece as that of a packet.
    fn feed_packet<'a>(&'a mut self, piece: &'a [u8]) -> Result<Fed<'a>, NotAPacket>
        requires amid { self.old ≡ Amid (rest_in self.old) }
        requires first { first_is_e (rest_in self.old ++ piece.now) ≡ false }
        ensures fed { IfOk result (λ fed. IsFed self.old piece.now fed) }
        ensures bad { OnErr result (HasBadByte self.old piece.now) }
        ensures* left { sem 𝓛 (Leaves self.entry (left_of self.old piece.now result)) }
    {
        let held = self.held();
        let missing = PACKET - held;
        if !may_continue(held, piece) {
            return Err(self.refuse());
        }
        if piece.len() < missing {
            self.hold(piece);
            return Ok(Fed {
                used: piece.len(),
                cut: Cut::Nothing,
            });
        }
        if held == 0 {
            return Ok(Fed {
                used: PACKET,
                cut: Cut::Packet(piece.first_chunk().unwrap()),
            });
        }
        Ok(Fed {
            used: missing,
            cut: Cut::Packet(self.complete(&piece[..missing])),
        })
    }

    /// Reads the piece up to the end of the first packet that becomes whole, or of the end of the stream, and lends
    /// that packet up to the next call. Where nothing becomes whole, it reads all of the piece. Fault 10 where a byte
    /// before that fits no stream, as does any byte behind the end; after it each call is answered so.
    pub fn feed<'a>(&'a mut self, piece: &'a [u8]) -> Result<Fed<'a>, NotAPacket>
        ensures fed { IfOk result (λ fed. IsFed self.old piece.now fed) }
        ensures no_stream { OnErr result
            ((packets : List (List ℕ)) → stream_from (read_so_far packets self.old) piece.now ≡ NoStream) }
        ensures bad { OnErr result (self.old ≢ Faulty → HasBadByte self.old piece.now) }
        ensures for_good { self.old ≡ Faulty → is_err result ≡ true }
        ensures* left { sem 𝓛 (Leaves self.entry (left_of self.old piece.now result)) }
    {
        match self.state {
            State::Within => {
                if self.is_first_e(piece) {
                    return self.feed_end(piece);
                }
                self.feed_packet(piece)
            }
            State::AtEnd => {
                if piece.is_empty() {
                    return Ok(Fed {
                        used: 0,
                        cut: Cut::Nothing,
                    });
                }
                Err(self.refuse())
            }
            State::Refused => Err(NotAPacket),
        }
    }
}
