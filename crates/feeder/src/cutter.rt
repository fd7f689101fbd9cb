//! Records out of bytes.
ghost use Rattle.std.specs.Prelude.{◌≡◌, ◌++◌, length, take};

use protocol::limits::RECORD;
use sl_packet::Unfinished;
use std::marker::Model;

/// What a piece of a feed gives.
#[derive(Clone, Copy)]
pub struct Feeding<'a> {
    /// How many bytes of the piece were read: up to the last byte of the first record that becomes whole, and all of
    /// them where none does.
    pub used: usize,
    /// The record that became whole: in the piece itself, or in the cutter where it came in more than one piece.
    pub whole: Option<&'a [u8; 512]>,
}

/// Cuts the bytes of a feed into records of 512 bytes, in whatever pieces they come. In a contract a cutter is the
/// bytes of an unfinished record, fewer than 512.
#[derive(Drop)]
pub struct FeedCutter {
    bytes: Unfinished<RECORD>,
}

impl Model for FeedCutter {
    ghost use Rattle.std.specs.Prelude.{ℕ, List};

    ghost Value = { List ℕ };

    ghost view = { λ s. s.bytes.held };
}

impl FeedCutter {
    ghost use Rattle.std.specs.Prelude.{ℕ, ◌-◌, ◌<◌, List, [], min};
    ghost use Rattle.std.specs.Borrow.{sem};
    ghost use Rattle.protocol.specs.Streams.{feed_from};
    ghost use Rattle.feeder.specs.Feedings.{feed_read, lent_records, left_over, Leaves};

    /// A cutter that holds no byte.
    pub fn new() -> FeedCutter
        ensures { result ≡ [] }
    {
        FeedCutter {
            bytes: Unfinished::new(),
        }
    }

    /// How many bytes of an unfinished record it holds, 0 to 511.
    pub fn rest(&self) -> usize
        ensures rest { result ≡ length self.now }
        ensures bound { result < 512 }
    {
        self.bytes.count()
    }

    /// Reads the piece up to the end of the first record that becomes whole, and lends that record up to the next call.
    /// Where none becomes whole, it reads and holds all of the piece.
    pub fn feed<'a>(&'a mut self, piece: &'a [u8]) -> Feeding<'a>
        ensures used { result.used ≡ min (512 - length self.old) (length piece.now) }
        ensures read { (records : List (List ℕ)) → feed_from (feed_read records self.old) (take result.used piece.now)
            ≡ feed_read (records ++ lent_records result.whole) (left_over self.old piece.now result.whole) }
        ensures bound { length self.old < 512 }
        ensures* rest { sem 𝓛 (Leaves self.entry (left_over self.old piece.now result.whole)) }
    {
        let held = self.rest();
        let missing = RECORD - held;
        if piece.len() < missing {
            self.bytes.hold(piece);
            return Feeding {
                used: piece.len(),
                whole: None,
            };
        }
        if held == 0 {
            return Feeding {
                used: RECORD,
                whole: Some(piece.first_chunk().unwrap()),
            };
        }
        self.bytes.complete(&piece[..missing]);
        Feeding {
            used: missing,
            whole: Some(self.bytes.whole()),
        }
    }
}
