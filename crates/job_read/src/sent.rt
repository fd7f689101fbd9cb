//! What a server sent that is no reply of SeedLink, as it is told.
ghost use Rattle.std.specs.Prelude.{◌≡◌};
ghost use Rattle.job_read.specs.Sent.{first_line};

use crate::want_lines::without_return;
use std::fmt::{self, Display, Formatter, Write};
use text_parts::separators::cut_at;

/// How many bytes are kept of what was sent last.
const MOST: usize = 60;

/// The first bytes of what a server sent last, up to 60.
#[derive(Clone, Copy, Drop)]
pub struct SentPiece {
    bytes: [u8; MOST],
    count: usize,
}

impl SentPiece {
    /// Nothing was sent yet.
    pub fn none() -> SentPiece {
        SentPiece {
            bytes: [0; MOST],
            count: 0,
        }
    }

    /// The first of these bytes.
    pub fn of(piece: &[u8]) -> SentPiece {
        let mut bytes = [0; MOST];
        let count = piece.len().min(MOST);
        bytes[..count].copy_from_slice(&piece[..count]);
        SentPiece { bytes, count }
    }

    /// They.
    pub fn bytes(&self) -> &[u8] {
        let count = self.count.min(MOST);
        &self.bytes[..count]
    }
}

/// The first line of some bytes, without its end.
fn first_line(bytes: &[u8]) -> &[u8]
    ensures { result.now ≡ first_line bytes.now }
{
    match cut_at(bytes, b'\n') {
        Some((line, _)) => without_return(line),
        None => without_return(bytes),
    }
}

impl Display for SentPiece {
    /// The line that tells it, with two spaces before it: a byte that is no visible one of ASCII as `\x` and two
    /// hexadecimal digits.
    fn fmt<W: Write>(&self, f: &mut Formatter<W>) -> fmt::Result {
        f.write_str("  sent: ")?;
        for byte in first_line(self.bytes()) {
            match byte {
                b' '..=b'~' => f.write_char(*byte as char)?,
                _ => write!(f, "\\x{byte:02x}")?,
            }
        }
        f.write_str("\n")
    }
}
