//! One more byte of a line that answers HELLO, or of an answer to a command.
//!
//! A line that answers HELLO ends with CR LF, and nothing else ends it. A fault in a piece comes at the first byte with
//! which no dialogue goes on, and not at the end of the line.
ghost use Rattle.std.specs.Prelude.{◌≡◌, ◌≤◌, Bool, length};
ghost use Rattle.slreader.specs.Pieces.{begins_error as spec_begins_error, line_piece as spec_line_piece};
ghost use Rattle.slreader.specs.Pieces.{reply_byte as spec_reply_byte, reply_piece as spec_reply_piece};
ghost use Rattle.slreader.specs.Pieces.{reply_text as spec_reply_text};

/// How many bytes a line has at most, without its end.
const LINE: usize = 256;

/// What the bytes of a line are with one more.
#[derive(Clone, Copy)]
pub(crate) enum LinePiece {
    /// A whole line with its end.
    Whole,
    /// A beginning of one.
    Open,
    /// Neither.
    Other,
}

/// What the bytes of an answer are with one more.
#[derive(Clone, Copy)]
pub(crate) enum ReplyPiece {
    /// All of ERROR, or of OK.
    Whole { is_error: bool },
    /// A beginning of the one or of the other.
    Open { is_error: bool },
    /// Neither.
    Other,
}

/// One more byte behind `count` bytes of a line, the last of which is CR or is not. The line begins with the bytes of
/// `mark`, has at most 256 bytes, and is ended by CR LF.
pub(crate) fn line_piece(mark: &[u8], count: usize, after_cr: bool, byte: u8) -> LinePiece
    ensures piece { result ≡ spec_line_piece mark.now count after_cr byte }
    ensures bound { result ≡ LinePiece.Open → count ≤ 256 }
{
    if count < mark.len() && mark[count] != byte {
        LinePiece::Other
    } else if after_cr && byte == b'\n' {
        LinePiece::Whole
    } else if count < LINE || (count == LINE && byte == b'\r') {
        LinePiece::Open
    } else {
        LinePiece::Other
    }
}

fn reply_text(is_error: bool) -> &'static [u8]
    ensures text { result.now ≡ spec_reply_text is_error }
    ensures bound { length result.now ≤ 256 }
{
    if is_error { b"ERROR\r\n" } else { b"OK\r\n" }
}

/// Whether the answer is an ERROR. The first byte decides.
fn begins_error(count: usize, is_error: bool, byte: u8) -> bool
    ensures { result ≡ spec_begins_error count is_error byte }
{
    if count == 0 { byte == b'E' } else { is_error }
}

fn reply_byte(text: &[u8], count: usize, is_error: bool, byte: u8) -> ReplyPiece
    ensures piece { result ≡ spec_reply_byte text.now count is_error byte }
    ensures bound { (e : Bool) → result ≡ ReplyPiece.Open e → count ≤ length text.now }
{
    if count >= text.len() || text[count] != byte {
        ReplyPiece::Other
    } else if count + 1 == text.len() {
        ReplyPiece::Whole { is_error }
    } else {
        ReplyPiece::Open { is_error }
    }
}

/// One more byte behind `count` bytes of an answer.
pub(crate) fn reply_piece(count: usize, is_error: bool, byte: u8) -> ReplyPiece
    ensures piece { result ≡ spec_reply_piece count is_error byte }
    ensures bound { (e : Bool) → result ≡ ReplyPiece.Open e → count ≤ 256 }
{
    let is_error = begins_error(count, is_error, byte);
    reply_byte(reply_text(is_error), count, is_error, byte)
}
