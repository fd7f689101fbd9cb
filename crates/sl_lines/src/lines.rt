//! Lines out of bytes.
ghost use Rattle.std.specs.Prelude.{◌≡◌};
ghost use Rattle.std.specs.List.{position_or_len};
ghost use Rattle.protocol.specs.Lines.{is_line_end};

use arrayvec::ArrayVec;
use memchr::memchr2;
use std::marker::Model;

/// A line of a client, without its end (SeedLink 3, commands).
#[derive(Clone, Copy)]
pub enum Line<'a> {
    /// The bytes of a line of at most 256 bytes.
    Text(&'a [u8]),
    /// A line of more than 256 bytes.
    TooLong,
}

/// Whether a byte is CR or LF.
fn is_line_end(byte: u8) -> bool
    ensures { result ≡ is_line_end byte }
{
    byte == b'\r' || byte == b'\n'
}

/// How many bytes stand before the first CR or LF: all of them if there is none.
#[tactic(auto, using(crate::proofs::TextLemmas::text_lemmas))]
fn text_length(bytes: &[u8]) -> usize
    ensures { result ≡ position_or_len is_line_end bytes.now }
{
    match memchr2(b'\r', b'\n', bytes) {
        Some(end) => end,
        None => bytes.len(),
    }
}

/// The bytes since the last line end, as far as they are kept.
#[derive(Drop)]
struct OpenLine {
    bytes: ArrayVec<u8, 256>,
    is_too_long: bool,
}

impl Model for OpenLine {
    ghost use Rattle.std.specs.Prelude.{if◌then◌else◌};
    ghost use Rattle.protocol.specs.Lines.{Line as ProtocolLine};
    ghost use Rattle.protocol.specs.Lines.Line.{Text, TooLong};

    ghost Value = { ProtocolLine };

    ghost view = { λ s. if s.is_too_long then TooLong else Text s.bytes.items };
}

impl OpenLine {
    ghost use Rattle.std.specs.Prelude.{[], false};
    ghost use Rattle.std.specs.List.{list_any};
    ghost use Rattle.protocol.specs.Lines.{joined, open_after};
    ghost use Rattle.protocol.specs.Lines.Line.{Text};
    ghost use Rattle.sl_lines.specs.LineValues.{line_value};

    /// The empty line.
    fn new() -> OpenLine
        ensures { result ≡ Text [] }
    {
        OpenLine {
            bytes: ArrayVec::new(),
            is_too_long: false,
        }
    }

    /// Takes one more byte, which ends no line.
    fn join(&mut self, byte: u8)
        ensures { self.new ≡ joined self.old byte }
    {
        if self.bytes.is_full() {
            self.is_too_long = true;
        } else {
            self.bytes.push(byte);
        }
    }

    /// Takes bytes of which none ends a line.
    #[tactic(auto, using(crate::proofs::TextLemmas::run_lemmas))]
    fn extend(&mut self, text: &[u8])
        requires { list_any is_line_end text.now ≡ false }
        ensures { self.new ≡ open_after self.old text.now }
    {
        let _kept = self.bytes.len();
        match self.bytes.try_extend_from_slice(text) {
            Ok(()) => {}
            Err(_) => self.is_too_long = true,
        }
    }

    /// Begins a new line.
    fn clear(&mut self)
        ensures { self.new ≡ Text [] }
    {
        self.bytes.clear();
        self.is_too_long = false;
    }

    /// The bytes so far, as a line.
    fn line(&self) -> Line<'_>
        ensures { line_value result ≡ self.now }
    {
        if self.is_too_long {
            Line::TooLong
        } else {
            Line::Text(self.bytes.as_slice())
        }
    }
}

/// Cuts the bytes of a client into lines (SeedLink 3, commands). CR and LF both end a line, so that CR LF ends one and
/// then an empty one; an empty line is none. In a contract a cutter is its open line: the bytes since the last line
/// end.
#[derive(Drop)]
pub struct LineCutter {
    open: OpenLine,
    /// The last byte was a line end. Then `open` still holds the line that it ended, for whoever it is lent to.
    is_ended: bool,
}

impl Model for LineCutter {
    ghost use Rattle.std.specs.Prelude.{[], if◌then◌else◌};
    ghost use Rattle.protocol.specs.Lines.{Line as ProtocolLine};
    ghost use Rattle.protocol.specs.Lines.Line.{Text};

    ghost Value = { ProtocolLine };

    ghost view = { λ s. if s.is_ended then Text [] else s.open };
}

impl LineCutter {
    ghost use Rattle.std.specs.Prelude.{[], ◌∷◌, false};
    ghost use Rattle.std.specs.Borrow.{sem};
    ghost use Rattle.std.specs.List.{before_first, list_any, position_or_len};
    ghost use Rattle.protocol.specs.Lines.{cut_from, open_after};
    ghost use Rattle.protocol.specs.Lines.Line.{Text};
    ghost use Rattle.sl_lines.specs.LineValues.{lines_value, LeavesOpen};

    /// A cutter of which the open line is empty.
    pub fn new() -> LineCutter
        ensures { result ≡ Text [] }
    {
        LineCutter {
            open: OpenLine::new(),
            is_ended: false,
        }
    }

    /// Takes the next byte, and lends the line that it ends, up to the next call: `Text` for 1 to 256 bytes, and
    /// `TooLong` for more. None where the byte ends no line, or an empty one.
    pub fn push(&mut self, byte: u8) -> Option<Line<'_>>
        ensures cut { lines_value result ≡ cut_from self.old (byte ∷ []) }
        ensures* open { sem 𝓛 (LeavesOpen self.entry byte) }
    {
        if self.is_ended {
            self.open.clear();
            self.is_ended = false;
        }
        if !is_line_end(byte) {
            self.open.join(byte);
            return None;
        }
        self.is_ended = true;
        match self.open.line() {
            Line::Text([]) => None,
            line => Some(line),
        }
    }

    /// Takes the bytes before the first line end at once, and answers how many these are: all of them if none ends a
    /// line. The same as a `push` of each, which lends no line.
    #[tactic(auto, using(crate::proofs::TextLemmas::before_lemmas))]
    pub fn take_text(&mut self, bytes: &[u8]) -> usize
        ensures count { result ≡ position_or_len is_line_end bytes.now }
        ensures open { self.new ≡ open_after self.old (before_first is_line_end bytes.now) }
        ensures text { list_any is_line_end (before_first is_line_end bytes.now) ≡ false }
    {
        if self.is_ended {
            self.open.clear();
            self.is_ended = false;
        }
        let count = text_length(bytes);
        self.open.extend(&bytes[..count]);
        count
    }
}
