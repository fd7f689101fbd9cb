//! Lines, and how many were dropped.
//!
//! A line to standard error is dropped rather than waited for, and the next one says how many were. Pipes and terminals
//! are opened a second time, so that not to wait is a setting of this program alone and not of the shell that started
//! it.
ghost use Rattle.std.specs.Prelude.{◌≡◌, ◌==◌, ◌<◌, ◌≤◌, length, false};
ghost use Rattle.arrayvec.specs.ArrayString.{array_string_len};
ghost use Rattle.error_lines.specs.ErrorLines.{lines_value};
ghost use Rattle.error_lines.specs.Lines.{WritesLine, head_of, noted};

use crate::Device;
use arrayvec::ArrayString;
use itoa::Buffer;

/// A line without its end, in room that is there already. A write that doesn't fit fails and appends nothing.
pub type ErrorLine = ArrayString<2048>;

/// All that is written at once: a pipe takes so many bytes whole or not at all.
type Text = ArrayString<4096>;

/// Lines to a device. A line that the device does not take whole at once is dropped and counted, and the next one that
/// it takes has a line before it that says how many were: `seedlinkd: lines dropped: 3`.
#[derive(Drop)]
pub struct ErrorLines<D> {
    device: D,
    /// How many lines were dropped that nobody was told of. It stays at 2^64 - 1.
    dropped: u64,
    /// The bytes that the device took last end inside a line.
    is_cut: bool,
}

impl<D> ErrorLines<D> {
    /// Lines to a device, of which none was dropped.
    pub fn new(device: D) -> ErrorLines<D>
        ensures device { result.device ≡ device }
        ensures value { lines_value result ≡ record { dropped = 0; is_cut = false } }
    {
        ErrorLines {
            device,
            dropped: 0,
            is_cut: false,
        }
    }

    /// How many lines were dropped that no line has told of. It stays at 2^64 - 1.
    pub fn dropped(&self) -> u64
        ensures { result ≡ (lines_value self.now).dropped }
    {
        self.dropped
    }

    /// The device.
    pub fn device(&self) -> &D
        ensures { result.now ≡ self.now.device }
    {
        &self.device
    }

    /// What goes before the next line.
    fn head(&self) -> Text
        ensures bytes { result.bytes ≡ head_of (lines_value self.now) }
        ensures short { array_string_len result ≤ 67 }
    {
        let mut head = Text::new();
        if self.is_cut {
            head.push_str("\n");
        }
        if self.dropped > 0 {
            let mut digits = Buffer::new();
            head.push_str("seedlinkd: lines dropped: ");
            head.push_str(digits.format(self.dropped));
            head.push_str("\n");
        }
        head
    }

    /// The device took the first `count` bytes of a text whose first `head` go before the line. Whether the line is
    /// written.
    fn note(&mut self, text: &[u8], head: usize, count: usize) -> bool
        requires head { head < length text.now }
        requires count { count ≤ length text.now }
        ensures answer { result ≡ (count == length text.now) }
        ensures value { lines_value self.new ≡ noted (lines_value self.old) text.now head count }
        ensures device { self.new.device ≡ self.old.device }
    {
        if count == text.len() {
            self.dropped = 0;
            self.is_cut = false;
            return true;
        }
        self.dropped = if head <= count {
            1
        } else {
            self.dropped.saturating_add(1)
        };
        if count > 0 {
            self.is_cut = text[count - 1] != b'\n';
        }
        false
    }
}

impl<D: Device> ErrorLines<D> {
    /// Writes a line, with its end after it, and before it how many were dropped, if any were: in one piece, without
    /// waiting. If the device takes less than all of that, the line is dropped, and `false` is answered. What it took
    /// stays, and the next line begins with the end of that one.
    pub fn write_line(&mut self, line: &ErrorLine) -> bool
        ensures { WritesLine (lines_value self.old) (lines_value self.new) (D.taken self.old.device)
            (D.taken self.new.device) line.now.bytes result }
    {
        let mut text = self.head();
        let head = text.len();
        text.push_str(line.as_str());
        text.push_str("\n");
        let count = self.device.accept(text.as_bytes());
        self.note(text.as_bytes(), head, count)
    }
}
