//! Lines with text of others: paths, words of a command line, keys and addresses. What controls a terminal is shown as
//! `?`, and a line ends after 200 bytes, never inside a character. So nobody who names a file can clear a screen, write
//! a line of another program, or fill a log.
#![tactic(auto)]

ghost use Rattle.std.specs.Prelude.{◌≡◌};
ghost use Rattle.shown_lines.specs.Shown.{room_after as spec_room_after, shown as spec_shown};

use std::fmt::{self, Display, Formatter, Write};

/// How many bytes a line has at most, without its end.
const MOST: usize = 200;

/// A character as it is shown: `?` for one that controls a terminal, which are those below the space, and those from
/// the delete (U+007F) to U+009F, which eight-bit terminals obey: U+009B begins a sequence there as escape and `[` do.
fn shown(c: char) -> char
    ensures { result ≡ spec_shown c }
{
    if c < ' ' || ('\x7f' <= c && c <= '\u{9f}') {
        '?'
    } else {
        c
    }
}

/// How many bytes of a line are left after a character, if it fits.
fn room_after(room: usize, c: char) -> Option<usize>
    ensures { result ≡ spec_room_after room c }
{
    if room < c.len_utf8() {
        None
    } else {
        Some(room - c.len_utf8())
    }
}

/// A line under way, whose characters are passed on as they are shown.
#[derive(Drop)]
pub struct ShownLine<'f, W> {
    out: &'f mut Formatter<W>,
    /// How many bytes of it are left.
    room: usize,
}

impl<'f, W: Write> ShownLine<'f, W> {
    /// A line that begins.
    pub fn new(out: &'f mut Formatter<W>) -> ShownLine<'f, W> {
        ShownLine { out, room: MOST }
    }

    /// Passes a character on, if it fits. No character comes after one that doesn't.
    fn put(&mut self, c: char) -> fmt::Result {
        let c = shown(c);
        match room_after(self.room, c) {
            Some(room) => {
                self.room = room;
                self.out.write_char(c)
            }
            None => {
                self.room = 0;
                Ok(())
            }
        }
    }

    /// Ends the line, and begins another one.
    fn end(&mut self) -> fmt::Result {
        self.room = MOST;
        self.out.write_str("\n")
    }

    /// Passes a character on, or ends the line at a line's end.
    fn put_or_end(&mut self, c: char) -> fmt::Result {
        if c == '\n' { self.end() } else { self.put(c) }
    }
}

impl<'f, W: Write> Write for ShownLine<'f, W> {
    /// A line's end in the text is no end of the line, and is shown as `?`.
    fn write_str(&mut self, text: &str) -> fmt::Result {
        for c in text.chars() {
            self.put(c)?;
        }
        Ok(())
    }
}

/// A line that says what a word stands for, with two spaces before it.
pub fn put_line<W: Write, D: Display + Drop>(
    f: &mut Formatter<W>,
    word: &str,
    value: D,
) -> fmt::Result {
    let mut line = ShownLine::new(f);
    write!(line, "  {word}: {value}")?;
    line.end()
}

/// A text of several lines, each of which is shown so.
#[derive(Clone, Copy)]
pub struct ShownText<'a>(pub &'a str);

impl Display for ShownText<'_> {
    fn fmt<W: Write>(&self, f: &mut Formatter<W>) -> fmt::Result {
        let mut line = ShownLine::new(f);
        for c in self.0.chars() {
            line.put_or_end(c)?;
        }
        Ok(())
    }
}
