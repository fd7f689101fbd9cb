//! At most so many lines of a text.
ghost use Rattle.std.specs.Prelude.{◌≡◌, ◌==◌, ◌+◌, ◌++◌, ◌-◌, ◌^◌, ◌<◌, ◌≤◌, if◌then◌else◌, OnOk, length, take};
ghost use Rattle.config_explained.specs.Unknown.{first_lines as spec_first_lines, line_ends, more_line, named};

use crate::lines::put;
use itoa::Buffer;
use std::alloc::AllocError;

/// How many lines are kept.
const MOST: usize = 64;

/// The first lines of a text.
struct FirstLines {
    /// How many bytes they have.
    length: usize,
    /// How many lines come after them.
    more: usize,
}

/// How many bytes the first lines have with the byte at a place, before which so many lines end.
fn length_with(length: usize, ends: usize, at: usize) -> usize
    requires { at < 2 ^ 63 }
    ensures open { ends < 64 → result ≡ at + 1 }
    ensures done { 64 ≤ ends → result ≡ length }
{
    if ends < MOST { at + 1 } else { length }
}

/// How many lines end with one byte more.
fn ends_with(ends: usize, byte: u8) -> usize
    requires { ends < 2 ^ 63 }
    ensures { result ≡ (if byte == 10 then ends + 1 else ends) }
{
    if byte == b'\n' { ends + 1 } else { ends }
}

/// The first 64 lines of a text.
fn first_lines(text: &[u8]) -> FirstLines
    ensures lines { take result.length text.now ≡ spec_first_lines 64 text.now }
    ensures within { result.length ≤ length text.now }
    ensures more { result.more ≡ line_ends text.now - 64 }
{
    let mut length = 0;
    let mut ends = 0;
    for (at, byte) in text.iter().enumerate() {
        length = length_with(length, ends, at);
        ends = ends_with(ends, *byte);
    }
    FirstLines {
        length,
        more: ends.saturating_sub(MOST),
    }
}

/// Puts the line that says how many more keys are not known after a text.
fn put_more(text: &mut Vec<u8>, count: usize) -> Result<(), AllocError>
    ensures { OnOk result (text.new.items ≡ text.old.items ++ more_line count) }
{
    put(text, b"seedlinkd: more unknown keys: ")?;
    put(text, Buffer::new().format(count).as_bytes())?;
    put(text, b"\n")?;
    Ok(())
}

/// Keeps the first 64 lines of a text, and puts after them how many more there were, if there were more.
pub fn keep_first(text: &mut Vec<u8>) -> Result<(), AllocError>
    ensures { OnOk result (text.new.items ≡ named text.old.items) }
{
    let FirstLines { length, more } = first_lines(text.as_slice());
    if more == 0 {
        return Ok(());
    }
    text.truncate(length);
    put_more(text, more)
}
