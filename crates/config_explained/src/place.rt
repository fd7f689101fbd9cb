//! Places in a text.
ghost use Rattle.std.specs.Prelude.{◌≡◌, ◌≢◌, ◌<◌, ◌≤◌, ◌-◌, ℕ, length, take, drop, slice_index};
ghost use Rattle.std.specs.List.{before_first, count_by};
ghost use Rattle.config_explained.specs.Places.{IsPlaceAfter, begins_character, is_line_end};

use text_parts::separators::cut_at;

/// A place in a text: its line and its column, both from 1 on, and the offset at which its line begins. LF ends a line,
/// and a column is a character.
#[derive(Clone, Copy)]
pub struct TextPlace {
    pub line: u128,
    pub column: u128,
    pub start: usize,
}

/// The place that so many bytes of a text are before.
pub fn place_of(text: &[u8], offset: usize) -> TextPlace
    requires { offset ≤ length text.now }
    ensures { IsPlaceAfter (take offset text.now) result }
{
    let before = &text[..offset];
    let start = start_of_line(before);
    TextPlace {
        line: line_ends(before) as u128 + 1,
        column: characters(&before[start..]) as u128 + 1,
        start,
    }
}

/// How many lines end in a text.
fn line_ends(text: &[u8]) -> usize
    ensures { result ≡ count_by is_line_end text.now }
{
    text.iter().filter(|byte| **byte == b'\n').count()
}

/// How many characters of UTF-8 begin in a text.
fn characters(text: &[u8]) -> usize
    ensures { result ≡ count_by begins_character text.now }
{
    text.iter()
        .filter(|byte| **byte < 128 || 192 <= **byte)
        .count()
}

/// Where the last line of a text begins.
pub(crate) fn start_of_line(text: &[u8]) -> usize
    ensures within { result ≤ length text.now }
    ensures begins { 0 < result → slice_index text.now (result - 1) ≡ 10 }
    ensures same_line { (k : ℕ) → result ≤ k → k < length text.now → slice_index text.now k ≢ 10 }
{
    let mut start = 0;
    for (i, byte) in text.iter().enumerate() {
        if *byte == b'\n' {
            start = i + 1;
        }
    }
    start
}

/// The line that begins at an offset, without its end.
pub fn line_from(text: &[u8], start: usize) -> &[u8]
    requires { start ≤ length text.now }
    ensures { result.now ≡ before_first is_line_end (drop start text.now) }
{
    let rest = &text[start..];
    match cut_at(rest, b'\n') {
        Some((line, _)) => line,
        None => rest,
    }
}
