//! The patterns of SELECT.
use crate::records::Facts;
use crate::words::parted;

/// What a pattern asks of a record, without its `!`. What is left off is empty.
#[derive(Clone, Copy, Drop)]
struct Shape<'a> {
    location: &'a [u8],
    channel: &'a [u8],
    kind: &'a [u8],
}

fn is_kind(byte: u8) -> bool {
    matches!(byte, b'D' | b'E' | b'C' | b'O' | b'T' | b'L')
}

/// Whether a location or a channel may have a byte: letters, digits and `?`, and a location `-`.
fn may_have(byte: u8, is_location: bool) -> bool {
    let is_dash = is_location && byte == b'-';
    is_dash || matches!(byte, b'A'..=b'Z' | b'a'..=b'z' | b'0'..=b'9' | b'?')
}

fn may_be(code: &[u8], is_location: bool) -> bool {
    for byte in code {
        if !may_have(*byte, is_location) {
            return false;
        }
    }
    true
}

/// The location, the channel and the type of a text by its length, whatever they are.
fn shape_of(text: &[u8]) -> Option<Shape<'_>> {
    let (codes, kind) = match parted(text, b'.') {
        (codes, Some(kind)) if kind.len() == 1 => (codes, kind),
        (kind, None) if kind.len() == 1 => (b"".as_slice(), kind),
        (codes, None) if !codes.is_empty() => (codes, b"".as_slice()),
        _ => return None,
    };
    let (location, channel) = match codes.len() {
        0 | 3 => (b"".as_slice(), codes),
        5 => codes.split_at(2),
        _ => return None,
    };
    Some(Shape {
        location,
        channel,
        kind,
    })
}

fn is_right(shape: Shape<'_>) -> bool {
    let is_type = match shape.kind {
        [kind] => is_kind(*kind),
        _ => true,
    };
    is_type && may_be(shape.location, true) && may_be(shape.channel, false)
}

/// The pattern without its `!`, and whether it had one.
fn without_sign(text: &[u8]) -> (bool, &[u8]) {
    match text {
        [b'!', rest @ ..] => (true, rest),
        _ => (false, text),
    }
}

pub fn is_pattern(text: &[u8]) -> bool {
    let (_, rest) = without_sign(text);
    match shape_of(rest) {
        Some(shape) => is_right(shape),
        None => false,
    }
}

/// Whether wildcards fit a code that is padded with spaces.
fn fits(wanted: &[u8], code: &[u8], is_location: bool) -> bool {
    for (place, byte) in wanted.iter().enumerate() {
        let letter = code.get(place).copied().unwrap_or(b' ');
        let is_space = is_location && *byte == b'-' && letter == b' ';
        if *byte != b'?' && *byte != letter && !is_space {
            return false;
        }
    }
    true
}

/// Whether each part of a pattern fits a record.
fn are_fitting(shape: Shape<'_>, facts: &Facts) -> bool {
    let is_type = match shape.kind {
        [kind] => *kind == facts.kind,
        _ => true,
    };
    is_type
        && fits(shape.location, facts.location, true)
        && fits(shape.channel, facts.channel, false)
}

/// Whether a valid pattern, without its `!`, matches a record.
fn matches_record(text: &[u8], facts: &Facts) -> bool {
    match shape_of(text) {
        Some(shape) => are_fitting(shape, facts),
        None => false,
    }
}

/// Whether patterns let a record pass.
pub fn let_pass(patterns: &[Vec<u8>], facts: &Facts) -> bool {
    let mut is_asked = false;
    let mut is_matched = false;
    for pattern in patterns {
        let (is_refusing, text) = without_sign(pattern.as_slice());
        let matches = matches_record(text, facts);
        if is_refusing && matches {
            return false;
        }
        if !is_refusing {
            is_asked = true;
            is_matched = is_matched || matches;
        }
    }
    is_matched || !is_asked
}
