//! One pattern.
ghost use Rattle.std.specs.Prelude.{◌≡◌};
ghost use Rattle.std.specs.List.{list_all};
ghost use Rattle.protocol.specs.Pattern.{body_of, byte_matches, bytes_match, channel_pattern};
ghost use Rattle.protocol.specs.Pattern.{is_channel_byte, is_location_byte};
ghost use Rattle.protocol.specs.Pattern.{kind_matches, kind_of_letter, kind_pattern, matches, part_matches, pattern_of};
ghost use Rattle.protocol.specs.Pattern.{place_pattern};
ghost use Rattle.protocol.specs.Record.{Facts};
ghost use Rattle.selector.specs.Matching.{matches_parts};
ghost use Rattle.selector.specs.PatternCodes.{channel_of, location_of};

use protocol::record::Kind;
use std::marker::Model;

/// The location and the channel that a pattern gives.
#[derive(Clone, Copy)]
enum Codes {
    /// Neither.
    Nothing,
    /// A channel alone.
    Channel([u8; 3]),
    /// A location and a channel.
    Both([u8; 2], [u8; 3]),
}

/// A pattern that chooses records by their location, channel and type, or that refuses them where it is negated. What
/// it leaves off matches anything; the default leaves off everything.
///
/// In the location and the channel `?` matches any byte, `-` a space, and every other character itself.
#[derive(Clone, Copy)]
pub struct Pattern {
    negated: bool,
    codes: Codes,
    kind: Option<Kind>,
}

impl Model for Pattern {
    ghost use Rattle.std.specs.Prelude.{refl};
    ghost use Rattle.protocol.specs.Pattern.{Pattern};
    ghost use Rattle.selector.specs.PatternCodes.{channel_of, codes_of, codes-again, location_of};

    ghost Value = { Pattern };

    ghost view = { λ s. record {
      negated = s.negated;
      location = location_of s.codes;
      channel = channel_of s.codes;
      kind = s.kind;
    } };

    ghost inverse = { λ p. record {
      negated = p.negated;
      codes = codes_of p.location p.channel;
      kind = p.kind;
    } };

    ghost inverse_ok = { λ s h. rw (codes-again s.codes) refl };
}

impl Default for Pattern {
    ghost use Rattle.std.specs.Prelude.{None, false};

    /// The pattern that leaves off everything.
    fn default() -> Pattern
        ensures { result ≡ record { negated = false; location = None; channel = None; kind = None } }
    {
        Pattern {
            negated: false,
            codes: Codes::Nothing,
            kind: None,
        }
    }
}

impl Pattern {
    /// The pattern that a text is: an optional `!`, which negates, and one of a location and a channel (5 characters),
    /// a channel (3 characters), either of these with `.` and a type, a type alone, and `.` and a type. A type is one
    /// of `D`, `E`, `C`, `O`, `T` and `L`. A channel's characters are letters, digits and `?`, a location's these and
    /// `-`.
    ///
    /// None where the text is anything else.
    pub fn parse(text: &[u8]) -> Option<Pattern>
        ensures { result ≡ pattern_of text.now }
    {
        match text {
            [b'!', body @ ..] => Pattern::of_body(true, body),
            body => Pattern::of_body(false, body),
        }
    }

    fn of_body(negated: bool, body: &[u8]) -> Option<Pattern>
        ensures { result ≡ body_of negated body.now }
    {
        match *body {
            [letter] => Pattern::of_kind(negated, kind_of_letter(letter)?),
            [b'.', letter] => Pattern::of_kind(negated, kind_of_letter(letter)?),
            [a, b, c] => Pattern::of_channel(negated, [a, b, c], None),
            [a, b, c, b'.', letter] => Pattern::of_channel(
                negated,
                [a, b, c],
                Some(kind_of_letter(letter)?),
            ),
            [a, b, c, d, e] => Pattern::of_place(negated, [a, b], [c, d, e], None),
            [a, b, c, d, e, b'.', letter] => Pattern::of_place(
                negated,
                [a, b],
                [c, d, e],
                Some(kind_of_letter(letter)?),
            ),
            _ => None,
        }
    }

    fn of_kind(negated: bool, kind: Kind) -> Option<Pattern>
        ensures { result ≡ kind_pattern negated (Some kind) }
    {
        Some(Pattern {
            negated,
            codes: Codes::Nothing,
            kind: Some(kind),
        })
    }

    fn of_channel(negated: bool, channel: [u8; 3], kind: Option<Kind>) -> Option<Pattern>
        ensures { result ≡ channel_pattern negated channel kind }
    {
        if !is_channel(&channel) {
            return None;
        }
        Some(Pattern {
            negated,
            codes: Codes::Channel(channel),
            kind,
        })
    }

    fn of_place(
        negated: bool,
        location: [u8; 2],
        channel: [u8; 3],
        kind: Option<Kind>,
    ) -> Option<Pattern>
        ensures { result ≡ place_pattern negated location channel kind }
    {
        if !is_location(&location) || !is_channel(&channel) {
            return None;
        }
        Some(Pattern {
            negated,
            codes: Codes::Both(location, channel),
            kind,
        })
    }

    /// Whether the location, the channel and the type match, whether it is negated or not.
    pub fn matches(&self, location: &[u8; 2], channel: &[u8; 3], kind: Kind) -> bool
        ensures parts { result ≡ matches_parts location.now channel.now kind self.now }
        ensures facts { (x : Facts) → x.location ≡ location.now → x.channel ≡ channel.now → x.kind ≡ kind
            → result ≡ matches x self.now }
    {
        location_matches(&self.codes, location)
            && channel_matches(&self.codes, channel)
            && kind_matches(self.kind, kind)
    }

    /// Whether a match refuses the record.
    pub fn negated(&self) -> bool
        ensures { result ≡ self.now.negated }
    {
        self.negated
    }
}

fn location_matches(codes: &Codes, location: &[u8; 2]) -> bool
    ensures { result ≡ part_matches (location_of codes.now) location.now }
{
    match codes {
        Codes::Both(pattern, _channel) => byte_matches(pattern[0], location[0])
            && byte_matches(pattern[1], location[1]),
        Codes::Channel(_channel) => true,
        Codes::Nothing => true,
    }
}

fn channel_matches(codes: &Codes, channel: &[u8; 3]) -> bool
    ensures { result ≡ part_matches (channel_of codes.now) channel.now }
{
    match codes {
        Codes::Both(_location, pattern) => are_matched(pattern, channel),
        Codes::Channel(pattern) => are_matched(pattern, channel),
        Codes::Nothing => true,
    }
}

/// Whether the characters of a channel's pattern match its bytes.
fn are_matched(pattern: &[u8; 3], channel: &[u8; 3]) -> bool
    ensures { result ≡ bytes_match pattern.now channel.now }
{
    byte_matches(pattern[0], channel[0])
        && byte_matches(pattern[1], channel[1])
        && byte_matches(pattern[2], channel[2])
}

fn kind_matches(pattern: Option<Kind>, kind: Kind) -> bool
    ensures { result ≡ kind_matches pattern kind }
{
    match pattern {
        Some(pattern) => pattern == kind,
        None => true,
    }
}

/// Whether a character of a pattern matches a byte.
fn byte_matches(character: u8, byte: u8) -> bool
    ensures { result ≡ byte_matches character byte }
{
    match character {
        b'?' => true,
        b'-' => byte == b' ',
        _ => character == byte,
    }
}

/// The type that a letter stands for.
fn kind_of_letter(letter: u8) -> Option<Kind>
    ensures { result ≡ kind_of_letter letter }
{
    match letter {
        b'D' => Some(Kind::D),
        b'E' => Some(Kind::E),
        b'C' => Some(Kind::C),
        b'O' => Some(Kind::O),
        b'T' => Some(Kind::T),
        b'L' => Some(Kind::L),
        _ => None,
    }
}

/// A letter, a digit or `?`.
fn is_channel_byte(byte: u8) -> bool
    ensures { result ≡ is_channel_byte byte }
{
    matches!(byte, b'0'..=b'9' | b'A'..=b'Z' | b'a'..=b'z' | b'?')
}

/// The same or `-`.
fn is_location_byte(byte: u8) -> bool
    ensures { result ≡ is_location_byte byte }
{
    is_channel_byte(byte) || byte == b'-'
}

fn is_channel(bytes: &[u8]) -> bool
    ensures { result ≡ list_all is_channel_byte bytes.now }
{
    bytes.iter().all(|byte| is_channel_byte(*byte))
}

fn is_location(bytes: &[u8]) -> bool
    ensures { result ≡ list_all is_location_byte bytes.now }
{
    bytes.iter().all(|byte| is_location_byte(*byte))
}
