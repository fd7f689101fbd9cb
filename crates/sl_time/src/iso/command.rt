//! The moments of the command line, as commands spell them.
ghost use Rattle.std.specs.Prelude.{◌≡◌, ◌≤◌, IfOk, length, map};
ghost use Rattle.sl_time.specs.Spelled.{civil_part as spec_civil_part, command_text, has_date as spec_has_date};
ghost use Rattle.sl_time.specs.Spelled.{has_fraction as spec_has_fraction};
ghost use Rattle.sl_time.specs.Spelled.{has_minute as spec_has_minute, is_digit as spec_is_digit};
ghost use Rattle.sl_time.specs.Spelled.{is_iso as spec_is_iso, with_comma as spec_with_comma};
ghost use Rattle.sl_time.specs.Spelled.{without_fraction as spec_without_fraction};
ghost use Rattle.sl_time.specs.Spelled.{without_zone as spec_without_zone};

use std::alloc::{AllocError, Global};

/// How many bytes `2024-02-29` has.
const DATE: usize = 10;

/// How many bytes `2024-02-29T00:00` has.
const MINUTE: usize = 16;

/// How many bytes `2024-02-29T00:00:00` has.
const SECOND: usize = 19;

/// How many bytes `2024-02-29T00:00:00.0000` has.
const FRACTION: usize = 24;

/// A text without the `Z` that may stand behind its date and time.
fn without_zone(word: &[u8]) -> &[u8]
    ensures { result.now ≡ spec_without_zone word.now }
{
    match word.len() {
        17 | 20 | 25 => {
            let end = word.len() - 1;
            if word[end] == b'Z' {
                &word[..end]
            } else {
                word
            }
        }
        _ => word,
    }
}

/// Whether a byte is a decimal digit.
fn is_digit(byte: u8) -> bool
    ensures { result ≡ spec_is_digit byte }
{
    b'0' <= byte && byte <= b'9'
}

/// Whether a text ends with a fraction of four digits behind its second.
fn has_fraction(text: &[u8]) -> bool
    ensures { result ≡ spec_has_fraction text.now }
{
    text.len() == FRACTION
        && text[SECOND] == b'.'
        && is_digit(text[20])
        && is_digit(text[21])
        && is_digit(text[22])
        && is_digit(text[23])
}

/// A text without that fraction.
fn without_fraction(text: &[u8]) -> &[u8]
    ensures { result.now ≡ spec_without_fraction text.now }
{
    if has_fraction(text) {
        &text[..SECOND]
    } else {
        text
    }
}

/// The date and time of a word, without a fraction and a zone.
#[tactic(auto, unfolding(crate::specs::Spelled::civil_part))]
fn civil_part(word: &[u8]) -> &[u8]
    ensures { result.now ≡ spec_civil_part word.now }
{
    without_fraction(without_zone(word))
}

/// Whether a text has the marks of a date.
fn has_date(text: &[u8]) -> bool
    requires { 10 ≤ length text.now }
    ensures { result ≡ spec_has_date text.now }
{
    text[4] == b'-' && text[7] == b'-'
}

/// Whether a text has the marks of an hour and a minute behind its date.
fn has_minute(text: &[u8]) -> bool
    requires { 16 ≤ length text.now }
    ensures { result ≡ spec_has_minute text.now }
{
    text[10] == b'T' && text[13] == b':'
}

/// Whether a text has the marks of a date, or of a date and a time to the minute or to the second.
#[tactic(auto, unfolding(crate::specs::Spelled::is_iso))]
fn is_iso(text: &[u8]) -> bool
    ensures { result ≡ spec_is_iso text.now }
{
    match text.len() {
        DATE => has_date(text),
        MINUTE => has_date(text) && has_minute(text),
        SECOND => has_date(text) && has_minute(text) && text[16] == b':',
        _ => false,
    }
}

/// A comma for each of these marks.
fn with_comma(byte: u8) -> u8
    ensures { result ≡ spec_with_comma byte }
{
    match byte {
        b'-' | b':' | b'T' => b',',
        _ => byte,
    }
}

/// The text of a command's time (SeedLink 3) for a moment of the command line: of `2024-02-29T00:00:00` that is
/// `2024,02,29,00,00,00`. A date alone, and a date with hours and minutes, have fewer numbers, and a fraction of four
/// digits is dropped. Each may have a `Z` behind it, and any other word is passed on as it stands. Whether the text
/// spells a time is for `sl_time::parse` to say.
pub fn command_time(alloc: Global, word: &[u8]) -> Result<Vec<u8>, AllocError>
    ensures { IfOk result (λ text. text.items ≡ command_text word.now) }
{
    let text = civil_part(word);
    if is_iso(text) {
        text.iter().map(|byte| with_comma(*byte)).collect(alloc)
    } else {
        Vec::from_slice(alloc, word)
    }
}
