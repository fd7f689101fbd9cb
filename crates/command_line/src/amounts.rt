//! Numbers, lengths of time and periods that options have.
ghost use Rattle.std.specs.Prelude.{◌≡◌, ◌≤◌, ◌*◌, IfSome};
ghost use Rattle.command_line.specs.Jobs.{InRange, IsOften, in_range, number_of, period_of, seconds_in_unit, seconds_of};
ghost use Rattle.command_line.specs.Jobs.{time_of};

use crate::words::text_at;
use clap::ArgMatches;
use text_parts::decimal;
use text_parts::period::Period;

/// A number, if it is 1 to 1,000,000,000.
fn in_range(number: usize) -> Option<usize>
    ensures value { result ≡ in_range number }
    ensures range { InRange result }
{
    if number < 1 || number > 1_000_000_000 {
        None
    } else {
        Some(number)
    }
}

/// The number from 1 to 1,000,000,000 that a text spells.
fn number_of(text: &[u8]) -> Option<usize>
    ensures value { result ≡ number_of text.now }
    ensures range { InRange result }
{
    in_range(decimal::number(text, 1, 10)?)
}

/// The number that an option has: the inner None where it is left out, and None where the text is no number of its
/// range.
pub fn number_in<'a>(arguments: &ArgMatches<'a>, name: &str) -> Option<Option<usize>>
    ensures { IfSome result InRange }
{
    let Some(text) = text_at(arguments, name) else {
        return Some(None);
    };
    match number_of(text.as_bytes()) {
        Some(number) => Some(Some(number)),
        None => None,
    }
}

/// How many seconds a unit has: `s`, `m` or `h`.
fn seconds_in_unit(unit: u8) -> Option<usize>
    ensures { result ≡ seconds_in_unit unit }
{
    match unit {
        b's' => Some(1),
        b'm' => Some(60),
        b'h' => Some(3_600),
        _ => None,
    }
}

/// How many seconds so many units are, if they are 1 to 1,000,000,000.
fn scaled(number: usize, unit: usize) -> Option<usize>
    requires number { number ≤ 1000000000 }
    requires unit { unit ≤ 3600 }
    ensures value { result ≡ in_range (number * unit) }
    ensures range { InRange result }
{
    in_range(number * unit)
}

/// The seconds that a text with a unit at its end spells: `90s`, `10m` or `2h`.
fn time_of(text: &[u8]) -> Option<usize>
    ensures value { result ≡ time_of text.now }
    ensures range { InRange result }
{
    let (unit, digits) = text.split_last()?;
    let unit = seconds_in_unit(*unit)?;
    let number = number_of(digits)?;
    scaled(number, unit)
}

/// The seconds that a text spells, with a unit or without: `90`, `90s`, `10m` or `2h`.
fn seconds_of(text: &[u8]) -> Option<usize>
    ensures value { result ≡ seconds_of text.now }
    ensures range { InRange result }
{
    match number_of(text) {
        Some(number) => Some(number),
        None => time_of(text),
    }
}

/// The seconds that an option has: the inner None where it is left out, and None where the text spells none.
pub fn seconds_in<'a>(arguments: &ArgMatches<'a>, name: &str) -> Option<Option<usize>>
    ensures { IfSome result InRange }
{
    let Some(text) = text_at(arguments, name) else {
        return Some(None);
    };
    match seconds_of(text.as_bytes()) {
        Some(seconds) => Some(Some(seconds)),
        None => None,
    }
}

/// How often a text says: `N` is every so many turns, and with a unit, as `60s`, every so many seconds.
fn period_of(text: &[u8]) -> Option<Period>
    ensures value { result ≡ period_of text.now }
    ensures range { IsOften result }
{
    match number_of(text) {
        Some(number) => Some(Period::Turns(number)),
        None => match time_of(text) {
            Some(seconds) => Some(Period::Seconds(seconds)),
            None => None,
        },
    }
}

/// How often an option says: the inner None where it is left out, and None where the text does not say it.
pub fn period_in<'a>(arguments: &ArgMatches<'a>, name: &str) -> Option<Option<Period>>
    ensures { IfSome result IsOften }
{
    let Some(text) = text_at(arguments, name) else {
        return Some(None);
    };
    match period_of(text.as_bytes()) {
        Some(period) => Some(Some(period)),
        None => None,
    }
}
