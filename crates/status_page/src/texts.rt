//! The texts of numbers, moments and lengths of time.
ghost use Rattle.std.specs.Prelude.{◌≡◌, ◌+◌, ◌/◌, ◌%◌, ◌<◌, ◌++◌, OnOk, decimal};
ghost use Rattle.status_page.specs.Texts.{address_text, age_text, bar_text, bars_text, digit_at, known_text, last_text};
ghost use Rattle.status_page.specs.Texts.{micros_text, number_and, since_text, six_digits};
ghost use Rattle.status_page.specs.Texts.{span_text, start_known, start_text};
ghost use Rattle.status_page.specs.Texts.{stop_seconds, stop_text, unix_seconds};
ghost use Rattle.status_page.specs.Values.{busiest};

use crate::value::LastRecord;
use itoa::Buffer;
use sl_time::{Tick, put_moment};
use std::alloc::AllocError;

/// A number, in decimal.
pub fn put_number(text: &mut Vec<u8>, number: u64) -> Result<(), AllocError>
    ensures { OnOk result (text.new.items ≡ text.old.items ++ decimal number) }
{
    let mut buffer = Buffer::new();
    text.extend_from_slice(buffer.format(number).as_bytes())
}

/// A number and what follows it.
fn put_number_and(text: &mut Vec<u8>, number: u64, unit: &[u8]) -> Result<(), AllocError>
    ensures { OnOk result (text.new.items ≡ text.old.items ++ number_and number unit.now) }
{
    put_number(text, number)?;
    text.extend_from_slice(unit)
}

/// A length of time in seconds, minutes, hours or days, as suits it.
pub fn put_age(text: &mut Vec<u8>, seconds: u64) -> Result<(), AllocError>
    ensures { OnOk result (text.new.items ≡ text.old.items ++ age_text seconds) }
{
    if seconds < 120 {
        put_number_and(text, seconds, b" s")
    } else if seconds < 7_200 {
        put_number_and(text, seconds / 60, b" min")
    } else if seconds < 172_800 {
        put_number_and(text, seconds / 3_600, b" h")
    } else {
        put_number_and(text, seconds / 86_400, b" d")
    }
}

/// The decimal digit of a number for a power of ten, as a byte.
fn digit_at(number: u64, power: u64) -> u8
    requires { 0 < power }
    ensures { result ≡ digit_at number power }
{
    b'0' + (number / power % 10) as u8
}

/// The last six decimal digits of a number.
fn six_digits(number: u64) -> [u8; 6]
    ensures { result ≡ six_digits number }
{
    [
        digit_at(number, 100_000),
        digit_at(number, 10_000),
        digit_at(number, 1_000),
        digit_at(number, 100),
        digit_at(number, 10),
        digit_at(number, 1),
    ]
}

/// A length of time in microseconds, as seconds with six decimals.
pub fn put_micros(text: &mut Vec<u8>, micros: u64) -> Result<(), AllocError>
    ensures { OnOk result (text.new.items ≡ text.old.items ++ micros_text micros) }
{
    put_number_and(text, micros / 1_000_000, b".")?;
    text.extend_from_slice(&six_digits(micros))
}

/// A moment in whole seconds since 1970; 0 before that.
pub fn put_unix_seconds(text: &mut Vec<u8>, moment: Tick) -> Result<(), AllocError>
    ensures { OnOk result (text.new.items ≡ text.old.items ++ unix_seconds moment) }
{
    match u64::try_from(moment.value()) {
        Ok(ticks) => put_number(text, ticks / 10_000),
        Err(_) => put_number(text, 0),
    }
}

/// A moment, if it is known.
pub fn put_known(text: &mut Vec<u8>, moment: Option<Tick>) -> Result<(), AllocError>
    ensures { OnOk result (text.new.items ≡ text.old.items ++ known_text moment) }
{
    match moment {
        Some(moment) => put_moment(text, moment),
        None => Ok(()),
    }
}

/// Since when a server serves; `-` if the clock did not say so.
pub fn put_since(text: &mut Vec<u8>, began: Option<Tick>) -> Result<(), AllocError>
    ensures { OnOk result (text.new.items ≡ text.old.items ++ since_text began) }
{
    match began {
        Some(began) => put_moment(text, began),
        None => text.extend_from_slice(b"-"),
    }
}

/// From when to when a record goes.
fn put_span(text: &mut Vec<u8>, last: LastRecord) -> Result<(), AllocError>
    ensures { OnOk result (text.new.items ≡ text.old.items ++ span_text last) }
{
    put_moment(text, last.start)?;
    text.extend_from_slice(b" - ")?;
    put_moment(text, last.stop)
}

/// From when to when the last record goes, if there is one.
pub fn put_last(text: &mut Vec<u8>, last: Option<LastRecord>) -> Result<(), AllocError>
    ensures { OnOk result (text.new.items ≡ text.old.items ++ last_text last) }
{
    match last {
        Some(last) => put_span(text, last),
        None => text.extend_from_slice(b"-"),
    }
}

/// When the last record begins, if there is one.
pub fn put_start(text: &mut Vec<u8>, last: Option<LastRecord>) -> Result<(), AllocError>
    ensures { OnOk result (text.new.items ≡ text.old.items ++ start_text last) }
{
    match last {
        Some(last) => put_moment(text, last.start),
        None => text.extend_from_slice(b"-"),
    }
}

/// When the last record begins, if there is one, and nothing without one.
pub fn put_start_known(text: &mut Vec<u8>, last: Option<LastRecord>) -> Result<(), AllocError>
    ensures { OnOk result (text.new.items ≡ text.old.items ++ start_known last) }
{
    match last {
        Some(last) => put_moment(text, last.start),
        None => Ok(()),
    }
}

/// When the last record ends, if there is one.
pub fn put_stop(text: &mut Vec<u8>, last: Option<LastRecord>) -> Result<(), AllocError>
    ensures { OnOk result (text.new.items ≡ text.old.items ++ stop_text last) }
{
    match last {
        Some(last) => put_moment(text, last.stop),
        None => Ok(()),
    }
}

/// When the last record ends, in whole seconds since 1970, if there is one.
pub fn put_stop_seconds(text: &mut Vec<u8>, last: Option<LastRecord>) -> Result<(), AllocError>
    ensures { OnOk result (text.new.items ≡ text.old.items ++ stop_seconds last) }
{
    match last {
        Some(last) => put_unix_seconds(text, last.stop),
        None => Ok(()),
    }
}

/// An address, as `10.0.0.7`.
pub fn put_address(text: &mut Vec<u8>, address: &[u8; 4]) -> Result<(), AllocError>
    ensures { OnOk result (text.new.items ≡ text.old.items ++ address_text address.now) }
{
    put_number_and(text, u64::from(address[0]), b".")?;
    put_number_and(text, u64::from(address[1]), b".")?;
    put_number_and(text, u64::from(address[2]), b".")?;
    put_number(text, u64::from(address[3]))
}

/// One bar of a drawing, as a step of a path. The highest has 20 units for so many records.
fn put_bar(text: &mut Vec<u8>, count: u32, most: u32) -> Result<(), AllocError>
    requires { 0 < most }
    ensures { OnOk result (text.new.items ≡ text.old.items ++ bar_text most count) }
{
    let height = u64::from(count) * 20 / u64::from(most);
    text.extend_from_slice(b"V")?;
    put_number_and(text, 20u64.saturating_sub(height), b"h1")
}

/// How many records came in the minute in which most came, but at least 1.
#[tactic(auto, using(crate::proofs::MinuteLemmas::minute_lemmas))]
fn busiest(minutes: &[u32]) -> u32
    ensures value { result ≡ busiest minutes.now }
    ensures some { 0 < result }
{
    let mut most = 1u32;
    for minute in minutes {
        if most < *minute {
            most = *minute;
        }
    }
    most
}

/// The bars of minutes, the busiest of which has the highest.
pub fn put_bars(text: &mut Vec<u8>, minutes: &[u32]) -> Result<(), AllocError>
    ensures { OnOk result (text.new.items ≡ text.old.items ++ bars_text minutes.now) }
{
    let most = busiest(minutes);
    for minute in minutes {
        put_bar(text, *minute, most)?;
    }
    Ok(())
}
