//! Moments in units of 0.0001 s from the beginning of 1900 on.

use crate::words::parted;

const DAY: u64 = 86_400;

fn is_leap(year: u64) -> bool {
    year % 4 == 0 && (year % 100 != 0 || year % 400 == 0)
}

fn days_of_month(year: u64, month: u64) -> u64 {
    match month {
        2 if is_leap(year) => 29,
        2 => 28,
        4 | 6 | 9 | 11 => 30,
        1..=12 => 31,
        _ => 0,
    }
}

/// The days before the first day of a year.
fn days_before(year: u64) -> u64 {
    let mut days: u64 = 0;
    for earlier in 1900..year {
        days = days.saturating_add(if is_leap(earlier) { 366 } else { 365 });
    }
    days
}

/// The moment of a day of the year, counted from 1.
pub fn of_day(year: u64, day: u64, seconds: u64, fraction: u64) -> u64 {
    let days = days_before(year).saturating_add(day.saturating_sub(1));
    let all = days.saturating_mul(DAY).saturating_add(seconds);
    all.saturating_mul(10_000).saturating_add(fraction)
}

/// The day of the year of a day of a month.
fn day_of_year(year: u64, month: u64, day: u64) -> u64 {
    let mut days = day;
    for earlier in 1..month {
        days = days.saturating_add(days_of_month(year, earlier));
    }
    days
}

fn number(text: &[u8]) -> Option<u64> {
    let mut value: u64 = 0;
    for byte in text {
        if !matches!(*byte, b'0'..=b'9') {
            return None;
        }
        let digit = u64::from(byte.saturating_sub(b'0'));
        value = value.saturating_mul(10).saturating_add(digit);
    }
    if text.is_empty() { None } else { Some(value) }
}

/// The numbers between commas, and how many there are; none where one is no number, or there are more than six.
fn numbers_of(text: &[u8]) -> Option<([u64; 6], usize)> {
    let mut numbers = [0; 6];
    let mut left = text;
    for place in 0..6 {
        let (part, rest) = parted(left, b',');
        numbers[place] = number(part)?;
        match rest {
            Some(rest) => left = rest,
            None => return Some((numbers, place.saturating_add(1))),
        }
    }
    None
}

/// Whether the calendar has a day.
fn is_day(year: u64, month: u64, day: u64) -> bool {
    day >= 1 && day <= days_of_month(year, month) && year >= 1900 && year <= 2100
}

/// The moment of `year,month,day` and up to three of hour, minute and second, where the calendar has it.
pub fn of_text(text: &[u8]) -> Option<u64> {
    let ([year, month, day, hour, minute, second], count) = numbers_of(text)?;
    if count < 3 || !is_day(year, month, day) || hour > 23 || minute > 59 || second > 59 {
        return None;
    }
    let seconds = hour * 3600 + minute * 60 + second;
    Some(of_day(year, day_of_year(year, month, day), seconds, 0))
}
