//! The days of the calendar, by `jiff_core`.
//!
//! Civil dates and their day numbers are those of `jiff_core`, which is the calendar under `jiff`; the definitions have
//! a calendar of their own only to say what is meant, and the two are proved equal. `jiff` adds time zones, durations
//! and formatting, which the program doesn't use and which each crate above would have to load.
ghost use Rattle.std.specs.Prelude.{◌≡◌, ◌+◌, ◌-◌, ◌≤◌, if◌then◌else◌, pos, ◌≤ℤ◌, unsigned_abs, IfSome, is_some};
ghost use Rattle.sl_time.specs.Dates.{is_date};
ghost use Rattle.jiff_core.specs.Date.{IsYmd};
ghost use Rattle.protocol.specs.Time.{days_before, days_of_year_before};

use jiff_core::civil::Date;

/// Days from -9999-01-01, the first date that `jiff_core` has, to January 1 of the year 1.
const DAYS_TO_YEAR_1: u32 = 3_652_425;

/// Days from January 1 of the year 1 to a date not before it.
fn days_to(date: Date) -> u32
    requires { pos 1 ≤ℤ date.year }
    ensures { result ≡ days_before
        (unsigned_abs date.year) + (days_of_year_before (unsigned_abs date.year) date.month + date.day - 1) }
{
    date.days_since_min() - DAYS_TO_YEAR_1
}

/// Days from January 1 of the year 1 to January 1 of the year.
pub fn days_before(year: u16) -> u32
    requires from { 1 ≤ year }
    requires to { year ≤ 9999 }
    ensures { result ≡ days_before year }
{
    days_to(Date {
        year: year as i16,
        month: 1,
        day: 1,
    })
}

/// The date of that year, month and day; None where the calendar has no such date.
fn date_of(year: u16, month: u8, day: u8) -> Option<Date>
    requires { year ≤ 9999 }
    ensures exists { is_some result ≡ is_date year month day }
    ensures parts { IfSome result (IsYmd (pos year) (pos month) (pos day)) }
{
    let month = i8::try_from(month).ok()?;
    let day = i8::try_from(day).ok()?;
    Date::new(year as i16, month, day).ok()
}

/// Days from January 1 of the year 1 to the date of that year, month and day; None where the calendar has no such date.
pub fn days_to_date(year: u16, month: u8, day: u8) -> Option<u32>
    requires from { 1 ≤ year }
    requires to { year ≤ 9999 }
    ensures { result ≡ (if is_date year month day
        then Some (days_before year + (days_of_year_before year month + day - 1)) else None) }
{
    let date = date_of(year, month, day)?;
    Some(days_to(date))
}
