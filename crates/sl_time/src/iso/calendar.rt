//! The date of a day, by the calendar of the definitions.
ghost use Rattle.std.specs.Prelude.{◌≡◌, ◌<◌, ◌≤◌};
ghost use Rattle.protocol.specs.Time.{days_before as spec_days_before, days_in as spec_days_in};
ghost use Rattle.protocol.specs.Time.{is_leap as spec_is_leap};
ghost use Rattle.sl_time.specs.Written.{date_of as spec_date_of, year_of as spec_year_of};

use std::marker::Model;

/// A month of a year, and a day of that month, from 1 on.
#[derive(Clone, Copy)]
pub struct MonthDay {
    pub month: u32,
    pub day: u32,
}

impl Model for MonthDay {
    ghost use Rattle.sl_time.specs.Written.{MonthDay as MonthDayValue, month_day};

    ghost Value = { MonthDayValue };

    ghost view = { λ d. month_day d.month d.day };

    ghost inverse = { λ d. record { month = d.month; day = d.day } };
}

/// Days from January 1 of the year 1 to January 1 of the year.
pub fn days_before(year: u32) -> u32
    requires from { 1 ≤ year }
    requires to { year < 20000 }
    ensures { result ≡ spec_days_before year }
{
    let years = year - 1;
    365 * years + years / 4 - years / 100 + years / 400
}

/// The year in which the day lies that comes so many days after January 1 of the year 1.
pub fn year_of(days: u32) -> u32
    requires { days < 3652059 }
    ensures value { result ≡ spec_year_of days }
    ensures from { 1 ≤ result }
    ensures to { result < 20000 }
    ensures begun { spec_days_before result ≤ days }
{
    let mut year = days / 365 + 1;
    'years: while year > 1 && days_before(year) > days {
        year -= 1;
    }
    year
}

/// A year with a February 29.
fn is_leap(year: u32) -> bool
    ensures { result ≡ spec_is_leap year }
{
    year % 4 == 0 && (year % 100 != 0 || year % 400 == 0)
}

/// The days of a month, from 1 to 12.
fn days_in(year: u32, month: u32) -> u32
    ensures { result ≡ spec_days_in year month }
{
    match month {
        2 if is_leap(year) => 29,
        2 => 28,
        4 | 6 | 9 | 11 => 30,
        _ => 31,
    }
}

/// The month and the day of a day of the year, counted from 1.
pub fn date_of(year: u32, day: u32) -> MonthDay
    ensures { result ≡ spec_date_of year day }
{
    let mut month = 1;
    let mut left = day;
    'months: while month < 12 {
        let days = days_in(year, month);
        if left <= days {
            break;
        }
        left -= days;
        month += 1;
    }
    MonthDay { month, day: left }
}
