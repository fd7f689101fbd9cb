//! Ticks, and the tick of a record's start.
ghost use Rattle.std.specs.Prelude.{◌≡◌, ◌+◌, ◌*◌, pos, ◌-ℤ◌};
ghost use Rattle.protocol.specs.Time.{btime_tick, days_before, is_day, is_time_of_day};

use crate::calendar;
use std::marker::Model;

/// Ticks of 0.0001 s in a second, a minute, an hour and a day.
const TICKS_OF_SECOND: i64 = 10_000;

const TICKS_OF_MINUTE: i64 = 600_000;

const TICKS_OF_HOUR: i64 = 36_000_000;

const TICKS_OF_DAY: i64 = 864_000_000;

/// Days from January 1 of the year 1 to 1970-01-01.
const DAYS_BEFORE_1970: i64 = 719_162;

/// A moment: the count of ticks of 0.0001 s from 1970-01-01T00:00:00 to it, negative before that.
#[derive(Clone, Copy, PartialEq, Eq, PartialOrd, Ord)]
pub struct Tick {
    ticks: i64,
}

impl Model for Tick {
    ghost use Rattle.std.specs.Prelude.{ℤ};

    ghost Value = { ℤ };

    ghost view = { λ t. t.ticks };

    ghost inverse = { λ z. record { ticks = z } };
}

impl Tick {
    /// The moment that many ticks after 1970-01-01T00:00:00.
    pub fn new(value: i64) -> Tick
        ensures { result ≡ value }
    {
        Tick { ticks: value }
    }

    /// Its count of ticks.
    pub fn value(self) -> i64
        ensures { result ≡ self }
    {
        self.ticks
    }
}

/// The moment of a record's start (SEED Reference Manual 2.4, chapter 8, the data type BTIME), the fraction in ticks.
///
/// None exactly where the year is outside 1900 to 2100, the day of the year outside 1 to 366, the hour over 23, the
/// minute over 59, the second over 60 or the fraction over 9999. A day 366 of a year that has 365 is the next year's
/// first.
pub fn of_btime(
    year: u16,
    day: u16,
    hour: u8,
    minute: u8,
    second: u8,
    fraction: u16,
) -> Option<Tick>
    ensures { result ≡ btime_tick year day hour minute second fraction }
{
    if !is_day(year, day) || !is_time_of_day(hour, minute, second, fraction) {
        return None;
    }
    let days = calendar::days_before(year) + (u32::from(day) - 1);
    Some(tick_on(days, hour, minute, second, fraction))
}

/// Whether the year and the day are those of a record's start.
fn is_day(year: u16, day: u16) -> bool
    ensures { result ≡ is_day year day }
{
    1900 <= year && year <= 2100 && 1 <= day && day <= 366
}

/// Whether these are a time of a day, of which a second may be the 60th.
pub(crate) fn is_time_of_day(hour: u8, minute: u8, second: u8, fraction: u16) -> bool
    ensures { result ≡ is_time_of_day hour minute second fraction }
{
    hour <= 23 && minute <= 59 && second <= 60 && fraction <= 9999
}

/// The tick of a time of a day, by the day's count from January 1 of the year 1.
pub(crate) fn tick_on(days: u32, hour: u8, minute: u8, second: u8, fraction: u16) -> Tick
    ensures { result ≡ pos (864000000 * days + 36000000 * hour + 600000 * minute + 10000 * second + fraction) -ℤ pos
        (864000000 * days_before 1970) }
{
    let hours = TICKS_OF_HOUR * i64::from(hour);
    let minutes = TICKS_OF_MINUTE * i64::from(minute);
    let seconds = TICKS_OF_SECOND * i64::from(second);
    let ticks = TICKS_OF_DAY * i64::from(days) + hours + minutes + seconds + i64::from(fraction);
    Tick::new(ticks - TICKS_OF_DAY * DAYS_BEFORE_1970)
}
