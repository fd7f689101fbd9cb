//! The texts of moments.
ghost use Rattle.std.specs.Prelude.{◌≡◌, ◌≢◌, ◌<◌, ◌*◌, ◌++◌, IfSome, OnOk};
ghost use Rattle.protocol.specs.Time.{days_before as spec_days_before};
ghost use Rattle.sl_time.specs.Written.{civil_moment as spec_civil_moment, digit as spec_digit};
ghost use Rattle.sl_time.specs.Written.{iso_text as spec_iso_text, moment_on as spec_moment_on, moment_text};
ghost use Rattle.sl_time.specs.Written.{seconds_text, ticks_since_year_1 as spec_ticks_since_year_1};

use crate::iso::calendar::{date_of, days_before, year_of};
use crate::ticks::Tick;
use itoa::Buffer;
use std::alloc::AllocError;
use std::marker::Model;

/// How many bytes `2024-02-29T00:00:00.0000Z` has.
const LENGTH: usize = 25;

/// Ticks of 0.0001 s in a day.
const TICKS_OF_DAY: u64 = 864_000_000;

/// Ticks from the beginning of the year 1 to those of the years 1970 and 10000.
const TICKS_BEFORE_1970: i64 = 621_355_968_000_000;

const TICKS_BEFORE_10000: u64 = 3_155_378_976_000_000;

/// A date and a time of the day, with a fraction in units of 0.0001 s.
#[derive(Clone, Copy)]
struct CivilMoment {
    year: u32,
    month: u32,
    day: u32,
    hour: u32,
    minute: u32,
    second: u32,
    fraction: u32,
}

impl Model for CivilMoment {
    ghost use Rattle.sl_time.specs.Written.{CivilMoment as CivilMomentValue};

    ghost Value = { CivilMomentValue };

    ghost view = { λ m. record {
      year = m.year;
      month = m.month;
      day = m.day;
      hour = m.hour;
      minute = m.minute;
      second = m.second;
      fraction = m.fraction;
    } };

    ghost inverse = { λ m. record {
      year = m.year;
      month = m.month;
      day = m.day;
      hour = m.hour;
      minute = m.minute;
      second = m.second;
      fraction = m.fraction;
    } };
}

/// How many ticks after the beginning of the year 1 a tick is; None outside the years 1 to 9999.
fn ticks_since_year_1(moment: Tick) -> Option<u64>
    ensures value { result ≡ spec_ticks_since_year_1 moment }
    ensures bound { IfSome result (λ n. n < 864000000 * 3652059) }
{
    let ticks = moment.value().checked_add(TICKS_BEFORE_1970)?;
    let ticks = u64::try_from(ticks).ok()?;
    if ticks < TICKS_BEFORE_10000 {
        Some(ticks)
    } else {
        None
    }
}

/// The moment so many ticks after the beginning of the day that comes so many days after January 1 of the year 1.
fn moment_on(days: u32, ticks: u32) -> CivilMoment
    requires { days < 3652059 }
    ensures { result ≡ spec_moment_on days ticks }
{
    let year = year_of(days);
    let date = date_of(year, days - days_before(year) + 1);
    CivilMoment {
        year,
        month: date.month,
        day: date.day,
        hour: ticks / 36_000_000,
        minute: ticks / 600_000 % 60,
        second: ticks / 10_000 % 60,
        fraction: ticks % 10_000,
    }
}

/// The date and the time of the day of a tick; None outside the years 1 to 9999.
fn civil_moment(moment: Tick) -> Option<CivilMoment>
    ensures { result ≡ spec_civil_moment moment }
{
    let ticks = ticks_since_year_1(moment)?;
    Some(moment_on((ticks / TICKS_OF_DAY) as u32, (ticks % TICKS_OF_DAY) as u32))
}

/// The decimal digit of a number that stands for so many.
fn digit(unit: u32, number: u32) -> u8
    requires { unit ≢ 0 }
    ensures { result ≡ spec_digit unit number }
{
    b'0' + (number / unit % 10) as u8
}

/// A date and a time of the day, as `2024-02-29T00:00:00.0000Z`.
fn iso_text(moment: &CivilMoment) -> [u8; LENGTH]
    ensures { result ≡ spec_iso_text moment.now }
{
    [
        digit(1000, moment.year),
        digit(100, moment.year),
        digit(10, moment.year),
        digit(1, moment.year),
        b'-',
        digit(10, moment.month),
        digit(1, moment.month),
        b'-',
        digit(10, moment.day),
        digit(1, moment.day),
        b'T',
        digit(10, moment.hour),
        digit(1, moment.hour),
        b':',
        digit(10, moment.minute),
        digit(1, moment.minute),
        b':',
        digit(10, moment.second),
        digit(1, moment.second),
        b'.',
        digit(1000, moment.fraction),
        digit(100, moment.fraction),
        digit(10, moment.fraction),
        digit(1, moment.fraction),
        b'Z',
    ]
}

/// Adds the text of a moment: its date and time of the day in UTC, as `2024-02-29T00:00:00.0000Z` (ISO 8601), or its
/// ticks in decimal outside the years 1 to 9999.
#[tactic(auto, unfolding(crate::specs::Written::moment_text))]
pub fn put_moment(text: &mut Vec<u8>, moment: Tick) -> Result<(), AllocError>
    ensures { OnOk result (text.new.items ≡ text.old.items ++ moment_text moment) }
{
    match civil_moment(moment) {
        Some(civil) => text.extend_from_slice(&iso_text(&civil)),
        None => {
            let mut buffer = Buffer::new();
            text.extend_from_slice(buffer.format(moment.value()).as_bytes())
        }
    }
}

/// Adds a length of time, so many ticks of 0.0001 s, in seconds with four decimals: `12.0500`.
pub fn put_seconds(text: &mut Vec<u8>, ticks: u128) -> Result<(), AllocError>
    ensures { OnOk result (text.new.items ≡ text.old.items ++ seconds_text ticks) }
{
    let mut buffer = Buffer::new();
    text.extend_from_slice(buffer.format(ticks / 10_000).as_bytes())?;
    let fraction = (ticks % 10_000) as u32;
    text.extend_from_slice(&[
        b'.',
        digit(1000, fraction),
        digit(100, fraction),
        digit(10, fraction),
        digit(1, fraction),
    ])?;
    Ok(())
}
