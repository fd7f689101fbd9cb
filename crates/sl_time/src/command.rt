//! The times of commands.
ghost use Rattle.std.specs.Prelude.{◌≡◌};
ghost use Rattle.protocol.specs.Time.{civil_of, civil_tick, time_of};
ghost use Rattle.std.specs.Result.{result_ok};
ghost use Rattle.sl_time.specs.Parsed.{time_reason, parsed};

use crate::calendar;
use crate::parts::Parts;
use crate::ticks::{self, Tick};
use protocol::reason::Reason;
use std::marker::Model;

/// Why a text is no time.
#[derive(Clone, Copy, Drop)]
pub enum TimeFault {
    /// The text has not the shape of a time.
    Shape,
    /// The text has the shape of a time, and a number in it is out of range or the calendar has no such date.
    Range,
}

impl TimeFault {
    /// The reason by which the program reports it: 60 or 61.
    pub fn reason(self) -> Reason
        ensures { result ≡ time_reason self }
    {
        match self {
            TimeFault::Shape => Reason::Shape,
            TimeFault::Range => Reason::Range,
        }
    }
}

/// The numbers of a civil date and a time of that day, in range or not.
#[derive(Clone, Copy)]
struct CivilTime {
    year: u16,
    month: u8,
    day: u8,
    hour: u8,
    minute: u8,
    second: u8,
}

impl Model for CivilTime {
    ghost use Rattle.protocol.specs.Time.{CivilTime as ProtocolTime, civil};

    ghost Value = { ProtocolTime };

    ghost view = { λ t. civil t.year t.month t.day t.hour t.minute t.second };

    ghost inverse = { λ t. record {
      year = t.year;
      month = t.month;
      day = t.day;
      hour = t.hour;
      minute = t.minute;
      second = t.second;
    } };
}

impl CivilTime {
    /// Its moment; None where the year is outside 1900 to 2100, the calendar has no such date, or the time is none of a
    /// day.
    fn tick(self) -> Option<Tick>
        ensures { result ≡ civil_tick self }
    {
        if self.year < 1900 || self.year > 2100 {
            return None;
        }
        if !ticks::is_time_of_day(self.hour, self.minute, self.second, 0) {
            return None;
        }
        let days = calendar::days_to_date(self.year, self.month, self.day)?;
        Some(ticks::tick_on(days, self.hour, self.minute, self.second, 0))
    }
}

/// The civil time that a text has the shape of; None where it has no such shape.
fn civil_of(text: &[u8]) -> Option<CivilTime>
    ensures { result ≡ civil_of text.now }
{
    let mut parts = Parts::new(text);
    let year = parts.year()?;
    let month = parts.number()?;
    let day = parts.number()?;
    let hour = parts.number_or_zero()?;
    let minute = parts.number_or_zero()?;
    let second = parts.number_or_zero()?;
    if !parts.is_over() {
        return None;
    }
    Some(CivilTime {
        year,
        month,
        day,
        hour,
        minute,
        second,
    })
}

/// The moment that a command's text spells (SeedLink 3, the times of DATA, FETCH and TIME): `year,month,day`,
/// optionally followed by `,hour`, then `,minute`, then `,second`. The year has four digits, each other number one or
/// two, and what is missing is 0.
///
/// It fails with Shape where the text has not that shape, and else with Range where the year is outside 1900 to 2100,
/// the calendar has no such date, the hour is over 23, the minute over 59 or the second over 60.
pub fn parse(text: &[u8]) -> Result<Tick, TimeFault>
    ensures whole { result ≡ parsed text.now }
    ensures time { result_ok result ≡ time_of text.now }
{
    let civil = civil_of(text).ok_or(TimeFault::Shape)?;
    civil.tick().ok_or(TimeFault::Range)
}
