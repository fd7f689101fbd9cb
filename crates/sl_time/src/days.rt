//! The day in which a moment lies.
ghost use Rattle.std.specs.Prelude.{◌≡◌, ◌⊎◌, ◌<◌, ◌≤◌, ◌<ℤ◌, ◌≤ℤ◌, IfSome, None};
ghost use Rattle.sl_time.specs.Days.{day_start, IsDayAt, IsWithinDay};

use crate::calendar::days_before;
use crate::ticks::Tick;

/// Ticks of 0.0001 s in a day.
const TICKS_OF_DAY: i64 = 864_000_000;

/// Days from January 1 of the year 1 to 1970-01-01, and to January 1 of the year 10000.
const DAYS_BEFORE_1970: i64 = 719_162;

const DAYS_BEFORE_10000: u64 = 3_652_059;

/// A day by its year, and its place in the year, from 1 to 366.
#[derive(Clone, Copy)]
pub struct DayOfYear {
    pub year: u16,
    pub day: u16,
}

/// The day that begins so many days after January 1 of the year 1.
fn day_at(days: u32) -> DayOfYear
    requires { days < 3652059 }
    ensures { IsDayAt result.year result.day days }
{
    let mut year = (days / 366) as u16 + 1;
    'years: while year < 9999 && days_before(year + 1) <= days {
        year += 1;
    }
    DayOfYear {
        year,
        day: (days - days_before(year)) as u16 + 1,
    }
}

/// The day in which a moment lies, of the years 1 to 9999; None before and after those.
pub fn day_of(moment: Tick) -> Option<DayOfYear>
    ensures day { IfSome result (λ d. IsWithinDay d.year d.day moment) }
    ensures outside { result ≡ None → (moment <ℤ day_start 1 1) ⊎ (day_start 10000 1 ≤ℤ moment) }
{
    let ticks = moment.value().checked_add(TICKS_OF_DAY * DAYS_BEFORE_1970)?;
    let ticks = u64::try_from(ticks).ok()?;
    let days = ticks / TICKS_OF_DAY as u64;
    if days < DAYS_BEFORE_10000 {
        Some(day_at(days as u32))
    } else {
        None
    }
}
