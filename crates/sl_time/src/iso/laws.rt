//! Laws of what is written of moments.
ghost use Rattle.std.specs.Prelude.{◌≡◌, ◌≤◌, Some, take};
ghost use Rattle.protocol.specs.Time.{time_of};
ghost use Rattle.sl_time.specs.Moments.{IsMoment, moment_tick, whole_day, whole_minute, whole_second};
ghost use Rattle.sl_time.specs.Spelled.{command_text};
ghost use Rattle.sl_time.specs.Written.{CivilMoment, iso_text, moment_text};

/// A law: each date and time of the day in the years 1 to 9999 is written as it stands. What is written is read back,
/// in the years that commands have, as the beginning of its second; also to the second alone, or to the minute or the
/// day, as the beginning of that.
pub fn moments_spelled()
    ensures written { (m : CivilMoment) → IsMoment m → moment_text (moment_tick m) ≡ iso_text m }
    ensures all_read_back { (m : CivilMoment) → IsMoment m → 1900 ≤ m.year → m.year ≤ 2100
        → time_of (command_text (iso_text m)) ≡ Some (moment_tick (whole_second m)) }
    ensures read_back { (m : CivilMoment) → IsMoment m → 1900 ≤ m.year → m.year ≤ 2100
        → time_of (command_text (take 19 (iso_text m))) ≡ Some (moment_tick (whole_second m)) }
    ensures minute_read_back { (m : CivilMoment) → IsMoment m → 1900 ≤ m.year → m.year ≤ 2100
        → time_of (command_text (take 16 (iso_text m))) ≡ Some (moment_tick (whole_minute m)) }
    ensures day_read_back { (m : CivilMoment) → IsMoment m → 1900 ≤ m.year → m.year ≤ 2100
        → time_of (command_text (take 10 (iso_text m))) ≡ Some (moment_tick (whole_day m)) }
{}
