//! How times are written, by the words of a command line.
ghost use Rattle.std.specs.Prelude.{◌≡◌};
ghost use Rattle.job_base.specs.Times.{times_by};

use record_check::Times;

/// How times are written, by whether `--iso` was given.
pub fn times_of(is_iso: bool) -> Times
    ensures { result ≡ times_by is_iso }
{
    if is_iso { Times::Iso } else { Times::Ticks }
}
