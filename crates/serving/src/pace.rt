//! What is done every so many seconds.
ghost use Rattle.std.specs.Prelude.{◌≡◌};
ghost use Rattle.serving.specs.Paces.{after, comes, new_pace};

use text_parts::period::Period;

/// What is done every so many seconds, if it is, and when it was done last, in milliseconds of some clock.
#[derive(Clone, Copy, Drop)]
pub struct Pace {
    period: Option<Period>,
    last: u64,
}

impl Pace {
    /// From the time 0 on.
    pub fn new(period: Option<Period>) -> Pace
        ensures { result ≡ new_pace period }
    {
        Pace { period, last: 0 }
    }

    /// Whether it comes at a time: so many seconds have passed since it came last. It does not come if there is no
    /// time, as when a clock fails, or if it goes by turns.
    pub fn comes(&mut self, now: Option<u64>) -> bool
        ensures comes { result ≡ comes self.old now }
        ensures after { self.new ≡ after self.old now }
    {
        let (Some(period), Some(now)) = (self.period, now) else {
            return false;
        };
        let is_due = period.has_passed(now.saturating_sub(self.last));
        if is_due {
            self.last = now;
        }
        is_due
    }
}
