//! How often something is done.
ghost use Rattle.std.specs.Prelude.{◌≡◌};
ghost use Rattle.text_parts.specs.Periods.{has_passed, is_by_time, is_due_after};

/// How often something is done.
#[derive(Clone, Copy, Drop)]
pub enum Period {
    /// Every so many turns.
    Turns(usize),
    /// Every so many seconds.
    Seconds(usize),
}

impl Period {
    /// Whether it goes by time, so that a clock has to be looked at.
    pub fn is_by_time(self) -> bool
        ensures { result ≡ is_by_time self }
    {
        match self {
            Period::Turns(_) => false,
            Period::Seconds(_) => true,
        }
    }

    /// Whether it is due after so many turns: these are a multiple of its own. If it has none or goes by time, it never
    /// is.
    pub fn is_due_after(self, done: u64) -> bool
        ensures { result ≡ is_due_after self done }
    {
        match self {
            Period::Turns(0) | Period::Seconds(_) => false,
            Period::Turns(turns) => done % (turns as u64) == 0,
        }
    }

    /// Whether it has passed, by the milliseconds that have. One that goes by turns never has.
    pub fn has_passed(self, milliseconds: u64) -> bool
        ensures { result ≡ has_passed self milliseconds }
    {
        match self {
            Period::Turns(_) => false,
            Period::Seconds(seconds) => milliseconds / 1_000 >= seconds as u64,
        }
    }
}
