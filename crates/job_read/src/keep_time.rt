//! When a state is kept. That is asked before each read that follows packets which are not kept yet.
//!
//! If a second has passed since the last one was kept, it is kept at once. Before that it is kept if nothing comes for
//! a second. So it is kept once a second however many packets come, and at the latest a second after the end of a
//! burst. That wait is the read of what comes next (`Inlet::is_silent`), so it costs no call of its own. While the rest
//! of a packet is to come the next read brings it. No thread is needed, no clock below `job_read`, and no read that
//! ends without bytes, which would have changed what readers of bytes promise.
ghost use Rattle.std.specs.Prelude.{◌≡◌};
ghost use Rattle.job_read.specs.KeepTimes.{keep_time};

/// How many milliseconds lie at least between two times that a state is kept, and how long nothing comes before it is.
pub const EVERY: u64 = 1_000;

/// When a state is kept.
#[derive(Clone, Copy, Drop)]
pub enum KeepTime {
    /// At once.
    Now,
    /// Not before the next read.
    AfterRead,
    /// Before the next read if nothing comes for a second, and else after it.
    AfterSilence,
}

/// When the next state is kept, so many milliseconds after the last one. `is_owed` says that the rest of a packet is to
/// come.
pub fn keep_time(passed: u64, is_owed: bool) -> KeepTime
    ensures { result ≡ keep_time passed is_owed }
{
    if passed >= EVERY {
        KeepTime::Now
    } else if is_owed {
        KeepTime::AfterRead
    } else {
        KeepTime::AfterSilence
    }
}
