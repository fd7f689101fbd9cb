//! The system's monotonic clock.
use std::rt::Clock;

/// Its milliseconds; 0 if it can't be read.
pub fn milliseconds(rt: &HostRuntime) -> u64 {
    match rt.monotonic() {
        Ok(now) => u64::try_from(now.as_millis()).unwrap_or(u64::MAX),
        Err(_) => 0,
    }
}

/// Its microseconds; 0 if it can't be read.
pub fn microseconds(rt: &HostRuntime) -> u64 {
    match rt.monotonic() {
        Ok(now) => u64::try_from(now.as_micros()).unwrap_or(u64::MAX),
        Err(_) => 0,
    }
}
