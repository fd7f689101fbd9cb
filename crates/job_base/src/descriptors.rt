//! How many descriptors the system lets the program have.
use libc::types::rlimit;

/// How many descriptors the program may have at once, if the system tells.
pub fn descriptor_limit() -> Option<u64> {
    let mut limit = rlimit {
        rlim_cur: 0,
        rlim_max: 0,
    };
    if libc::getrlimit(libc::RLIMIT_NOFILE, &mut limit) == 0 {
        Some(limit.rlim_cur)
    } else {
        None
    }
}
