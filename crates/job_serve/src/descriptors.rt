//! Whether a server may have as many descriptors as it may need.
ghost use Rattle.std.specs.Prelude.{◌≡◌, IfSome, IfNone, ◌<◌, ◌≤◌, ◌^◌, ◌+◌};

use job_base::descriptor_limit;

/// What a server has beside its clients: sixteen feeds; two ports, the poll, three standard descriptors, one that is
/// held back for files and the lock of the file of numbers; and connections that have ended and linger, of which there
/// may be more, but seldom are.
const OTHERS: u64 = 16 + 8 + 24;

/// How many descriptors a server with so many clients may need, if that is above the limit.
fn missing(limit: u64, most: usize) -> Option<u64>
    requires { most ≤ 10000 }
    ensures some { IfSome result (λ needed. (needed ≡ most + 48) × (limit < needed)) }
    ensures none { IfNone result (most + 48 ≤ limit) }
{
    let needed = most as u64 + OTHERS;
    if limit < needed { Some(needed) } else { None }
}

/// Says on the standard error if the system's limit of descriptors is below what a server with so many clients may
/// need.
pub fn tell_missing(rt: &HostRuntime, most: usize)
    requires { most ≤ 10000 }
{
    let Some(limit) = descriptor_limit() else {
        return;
    };
    if let Some(needed) = missing(limit, most) {
        let _ = eprintln!(rt;
            "seedlinkd: the limit of {limit} descriptors is below the {needed} that may be needed: see ulimit -n"
        );
    }
}
