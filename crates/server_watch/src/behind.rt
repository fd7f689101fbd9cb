//! How far behind a client is.
ghost use Rattle.std.specs.Prelude.{◌≡◌, ◌-◌};
ghost use Rattle.server_watch.specs.Watching.{behind_from, lag};

use session_state::Entry;
use station_ring::Rings;

/// How many records of its station a request has not looked at.
fn lag(rings: &Rings, request: &Entry) -> u64
    ensures { result ≡ lag rings.now request.now }
{
    match rings.ring(request.station) {
        Some(ring) => ring.pushes().saturating_sub(request.cursor.ring_place),
        None => 0,
    }
}

/// How many records of the stations that were named came and were not looked at by the requests of a transfer: those
/// that it still has to look at, wanted or not. It stays at 2^64 - 1.
#[tactic(auto, using(crate::proofs::BehindLemmas::behind_lemmas))]
pub fn behind_of(rings: &Rings, requests: &[Entry]) -> u64
    ensures { result ≡ behind_from 0 rings.now requests.now }
{
    let mut sum = 0u64;
    for request in requests {
        sum = sum.saturating_add(lag(rings, request));
    }
    sum
}
