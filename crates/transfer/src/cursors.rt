//! How far the requests of a transfer have come.
//!
//! A TIME request with an end keeps the last place that it passed whose record starts after that end. Once it has
//! passed all, its window is over if that record is still held.
ghost use Rattle.std.specs.Prelude.{◌≡◌, ◌<◌, Some, is_some, length, slice_get};
ghost use Rattle.transfer.specs.Cursors.{cursors_of};

use session_state::{Entry, Session};

/// The cursor of the i-th request of a session in a transfer: the place in its station's ring before which it wants
/// nothing more. A named station that is asked for nothing is no request.
///
/// `start` puts it to the place at which the request begins. After `choose` no record of the station that is held
/// before it is wanted any more, and where that answered Nothing it is the ring's count of pushes.
pub fn cursor(session: &Session, i: usize) -> u64
    requires { i < length (cursors_of session.now.mode) }
    ensures { Some result ≡ slice_get (cursors_of session.now.mode) i }
{
    let mut left = i;
    for entry in session.choices() {
        if is_request(entry) {
            if left == 0 {
                return entry.cursor.ring_place;
            }
            left -= 1;
        }
    }
    0
}

/// Whether something is asked of a named station.
fn is_request(entry: &Entry) -> bool
    ensures { result ≡ is_some entry.now.action }
{
    entry.action.is_some()
}
