//! Things of which records come by turns.
ghost use Rattle.std.specs.Prelude.{◌≡◌, ◌+◌, nat_lt, if◌then◌else◌};

/// The place after one of so many; the first after the last.
pub fn place_after(place: usize, count: usize) -> usize
    ensures { result ≡ if nat_lt (place + 1) count then place + 1 else 0 }
{
    match place.checked_add(1) {
        Some(next) if next < count => next,
        _ => 0,
    }
}
